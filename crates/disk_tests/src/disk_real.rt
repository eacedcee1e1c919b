//! Files of the operating system.

ghost use Rattle.std.specs.Prelude.{◌≡◌, [], ◌∷◌};
ghost use Rattle.disk_model.specs.Disk.{opened};

use crate::directories::{directory, holds, is_locked, remove};
use crate::runs::WORDS;
use crate::texts::{split_lines, whole};
use disk_files::{OpenedFile, RealFolder};
use disk_model::JournalFile;
use std::path::Path;
use std::test::Fail;

/// Puts to a journal that was opened the words that it lacks of the first so many. Returns how many lines it had, or
/// `None` where the file failed.
fn put_lacking(found: OpenedFile, count: usize) -> Option<usize>
    requires { found.file.noted.calls ≡ opened found.content.items ∷ [] }
{
    let OpenedFile { file, content } = found;
    let Ok((mut file, lines)) = JournalFile::open(file, &content) else {
        return None;
    };
    let (_, rest) = split_lines(WORDS, lines);
    let (lacking, _) = split_lines(rest, count.saturating_sub(lines));
    match file.put(whole(lacking)) {
        Ok(()) => Some(lines),
        Err(_) => None,
    }
}

/// The same with the journal of a directory.
fn put_words(rt: &HostRuntime, folder: &RealFolder, count: usize) -> Option<usize> {
    match folder.open_file(rt, "journal") {
        Ok(found) => put_lacking(found, count),
        Err(_) => None,
    }
}

/// Returns whether the journal of a directory has all words.
fn has_words(rt: &HostRuntime, path: Path<'_>) -> Result<bool, Fail> {
    let journal = path.join(rt.alloc(), "journal")?;
    Ok(holds(rt, journal.as_path(), WORDS))
}

#[test]
fn a_real_file_is_opened_again(rt: HostRuntime) -> Result<(), Fail> {
    let path = directory(&rt, "disk")?;
    let folder = RealFolder::open(&rt, path.as_path().as_str())?;
    assert_eq!(rt; put_words(&rt, &folder, 5), Some(0));
    assert_eq!(rt; put_words(&rt, &folder, 12), Some(5));
    assert!(rt; has_words(&rt, path.as_path())?);
    assert!(rt; is_locked(&rt, path.as_path()));
    remove(&rt, path.as_path())
}
