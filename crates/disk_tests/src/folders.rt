//! What a server goes on with, out of what its folder has.

ghost use Rattle.std.specs.Prelude.{◌≡◌, map, refl};

use binding_rules::Role;
use std::alloc::{AllocError, Global};
use std::process::Abort;
use std::test::Fail;
use volume_store::{
    Files, FolderRecoveryError, ReadFailed, RecoveredFolder, ResumeStep, recover_folder,
};

/// The primary's first volume, to its end line.
const FIRST: &[u8] = b"pd-journal 1 A
1 1000 open 500 3600 3600
2 1000 pool 2001:0db8:0000:0000:0000:0000:0000:0000/48 56
3 2000 close
end 3
";

/// The same volume, before its end line was written.
const CLOSED: &[u8] = b"pd-journal 1 A
1 1000 open 500 3600 3600
2 1000 pool 2001:0db8:0000:0000:0000:0000:0000:0000/48 56
3 2000 close
";

/// The same volume, cut within its pool line.
const CUT: &[u8] = b"pd-journal 1 A
1 1000 open 500 3600 3600
2 1000 pool 2001:0db8";

/// The head lines of the next volume.
const NEXT_HEAD: &[u8] = b"pd-journal 2 A 2
1 3000 open 500 3600 3600
2 3000 pool 2001:0db8:0000:0000:0000:0000:0000:0000/48 56
3 3000 base 0 0 0 0 0
";

/// The next volume with a line behind its head lines.
const NEXT: &[u8] = b"pd-journal 2 A 2
1 3000 open 500 3600 3600
2 3000 pool 2001:0db8:0000:0000:0000:0000:0000:0000/48 56
3 3000 base 0 0 0 0 0
4 4000 restart 1
";

/// The first volume of the secondary.
const OF_THE_OTHER: &[u8] = b"pd-journal 1 B
1 1000 open 500 3600 3600
2 1000 pool 2001:0db8:0000:0000:0000:0000:0000:0000/48 56
3 2000 close
end 3
";

/// Folders, and what the primary goes on with.
const FOLDERS: [(&[&[u8]], &str); 14] = [
    (&[], "begin the first volume"),
    (&[b""], "begin the first volume"),
    (&[CUT], "begin the first volume"),
    (&[CLOSED], "end volume 1 of 3 lines"),
    (&[FIRST], "begin the volume behind 1 of 3 lines"),
    (&[FIRST, b"\0\0"], "begin the volume behind 1 of 3 lines"),
    (&[FIRST, NEXT_HEAD], "begin the volume behind 1 of 3 lines"),
    (&[FIRST, NEXT], "go on with volume 2 of 4 lines"),
    // A file stands behind a volume that hasn't ended, or has no line.
    (
        &[CLOSED, NEXT_HEAD],
        "a file stands behind volume 1, which hasn't ended",
    ),
    (
        &[CUT, b""],
        "a file stands behind volume 1, which hasn't ended",
    ),
    // The second volume is missing, or another volume stands in its place.
    (&[FIRST, b"", NEXT], "volume 3: the file has another volume"),
    (&[FIRST, FIRST], "volume 2: the file has another volume"),
    (&[OF_THE_OTHER], "volume 1: the file has another volume"),
    (
        &[OF_THE_OTHER, b""],
        "volume 1: the file has another volume",
    ),
];

/// Files in memory.
#[derive(Drop)]
pub(crate) struct HeldFiles<'a> {
    pub(crate) files: &'a [&'a [u8]],
}

impl Files for HeldFiles<'_> {
    ghost may_have = { λ held contents. contents ≡ map (λ file. file.now) held.files.now };

    ghost has_some = { λ held. (map (λ file. file.now) held.files.now, refl) };

    fn count(&self) -> usize {
        self.files.len()
    }

    fn read(&self, alloc: Global, place: usize) -> Result<Vec<u8>, ReadFailed> {
        let Some(content) = self.files.get(place) else {
            return Err(ReadFailed);
        };
        match content.to_vec(alloc) {
            Ok(content) => Ok(content),
            Err(_) => Err(ReadFailed),
        }
    }
}

/// What is gone on with, in words.
fn said(
    alloc: Global,
    found: Result<RecoveredFolder, FolderRecoveryError>,
) -> Result<String, AllocError> {
    let RecoveredFolder { step, volumes } = match found {
        Ok(found) => found,
        Err(error) => return format!(in alloc; "{error}"),
    };
    match step {
        ResumeStep::BeginFirst => format!(in alloc; "begin the first volume"),
        ResumeStep::GoOn(book) => {
            format!(in alloc;
                "go on with volume {} of {} lines",
                volumes,
                book.journal().len()
            )
        }
        ResumeStep::End(book) => {
            format!(in alloc; "end volume {} of {} lines", volumes, book.journal().len())
        }
        ResumeStep::BeginNext(book) => {
            format!(in alloc;
                "begin the volume behind {} of {} lines",
                volumes,
                book.journal().len()
            )
        }
    }
}

#[test]
fn goes_on_or_refuses(rt: HostRuntime) -> Result<(), Fail> {
    for (files, words) in FOLDERS {
        let found = recover_folder(rt.alloc(), Role::Primary, &HeldFiles { files });
        assert_eq!(rt; said(rt.alloc(), found)?.as_str(), words);
    }
    Ok(())
}
