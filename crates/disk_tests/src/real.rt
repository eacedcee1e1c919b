//! A server's volumes in a directory of the operating system.

ghost use Rattle.std.specs.Prelude.{◌≡◌, [], ◌∷◌, IfOk};
ghost use Rattle.disk_model.specs.Disk.{opened};
ghost use Rattle.disk_model.specs.Names.{held};

use crate::directories::{directory, holds, is_locked, remove};
use crate::story::{VOLUMES, Written, close, three_volumes};
use crate::writing::{PublishedState, write_volumes};
use binding_rules::Role;
use disk_files::{FolderError, OpenedFile, RealFolder, RealVolumes};
use order_book::Book;
use std::alloc::{AllocError, Global};
use std::fs::{self, OpenOptions};
use std::io::Write;
use std::os::unix::fs::symlink;
use std::path::{Path, PathBuf};
use std::test::Fail;
use volume_store::{RecoveredFolder, ResumeStep, end_volume, recover_folder, reopen};

/// Returns the path of the file of a volume of the primary's.
fn file_of(alloc: Global, path: Path<'_>, number: usize) -> Result<PathBuf, AllocError> {
    path.join(alloc, format!(in alloc; "A-{number:07}.journal")?)
}

/// Opens a server's volumes in a directory.
fn open_of(rt: HostRuntime, path: Path<'_>, role: Role) -> Result<RealVolumes, FolderError>
    ensures { IfOk result (λ v. v.noted.calls ≡ held v.count ∷ []) }
{
    RealVolumes::open(rt, RealFolder::open(&rt, path.as_str())?, role)
}

/// Opens the primary's volumes in a directory.
fn open(rt: HostRuntime, path: Path<'_>) -> Result<RealVolumes, FolderError>
    ensures { IfOk result (λ v. v.noted.calls ≡ held v.count ∷ []) }
{
    open_of(rt, path, Role::Primary)
}

/// Writes three volumes to a directory that has none, and lets go of all files.
#[tactic(auto, using(crate::proofs::Opened::held_is_settled, crate::proofs::Opened::held_none))]
fn write_all(rt: HostRuntime, path: Path<'_>) -> Result<(), Fail> {
    let mut folder = open(rt, path)?;
    if folder.count() != 0 {
        return Err(Fail::from("files are there already"));
    }
    let mut told = PublishedState::none();
    write_volumes(rt.alloc(), &mut folder, &mut told)?;
    if told.volumes != VOLUMES.len() {
        return Err(Fail::from("a volume isn't written"));
    }
    Ok(())
}

/// Makes a directory, and writes three volumes to it.
fn with_volumes(rt: HostRuntime, name: &str) -> Result<PathBuf, Fail> {
    let path = directory(&rt, name)?;
    write_all(rt, path.as_path())?;
    Ok(path)
}

/// What a start goes on with, in words.
fn said_of(alloc: Global, found: RecoveredFolder, written: &[Written]) -> Result<String, Fail> {
    let RecoveredFolder { step, volumes } = found;
    let (words, book) = match step {
        ResumeStep::BeginFirst => return Ok(format!(in alloc; "begin the first volume")?),
        ResumeStep::GoOn(book) => ("go on with", book),
        ResumeStep::End(book) => ("end", book),
        ResumeStep::BeginNext(book) => ("begin the next behind", book),
    };
    let volume = written.get(volumes.wrapping_sub(1)).ok_or("no volume")?;
    if !volume.lines.starts_with(book.journal()) {
        return Ok(format!(in alloc; "other lines of volume {volumes}")?);
    }
    let lines = book.journal().len();
    Ok(format!(in alloc; "{words} volume {volumes}, {lines} lines")?)
}

/// What a start goes on with in a directory, or why it doesn't, in words.
fn said(rt: HostRuntime, path: Path<'_>, written: &[Written]) -> Result<String, Fail> {
    let files = open(rt, path)?.last_files()?;
    match recover_folder(rt.alloc(), Role::Primary, &files) {
        Ok(found) => said_of(rt.alloc(), found, written),
        Err(error) => Ok(format!(in rt.alloc(); "{error}")?),
    }
}

/// What a start goes on with: 27 head lines (an open line, a pool, a base, and a unit and a carry line for each of 12
/// clients) and 333 grants.
const GOES_ON: &str = "go on with volume 3, 360 lines";

/// The same, with the close line and the end line.
const ENDED: &str = "begin the next behind volume 3, 361 lines";

/// Returns whether a file has a volume's text: all of it, or of the last volume, which stays open, its beginning.
fn has_text(rt: &HostRuntime, path: Path<'_>, volume: &Written, is_last: bool) -> bool {
    match fs::read(rt, path) {
        Ok(content) => volume.text.starts_with(&content)
            && (is_last || content.len() == volume.text.len()),
        Err(_) => false,
    }
}

/// Counts the volumes whose files have their texts.
fn count_texts(rt: &HostRuntime, path: Path<'_>, volumes: &[Written]) -> Result<usize, Fail> {
    let mut count = 0usize;
    for (place, volume) in volumes.iter().enumerate() {
        let file = file_of(rt.alloc(), path, place + 1)?;
        if has_text(rt, file.as_path(), volume, place + 1 == volumes.len()) {
            count = count.saturating_add(1);
        }
    }
    Ok(count)
}

#[test]
fn what_was_written_is_found_in_a_directory(rt: HostRuntime) -> Result<(), Fail> {
    let volumes = three_volumes(rt.alloc())?;
    let path = with_volumes(rt, "volumes")?;
    assert_eq!(rt; count_texts(&rt, path.as_path(), &volumes)?, 3);
    assert_eq!(rt; said(rt, path.as_path(), &volumes)?.as_str(), GOES_ON);
    remove(&rt, path.as_path())
}

#[test]
fn a_second_opener_is_refused(rt: HostRuntime) -> Result<(), Fail> {
    let path = directory(&rt, "openers")?;
    let folder = open(rt, path.as_path())?;
    assert!(rt; is_locked(&rt, path.as_path()));
    assert_eq!(rt; folder.count(), 0);
    remove(&rt, path.as_path())
}

/// Writes octets behind the end of the last volume's file.
fn append(rt: &HostRuntime, path: Path<'_>, octets: &[u8]) -> Result<(), Fail> {
    let last = file_of(rt.alloc(), path, 3)?;
    let mut file = OpenOptions::new().append(true).open(rt, last.as_path())?;
    file.write_all(octets)?;
    Ok(())
}

/// Makes a directory of three volumes, of which the last one has a torn end.
fn torn(rt: HostRuntime, name: &str) -> Result<PathBuf, Fail> {
    let path = with_volumes(rt, name)?;
    append(&rt, path.as_path(), b"361 1000000 gra")?;
    Ok(path)
}

/// Ends the last volume, whose file was opened again.
fn end_opened(alloc: Global, found: OpenedFile, mut book: Book) -> Result<(), Fail>
    requires { found.file.noted.calls ≡ opened found.content.items ∷ [] }
{
    let OpenedFile { file, content } = found;
    let lines = book.journal().len() + 1;
    let Ok(mut file) = reopen(alloc, file, &content, &book, lines) else {
        return Err(Fail::from("the file isn't opened again"));
    };
    close(&mut book, VOLUMES[2])?;
    match end_volume(alloc, &mut file, &book, lines) {
        Ok(()) => Ok(()),
        Err(_) => Err(Fail::from("the volume isn't ended")),
    }
}

/// Opens the last volume's file again, as a start does, and ends the volume.
fn end_last(rt: HostRuntime, path: Path<'_>) -> Result<(), Fail> {
    let folder = open(rt, path)?;
    match recover_folder(rt.alloc(), Role::Primary, &folder.last_files()?)?.step {
        ResumeStep::GoOn(book) => end_opened(rt.alloc(), folder.open_last()?, book),
        _ => Err(Fail::from("no volume goes on")),
    }
}

/// What a start goes on with in a directory, once its last volume was ended.
fn said_of_ended(rt: HostRuntime, path: Path<'_>, volumes: &[Written]) -> Result<String, Fail> {
    end_last(rt, path)?;
    said(rt, path, volumes)
}

/// Returns whether the last volume's file has all of its text.
fn has_third(rt: &HostRuntime, path: Path<'_>, volumes: &[Written]) -> bool {
    match (file_of(rt.alloc(), path, 3), volumes.get(2)) {
        (Ok(last), Some(third)) => holds(rt, last.as_path(), &third.text),
        _ => false,
    }
}

#[test]
fn a_torn_end_is_cut_where_a_volume_goes_on(rt: HostRuntime) -> Result<(), Fail> {
    let volumes = three_volumes(rt.alloc())?;
    let path = torn(rt, "torn")?;
    assert_eq!(rt; said(rt, path.as_path(), &volumes)?.as_str(), GOES_ON);
    assert_eq!(rt;
        said_of_ended(rt, path.as_path(), &volumes)?.as_str(),
        ENDED
    );
    assert!(rt; has_third(&rt, path.as_path(), &volumes));
    remove(&rt, path.as_path())
}

#[test]
fn each_side_has_its_own_volumes(rt: HostRuntime) -> Result<(), Fail> {
    let path = with_volumes(rt, "sides")?;
    assert_eq!(rt; open_of(rt, path.as_path(), Role::Secondary)?.count(), 0);
    assert_eq!(rt; open_of(rt, path.as_path(), Role::Primary)?.count(), 3);
    remove(&rt, path.as_path())
}

/// Takes the second volume's file away, and makes a fourth one.
fn take_away(rt: &HostRuntime, path: Path<'_>) -> Result<(), Fail> {
    fs::remove_file(rt, file_of(rt.alloc(), path, 2)?.as_path())?;
    fs::write(rt, file_of(rt.alloc(), path, 4)?.as_path(), b"".as_slice())?;
    Ok(())
}

/// Puts a folder in the place of the second volume's file.
fn put_folder(rt: &HostRuntime, path: Path<'_>) -> Result<(), Fail> {
    fs::create_dir(rt, file_of(rt.alloc(), path, 2)?.as_path())?;
    Ok(())
}

/// Puts a link to the first volume's file in the place of that folder.
fn put_link(rt: &HostRuntime, path: Path<'_>) -> Result<(), Fail> {
    let second = file_of(rt.alloc(), path, 2)?;
    fs::remove_dir(rt, second.as_path())?;
    symlink(
        rt,
        file_of(rt.alloc(), path, 1)?.as_path(),
        second.as_path(),
    )?;
    Ok(())
}

/// Returns whether a directory isn't opened since the second volume has no file.
fn is_missing(rt: HostRuntime, path: Path<'_>) -> bool {
    matches!(&open(rt, path), Err(FolderError::Missing { number: 2 }))
}

/// Returns whether a directory isn't opened since another thing has the name of the second volume's file.
fn is_no_file(rt: HostRuntime, path: Path<'_>) -> bool {
    matches!(&open(rt, path), Err(FolderError::NotAFile { number: 2 }))
}

#[test]
fn what_has_no_files_place_is_a_fault(rt: HostRuntime) -> Result<(), Fail> {
    let path = with_volumes(rt, "places")?;
    take_away(&rt, path.as_path())?;
    assert!(rt; is_missing(rt, path.as_path()));
    put_folder(&rt, path.as_path())?;
    assert!(rt; is_no_file(rt, path.as_path()));
    put_link(&rt, path.as_path())?;
    assert!(rt; is_no_file(rt, path.as_path()));
    remove(&rt, path.as_path())
}

/// What a stranger puts in the place of octets of the last volume, and why a start refuses it: the first two lines
/// behind its head grant to the clients 0 and 1.
const CHANGES: [(&[u8], &[u8], &str); 3] = [
    (
        b" A 3\n",
        b" A 4\n",
        "volume 3: the file has another volume",
    ),
    (b"\n20 ", b"\n21 ", "volume 3: line 20 has another number"),
    (
        b"grant 00030001020000000001 00000001 2001:0db8:0000:0100:",
        b"grant 00030001020000000001 00000001 2001:0db8:0000:0200:",
        "volume 3: line 29 breaks rule 6",
    ),
];

/// Puts octets in the place of the first ones of a content that are equal to some.
fn with_change(alloc: Global, content: &[u8], (old, new): (&[u8], &[u8])) -> Result<Vec<u8>, Fail> {
    for place in 0..content.len() {
        if let Some(rest) = content[place..].strip_prefix(old) {
            let mut changed = content[..place].to_vec(alloc)?;
            changed.extend_from_slice(new)?;
            changed.extend_from_slice(rest)?;
            return Ok(changed);
        }
    }
    Err(Fail::from("nothing to change"))
}

/// What a start says where the last volume's file has this content, which it has to leave as it is.
fn said_of_content(
    rt: HostRuntime,
    path: Path<'_>,
    volumes: &[Written],
    content: &[u8],
) -> Result<String, Fail> {
    let last = file_of(rt.alloc(), path, 3)?;
    fs::write(&rt, last.as_path(), content)?;
    let words = said(rt, path, volumes)?;
    if !holds(&rt, last.as_path(), content) {
        return Err(Fail::from("the file has another content"));
    }
    Ok(words)
}

/// What a start says where a stranger changed the last volume's file, which had this content.
fn said_of_change(
    rt: HostRuntime,
    path: Path<'_>,
    volumes: &[Written],
    content: &[u8],
    change: (&[u8], &[u8]),
) -> Result<String, Fail> {
    let changed = with_change(rt.alloc(), content, change)?;
    said_of_content(rt, path, volumes, &changed)
}

/// Reads the last volume's file.
fn content_of_last(rt: &HostRuntime, path: Path<'_>) -> Result<Vec<u8>, Fail> {
    let last = file_of(rt.alloc(), path, 3)?;
    Ok(fs::read(rt, last.as_path())?)
}

#[test]
fn what_a_stranger_changed_is_refused_and_left(rt: HostRuntime) -> Result<(), Fail> {
    let volumes = three_volumes(rt.alloc())?;
    let path = with_volumes(rt, "changes")?;
    let content = content_of_last(&rt, path.as_path())?;
    for (old, new, words) in CHANGES {
        let said = said_of_change(rt, path.as_path(), &volumes, &content, (old, new))?;
        assert_eq!(rt; said.as_str(), words);
    }
    remove(&rt, path.as_path())
}
