//! A server that writes its volumes to a folder until a call fails, by the calls that the daemon makes: the lines of a
//! batch are put by one write and one sync, and behind a volume that is closed the next one begins.

ghost use Rattle.std.specs.Prelude.{◌≡◌, IsTrue, IfOk, IfSome};
ghost use Rattle.disk_model.specs.Names.{names_after, AreSettled};
ghost use Rattle.volume_store.specs.Volumes.{going_on, HasVolume};

use crate::story::{Requests, VOLUMES, ask, close, opening};
use disk_model::{BeginError, Device, Folder, JournalFile};
use order_book::Book;
use std::alloc::Global;
use std::test::Fail;
use volume_store::{
    BeginVolumeError, BegunVolume, PutError, RollError, begin_first, put_lines, roll,
};

/// How many lines are put at once.
const BATCH: u64 = 60;

/// How many volumes a server has told of, and how many lines of the last of them, the first line among them.
#[derive(Clone, Copy, Debug, PartialEq, Eq)]
pub(crate) struct PublishedState {
    pub volumes: usize,
    pub lines: usize,
    /// No line behind the last one's head was told of.
    pub is_head: bool,
}

impl PublishedState {
    /// Nothing was told of.
    pub(crate) fn none() -> PublishedState {
        PublishedState {
            volumes: 0,
            lines: 0,
            is_head: false,
        }
    }

    /// A further volume's head is on the disk.
    fn begin(&mut self, book: &Book) {
        self.volumes = self.volumes.saturating_add(1);
        self.lines = book.journal().len().saturating_add(1);
        self.is_head = true;
    }

    /// All lines of the open volume are on the disk.
    fn put(&mut self, book: &Book) {
        self.lines = book.journal().len().saturating_add(1);
        self.is_head = false;
    }
}

/// The files of the volumes that were written, as far as it went.
#[derive(Drop)]
pub(crate) struct Reached<D: Drop> {
    pub files: Vec<D>,
    /// The next one couldn't be made.
    pub is_unmade: bool,
}

impl<D: Drop> Reached<D> {
    /// Adds the file of a volume that was begun in vain, if it was made.
    fn add_begun(&mut self, failed: BeginVolumeError<D>) -> Result<(), Fail> {
        let BeginVolumeError::Disk(BeginError { error: _, file }) = failed else {
            return Err(Fail::from("a volume has no beginning"));
        };
        match file {
            Some(file) => self.files.push(file)?,
            None => self.is_unmade = true,
        }
        Ok(())
    }
}

/// Has a book answer a batch of requests, from a turn on, and puts their lines at once. Says whether all are on the
/// disk.
fn put_batch<D: Device>(
    alloc: Global,
    book: &mut Book,
    file: &mut JournalFile<D>,
    requests: Requests,
    first: u64,
) -> Result<bool, Fail>
    requires { HasVolume (D.calls file.old.device) (going_on book.old) }
    ensures { IfOk result (λ all. IsTrue all → HasVolume (D.calls file.new.device) (going_on book.new)) }
{
    let lines = book.journal().len() + 1;
    for turn in first..requests.count.min(first.saturating_add(BATCH)) {
        ask(book, requests, turn)?;
    }
    match put_lines(alloc, file, book, lines) {
        Ok(()) => Ok(true),
        Err(PutError::Disk(_)) => Ok(false),
        Err(PutError::Text(_)) => Err(Fail::from("a line has no text")),
    }
}

/// Has a book answer the requests of its volume, batch by batch, as far as it goes. Says whether all lines are on the
/// disk.
fn put_requests<D: Device>(
    alloc: Global,
    book: &mut Book,
    file: &mut JournalFile<D>,
    requests: Requests,
    told: &mut PublishedState,
) -> Result<bool, Fail>
    requires { HasVolume (D.calls file.old.device) (going_on book.old) }
    ensures { IfOk result (λ all. IsTrue all → HasVolume (D.calls file.new.device) (going_on book.new)) }
{
    for batch in 0..=requests.count / BATCH {
        if !put_batch(alloc, book, file, requests, batch.saturating_mul(BATCH))? {
            return Ok(false);
        }
        told.put(book);
    }
    Ok(true)
}

/// Closes a volume and begins the one behind it: `None` where a call failed.
fn follow<F: Folder>(
    alloc: Global,
    folder: &mut F,
    volume: BegunVolume<F::File>,
    requests: Requests,
    reached: &mut Reached<F::File>,
) -> Result<Option<BegunVolume<F::File>>, Fail>
where
    F::File: Drop,
    requires names { AreSettled (F.calls folder.old) }
    requires volume { HasVolume (F.File.calls volume.file.device) (going_on volume.book) }
    ensures names { IfOk result (λ next. IfSome next (λ _. AreSettled (F.calls folder.new))) }
    ensures volume { IfOk result (λ next. IfSome next (λ v. HasVolume (F.File.calls v.file.device) (going_on v.book))) }
{
    let BegunVolume { mut book, mut file } = volume;
    let lines = book.journal().len() + 1;
    close(&mut book, requests)?;
    if !book.can_roll() {
        return Err(Fail::from("it doesn't roll"));
    }
    let next = roll(alloc, folder, &mut file, &book, lines, requests.end()?);
    reached.files.push(file.into_device())?;
    match next {
        Ok(next) => Ok(Some(next)),
        Err(RollError::NotEnded(PutError::Disk(_))) => Ok(None),
        Err(RollError::NotEnded(PutError::Text(_))) => Err(Fail::from("a volume has no end")),
        Err(RollError::NotBegun(failed)) => {
            reached.add_begun(failed)?;
            Ok(None)
        }
    }
}

/// Writes a volume that was begun, as far as it goes, and begins the one behind it: `None` where a call failed, and
/// behind the last one, which stays open.
fn write_volume<F: Folder>(
    alloc: Global,
    folder: &mut F,
    volume: BegunVolume<F::File>,
    requests: Requests,
    reached: &mut Reached<F::File>,
    told: &mut PublishedState,
) -> Result<Option<BegunVolume<F::File>>, Fail>
where
    F::File: Drop,
    requires names { AreSettled (F.calls folder.old) }
    requires volume { HasVolume (F.File.calls volume.file.device) (going_on volume.book) }
    ensures names { IfOk result (λ next. IfSome next (λ _. AreSettled (F.calls folder.new))) }
    ensures volume { IfOk result (λ next. IfSome next (λ v. HasVolume (F.File.calls v.file.device) (going_on v.book))) }
{
    let BegunVolume { mut book, mut file } = volume;
    told.begin(&book);
    let is_written = put_requests(alloc, &mut book, &mut file, requests, told)?;
    if !is_written || told.volumes == VOLUMES.len() {
        reached.files.push(file.into_device())?;
        return Ok(None);
    }
    follow(alloc, folder, BegunVolume { book, file }, requests, reached)
}

/// Begins the first volume: `None` where a call failed.
fn begin<F: Folder>(
    alloc: Global,
    folder: &mut F,
    reached: &mut Reached<F::File>,
) -> Result<Option<BegunVolume<F::File>>, Fail>
where
    F::File: Drop,
    requires names { AreSettled (F.calls folder.old) }
    requires none { (names_after (F.calls folder.old)).files ≡ 0 }
    ensures names { IfOk result (λ first. IfSome first (λ _. AreSettled (F.calls folder.new))) }
    ensures volume { IfOk result (λ first. IfSome first (λ v.
        HasVolume (F.File.calls v.file.device) (going_on v.book))) }
{
    let (settings, now) = opening(alloc)?;
    match begin_first(alloc, folder, now, &settings) {
        Ok(first) => Ok(Some(first)),
        Err(failed) => {
            reached.add_begun(failed)?;
            Ok(None)
        }
    }
}

/// Writes the volumes to a folder that has no file, as far as it goes, to the last one's last line before its close
/// line.
pub(crate) fn write_volumes<F: Folder>(
    alloc: Global,
    folder: &mut F,
    told: &mut PublishedState,
) -> Result<Reached<F::File>, Fail>
where
    F::File: Drop,
    requires names { AreSettled (F.calls folder.old) }
    requires none { (names_after (F.calls folder.old)).files ≡ 0 }
{
    let mut reached = Reached {
        files: Vec::new(alloc),
        is_unmade: false,
    };
    let mut open = begin(alloc, folder, &mut reached)?;
    for requests in VOLUMES {
        let Some(volume) = open.take() else {
            break;
        };
        open = write_volume(alloc, folder, volume, requests, &mut reached, told)?;
    }
    Ok(reached)
}
