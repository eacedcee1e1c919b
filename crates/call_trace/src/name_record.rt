//! The record, and what is noted in it.

ghost use Rattle.std.specs.Prelude.{◌≡◌, List, [], ◌∷◌, MatchResult};
ghost use Rattle.std.specs.Borrow.{ftrue};
ghost use Rattle.disk_model.specs.Names.{NameCall, held, made, removed, refused, NotesName, NotesNameSync};
ghost use Rattle.call_trace.specs.NameNotes.{call_of};

use crate::name_kind::NameCallKind;
use disk_model::DeviceError;
use std::marker::{Model, PhantomData};

/// The calls that were noted, the last one first. It takes no memory.
#[derive(Drop)]
pub struct NameTrace {
    marker: PhantomData<u8>,
    pub ghost calls: { List NameCall },
}

impl Model for NameTrace {
    ghost also_owns = { λ _. ftrue };
}

// It owns nothing, so a folder may go to another thread.
unsafe impl Send for NameTrace {}

impl NameTrace {
    /// Makes an empty record.
    fn new() -> NameTrace
        ensures { result.calls ≡ [] }
    {
        NameTrace {
            marker: PhantomData,
        }
    }

    /// Begins the record of a folder that was opened and held so many files, whose names are all on the disk.
    pub fn held(files: usize) -> NameTrace
        ensures { result.calls ≡ held files ∷ [] }
    {
        let mut record = NameTrace::new();
        record.note(&[NameCallKind::Held as u64, files as u64]);
        record
    }

    /// Notes that a file was made behind all others, and that it failed if it did.
    pub fn note_made<T>(&mut self, outcome: Result<T, DeviceError>) -> Result<T, DeviceError>
        ensures result { result ≡ outcome }
        ensures noted { NotesName result made self.old.calls self.new.calls }
    {
        self.note(&[NameCallKind::Made as u64, 0]);
        self.note_failure(&outcome);
        outcome
    }

    /// Notes that the last file was removed, and that it failed if it did.
    pub fn note_removed(&mut self, outcome: Result<(), DeviceError>) -> Result<(), DeviceError>
        ensures result { result ≡ outcome }
        ensures noted { NotesName result removed self.old.calls self.new.calls }
    {
        self.note(&[NameCallKind::Removed as u64, 0]);
        self.note_failure(&outcome);
        outcome
    }

    /// Notes that all names are on the disk, or that the call failed.
    pub fn note_sync(&mut self, outcome: Result<(), DeviceError>) -> Result<(), DeviceError>
        ensures result { result ≡ outcome }
        ensures noted { NotesNameSync result self.old.calls self.new.calls }
    {
        if outcome.is_ok() {
            self.note(&[NameCallKind::Settled as u64, 0]);
        }
        self.note_failure(&outcome);
        outcome
    }

    /// Notes that the call before it failed, if it did.
    fn note_failure<T>(&mut self, outcome: &Result<T, DeviceError>)
        ensures { MatchResult outcome.now (λ _. self.new.calls ≡ self.old.calls)
            (λ _. self.new.calls ≡ refused ∷ self.old.calls) }
    {
        if outcome.is_err() {
            self.note(&[NameCallKind::Refused as u64, 0]);
        }
    }

    /// Adds a call, by the number of its kind and a count of files.
    fn note(&mut self, _numbers: &[u64])
        ensures { self.new.calls ≡ call_of _numbers.now ∷ self.old.calls }
    {}
}
