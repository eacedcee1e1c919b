//! The record, and what is noted in it.

ghost use Rattle.std.specs.Prelude.{◌≡◌, List, [], ◌∷◌, MatchResult};
ghost use Rattle.std.specs.Borrow.{ftrue};
ghost use Rattle.disk_model.specs.Disk.{Call, opened, appended, cut, flushed, failed};
ghost use Rattle.disk_model.specs.Devices.{Notes, NotesSync};
ghost use Rattle.call_trace.specs.Notes.{call_of};

use crate::kind::CallKind;
use disk_model::DeviceError;
use std::marker::{Model, PhantomData};

/// The calls that were noted, the last one first. It takes no memory.
#[derive(Drop)]
pub struct CallTrace {
    marker: PhantomData<u8>,
    pub ghost calls: { List Call },
}

impl Model for CallTrace {
    ghost also_owns = { λ _. ftrue };
}

// It owns nothing, so a device may go to the thread that commits.
unsafe impl Send for CallTrace {}

impl CallTrace {
    /// Makes an empty record.
    fn new() -> CallTrace
        ensures { result.calls ≡ [] }
    {
        CallTrace {
            marker: PhantomData,
        }
    }

    /// Begins the record of a file that was opened and held this content.
    pub fn opened(content: &[u8]) -> CallTrace
        ensures { result.calls ≡ opened content.now ∷ [] }
    {
        let mut record = CallTrace::new();
        record.note(&[CallKind::Opened as u64, 0], content);
        record
    }

    /// Notes an append of these octets, and that it failed if it did.
    pub fn note_append(
        &mut self,
        octets: &[u8],
        outcome: Result<(), DeviceError>,
    ) -> Result<(), DeviceError>
        ensures result { result ≡ outcome }
        ensures noted { Notes result (appended octets.now) self.old.calls self.new.calls }
    {
        self.note(&[CallKind::Appended as u64, 0], octets);
        self.note_failure(&outcome);
        outcome
    }

    /// Notes a cut to a length, and that it failed if it did.
    pub fn note_cut(
        &mut self,
        length: usize,
        outcome: Result<(), DeviceError>,
    ) -> Result<(), DeviceError>
        ensures result { result ≡ outcome }
        ensures noted { Notes result (cut length) self.old.calls self.new.calls }
    {
        self.note(&[CallKind::Cut as u64, length as u64], &[]);
        self.note_failure(&outcome);
        outcome
    }

    /// Notes a sync, or that it failed.
    pub fn note_sync(&mut self, outcome: Result<(), DeviceError>) -> Result<(), DeviceError>
        ensures result { result ≡ outcome }
        ensures noted { NotesSync result self.old.calls self.new.calls }
    {
        if outcome.is_ok() {
            self.note(&[CallKind::Flushed as u64, 0], &[]);
        }
        self.note_failure(&outcome);
        outcome
    }

    /// Notes that the call before it failed, if it did.
    fn note_failure(&mut self, outcome: &Result<(), DeviceError>)
        ensures { MatchResult outcome.now (λ _. self.new.calls ≡ self.old.calls)
            (λ _. self.new.calls ≡ failed ∷ self.old.calls) }
    {
        if outcome.is_err() {
            self.note(&[CallKind::Failed as u64, 0], &[]);
        }
    }

    /// Adds a call, by the number of its kind and a length, and its octets.
    fn note(&mut self, _numbers: &[u64], _octets: &[u8])
        ensures { self.new.calls ≡ call_of _numbers.now _octets.now ∷ self.old.calls }
    {}
}
