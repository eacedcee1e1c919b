//! The device.

ghost use Rattle.std.specs.Prelude.{◌≡◌, [], ◌∷◌, IfOk};
ghost use Rattle.disk_model.specs.Disk.{opened, file_after, IsLeft};

use crate::calls::CallsLeft;
use crate::drawing::draw_left;
use crate::state::FileState;
use call_trace::CallTrace;
use disk_model::{Device, DeviceError};
use std::alloc::{AllocError, Global};
use std::marker::Model;

/// A file in memory, and how many calls it answers before one fails. Clauses see the record of its calls.
#[derive(Drop)]
pub struct TestFile {
    alloc: Global,
    state: FileState,
    /// No growth was refused so far.
    is_known: bool,
    calls_left: CallsLeft,
    noted: CallTrace,
}

impl Model for TestFile {
    ghost use Rattle.std.specs.Prelude.{List};
    ghost use Rattle.disk_model.specs.Disk.{Call};

    ghost Value = { List Call };

    ghost use Rattle.std.specs.Prelude.{IsTrue};
    ghost use Rattle.disk_model.specs.Disk.{file_after};
    ghost use Rattle.test_support.specs.Mirror.{Mirrors};

    ghost view = { λ f. f.noted.calls };

    ghost invariant = { λ f. IsTrue f.is_known → Mirrors f.state (file_after f.noted.calls) };
}

impl TestFile {
    /// Makes a file that was opened and held this content, all of it on the disk.
    pub fn new(alloc: Global, content: &[u8], calls_left: usize) -> Result<TestFile, AllocError>
        ensures { IfOk result (λ f. f ≡ opened content.now ∷ []) }
    {
        TestFile::among(alloc, content, CallsLeft::new(alloc, calls_left)?)
    }

    /// Makes a file that shares its count of calls with other devices.
    pub(crate) fn among(
        alloc: Global,
        content: &[u8],
        calls_left: CallsLeft,
    ) -> Result<TestFile, AllocError>
        ensures { IfOk result (λ f. f ≡ opened content.now ∷ []) }
    {
        Ok(TestFile {
            alloc,
            state: FileState::new(alloc, content)?,
            is_known: true,
            calls_left,
            noted: CallTrace::opened(content),
        })
    }

    /// Draws what a loss of power leaves, from a seed. Where a growth was refused earlier, that isn't known.
    pub fn left(&self, seed: u64) -> Result<Vec<u8>, AllocError>
        ensures { IfOk result (λ content. IsLeft (file_after self.now) content.items) }
    {
        if !self.is_known {
            return Err(AllocError);
        }
        draw_left(self.alloc, &self.state, seed)
    }
}

impl Device for TestFile {
    ghost calls = { λ f. f };

    fn append(&mut self, octets: &[u8]) -> Result<(), DeviceError> {
        if self.state.append(octets).is_err() {
            self.is_known = false;
            return self.noted.note_append(octets, Err(DeviceError::Memory));
        }
        self.noted.note_append(octets, self.calls_left.answer())
    }

    fn cut(&mut self, length: usize) -> Result<(), DeviceError> {
        if self.state.cut(self.alloc, length).is_err() {
            self.is_known = false;
            return self.noted.note_cut(length, Err(DeviceError::Memory));
        }
        self.noted.note_cut(length, self.calls_left.answer())
    }

    fn sync(&mut self) -> Result<(), DeviceError> {
        let outcome = self.calls_left.answer();
        if outcome.is_ok() {
            self.state.sync();
        }
        self.noted.note_sync(outcome)
    }
}
