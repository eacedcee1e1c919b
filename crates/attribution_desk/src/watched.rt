//! Readers and writers that remember a failure.

ghost use Rattle.std.specs.Prelude.{◌≡◌, ◌⊎◌, ◌<◌, ◌-◌, ℕ, true, false, is_err, if◌then◌else◌, OnOk, IfErr, IsErrOf};
ghost use Rattle.std.specs.Io.{ReadsAtMost};
ghost use Rattle.std.specs.Io.KnownBytes.{Appends, ReadConsumes};
ghost use Rattle.attribution_desk.specs.declared.watched.TheConstants.{MAX_READS};

use crate::error::DeskError;
use std::io::{self, ErrorKind, Read, Write};

/// How often a reader is asked.
const MAX_READS: u32 = 1_048_576;

/// How often a read that a signal interrupts is tried again.
const MAX_INTERRUPTIONS: u32 = 1_024;

/// A reader or a writer, whether a call of it has failed, and how often it may still be asked to read.
#[derive(Drop)]
pub struct Watched<D> {
    device: D,
    failed: bool,
    turns: u32,
}

impl<D> Watched<D> {
    /// A device that hasn't failed; it may be asked 1,048,576 times to read.
    pub fn new(device: D) -> Watched<D>
        ensures device { result.device ≡ device }
        ensures failed { result.failed ≡ false }
        ensures turns { result.turns ≡ MAX_READS }
    {
        Watched {
            device,
            failed: false,
            turns: MAX_READS,
        }
    }

    /// The device.
    pub fn into_device(self) -> D
        ensures { result ≡ self.device }
    {
        self.device
    }

    /// Returns whether a call has failed.
    pub fn has_failed(&self) -> bool
        ensures { result ≡ self.now.failed }
    {
        self.failed
    }
}

/// One read, tried again where a signal interrupted it.
fn read_whole<D: Read>(device: &mut D, buffer: &mut [u8]) -> io::Result<usize>
    ensures bound { ReadsAtMost result buffer.new }
    ensures bytes { ReadConsumes (D.remaining device.old) (D.remaining device.new) result buffer.new }
{
    for _ in 0..MAX_INTERRUPTIONS {
        match device.read(buffer) {
            Err(error) if error.kind() == ErrorKind::Interrupted => {}
            ended => return ended,
        }
    }
    device.read(buffer)
}

impl<D: Read> Watched<D> {
    /// One read. A failure of the device is kept, and nothing else is; `Read` too where it was asked as often as it may
    /// be.
    pub fn read(&mut self, buffer: &mut [u8]) -> Result<usize, DeskError>
        ensures bound { ReadsAtMost result buffer.new }
        ensures bytes { ReadConsumes (D.remaining self.old.device) (D.remaining self.new.device) result buffer.new }
        ensures turns { self.new.turns ≡ self.old.turns - 1 }
        ensures kept { 0 < self.old.turns → self.new.failed ≡ (if is_err result then true else self.old.failed) }
        ensures spent { self.old.turns ≡ 0 → (self.new.failed ≡ self.old.failed) × IsErrOf result DeskError.Read }
        ensures refused { IfErr result (λ e. e ≡ DeskError.Read) }
    {
        let Some(left) = self.turns.checked_sub(1) else {
            return Err(DeskError::Read);
        };
        self.turns = left;
        let Ok(count) = read_whole(&mut self.device, buffer) else {
            self.failed = true;
            return Err(DeskError::Read);
        };
        Ok(count)
    }
}

impl<D: Write> Watched<D> {
    /// Writes all of the octets, and hands them on. A failure of the device is kept, a write that is handed an octet or
    /// more and takes none among them, and nothing else is.
    pub fn write_out(&mut self, octets: &[u8]) -> Result<(), DeskError>
        ensures bytes { OnOk result
            (Appends (D.contents self.old.device) (D.contents self.new.device) octets.now) }
        ensures turns { self.new.turns ≡ self.old.turns }
        ensures kept { self.new.failed ≡ (if is_err result then true else self.old.failed) }
        ensures refused { IfErr result (λ e. e ≡ DeskError.Write) }
    {
        if self.device.write_all(octets).is_ok() && self.device.flush().is_ok() {
            return Ok(());
        }
        self.failed = true;
        Err(DeskError::Write)
    }
}
