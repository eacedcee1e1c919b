//! A wire in memory.

use crate::books::octets;
use node_threads::{Got, NetFault, PAUSES_A_SECOND, Wire};
use std::alloc::Global;
use std::test::Fail;

/// How many reads or writes succeed of a wire that never fails.
pub const NEVER: usize = usize::MAX;

/// A wire that brings octets, so many a read at most, then is idle for two seconds, and then ends. It keeps what is
/// written.
#[derive(Drop)]
pub struct Script {
    octets: Vec<u8>,
    /// How many of them came.
    place: usize,
    step: usize,
    idles: u32,
    /// How many reads and how many writes still succeed.
    pub reads: usize,
    pub writes: usize,
    pub written: Vec<u8>,
}

/// The octets of frames.
pub fn joined(alloc: Global, frames: &[&str]) -> Result<Vec<u8>, Fail> {
    let mut all = Vec::new(alloc);
    for frame in frames {
        let octets = octets(alloc, frame).ok_or("no digits")?;
        all.extend_from_slice(&octets)?;
    }
    Ok(all)
}

impl Script {
    /// A wire that brings these frames, by reads of `step` octets at most, and never fails.
    pub fn new(alloc: Global, frames: &[&str], step: usize) -> Result<Script, Fail> {
        Ok(Script {
            octets: joined(alloc, frames)?,
            place: 0,
            step,
            idles: 2 * PAUSES_A_SECOND,
            reads: NEVER,
            writes: NEVER,
            written: Vec::new(alloc),
        })
    }
}

impl Wire for Script {
    ghost brings = { λ old octets new. Unit };

    ghost writes = { λ old octets new. Unit };

    ghost fails = { λ old new. Unit };

    fn read(&mut self, buffer: &mut [u8]) -> Result<Got, NetFault> {
        let Some(left) = self.reads.checked_sub(1) else {
            return Err(NetFault);
        };
        self.reads = left;
        let rest = self.octets.get(self.place..).unwrap_or(&[]);
        let count = rest.len().min(self.step).min(buffer.len());
        if count > 0 {
            buffer[..count].copy_from_slice(&rest[..count]);
            self.place = self.place.saturating_add(count);
            return Ok(Got::Octets(count));
        }
        let Some(left) = self.idles.checked_sub(1) else {
            return Ok(Got::End);
        };
        self.idles = left;
        Ok(Got::Idle)
    }

    fn write(&mut self, octets: &[u8]) -> Result<(), NetFault> {
        let Some(left) = self.writes.checked_sub(1) else {
            return Err(NetFault);
        };
        self.writes = left;
        match self.written.extend_from_slice(octets) {
            Ok(()) => Ok(()),
            Err(_) => Err(NetFault),
        }
    }
}
