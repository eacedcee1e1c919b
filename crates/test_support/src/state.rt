//! A file's state as data.

use std::alloc::{AllocError, Global};
use std::mem;

/// What is written, how many octets of it are on the disk for certain, and what lay there before the last cut.
#[derive(Drop)]
pub(crate) struct FileState {
    pub written: Vec<u8>,
    pub synced: usize,
    pub under: Vec<u8>,
}

impl FileState {
    ghost use Rattle.std.specs.Prelude.{IfOk, OnOk};
    ghost use Rattle.disk_model.specs.Disk.{opened, appended, cut, flushed, no_file, after_call};
    ghost use Rattle.test_support.specs.Mirror.{Mirrors, FollowsCall};

    /// Makes the state of a file that was opened and held this content, all of it on the disk.
    pub(crate) fn new(alloc: Global, content: &[u8]) -> Result<FileState, AllocError>
        ensures { IfOk result (λ s. Mirrors s (after_call (opened content.now) no_file)) }
    {
        Ok(FileState {
            written: content.to_vec(alloc)?,
            synced: content.len(),
            under: Vec::new(alloc),
        })
    }

    /// Writes octets behind all others.
    pub(crate) fn append(&mut self, octets: &[u8]) -> Result<(), AllocError>
        ensures { OnOk result (FollowsCall (appended octets.now) self.old self.new) }
    {
        self.written.extend_from_slice(octets)
    }

    /// Cuts the file to a length.
    pub(crate) fn cut(&mut self, alloc: Global, length: usize) -> Result<(), AllocError>
        ensures { OnOk result (FollowsCall (cut length) self.old self.new) }
    {
        let kept = self.written[..length.min(self.written.len())].to_vec(alloc)?;
        self.under = mem::replace(&mut self.written, kept);
        self.synced = self.synced.min(length);
        Ok(())
    }

    /// Puts all that was written on the disk.
    pub(crate) fn sync(&mut self)
        ensures { FollowsCall flushed self.old self.new }
    {
        self.synced = self.written.len();
        self.under.clear();
    }
}
