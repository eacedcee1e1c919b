//! A folder's names as data.

use std::alloc::AllocError;

/// How many files there are, and how many of them a loss of power may leave.
#[derive(Clone, Copy)]
pub(crate) struct NameState {
    pub files: usize,
    /// The names of so many are on the disk for certain.
    pub sure: usize,
    /// No more than so many may be there.
    pub most: usize,
}

impl NameState {
    ghost use Rattle.std.specs.Prelude.{OnOk};
    ghost use Rattle.disk_model.specs.Names.{held, made, removed, settled, no_names, after_name_call};
    ghost use Rattle.test_support.specs.MirrorNames.{MirrorsNames, FollowsName};

    /// Makes the state of a folder that was opened and held so many files.
    pub(crate) fn held(files: usize) -> NameState
        ensures { MirrorsNames result (after_name_call (held files) no_names) }
    {
        NameState {
            files,
            sure: files,
            most: files,
        }
    }

    /// Makes a file behind all others. `AllocError` where they can't be counted.
    pub(crate) fn make(&mut self) -> Result<(), AllocError>
        ensures { OnOk result (FollowsName made self.old self.new) }
    {
        let files = self.files.checked_add(1).ok_or(AllocError)?;
        let most = self.most.checked_add(1).ok_or(AllocError)?;
        self.files = files;
        self.most = most;
        Ok(())
    }

    /// Removes the last file.
    pub(crate) fn remove(&mut self)
        ensures { FollowsName removed self.old self.new }
    {
        self.files = self.files.saturating_sub(1);
        self.sure = self.sure.saturating_sub(1);
    }

    /// Puts all names on the disk.
    pub(crate) fn settle(&mut self)
        ensures { FollowsName settled self.old self.new }
    {
        self.sure = self.files;
        self.most = self.files;
    }
}
