//! Why a server doesn't begin, or has to stop.

ghost use Rattle.std.specs.Prelude.{◌≡◌};
ghost use Rattle.server_core.specs.declared.error.BeginFault.TheVariants.{Memory as BeginMemory};
ghost use Rattle.server_core.specs.declared.error.RollFault.TheVariants.{Memory as RollMemory};

use locked_book::ServeError;
use std::alloc::AllocError;
use thiserror::Error;
use volume_store::{BeginVolumeError, PutError, ReopenError, RollError};

/// Why the lines of a book aren't settled. The server has to stop: what it held back is never told.
#[derive(Clone, Copy, Debug, PartialEq, Eq, Error)]
pub enum VolumeCommitError {
    /// The lines weren't put to the file.
    #[error("the journal isn't written: {0}")]
    Put(PutError),
    /// The book isn't the one whose lines the file has.
    #[error("the book isn't the one that was opened")]
    OtherBook,
}

/// Why the volume of a closed book isn't ended.
#[derive(Clone, Copy, Debug, PartialEq, Eq, Error)]
pub enum EndFault {
    /// The last lines weren't put to the file.
    #[error("the journal isn't written: {0}")]
    Put(PutError),
    /// The book isn't closed, or it isn't the one whose lines the file has.
    #[error("the book isn't closed")]
    NotClosed,
}

/// Why no volume was begun behind the open one. The server has to stop, and begins again with what its folder leads to.
#[derive(Drop)]
pub enum RollFault<D> {
    /// The book doesn't take its close line.
    NotClosed(ServeError),
    /// The rules let no volume follow, or the book isn't the one whose lines the file has.
    Blocked,
    /// The volume wasn't ended, or the next one wasn't begun.
    NotRolled(RollError<D>),
    /// A growth was refused.
    Memory,
}

impl<D> From<AllocError> for RollFault<D> {
    ghost from_gives = { λ _ e. e ≡ RollMemory };

    fn from(_error: AllocError) -> RollFault<D> {
        RollFault::Memory
    }
}

/// Why a server doesn't begin.
#[derive(Drop)]
pub enum BeginFault<D> {
    /// The file wasn't opened again.
    NotReopened(ReopenError),
    /// No volume was begun.
    NotBegun(BeginVolumeError<D>),
    /// The last volume wasn't rolled to the next.
    NotRolled(RollFault<D>),
    /// The book takes no line `restart`.
    NotRestarted(ServeError),
    /// A growth was refused.
    Memory,
}

impl<D> From<AllocError> for BeginFault<D> {
    ghost from_gives = { λ _ e. e ≡ BeginMemory };

    fn from(_error: AllocError) -> BeginFault<D> {
        BeginFault::Memory
    }
}
