//! Why a server doesn't start.

use disk_files::advice_of;
use disk_model::{BeginError, DeviceError};
use locked_book::ServeError;
use server_core::{BeginFault, RollFault};
use server_start::StartError;
use std::io;
use thiserror::Error;
use volume_store::{BeginVolumeError, FolderRecoveryError, PutError, ReopenError, RollError};

/// Why a roll wasn't done.
#[derive(Clone, Copy, Debug, PartialEq, Eq, Error)]
pub enum RollFailure {
    /// The book doesn't take its close line.
    #[error("the journal takes no close line: {0}")]
    NotClosed(ServeError),
    /// The rules let no volume follow.
    #[error("no volume may follow")]
    Blocked,
    /// The volume wasn't ended.
    #[error("the volume isn't ended: {0}")]
    NotEnded(PutError),
    /// The next volume wasn't begun.
    #[error("the next volume isn't begun")]
    NotBegun,
    /// The same, since the disk is full.
    #[error("the next volume isn't begun: {}", DeviceError::NoSpace)]
    NoSpace,
    /// A growth was refused.
    #[error("out of memory")]
    Memory,
}

impl RollFailure {
    /// What it is, without the files that were made.
    pub fn of<D: Drop>(fault: RollFault<D>) -> RollFailure {
        match fault {
            RollFault::NotClosed(refusal) => RollFailure::NotClosed(refusal),
            RollFault::Blocked => RollFailure::Blocked,
            RollFault::NotRolled(RollError::NotEnded(error)) => RollFailure::NotEnded(error),
            RollFault::NotRolled(RollError::NotBegun(BeginVolumeError::Memory))
            | RollFault::Memory => RollFailure::Memory,
            RollFault::NotRolled(RollError::NotBegun(error)) if is_no_space(&error) => {
                RollFailure::NoSpace
            }
            RollFault::NotRolled(RollError::NotBegun(_)) => RollFailure::NotBegun,
        }
    }
}

/// Returns whether a volume wasn't begun since the disk is full.
fn is_no_space<D: Drop>(error: &BeginVolumeError<D>) -> bool {
    matches!(
        error,
        BeginVolumeError::Disk(BeginError {
            error: DeviceError::NoSpace,
            ..
        })
    )
}

/// Why a server doesn't start with its folder.
#[derive(Debug, Drop, Error)]
pub enum StartFailure {
    /// The files can't be read.
    #[error("the volumes can't be read: {}{}", .0, advice_of(.0))]
    Unread(io::Error),
    /// A clock tells no time.
    #[error("the clock tells no time")]
    Clock,
    /// The folder leads to no book.
    #[error("{0}")]
    Folder(FolderRecoveryError),
    /// A server of these settings, by this clock, doesn't start with the book.
    #[error("{0}")]
    Start(StartError),
    /// The settings name no partner, and the book waits for one's answer: no volume has a lease.
    #[error("this directory was begun for a pair and never answered: begin in an empty one")]
    NeverAnswered,
    /// The settings name no partner, and the book waits for one's answer.
    #[error("this directory has leases and waits for its partner's answer: give it link and link_key again and start \
             the partner")]
    WaitsForPartner,
    /// There are other files than those that were read.
    #[error("the volumes changed while they were read")]
    Changed,
    /// A file of which nobody was told can't be removed.
    #[error("a file in which no volume was begun can't be removed: {0}")]
    NotRemoved(DeviceError),
    /// The last volume's file isn't opened again.
    #[error("the last volume isn't opened: {0}")]
    NotReopened(ReopenError),
    /// No further volume can begin: all of a server's were used, or its head leaves no room.
    #[error("no further volume can begin: both servers need new books")]
    NoFurther,
    /// The volume isn't begun: the disk failed, or it has no text.
    #[error("the volume isn't begun")]
    NotBegun,
    /// The same, since the disk is full.
    #[error("the volume isn't begun: {}", DeviceError::NoSpace)]
    NoSpace,
    /// The last volume isn't followed.
    #[error("the last volume isn't followed: {0}")]
    NotRolled(RollFailure),
    /// The book takes no line `restart`.
    #[error("the journal takes no line `restart`: {0}")]
    NotRestarted(ServeError),
    /// A growth was refused.
    #[error("out of memory")]
    Memory,
}

impl StartFailure {
    /// What it is, without the files that were made.
    pub(crate) fn of<D: Drop>(fault: BeginFault<D>) -> StartFailure {
        match fault {
            BeginFault::NotReopened(error) => StartFailure::NotReopened(error),
            BeginFault::NotBegun(BeginVolumeError::Full) => StartFailure::NoFurther,
            BeginFault::NotBegun(BeginVolumeError::Memory) | BeginFault::Memory => {
                StartFailure::Memory
            }
            BeginFault::NotBegun(error) if is_no_space(&error) => StartFailure::NoSpace,
            BeginFault::NotBegun(_) => StartFailure::NotBegun,
            BeginFault::NotRolled(fault) => StartFailure::NotRolled(RollFailure::of(fault)),
            BeginFault::NotRestarted(refusal) => StartFailure::NotRestarted(refusal),
        }
    }
}
