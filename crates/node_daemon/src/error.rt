//! Why a daemon ends by itself.

use daemon_endpoints::ReceiveError;
use disk_files::FolderError;
use folder_start::{RollFailure, StartFailure};
use lead_time::Reading;
use server_core::{EndFault, VolumeCommitError};
use server_log::moment_words;
use server_start::StartError;
use std::alloc::Global;
use std::io;
use std::net::SocketAddr;
use thiserror::Error;

/// Why a daemon ended by itself: it has to be started again.
#[derive(Debug, Drop, Error)]
pub enum DaemonError {
    /// The journal wasn't written: what was held back is never told.
    #[error("{0}")]
    NotCommitted(VolumeCommitError),
    /// The volume was to be followed, and wasn't.
    #[error("the volume isn't followed: {0}")]
    NotRolled(RollFailure),
    /// The volume that was closed wasn't ended.
    #[error("the volume isn't ended: {0}")]
    NotEnded(EndFault),
    /// The file of the open volume has no link any more.
    #[error("the file of volume {volume} was removed while it was served, and with it what was granted in it: don't \
             start this server again, and see \"A lost disk\"")]
    VolumeUnlinked { volume: u32 },
    /// Nobody can be heard any more.
    #[error("{0}")]
    Hearing(ReceiveError),
    /// It can't wait for what comes.
    #[error("can't wait for what comes: {0}")]
    Rest(io::Error),
    /// A growth was refused.
    #[error("out of memory")]
    Memory,
}

impl From<ReceiveError> for DaemonError {
    fn from(error: ReceiveError) -> DaemonError {
        DaemonError::Hearing(error)
    }
}

impl DaemonError {
    /// Returns whether the disk failed, so that the journal can't be written.
    pub fn is_disk(&self) -> bool {
        matches!(
            self,
            DaemonError::NotCommitted(_)
                | DaemonError::NotEnded(_)
                | DaemonError::NotRolled(
                    RollFailure::NotEnded(_) | RollFailure::NotBegun | RollFailure::NoSpace,
                )
        )
    }
}

/// Why a directory isn't served, or isn't served any more.
#[derive(Debug, Drop, Error)]
pub enum ServeFailure {
    /// The directory isn't opened: another process has the lock, say.
    #[error("{0}")]
    Folder(FolderError),
    /// The server doesn't start with what the directory has.
    #[error("{0}")]
    Start(StartFailure),
    /// The clock reads more than twice the skew below the journal's last line: both, as RFC 3339 writes them.
    #[error("set the clock right: it reads {now}, and the journal {last}")]
    ClockBehind {
        now: String,
        last: String,
    },
    /// A socket can't be opened at this address.
    #[error("can't listen at {address}: {error}")]
    Listen {
        address: SocketAddr,
        error: io::Error,
    },
    /// The control socket can't be made.
    #[error("the control socket can't be made: {0}")]
    Control(io::Error),
    /// The daemon ended by itself.
    #[error("{0}")]
    Ended(DaemonError),
}

/// What the clock and the journal's last line read, where a server doesn't start since its clock is behind.
fn behind_in(failure: &StartFailure) -> Option<(Reading, Reading)> {
    match failure {
        StartFailure::Start(StartError::ClockBehind { now, last }) => Some((*now, *last)),
        _ => None,
    }
}

impl ServeFailure {
    /// The clock is behind the journal's last line.
    fn behind(alloc: Global, now: Reading, last: Reading) -> ServeFailure {
        match (moment_words(alloc, now), moment_words(alloc, last)) {
            (Ok(now), Ok(last)) => ServeFailure::ClockBehind { now, last },
            (Err(_), _) | (_, Err(_)) => ServeFailure::Start(StartFailure::Memory),
        }
    }

    /// Why a server doesn't start.
    pub(crate) fn of_start(alloc: Global, failure: StartFailure) -> ServeFailure {
        if let Some((now, last)) = behind_in(&failure) {
            return ServeFailure::behind(alloc, now, last);
        }
        match failure {
            StartFailure::Clock => ServeFailure::no_time(),
            failure => ServeFailure::Start(failure),
        }
    }

    /// A clock tells no time.
    pub(crate) fn no_time() -> ServeFailure {
        ServeFailure::Ended(DaemonError::Hearing(ReceiveError::Clock))
    }
}
