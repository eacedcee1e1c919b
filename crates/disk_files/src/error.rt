//! Why a directory wasn't opened.

use crate::space::advice_of;
use std::fs::TryLockError;
use std::io;
use thiserror::Error;

#[derive(Debug, Drop, Error)]
pub enum FolderError {
    /// Another process has the lock on the directory.
    #[error("another process writes to this directory")]
    Locked,
    /// The volume of this number has no file, though there are as many files of volumes, or more.
    #[error("volume {number} has no file")]
    Missing { number: usize },
    /// What has the name of the file of this volume is none: a folder, a link or another thing.
    #[error("what is named as volume {number} is no file")]
    NotAFile { number: usize },
    /// The system refused a call.
    #[error("the directory can't be opened: {}{}", .0, advice_of(.0))]
    System(io::Error),
}

impl From<io::Error> for FolderError {
    fn from(error: io::Error) -> FolderError {
        FolderError::System(error)
    }
}

impl From<TryLockError> for FolderError {
    fn from(error: TryLockError) -> FolderError {
        match error {
            TryLockError::WouldBlock => FolderError::Locked,
            TryLockError::Error(error) => FolderError::System(error),
        }
    }
}
