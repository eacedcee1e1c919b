//! Why files answer nothing.

ghost use Rattle.std.specs.Prelude.{◌≡◌};
ghost use Rattle.archive_files.specs.declared.error.FilesError.TheVariants.{Memory, Archive};

use journal_archive::{ArchiveError, JournalFault};
use std::alloc::{AllocError, AllocFailed};
use thiserror::Error;

/// Why files answer nothing.
#[derive(Clone, Copy, Debug, PartialEq, Eq, Error)]
pub enum FilesError {
    /// Their volumes can't be of one pair of servers.
    #[error("{0}")]
    Archive(ArchiveError),
    /// The settings of these two files' servers differ, though they should be of one pair.
    #[error("files {first} and {second} are of two pairs: their settings differ")]
    OtherPair { first: usize, second: usize },
    /// This file's volume begins otherwise than the volume before it, whose file is read too, names it: in this line
    /// first.
    #[error("file {file}: line {line} isn't what the volume before says")]
    OtherHead { file: usize, line: usize },
    /// This file has the name of a volume's and can't be read: who knows the names of the files tells.
    #[error("file {file} can't be read")]
    Unread { file: usize },
    /// This file couldn't be read again, or has another volume now.
    #[error("file {file} isn't what it was")]
    Changed { file: usize },
    /// This file has this fault, its first, which its edges don't show.
    #[error("file {file}: {fault}")]
    Faulty { file: usize, fault: JournalFault },
    /// Zero octets stand in this file where this line should, though its volume isn't the last.
    #[error("file {file}: zero octets stand where line {line} should")]
    Torn { file: usize, line: usize },
    /// A growth was refused.
    #[error("out of memory")]
    Memory,
}

impl From<AllocError> for FilesError {
    ghost from_gives = { λ _ e. e ≡ Memory };

    fn from(_e: AllocError) -> FilesError {
        FilesError::Memory
    }
}

impl<T: Drop> From<AllocFailed<T>> for FilesError {
    ghost from_gives = { λ _ e. e ≡ Memory };

    fn from(_e: AllocFailed<T>) -> FilesError {
        FilesError::Memory
    }
}
