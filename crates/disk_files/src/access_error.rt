//! Why records aren't kept, or not read back.

use access_records::AccessError;
use disk_model::DeviceError;
use std::alloc::AllocError;
use std::io;
use thiserror::Error;

#[derive(Debug, Drop, Error)]
pub enum KeepError {
    /// The disk refused a call of an open file.
    #[error("the disk failed")]
    Disk(DeviceError),
    /// The system refused to open or read a file.
    #[error("the file can't be opened or read: {0}")]
    System(io::Error),
    /// A file has another text than records have.
    #[error("{0}")]
    Text(AccessError),
    /// A file has the records of another side or volume.
    #[error("the file has the records of another volume")]
    OtherVolume,
    /// A growth was refused.
    #[error("out of memory")]
    Memory,
}

impl From<DeviceError> for KeepError {
    fn from(error: DeviceError) -> KeepError {
        KeepError::Disk(error)
    }
}

impl From<io::Error> for KeepError {
    fn from(error: io::Error) -> KeepError {
        KeepError::System(error)
    }
}

impl From<AccessError> for KeepError {
    fn from(error: AccessError) -> KeepError {
        KeepError::Text(error)
    }
}

impl From<AllocError> for KeepError {
    fn from(_e: AllocError) -> KeepError {
        KeepError::Memory
    }
}
