//! Why a notice isn't read or written.

ghost use Rattle.std.specs.Prelude.{◌≡◌};
ghost use Rattle.link_notices.specs.declared.error.NoticeError.TheVariants.{Memory};

use std::alloc::{AllocError, AllocFailed};
use thiserror::Error;

/// Why a notice wasn't read or written. A notice whose first word isn't known is no fault.
#[derive(Clone, Copy, Debug, PartialEq, Eq, Error)]
pub enum NoticeError {
    /// A notice has 1 to 4,096 octets.
    #[error("a notice has 1 to 4,096 octets")]
    Length,
    /// Behind `program` stand other words than a name and a version, each of 1 to 64 visible ASCII characters.
    #[error("a notice `program` has a name and a version, of 1 to 64 visible characters each")]
    Program,
    /// Behind `settings` stand other words than skew, mclt, life, transit, and 1 to 16 pools with their unit lengths.
    #[error("a notice `settings` has a skew, an mclt, a life, a transit, and 1 to 16 pools with unit lengths")]
    Settings,
    /// Behind `clock` stand other words than a number and a reading.
    #[error("a notice `clock` has a number and a reading")]
    Clock,
    /// Behind `clock-reply` stand other words than a number and two readings.
    #[error("a notice `clock-reply` has a number and two readings")]
    ClockReply,
    /// A growth was refused.
    #[error("out of memory")]
    Memory,
}

impl From<AllocError> for NoticeError {
    ghost from_gives = { λ _ e. e ≡ Memory };

    fn from(_e: AllocError) -> NoticeError {
        NoticeError::Memory
    }
}

impl<T: Drop> From<AllocFailed<T>> for NoticeError {
    ghost from_gives = { λ _ e. e ≡ Memory };

    fn from(_e: AllocFailed<T>) -> NoticeError {
        NoticeError::Memory
    }
}
