//! Why a text is no moment.

use lead_time::Reading;
use std::alloc::AllocError;
use thiserror::Error;

/// Why a text is no moment.
#[derive(Clone, Copy, Debug, PartialEq, Eq, Error)]
pub enum ReportTimeError {
    /// It is a number that may be seconds or milliseconds.
    #[error("it may be seconds or milliseconds")]
    SecondsOrMilliseconds(u64),
    /// It is a date whose zone has a name that isn't UTC's.
    #[error("its zone's name may mean several offsets")]
    ZoneName,
    /// It is a date and a time without an offset from UTC.
    #[error("it has no offset from UTC")]
    NoOffset,
    /// It is a date and a time without an offset from UTC, which clocks of the zone show at these two moments.
    #[error("clocks of the zone show it twice")]
    Twice(Reading, Reading),
    /// It is a date and a time without an offset from UTC, which clocks of the zone never show.
    #[error("clocks of the zone never show it")]
    Never,
    /// It is none of what is read.
    #[error("it is no time")]
    NoTime,
    /// A growth was refused.
    #[error("out of memory")]
    Memory,
}

impl From<AllocError> for ReportTimeError {
    fn from(_error: AllocError) -> ReportTimeError {
        ReportTimeError::Memory
    }
}
