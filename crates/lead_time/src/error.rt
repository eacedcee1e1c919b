//! Why a number is no time.

use thiserror::Error;

#[derive(Clone, Copy, Debug, PartialEq, Eq, Error)]
pub enum LeadTimeError {
    /// A reading is at most 2^48 ms.
    #[error("a reading is at most 2^48 ms")]
    ReadingTooLarge,
    /// An end is at most 2^49 ms.
    #[error("an end is at most 2^49 ms")]
    EndTooLarge,
    /// A skew is at most a day.
    #[error("a skew is at most 86,400,000 ms")]
    SkewTooLarge,
    /// A transit is at most an hour.
    #[error("a transit is at most 3,600,000 ms")]
    TransitTooLarge,
}
