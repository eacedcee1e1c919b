//! Why octets are no zone.

use thiserror::Error;

/// Why a zone can't be had.
#[derive(Clone, Copy, Debug, PartialEq, Eq, Error)]
pub enum ZoneError {
    /// The octets are no zone's file.
    #[error("the octets are no zone's file")]
    NoZone,
    /// A growth was refused.
    #[error("out of memory")]
    Memory,
}
