//! Why octets are no frame.

ghost use Rattle.std.specs.Prelude.{◌≡◌};
ghost use Rattle.failover_message.specs.declared.error.LinkError.TheVariants.{Memory};

use std::alloc::{AllocError, AllocFailed};
use thiserror::Error;

/// Why octets of the link were refused. Where several apply it is the first of these.
#[derive(Clone, Copy, Debug, PartialEq, Eq, Error)]
pub enum LinkError {
    /// The length field is not 13 to 512, or is not the number of the octets behind it.
    #[error("a frame's length is 13 to 512 octets and is that of its octets")]
    Length,
    /// The kind is not 1 to 12.
    #[error("a frame's kind is 1 to 12")]
    Kind,
    /// The body has another length than its kind's, one of its fields spells no value, or the serial is not of
    /// its kind.
    #[error("a field of the frame spells no value")]
    Field,
    /// A growth was refused.
    #[error("out of memory")]
    Memory,
}

impl From<AllocError> for LinkError {
    ghost from_gives = { λ _ e. e ≡ Memory };

    fn from(_e: AllocError) -> LinkError {
        LinkError::Memory
    }
}

impl<T: Drop> From<AllocFailed<T>> for LinkError {
    ghost from_gives = { λ _ e. e ≡ Memory };

    fn from(_e: AllocFailed<T>) -> LinkError {
        LinkError::Memory
    }
}
