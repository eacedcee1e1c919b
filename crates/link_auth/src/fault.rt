//! Why a connection ends.

ghost use Rattle.std.specs.Prelude.{◌≡◌};
ghost use Rattle.link_auth.specs.declared.fault.LinkFault.TheVariants.{Memory};

use std::alloc::{AllocError, AllocFailed};
use thiserror::Error;

/// Why a connection isn't gone on with.
#[derive(Clone, Copy, Debug, PartialEq, Eq, Error)]
pub enum LinkFault {
    /// A record's length is more than 16,384.
    #[error("a record of more than 16,384 octets")]
    TooLong,
    /// A proof isn't the other end's, or a record's code isn't that of its number and octets: it was made, changed,
    /// repeated, left out or sent back by somebody who hasn't the key.
    #[error("octets that somebody sent who hasn't the key")]
    Forged,
    /// The numbers of this direction are used up: 2^64 - 1 records were sent.
    #[error("no number is left for a record")]
    Spent,
    /// A growth was refused.
    #[error("out of memory")]
    Memory,
}

impl From<AllocError> for LinkFault {
    ghost from_gives = { λ _ e. e ≡ Memory };

    fn from(_e: AllocError) -> LinkFault {
        LinkFault::Memory
    }
}

impl<T: Drop> From<AllocFailed<T>> for LinkFault {
    ghost from_gives = { λ _ e. e ≡ Memory };

    fn from(_e: AllocFailed<T>) -> LinkFault {
        LinkFault::Memory
    }
}
