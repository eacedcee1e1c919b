//! Why a connection that waits isn't let in.

ghost use Rattle.std.specs.Prelude.{◌≡◌};
ghost use Rattle.link_auth.specs.declared.entry_fault.EntryFault.TheVariants.{Memory};

use std::alloc::AllocError;
use thiserror::Error;

/// Why a connection that waits isn't let in.
#[derive(Clone, Copy, Debug, PartialEq, Eq, Error)]
pub enum EntryFault {
    /// Its other end hasn't the key: its proof is wrong, or a record behind it.
    #[error("octets that somebody sent who hasn't the key")]
    Forged,
    /// What it said first isn't the partner's CONNECT.
    #[error("its first frame isn't the partner's CONNECT")]
    Stranger,
    /// A growth was refused.
    #[error("out of memory")]
    Memory,
}

impl From<AllocError> for EntryFault {
    ghost from_gives = { λ _ e. e ≡ Memory };

    fn from(_e: AllocError) -> EntryFault {
        EntryFault::Memory
    }
}
