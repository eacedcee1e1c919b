//! Why there is no certificate.

ghost use Rattle.std.specs.Prelude.{◌≡◌};
ghost use Rattle.plain_search.specs.declared.error.FindError.TheVariants.{Memory};

use std::alloc::{AllocError, AllocFailed};
use thiserror::Error;

/// Why a search gives no certificate.
#[derive(Clone, Copy, Debug, PartialEq, Eq, Error)]
pub enum FindError {
    /// The journals show no plain evidence of what is asked.
    #[error("none")]
    NoneFound,
    /// What single lines show of it has more lines than a certificate's text may have.
    #[error("more lines than a certificate may have")]
    TooLong,
    /// A growth was refused.
    #[error("out of memory")]
    Memory,
}

impl From<AllocError> for FindError {
    ghost from_gives = { λ _ e. e ≡ Memory };

    fn from(_e: AllocError) -> FindError {
        FindError::Memory
    }
}

impl<T: Drop> From<AllocFailed<T>> for FindError {
    ghost from_gives = { λ _ e. e ≡ Memory };

    fn from(_e: AllocFailed<T>) -> FindError {
        FindError::Memory
    }
}
