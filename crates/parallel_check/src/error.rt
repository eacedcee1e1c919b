//! Why there are no verdicts.

ghost use Rattle.std.specs.Prelude.{◌≡◌};
ghost use Rattle.parallel_check.specs.declared.error.CheckError.TheVariants.{Memory};

use std::alloc::{AllocError, AllocFailed};
use thiserror::Error;

/// Why certificates have no verdicts.
#[derive(Clone, Copy, Debug, PartialEq, Eq, Error)]
pub enum CheckError {
    /// The number of workers isn't 1 to 64.
    #[error("certificates are audited by 1 to 64 workers")]
    Workers,
    /// A growth was refused.
    #[error("out of memory")]
    Memory,
}

impl From<AllocError> for CheckError {
    ghost from_gives = { λ _ e. e ≡ Memory };

    fn from(_e: AllocError) -> CheckError {
        CheckError::Memory
    }
}

impl<T: Drop> From<AllocFailed<T>> for CheckError {
    ghost from_gives = { λ _ e. e ≡ Memory };

    fn from(_e: AllocFailed<T>) -> CheckError {
        CheckError::Memory
    }
}
