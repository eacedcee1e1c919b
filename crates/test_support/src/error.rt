//! Why nothing was drawn.

ghost use Rattle.std.specs.Prelude.{◌≡◌};
ghost use Rattle.test_support.specs.declared.error.DrawError.TheVariants.{Memory};

use std::alloc::{AllocError, AllocFailed};
use thiserror::Error;

/// Why it isn't known what a loss of power leaves of a folder.
#[derive(Clone, Copy, Debug, PartialEq, Eq, Error)]
pub enum DrawError {
    /// A growth was refused, now or earlier.
    #[error("out of memory")]
    Memory,
    /// Fewer files were given than are there for certain.
    #[error("a file is missing that is there for certain")]
    Missing,
}

impl From<AllocError> for DrawError {
    ghost from_gives = { λ _ e. e ≡ Memory };

    fn from(_error: AllocError) -> DrawError {
        DrawError::Memory
    }
}

impl<T: Drop> From<AllocFailed<T>> for DrawError {
    ghost from_gives = { λ _ e. e ≡ Memory };

    fn from(_error: AllocFailed<T>) -> DrawError {
        DrawError::Memory
    }
}
