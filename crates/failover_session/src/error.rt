//! Why a talk ends.

ghost use Rattle.std.specs.Prelude.{◌≡◌};
ghost use Rattle.failover_session.specs.declared.error.SessionError.TheVariants.{Memory};

use locked_book::ServeError;
use std::alloc::{AllocError, AllocFailed};
use thiserror::Error;

/// Why a talk ended.
#[derive(Clone, Copy, Debug, PartialEq, Eq, Error)]
pub enum SessionError {
    /// What came is no frame, or not one that may come there; or a message whose serial isn't the next; or the partner
    /// has lost its journal.
    #[error("the partner sent what may not come there")]
    Frame,
    /// The pass is a stranger to the book, or the book refuses a message of the partner's.
    #[error("the book refuses it: {0}")]
    Serve(ServeError),
    /// A growth was refused.
    #[error("out of memory")]
    Memory,
}

impl From<AllocError> for SessionError {
    ghost from_gives = { λ _ e. e ≡ Memory };

    fn from(_error: AllocError) -> SessionError {
        SessionError::Memory
    }
}

impl<T: Drop> From<AllocFailed<T>> for SessionError {
    ghost from_gives = { λ _ e. e ≡ Memory };

    fn from(_error: AllocFailed<T>) -> SessionError {
        SessionError::Memory
    }
}
