//! Why an event doesn't happen.

ghost use Rattle.std.specs.Prelude.{◌≡◌};
ghost use Rattle.pair_world.specs.declared.error.WorldError.TheVariants.{Memory};

use order_book::BookError;
use std::alloc::{AllocError, AllocFailed};
use thiserror::Error;

/// Why an event doesn't happen in a world. A refusal leaves the world as it was.
#[derive(Clone, Copy, Debug, PartialEq, Eq, Error)]
pub enum WorldError {
    /// The clock is further from the true moment than the skew; or true time would pass beyond 2^48.
    #[error("the clock is off")]
    ClockOff,
    /// The server is stopped.
    #[error("the server is stopped")]
    Stopped,
    /// The server runs: only a stopped one begins again.
    #[error("the server runs")]
    Running,
    /// The partner never sent such a message.
    #[error("no such message was sent")]
    NoMessage,
    /// The partner runs: only a stopped one is taken for down.
    #[error("the partner runs")]
    PartnerRuns,
    /// The server's book refuses.
    #[error("refused by the book: {0}")]
    Book(BookError),
    /// A growth was refused.
    #[error("out of memory")]
    Memory,
}

impl From<AllocError> for WorldError {
    ghost from_gives = { λ _ e. e ≡ Memory };

    fn from(_error: AllocError) -> WorldError {
        WorldError::Memory
    }
}

impl<T: Drop> From<AllocFailed<T>> for WorldError {
    ghost from_gives = { λ _ e. e ≡ Memory };

    fn from(_error: AllocFailed<T>) -> WorldError {
        WorldError::Memory
    }
}
