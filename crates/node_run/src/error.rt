//! Why a node gives no journal.

ghost use Rattle.std.specs.Prelude.{◌≡◌};
ghost use Rattle.node_run.specs.declared.error.RunError.TheVariants.{Memory};

use std::alloc::AllocFailed;
use thiserror::Error;

/// Why a node gives no journal.
#[derive(Clone, Copy, Debug, PartialEq, Eq, Error)]
pub enum RunError {
    /// The address can't be listened at, or the clock tells no time.
    #[error("fault Net")]
    Net,
    /// The book and its receipts disagree.
    #[error("fault Book")]
    Book,
    /// A growth was refused.
    #[error("fault Memory")]
    Memory,
}

impl<T: Drop> From<AllocFailed<T>> for RunError {
    ghost from_gives = { λ _ e. e ≡ Memory };

    fn from(_error: AllocFailed<T>) -> RunError {
        RunError::Memory
    }
}
