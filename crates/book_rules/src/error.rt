//! Why lines can't be replayed.

ghost use Rattle.std.specs.Prelude.{◌≡◌};
ghost use Rattle.book_rules.specs.declared.error.ReplayError.TheVariants.{Memory};

use crate::rule::Rule;
use std::alloc::AllocError;
use thiserror::Error;

/// Why lines lead to no table.
#[derive(Clone, Copy, Debug, PartialEq, Eq, Error)]
pub enum ReplayError {
    /// The line of this number, counted from 1, is the first that breaks a rule, and this is the least that it breaks.
    #[error("line {line} breaks rule {rule}")]
    Broken { line: u32, rule: Rule },
    /// A growth was refused.
    #[error("out of memory")]
    Memory,
}

impl From<AllocError> for ReplayError {
    ghost from_gives = { λ _ e. e ≡ Memory };

    fn from(_error: AllocError) -> ReplayError {
        ReplayError::Memory
    }
}
