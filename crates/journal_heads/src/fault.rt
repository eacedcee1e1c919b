//! Why the heads of journals say no bounds.

ghost use Rattle.std.specs.Prelude.{◌≡◌};
ghost use Rattle.journal_heads.specs.declared.fault.HeadsFault.TheVariants.{Memory};

use std::alloc::AllocError;
use thiserror::Error;

/// Why the heads of journals say no bounds on clocks and answers.
#[derive(Clone, Copy, Debug, PartialEq, Eq, Error)]
pub enum HeadsFault {
    /// These two files, by their counts from 0, say different ones.
    #[error("two files say different bounds")]
    Differ { first: usize, second: usize },
    /// No file says any.
    #[error("no file says any bounds")]
    Silent,
    /// A growth was refused.
    #[error("out of memory")]
    Memory,
}

impl From<AllocError> for HeadsFault {
    ghost from_gives = { λ _ e. e ≡ Memory };

    fn from(_error: AllocError) -> HeadsFault {
        HeadsFault::Memory
    }
}
