//! Why words are no command.

ghost use Rattle.std.specs.Prelude.{◌≡◌};
ghost use Rattle.node_args.specs.declared.error.ArgsError.TheVariants.{Memory};

use std::alloc::AllocError;
use thiserror::Error;

/// Why words are no command.
#[derive(Clone, Copy, Debug, PartialEq, Eq, Error)]
pub enum ArgsError {
    /// They are none of the node's commands.
    #[error("fault Usage")]
    Usage,
    /// The words that vouch for the partner's stop aren't said.
    #[error("partner-down wants the words \"the partner is stopped\": say them only of a partner that serves nobody")]
    NotVouched,
    /// The words that vouch for a clock that was set aren't said.
    #[error("clock-accepted wants the words \"the clock is right\": say them only of a clock that you compared with another")]
    ClockNotVouched,
    /// A growth was refused.
    #[error("fault Memory")]
    Memory,
}

impl From<AllocError> for ArgsError {
    ghost from_gives = { λ _ e. e ≡ Memory };

    fn from(_error: AllocError) -> ArgsError {
        ArgsError::Memory
    }
}
