//! Why there are no settings, or no book of them.

ghost use Rattle.std.specs.Prelude.{◌≡◌};
ghost use Rattle.server_settings.specs.declared.error.OpenError.TheVariants.{Memory};

use std::alloc::AllocError;
use thiserror::Error;

/// Why there are no settings, or no book of them.
#[derive(Clone, Copy, Debug, PartialEq, Eq, Error)]
pub enum OpenError {
    /// A number or a pool is out of its limits; of a text, also that it is no settings' text.
    #[error("refused Settings")]
    Settings,
    /// Two pools have an address in common.
    #[error("refused Overlap")]
    Overlap,
    /// A growth was refused.
    #[error("out of memory")]
    Memory,
}

impl From<AllocError> for OpenError {
    ghost from_gives = { λ _ e. e ≡ Memory };

    fn from(_error: AllocError) -> OpenError {
        OpenError::Memory
    }
}
