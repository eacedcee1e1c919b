//! Why words are no command.

use thiserror::Error;

/// Why words are no command.
#[derive(Clone, Copy, Debug, PartialEq, Eq, Error)]
pub enum UsageError {
    #[error("fault Usage")]
    Usage,
    /// A growth was refused.
    #[error("fault Memory")]
    Memory,
}
