//! Why no units are chosen.

use thiserror::Error;

#[derive(Clone, Copy, Debug, PartialEq, Eq, Error)]
pub enum BalanceError {
    /// A growth was refused.
    #[error("out of memory")]
    Memory,
}
