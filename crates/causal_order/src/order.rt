//! Why one line stands before another.

use crate::entries::Chain;

/// How one line is known to stand before another.
#[derive(Debug, Drop)]
pub enum Precedes {
    /// A chain leads from the first line to the second.
    Chain(Chain),
    /// A chain from the first line and a chain to the second lie further apart than both skews.
    Clock(Chain, Chain),
}
