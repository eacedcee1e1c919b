//! Lines with the readings of their clocks.

use causal_order::{Chain, Ref};
use lead_time::Reading;

/// A line, and what its server's clock showed when it was written.
#[derive(Clone, Copy, Debug, PartialEq, Eq)]
pub struct LineReading {
    pub at: Ref,
    pub reading: Reading,
}

/// Why one line was written before another.
#[derive(Clone, Copy, Debug)]
pub enum OrderReport<'a> {
    /// A chain is named: whether it leads from the one line to the other, by two lines or more.
    Chain {
        chain: &'a Chain,
        leads: bool,
    },
    /// Two chains are named: the reading by which the one line was surely written, the skew counted, and the reading
    /// from which the other was. `None` where a chain is none from, or to, its line.
    Clock {
        before: &'a Chain,
        latest: Option<LineReading>,
        after: &'a Chain,
        earliest: Option<LineReading>,
    },
}
