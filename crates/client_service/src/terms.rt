//! By what a grant is told again.

use lead_time::{Skew, Transit};

/// By what a grant is told again: how young it is, and how far clocks and answers may be off.
#[derive(Clone, Copy, Debug, PartialEq, Eq)]
pub struct ReuseTerms {
    /// A grant of this age or more is never told again, in seconds: with 0 none is.
    pub floor: u32,
    /// The most by which the server's clock and true time differ.
    pub skew: Skew,
    /// The most by which an answer may be under way.
    pub transit: Transit,
}
