//! What is asked of a search.

use client_id::Duid;
use lead_time::{Reading, Skew, Transit};
use prefix_range::Prefix;

/// Whether a client held a whole prefix from one moment up to another, and the bounds under which it must be shown.
#[derive(Clone, Copy, Debug, PartialEq, Eq)]
pub struct Query {
    pub holder: Duid,
    pub prefix: Prefix,
    /// In milliseconds of true time.
    pub from: Reading,
    /// The first moment past the interval.
    pub to: Reading,
    /// The most by which a reading of either journal and true time differ.
    pub skew: Skew,
    /// The most by which an answer reaches its client after its grant.
    pub transit: Transit,
}

/// Which client held a whole prefix at a moment, and the bounds under which it must be shown.
#[derive(Clone, Copy, Debug, PartialEq, Eq)]
pub struct HolderQuery {
    pub prefix: Prefix,
    /// In milliseconds of true time.
    pub at: Reading,
    /// The most by which a reading of either journal and true time differ.
    pub skew: Skew,
    /// The most by which an answer reaches its client after its grant.
    pub transit: Transit,
}
