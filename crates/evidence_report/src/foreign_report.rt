//! What is shown of another client's delegation.

use crate::mark::{LineReading, OrderReport};
use attribution::Delegation;
use causal_order::{Chain, Foreign, Ref};
use lead_time::Reading;

/// A delegation that a line tells of, and what its server's clock showed there.
#[derive(Clone, Copy, Debug, PartialEq, Eq)]
pub struct ReportedDelegation {
    pub delegation: Delegation,
    pub reading: Reading,
}

/// What is shown of why a delegation doesn't touch the interval.
#[derive(Clone, Copy, Debug)]
pub enum ForeignEvidence<'a> {
    /// It ended before: the chain from the line, and the reading at its last line, by which, and the skew, it was
    /// written. `None` where it is no chain from the line.
    Early(&'a Chain, Option<LineReading>),
    /// It began after: the chain to the line, and the reading at its first line, from which on, less the skew, it was
    /// written. `None` where it is no chain to the line.
    Late(&'a Chain, Option<LineReading>),
    /// It was given back before.
    Released {
        release: Ref,
        /// Whether the line gives the delegation back.
        gives_back: bool,
        /// Why it came after the grant.
        order: OrderReport<'a>,
        /// The chain from the release, and the reading at its last line, by which, and the skew, it was written.
        chain: &'a Chain,
        latest: Option<LineReading>,
    },
}

/// What is shown of another client's delegation.
#[derive(Clone, Copy, Debug)]
pub struct ForeignReport<'a> {
    pub entry: &'a Foreign,
    /// What the line that it names tells of, if it tells of a delegation.
    pub told: Option<ReportedDelegation>,
    pub outside: ForeignEvidence<'a>,
}
