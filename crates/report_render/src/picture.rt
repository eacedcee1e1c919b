//! What is drawn. Moments and readings are milliseconds since 1970.

use causal_order::Ref;

/// A lease, of which it isn't sure when it began and when it ended.
#[derive(Clone, Copy, Debug, PartialEq, Eq)]
pub struct LeaseBar {
    /// The line that tells of it.
    pub at: Ref,
    /// It began no earlier.
    pub earliest: u64,
    /// It lasted for sure from here up to there.
    pub sure: Option<(u64, u64)>,
    /// It ended no later.
    pub latest: u64,
}

/// A line, at what its server's clock showed.
#[derive(Clone, Copy, Debug, PartialEq, Eq)]
pub struct LineDot {
    pub at: Ref,
    pub reading: u64,
}

/// A message, from the line that sent it to the one that took it.
#[derive(Clone, Copy, Debug, PartialEq, Eq)]
pub struct MessageArrow {
    pub sent: LineDot,
    pub taken: LineDot,
}

/// A time line.
#[derive(Debug, Drop)]
pub struct Picture {
    /// The interval of the certificate.
    pub from: u64,
    pub to: u64,
    /// The moment that was asked about, where it was one.
    pub asked: Option<u64>,
    /// The pieces' leases, and behind them other clients' delegations.
    pub bars: Vec<LeaseBar>,
    pub dots: Vec<LineDot>,
    pub arrows: Vec<MessageArrow>,
}
