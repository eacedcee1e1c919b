//! What is shown of a piece.

use crate::mark::{LineReading, OrderReport};
use causal_order::{Chain, Clear, Piece};
use journal_lines::Lease;
use lead_time::Reading;

/// A grant, and what its server's clock showed at it.
#[derive(Clone, Copy, Debug, PartialEq, Eq)]
pub struct ReportedGrant {
    pub lease: Lease,
    pub reading: Reading,
}

/// How an entry of a piece clears a release.
#[derive(Clone, Copy, Debug)]
pub enum ClearReport<'a> {
    /// It was written before the grant.
    Before(OrderReport<'a>),
    /// It was written after the piece's end: the chain to the release, and the reading at its first line, from which on
    /// the release was written, the skew counted. `None` where it is no chain to the release.
    After(&'a Chain, Option<LineReading>),
}

/// A release of what a piece's grant gave.
#[derive(Clone, Copy, Debug)]
pub struct ReleaseReport<'a> {
    /// The line, and its reading.
    pub release: LineReading,
    /// The entry that clears it, and how: that of the entries which name it that holds, else the first; `None` where
    /// none names it.
    pub entry: Option<(&'a Clear, ClearReport<'a>)>,
    /// Whether an entry discharges it.
    pub is_discharged: bool,
}

/// What is shown of the releases of what a piece's grant gave.
#[derive(Debug, Drop)]
pub struct PieceReleases<'a> {
    /// Each that an entry of the piece names, and the first that none names, in the order of their lines.
    pub told: Vec<ReleaseReport<'a>>,
    /// How many more there are. No entry names them.
    pub more: u64,
}

/// What is shown of a piece.
#[derive(Debug, Drop)]
pub struct PieceReport<'a> {
    pub piece: &'a Piece,
    /// What the line that it names grants, if it grants anything.
    pub granted: Option<ReportedGrant>,
    /// The last line of the chain from the grant: by its reading and the skew the grant was written. `None` where it is
    /// no chain from the grant.
    pub latest: Option<LineReading>,
    /// The first line of the chain to the grant: at its reading less the skew, or later, the grant was written. `None`
    /// where it is no chain to the grant.
    pub earliest: Option<LineReading>,
    /// The releases of what the grant gave.
    pub releases: PieceReleases<'a>,
}
