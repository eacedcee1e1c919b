//! All that a certificate shows.

use crate::foreign_report::ForeignReport;
use crate::piece_report::PieceReport;
use causal_order::{Certificate, Ref};
use journal_lines::Line;
use lead_time::{Reading, Skew, Transit};

/// What is shown of one side's journal.
#[derive(Clone, Copy, Debug, PartialEq, Eq)]
pub struct SideReport {
    /// Which volume of all that its server wrote it is, from 1.
    pub volume: u32,
    /// What the clock showed at its first line.
    pub opened: Option<Reading>,
    /// What the clock showed at its close line.
    pub closed: Reading,
}

/// A line that a certificate cites.
#[derive(Clone, Copy, Debug)]
pub struct CitedLine {
    pub at: Ref,
    pub line: Line,
}

/// What a certificate shows over two journals, with clocks within this skew of true time and answers that reach their
/// clients within this transit.
#[derive(Debug, Drop)]
pub struct Report<'a> {
    pub certificate: &'a Certificate,
    pub skew: Skew,
    pub transit: Transit,
    pub primary: SideReport,
    pub secondary: SideReport,
    /// One for each piece of the certificate, in its order.
    pub pieces: Vec<PieceReport<'a>>,
    /// One for each foreign entry of the certificate, in its order.
    pub foreign: Vec<ForeignReport<'a>>,
    /// Each line that the certificate names, or that a piece's report tells of as a release, once: the primary's before
    /// the secondary's, and then by number.
    pub cited: Vec<CitedLine>,
}
