//! What a certificate shows over two journals, number by number: each line that it cites, what the clock showed there,
//! and what those readings come to.
//!
//! [`report_on`] looks up what a certificate names: of each piece the grant, the reading by which it was surely written
//! and the one from which it was, and the releases that could have ended it; of each other client's delegation why it
//! stands outside. Of the releases it tells those that the piece's entries name and the first that none names, and counts
//! the others: so it grows with the certificate and the journals, and not with each piece times each release. The one
//! that a refusal rests on is always told ([`refusal_is_told`]). Nothing is judged here anew: `fault` of a piece's report
//! or of a foreign entry's says which comparison of the definitions fails first, and [`failure_of`] on which one a refusal
//! rests, both with their numbers. Of an accepted certificate nothing is missing ([`accepted_is_whole`]).
//!
//! specs/Marks, Pieces, Others, Cited and Reports are what is shown, specs/Faults and Failures the comparisons; what
//! stands in them behind "for bodies" no other crate needs.
//!
//! ```text
//! let report = report_on(alloc, &source, &certificate, skew, transit)?;
//! let failure = failure_of(&source, &report, &audit(&source, &certificate, skew, transit));
//! ```
#![tactic(auto)]

mod chains;
mod citing;
mod failing;
mod faults;
mod foreign_fault;
mod foreign_report;
mod laws;
mod line_order;
mod mark;
mod orders;
mod outside;
mod piece_fault;
mod piece_report;
mod pieces;
mod releases;
mod report;
mod reported_delegation;
mod reporting;
mod told_releases;

pub use chains::mark_at;
pub use failing::failure_of;
pub use faults::{Failure, ForeignFault, PieceFault};
pub use foreign_report::{ForeignEvidence, ForeignReport, ReportedDelegation};
pub use laws::{accepted_is_whole, refusal_is_told};
pub use line_order::in_order;
pub use mark::{LineReading, OrderReport};
pub use piece_report::{ClearReport, PieceReleases, PieceReport, ReleaseReport, ReportedGrant};
pub use releases::releases_of;
pub use report::{CitedLine, Report, SideReport};
pub use reported_delegation::told_at;
pub use reporting::report_on;
