//! All that a certificate shows over two journals.

ghost use Rattle.std.specs.Prelude.{◌≡◌, IfOk};
ghost use Rattle.causal_order.specs.Journals.{open_of};
ghost use Rattle.causal_order.specs.Bounds.{reading_of};
ghost use Rattle.evidence_report.specs.Reports.{IsSideReport, IsReport};

use crate::citing::cited_lines;
use crate::outside::foreign_reports;
use crate::pieces::piece_reports;
use crate::report::{Report, SideReport};
use auditor::LineSource;
use binding_rules::Role;
use causal_order::{Certificate, Lines, Ref};
use lead_time::{Reading, Skew, Transit};
use std::alloc::{AllocError, Global};

/// What the clock showed at the side's first line.
fn opening<L: Lines>(lines: &L, side: Role) -> Option<Reading>
    ensures { result ≡ reading_of (L.journals lines.now) (open_of side) }
{
    let line = lines.line(Ref { side, number: 1 })?;
    Some(line.reading)
}

/// What is shown of the side's journal.
fn side_report<S: LineSource>(source: &S, side: Role) -> SideReport
    ensures { IsSideReport (S.journals source.now) side result }
{
    SideReport {
        volume: source.volume(side),
        opened: opening(source, side),
        closed: source.close_reading(side),
    }
}

/// All that the certificate shows over the journals of the source, with clocks within the skew of true time and
/// answers that reach their clients within the transit. `AllocError` where a growth was refused.
pub fn report_on<'a, S: LineSource>(
    alloc: Global,
    source: &S,
    certificate: &'a Certificate,
    skew: Skew,
    transit: Transit,
) -> Result<Report<'a>, AllocError>
    ensures { IfOk result (IsReport (S.journals source.now) skew transit certificate.now) }
{
    let pieces = piece_reports(alloc, source, certificate, skew)?;
    let foreign = foreign_reports(alloc, source, certificate, skew)?;
    let cited = cited_lines(alloc, source, certificate, &pieces)?;
    Ok(Report {
        certificate,
        skew,
        transit,
        primary: side_report(source, Role::Primary),
        secondary: side_report(source, Role::Secondary),
        pieces,
        foreign,
        cited,
    })
}
