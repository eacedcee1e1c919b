//! What is shown of pieces.

ghost use Rattle.std.specs.Prelude.{IfOk};
ghost use Rattle.evidence_report.specs.Marks.{IsGrantedAt};
ghost use Rattle.evidence_report.specs.Pieces.{EndsGrant, AreReleaseReports, IsPieceReport};
ghost use Rattle.evidence_report.specs.Reports.{AreShown};

use crate::chains::{earliest_mark, latest_mark};
use crate::piece_report::{PieceReleases, PieceReport, ReportedGrant};
use crate::releases::{release_reports, releases_of};
use crate::reported_delegation::granted_at;
use attribution::Delegation;
use auditor::LineSource;
use causal_order::{Certificate, Piece};
use lead_time::Skew;
use std::alloc::{AllocError, Global};

/// What is shown of the releases of what the piece's grant gave.
fn releases_of_grant<'a, S: LineSource>(
    alloc: Global,
    source: &S,
    piece: &'a Piece,
    granted: &Option<ReportedGrant>,
    skew: Skew,
) -> Result<PieceReleases<'a>, AllocError>
    requires { IsGrantedAt (S.journals source.now) piece.now.grant granted.now }
    ensures { IfOk result (AreReleaseReports (S.journals source.now) skew piece.now
        (EndsGrant (S.journals source.now) piece.now)) }
{
    let Some(granted) = granted else {
        return Ok(PieceReleases {
            told: Vec::new(alloc),
            more: 0,
        });
    };
    let delegation = Delegation::of_lease(&granted.lease);
    let releases = releases_of(alloc, source, &delegation)?;
    let shown = release_reports(alloc, source, piece, &delegation, &releases, skew)?;
    Ok(shown)
}

/// What is shown of a piece.
fn piece_report<'a, S: LineSource>(
    alloc: Global,
    source: &S,
    piece: &'a Piece,
    skew: Skew,
) -> Result<PieceReport<'a>, AllocError>
    ensures { IfOk result (IsPieceReport (S.journals source.now) skew piece.now) }
{
    let granted = granted_at(source, piece.grant);
    let latest = latest_mark(source, &piece.latest, piece.grant);
    let earliest = earliest_mark(source, &piece.earliest, piece.grant);
    let releases = releases_of_grant(alloc, source, piece, &granted, skew)?;
    Ok(PieceReport {
        piece,
        granted,
        latest,
        earliest,
        releases,
    })
}

/// What is shown of each piece.
pub fn piece_reports<'a, S: LineSource>(
    alloc: Global,
    source: &S,
    certificate: &'a Certificate,
    skew: Skew,
) -> Result<Vec<PieceReport<'a>>, AllocError>
    ensures { IfOk result
        (λ v. AreShown (IsPieceReport (S.journals source.now) skew) certificate.now.pieces v.items) }
{
    let mut pieces = Vec::new(alloc);
    for piece in certificate.pieces.as_slice() {
        let shown = piece_report(alloc, source, piece, skew)?;
        pieces.push(shown)?;
    }
    Ok(pieces)
}
