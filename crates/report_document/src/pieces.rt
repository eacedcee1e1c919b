//! The pieces of the interval.

ghost use Rattle.std.specs.Prelude.{◌≡◌, OnOk};
ghost use Rattle.report_document.specs.Telling.{values_in, AddsBlocks};
ghost use Rattle.report_document.specs.Pieces.{granted_values, grant_told, begun_told, begun_by};
ghost use Rattle.report_document.specs.Pieces.{lasts_told, endless_told, lasting_told, lasts_from, releases_told};
ghost use Rattle.report_document.specs.Pieces.{piece_told};

use crate::block::{Block, BlockKind, SentencePart, push_block, push_sum};
use crate::chains::push_chain;
use crate::moments::{push_must, push_no_chain};
use crate::releases::{push_more, push_release};
use crate::sums::{OF_LEASE, by_mark, less, with_both};
use crate::word::ReportWord;
use causal_order::{Piece, Ref};
use evidence_report::{LineReading, PieceReport, ReleaseReport, ReportedGrant};
use journal_lines::Lease;
use lead_time::{Skew, Transit};
use std::alloc::AllocError;

/// What the moment that was told last must be.
const NO_LATER: &str = "That must be no later than the piece's beginning, ";

pub(crate) const NO_EARLIER: &str = "That must be no earlier than the piece's end, ";

/// What is said of a lifetime behind its seconds.
pub(crate) fn for_ever(seconds: u32) -> &'static str {
    if seconds == Lease::INFINITE {
        ", which is for ever."
    } else {
        "."
    }
}

/// What a line grants.
fn granted_parts(grant: Ref, granted: &ReportedGrant) -> [SentencePart; 6]
    ensures { values_in result ≡ granted_values grant granted.now }
{
    let lease = granted.lease;
    [
        ("Line ", ReportWord::Line(grant)),
        (
            " grants, with the clock at ",
            ReportWord::Reading(granted.reading.milliseconds()),
        ),
        (": prefix ", ReportWord::Prefix(lease.prefix)),
        (" to client ", ReportWord::Client(lease.client)),
        (
            " under identity association ",
            ReportWord::Association(lease.iaid),
        ),
        (", for ", ReportWord::Seconds(u64::from(lease.valid))),
    ]
}

/// What the grant of a piece grants.
fn push_grant(
    out: &mut Vec<Block>,
    grant: Ref,
    granted: &Option<ReportedGrant>,
) -> Result<(), AllocError>
    ensures { OnOk result (AddsBlocks (grant_told grant granted.now) out.old.items out.new.items) }
{
    match granted {
        Some(granted) => {
            let parts = granted_parts(grant, granted);
            push_block(out, BlockKind::Item, &parts, for_ever(granted.lease.valid))
        }
        None => {
            let line = [("Line ", ReportWord::Line(grant))];
            push_block(out, BlockKind::Item, &line, " grants nothing.")
        }
    }
}

fn push_begun_by(
    out: &mut Vec<Block>,
    skew: Skew,
    transit: Transit,
    at: Ref,
    mark: &LineReading,
) -> Result<(), AllocError>
    ensures { OnOk result (AddsBlocks (begun_by skew transit at mark.now) out.old.items out.new.items) }
{
    let begun = mark.reading.milliseconds() + skew.milliseconds() + transit.milliseconds();
    let parts = by_mark(mark, OF_LEASE, at, " had begun by ");
    push_sum(out, &parts, &with_both(skew, transit, begun), ".")
}

/// By when the lease had begun.
fn push_begun(
    out: &mut Vec<Block>,
    skew: Skew,
    transit: Transit,
    piece: &Piece,
    mark: &Option<LineReading>,
) -> Result<(), AllocError>
    ensures { OnOk result (AddsBlocks (begun_told skew transit piece.now mark.now) out.old.items out.new.items) }
{
    match mark {
        Some(mark) => {
            push_chain(out, &piece.latest)?;
            push_begun_by(out, skew, transit, piece.grant, mark)?;
            push_must(out, NO_LATER, piece.from)
        }
        None => push_no_chain(out, piece.grant),
    }
}

/// That a lease never ends.
pub(crate) fn push_endless(out: &mut Vec<Block>, at: Ref) -> Result<(), AllocError>
    ensures { OnOk result (AddsBlocks (endless_told at) out.old.items out.new.items) }
{
    push_block(
        out,
        BlockKind::Item,
        &[("What ", ReportWord::Line(at))],
        " tells of never ends.",
    )
}

/// The lifetime and the skew, and the moment to which a lease lasts at least that was granted at a reading.
fn push_lasts_from(
    out: &mut Vec<Block>,
    skew: Skew,
    at: Ref,
    valid: u32,
    mark: &LineReading,
) -> Result<(), AllocError>
    ensures { OnOk result (AddsBlocks (lasts_from skew at valid mark.now) out.old.items out.new.items) }
{
    let (lifetime, skew) = (1000 * u64::from(valid), skew.milliseconds());
    let sum = [
        (" + ", ReportWord::Number(lifetime)),
        (" (lifetime) - ", ReportWord::Number(skew)),
        (
            " (skew) = ",
            less(mark.reading.milliseconds() + lifetime, skew),
        ),
    ];
    push_sum(
        out,
        &by_mark(mark, OF_LEASE, at, " lasted at least to "),
        &sum,
        ".",
    )
}

/// How long a lease of so many seconds lasts at least.
fn push_lasting(
    out: &mut Vec<Block>,
    skew: Skew,
    piece: &Piece,
    valid: u32,
    mark: &LineReading,
) -> Result<(), AllocError>
    ensures { OnOk result (AddsBlocks (lasting_told skew piece.now valid mark.now) out.old.items out.new.items) }
{
    if valid == Lease::INFINITE {
        return push_endless(out, piece.grant);
    }
    push_chain(out, &piece.earliest)?;
    push_lasts_from(out, skew, piece.grant, valid, mark)?;
    push_must(out, NO_EARLIER, piece.to)
}

/// How long the lease lasts at least.
fn push_lasts(
    out: &mut Vec<Block>,
    skew: Skew,
    piece: &Piece,
    granted: &Option<ReportedGrant>,
    mark: &Option<LineReading>,
) -> Result<(), AllocError>
    ensures { OnOk result (AddsBlocks (lasts_told skew piece.now granted.now mark.now) out.old.items out.new.items) }
{
    match (granted, mark) {
        (_, None) => push_no_chain(out, piece.grant),
        (None, Some(_)) => Ok(()),
        (Some(granted), Some(mark)) => push_lasting(out, skew, piece, granted.lease.valid, mark),
    }
}

fn push_releases(
    out: &mut Vec<Block>,
    skew: Skew,
    piece: &Piece,
    releases: &[ReleaseReport<'_>],
) -> Result<(), AllocError>
    ensures { OnOk result (AddsBlocks (releases_told skew piece.now releases.now) out.old.items out.new.items) }
{
    for release in releases {
        push_release(out, skew, piece, release)?;
    }
    Ok(())
}

/// A piece: what carries it, and the releases of that.
pub(crate) fn push_piece(
    out: &mut Vec<Block>,
    skew: Skew,
    transit: Transit,
    number: u64,
    report: &PieceReport<'_>,
) -> Result<(), AllocError>
    ensures { OnOk result (AddsBlocks (piece_told skew transit number report.now) out.old.items out.new.items) }
{
    let piece = report.piece;
    let heading = [
        ("Piece ", ReportWord::Number(number)),
        (": from ", ReportWord::Moment(piece.from.milliseconds())),
        (" up to ", ReportWord::Moment(piece.to.milliseconds())),
    ];
    push_block(out, BlockKind::Heading, &heading, "")?;
    push_grant(out, piece.grant, &report.granted)?;
    push_begun(out, skew, transit, piece, &report.latest)?;
    push_lasts(out, skew, piece, &report.granted, &report.earliest)?;
    push_releases(out, skew, piece, &report.releases.told)?;
    push_more(out, report.releases.more)
}
