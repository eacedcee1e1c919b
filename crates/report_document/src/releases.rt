//! The releases of what a piece's grant gave.

ghost use Rattle.std.specs.Prelude.{◌≡◌, OnOk};
ghost use Rattle.report_document.specs.Telling.{AddsBlocks};
ghost use Rattle.report_document.specs.Pieces.{cleared_told, release_told, more_told};

use crate::block::{Block, BlockKind, push_block};
use crate::moments::{BoundSide, push_must, push_written};
use crate::orders::push_order;
use crate::pieces::NO_EARLIER;
use crate::word::ReportWord;
use causal_order::{Clear, Piece, Ref};
use evidence_report::{ClearReport, ReleaseReport};
use lead_time::Skew;
use std::alloc::AllocError;

/// Why a release doesn't end the piece, or that no entry says so.
fn push_cleared(
    out: &mut Vec<Block>,
    skew: Skew,
    piece: &Piece,
    release: Ref,
    entry: &Option<(&Clear, ClearReport<'_>)>,
) -> Result<(), AllocError>
    ensures { OnOk result (AddsBlocks (cleared_told skew piece.now release entry.now) out.old.items out.new.items) }
{
    match entry {
        None => {
            let unnamed = [(
                "No entry of the certificate says why ",
                ReportWord::Line(release),
            )];
            push_block(out, BlockKind::Item, &unnamed, " doesn't end the piece.")
        }
        Some((_, ClearReport::Before(order))) => push_order(out, skew, release, piece.grant, order),
        Some((_, ClearReport::After(chain, earliest))) => {
            push_written(out, BoundSide::Earliest, skew, release, chain, earliest)?;
            push_must(out, NO_EARLIER, piece.to)
        }
    }
}

/// A release, and why it doesn't end the piece.
pub(crate) fn push_release(
    out: &mut Vec<Block>,
    skew: Skew,
    piece: &Piece,
    report: &ReleaseReport<'_>,
) -> Result<(), AllocError>
    ensures { OnOk result (AddsBlocks (release_told skew piece.now report.now) out.old.items out.new.items) }
{
    let (release, reading) = (report.release.at, report.release.reading.milliseconds());
    let given_back = [
        ("Line ", ReportWord::Line(release)),
        (
            " gives back what the grant gave; the clock showed ",
            ReportWord::Reading(reading),
        ),
    ];
    push_block(out, BlockKind::Item, &given_back, " there.")?;
    push_cleared(out, skew, piece, release, &report.entry)
}

/// What is said of so many releases that aren't told of.
fn untold(more: u64) -> &'static str {
    if more == 1 {
        " more line gives that back, and no entry names it: it isn't told here."
    } else {
        " more lines give that back, and no entry names them: they aren't told here."
    }
}

/// How many more releases there are that aren't told of, where there are any.
pub(crate) fn push_more(out: &mut Vec<Block>, more: u64) -> Result<(), AllocError>
    ensures { OnOk result (AddsBlocks (more_told more) out.old.items out.new.items) }
{
    if more == 0 {
        return Ok(());
    }
    let counted = [("Besides, ", ReportWord::Number(more))];
    push_block(out, BlockKind::Item, &counted, untold(more))
}
