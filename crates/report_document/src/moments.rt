//! By when, and from when on, a line was written.

ghost use Rattle.std.specs.Prelude.{◌≡◌, OnOk};
ghost use Rattle.report_document.specs.Telling.{no_chain, moment_told, written, must, AddsBlocks};

use crate::block::{Block, BlockKind, push_block, push_sum};
use crate::chains::push_chain;
use crate::sums::{by_mark, less};
use crate::word::ReportWord;
use causal_order::{Chain, Ref};
use evidence_report::LineReading;
use lead_time::{Reading, Skew};
use std::alloc::AllocError;

/// A side of the moment at which a line was written.
#[derive(Clone, Copy, Debug)]
pub(crate) enum BoundSide {
    Latest,
    Earliest,
}

/// That a chain isn't what it should be.
pub(crate) fn push_no_chain(out: &mut Vec<Block>, at: Ref) -> Result<(), AllocError>
    ensures { OnOk result (AddsBlocks (no_chain at) out.old.items out.new.items) }
{
    push_block(
        out,
        BlockKind::Item,
        &[("What is named for line ", ReportWord::Line(at))],
        " is no chain of lines that begins or ends there, so it shows nothing of its moment.",
    )
}

/// By when, or from when on, a line was written: the reading at a mark, and the skew.
fn push_moment(
    out: &mut Vec<Block>,
    bound: BoundSide,
    skew: Skew,
    at: Ref,
    mark: &LineReading,
) -> Result<(), AllocError>
    ensures { OnOk result (AddsBlocks (moment_told bound skew at mark.now) out.old.items out.new.items) }
{
    let (reading, skew) = (mark.reading.milliseconds(), skew.milliseconds());
    let so = ". So ";
    match bound {
        BoundSide::Latest => push_sum(
            out,
            &by_mark(mark, so, at, " was written by "),
            &[
                (" + ", ReportWord::Number(skew)),
                (" (skew) = ", ReportWord::Moment(reading + skew)),
            ],
            " at the latest.",
        ),
        BoundSide::Earliest => push_sum(
            out,
            &by_mark(mark, so, at, " was written at "),
            &[
                (" - ", ReportWord::Number(skew)),
                (" (skew) = ", less(reading, skew)),
            ],
            " at the earliest.",
        ),
    }
}

/// By when a line was written, by a chain from it, or from when on, by a chain to it.
pub(crate) fn push_written(
    out: &mut Vec<Block>,
    bound: BoundSide,
    skew: Skew,
    at: Ref,
    chain: &Chain,
    mark: &Option<LineReading>,
) -> Result<(), AllocError>
    ensures { OnOk result (AddsBlocks (written bound skew at chain.now mark.now) out.old.items out.new.items) }
{
    match mark {
        Some(mark) => {
            push_chain(out, chain)?;
            push_moment(out, bound, skew, at, mark)
        }
        None => push_no_chain(out, at),
    }
}

/// What the moment that was told last has to be: no later, or no earlier, than this one, as the prose says.
pub(crate) fn push_must(
    out: &mut Vec<Block>,
    prose: &'static str,
    moment: Reading,
) -> Result<(), AllocError>
    ensures { OnOk result (AddsBlocks (must moment) out.old.items out.new.items) }
{
    let moment = ReportWord::Moment(moment.milliseconds());
    push_block(out, BlockKind::Item, &[(prose, moment)], ".")
}
