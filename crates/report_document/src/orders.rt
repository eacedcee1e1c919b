//! Why one line was written before another.

ghost use Rattle.std.specs.Prelude.{◌≡◌, OnOk};
ghost use Rattle.report_document.specs.Telling.{order_told, before_told, AddsBlocks};

use crate::block::{Block, BlockKind, push_block};
use crate::chains::push_chain;
use crate::moments::{BoundSide, push_written};
use crate::word::ReportWord;
use causal_order::Ref;
use evidence_report::OrderReport;
use lead_time::Skew;
use std::alloc::AllocError;

/// What is said of the two lines where clocks have to show their order.
const BY_CLOCKS: (&str, &str) = (
    "The latest moment of ",
    " must come before the earliest moment of ",
);

/// What prose says of two lines.
fn push_two(
    out: &mut Vec<Block>,
    prose: (&'static str, &'static str),
    first: Ref,
    second: Ref,
) -> Result<(), AllocError>
    ensures { OnOk result (AddsBlocks (before_told first second) out.old.items out.new.items) }
{
    let (opening, middle) = prose;
    let lines = [
        (opening, ReportWord::Line(first)),
        (middle, ReportWord::Line(second)),
    ];
    push_block(out, BlockKind::Item, &lines, ".")
}

/// Whether a chain leads from the one line to the other.
fn leading(leads: bool) -> (&'static str, &'static str) {
    if leads {
        ("So ", " was written before ")
    } else {
        ("That is no chain of two lines or more from ", " to ")
    }
}

/// Why one line was written before another: by a chain that leads to it, or since its earliest moment is later.
pub(crate) fn push_order(
    out: &mut Vec<Block>,
    skew: Skew,
    first: Ref,
    second: Ref,
    order: &OrderReport<'_>,
) -> Result<(), AllocError>
    ensures { OnOk result (AddsBlocks (order_told skew first second order.now) out.old.items out.new.items) }
{
    match order {
        OrderReport::Chain { chain, leads } => {
            push_chain(out, chain)?;
            push_two(out, leading(*leads), first, second)
        }
        OrderReport::Clock {
            before,
            latest,
            after,
            earliest,
        } => {
            push_written(out, BoundSide::Latest, skew, first, before, latest)?;
            push_written(out, BoundSide::Earliest, skew, second, after, earliest)?;
            push_two(out, BY_CLOCKS, first, second)
        }
    }
}
