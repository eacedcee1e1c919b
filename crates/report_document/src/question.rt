//! What is asked, and what is taken for granted.

ghost use Rattle.std.specs.Prelude.{◌≡◌, OnOk};
ghost use Rattle.report_document.specs.Telling.{AddsBlocks};
ghost use Rattle.report_document.specs.Question.{question_told, premises_told, closed_told, opened_told, opened_at};
ghost use Rattle.report_document.specs.Question.{side_told};

use crate::block::{Block, BlockKind, push_block, push_sum};
use crate::word::ReportWord;
use binding_rules::Role;
use causal_order::Certificate;
use evidence_report::SideReport;
use lead_time::{Reading, Skew, Transit};
use std::alloc::AllocError;

/// Who is said to have had what, and when.
pub(crate) fn push_question(
    out: &mut Vec<Block>,
    certificate: &Certificate,
) -> Result<(), AllocError>
    ensures { OnOk result (AddsBlocks (question_told certificate.now) out.old.items out.new.items) }
{
    push_block(out, BlockKind::Heading, &[], "The question")?;
    let asked = [
        (
            "Is it shown that client ",
            ReportWord::Client(certificate.holder),
        ),
        (
            " had all of prefix ",
            ReportWord::Prefix(certificate.prefix),
        ),
        (
            ", and nobody else any address of it, at each moment from ",
            ReportWord::Moment(certificate.from.milliseconds()),
        ),
        (
            " up to but not with ",
            ReportWord::Moment(certificate.to.milliseconds()),
        ),
    ];
    push_block(out, BlockKind::Paragraph, &asked, "?")
}

const UNSHOWN: &str =
    " after its grant was written (the transit). It isn't shown that the journals are whole and unchanged, \
    that these two servers alone delegate in their pools, or that the client used the prefix.";

/// What the answer rests on, and what it doesn't show.
pub(crate) fn push_premises(
    out: &mut Vec<Block>,
    skew: Skew,
    transit: Transit,
) -> Result<(), AllocError>
    ensures { OnOk result (AddsBlocks (premises_told skew transit) out.old.items out.new.items) }
{
    push_block(out, BlockKind::Heading, &[], "The premises")?;
    let premises = [
        (
            "Each server's clock was within ",
            ReportWord::Milliseconds(skew.milliseconds()),
        ),
        (
            " of true time (the skew), and each answer reached its client within ",
            ReportWord::Milliseconds(transit.milliseconds()),
        ),
    ];
    push_block(out, BlockKind::Paragraph, &premises, UNSHOWN)
}

/// Up to when a side's journal shows what happened.
fn push_closed(
    out: &mut Vec<Block>,
    skew: Skew,
    to: Reading,
    side: Role,
    report: &SideReport,
) -> Result<(), AllocError>
    ensures { OnOk result (AddsBlocks (closed_told skew to side report.now) out.old.items out.new.items) }
{
    let (end, skew) = (to.milliseconds(), skew.milliseconds());
    let shown = [
        ("Journal ", ReportWord::Side(side)),
        (" is volume ", ReportWord::Number(u64::from(report.volume))),
        (
            " of its server. At its close line the clock showed ",
            ReportWord::Reading(report.closed.milliseconds()),
        ),
        (
            ". That must be no earlier than the interval's end with the skew, ",
            ReportWord::Number(end),
        ),
    ];
    let sum = [
        (" + ", ReportWord::Number(skew)),
        (" = ", ReportWord::Reading(end + skew)),
    ];
    push_sum(out, &shown, &sum, ".")
}

fn push_opened_at(
    out: &mut Vec<Block>,
    skew: Skew,
    transit: Transit,
    from: Reading,
    side: Role,
    opened: Reading,
) -> Result<(), AllocError>
    ensures { OnOk result (AddsBlocks (opened_at skew transit from side opened) out.old.items out.new.items) }
{
    let reading = opened.milliseconds();
    let (skew, transit) = (skew.milliseconds(), transit.milliseconds());
    let shown = [
        ("At the first line of journal ", ReportWord::Side(side)),
        (" the clock showed ", ReportWord::Reading(reading)),
        (
            ". So the answers of earlier volumes had reached their clients by ",
            ReportWord::Number(reading),
        ),
    ];
    let sum = [
        (" + ", ReportWord::Number(skew)),
        (" (skew) + ", ReportWord::Number(transit)),
        (
            " (transit) = ",
            ReportWord::Moment(reading + skew + transit),
        ),
        (
            ". That must be no later than the interval's beginning, ",
            ReportWord::Moment(from.milliseconds()),
        ),
    ];
    push_sum(out, &shown, &sum, ".")
}

/// From when on a side's journal, where there are earlier volumes, shows what happened.
fn push_opened(
    out: &mut Vec<Block>,
    skew: Skew,
    transit: Transit,
    from: Reading,
    side: Role,
    report: &SideReport,
) -> Result<(), AllocError>
    ensures { OnOk result (AddsBlocks (opened_told skew transit from side report.now) out.old.items out.new.items) }
{
    if report.volume <= 1 {
        return Ok(());
    }
    match report.opened {
        Some(opened) => push_opened_at(out, skew, transit, from, side, opened),
        None => Ok(()),
    }
}

/// What a side's journal shows of the interval at all.
pub(crate) fn push_side(
    out: &mut Vec<Block>,
    skew: Skew,
    transit: Transit,
    certificate: &Certificate,
    side: Role,
    report: &SideReport,
) -> Result<(), AllocError>
    ensures { OnOk result (AddsBlocks (side_told skew transit certificate.now side report.now) out.old.items out.new.items) }
{
    push_closed(out, skew, certificate.to, side, report)?;
    push_opened(out, skew, transit, certificate.from, side, report)
}
