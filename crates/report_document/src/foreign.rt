//! Other clients' delegations, and why they stand outside of the interval.

ghost use Rattle.std.specs.Prelude.{◌≡◌, ◌+◌, ◌*◌, ◌∷◌, [], OnOk};
ghost use Rattle.report_document.specs.Telling.{values_in, AddsBlocks};
ghost use Rattle.report_document.specs.Foreign.{lasting_word, delegated_values, told_told, carried_by, ended_by};
ghost use Rattle.report_document.specs.Foreign.{ended_told, early_told, late_told, gives_back_told, outside_told};
ghost use Rattle.report_document.specs.Foreign.{foreign_told};
ghost use Rattle.report_document.specs.declared.word.ReportWord.TheVariants as word;

use crate::block::{Block, BlockKind, SentencePart, push_block, push_sum};
use crate::chains::push_chain;
use crate::moments::{BoundSide, push_must, push_no_chain, push_written};
use crate::orders::push_order;
use crate::pieces::{for_ever, push_endless};
use crate::sums::{OF_LEASE, by_mark, with_both};
use crate::word::ReportWord;
use attribution::Lasting;
use causal_order::{Certificate, Chain, Ref};
use evidence_report::{ForeignEvidence, ForeignReport, LineReading, Report, ReportedDelegation};
use journal_lines::Lease;
use lead_time::{End, Reading, Skew, Transit};
use std::alloc::AllocError;

/// What the moment that was told last must be.
const NO_LATER: &str = "That must be no later than the interval's beginning, ";

const NO_EARLIER: &str = "That must be no earlier than the interval's end, ";

/// How long a delegation lasts: for so many seconds, or up to a reading.
fn lasting_word(lasting: &Lasting) -> ReportWord
    ensures { result ≡ lasting_word lasting.now }
{
    match lasting {
        Lasting::For(seconds) => ReportWord::Seconds(u64::from(*seconds)),
        Lasting::Until(end) => ReportWord::Reading(end.milliseconds()),
    }
}

/// What stands before and behind that.
fn lasting_prose(lasting: &Lasting) -> (&'static str, &'static str) {
    match lasting {
        Lasting::For(seconds) => (", for ", for_ever(*seconds)),
        Lasting::Until(_) => (", carried from earlier volumes, up to its server's ", "."),
    }
}

/// What a line tells of, with this prose before how long it lasts.
fn delegated_parts(at: Ref, told: &ReportedDelegation, before: &'static str) -> [SentencePart; 6]
    ensures { values_in result ≡ delegated_values at told.now }
{
    let delegation = &told.delegation;
    [
        ("Line ", ReportWord::Line(at)),
        (
            " tells, with the clock at ",
            ReportWord::Reading(told.reading.milliseconds()),
        ),
        (", of prefix ", ReportWord::Prefix(delegation.prefix)),
        (" for client ", ReportWord::Client(delegation.client)),
        (
            " under identity association ",
            ReportWord::Association(delegation.iaid),
        ),
        (before, lasting_word(&delegation.lasting)),
    ]
}

/// What a line tells of, if it tells of a delegation.
fn push_told(
    out: &mut Vec<Block>,
    at: Ref,
    told: &Option<ReportedDelegation>,
) -> Result<(), AllocError>
    ensures { OnOk result (AddsBlocks (told_told at told.now) out.old.items out.new.items) }
{
    match told {
        Some(told) => {
            let (before, behind) = lasting_prose(&told.delegation.lasting);
            push_block(
                out,
                BlockKind::Item,
                &delegated_parts(at, told, before),
                behind,
            )
        }
        None => {
            let line = [("Line ", ReportWord::Line(at))];
            push_block(out, BlockKind::Item, &line, " tells of no delegation.")
        }
    }
}

/// By when a delegation up to this reading had ended.
fn push_carried_by(
    out: &mut Vec<Block>,
    skew: Skew,
    transit: Transit,
    at: Ref,
    end: End,
) -> Result<(), AllocError>
    ensures { OnOk result (AddsBlocks (carried_by skew transit at end) out.old.items out.new.items) }
{
    let last = end.milliseconds();
    let ended = last + skew.milliseconds() + transit.milliseconds();
    let parts = [
        ("So what ", ReportWord::Line(at)),
        (" tells of had ended by ", ReportWord::Number(last)),
    ];
    push_sum(out, &parts, &with_both(skew, transit, ended), ".")
}

/// The skew, the transit and a lifetime of so many seconds, added to a reading.
fn with_lifetime(reading: Reading, skew: Skew, transit: Transit, seconds: u32) -> [SentencePart; 4]
    ensures { values_in result ≡ word.Number skew ∷ word.Number transit ∷ word.Number (1000 * seconds)
        ∷ word.Moment (reading + skew + transit + 1000 * seconds) ∷ [] }
{
    let (skew, transit) = (skew.milliseconds(), transit.milliseconds());
    let lifetime = 1000 * u64::from(seconds);
    let ended = reading.milliseconds() + skew + transit + lifetime;
    [
        (" + ", ReportWord::Number(skew)),
        (" (skew) + ", ReportWord::Number(transit)),
        (" (transit) + ", ReportWord::Number(lifetime)),
        (" (lifetime) = ", ReportWord::Moment(ended)),
    ]
}

/// By when a lease of so many seconds, granted by a reading, had ended.
fn push_ended_by(
    out: &mut Vec<Block>,
    skew: Skew,
    transit: Transit,
    at: Ref,
    seconds: u32,
    mark: &LineReading,
) -> Result<(), AllocError>
    ensures { OnOk result (AddsBlocks (ended_by skew transit at seconds mark.now) out.old.items out.new.items) }
{
    let parts = by_mark(mark, OF_LEASE, at, " had ended by ");
    let sum = with_lifetime(mark.reading, skew, transit, seconds);
    push_sum(out, &parts, &sum, ".")
}

/// By when a delegation had ended, where the line that tells of it was written by a reading.
fn push_ended(
    out: &mut Vec<Block>,
    skew: Skew,
    transit: Transit,
    at: Ref,
    lasting: &Lasting,
    mark: &LineReading,
) -> Result<(), AllocError>
    ensures { OnOk result (AddsBlocks (ended_told skew transit at lasting.now mark.now) out.old.items out.new.items) }
{
    match lasting {
        Lasting::For(seconds) => {
            if *seconds == Lease::INFINITE {
                push_endless(out, at)
            } else {
                push_ended_by(out, skew, transit, at, *seconds, mark)
            }
        }
        Lasting::Until(end) => push_carried_by(out, skew, transit, at, *end),
    }
}

/// That a carry line doesn't show when what it tells of began.
fn push_late(out: &mut Vec<Block>, at: Ref, lasting: &Lasting) -> Result<(), AllocError>
    ensures { OnOk result (AddsBlocks (late_told at lasting.now) out.old.items out.new.items) }
{
    let unshown = " carries what earlier volumes delegated, and doesn't show when that began.";
    match lasting {
        Lasting::For(_) => Ok(()),
        Lasting::Until(_) => push_block(
            out,
            BlockKind::Item,
            &[("But ", ReportWord::Line(at))],
            unshown,
        ),
    }
}

fn push_gives_back(
    out: &mut Vec<Block>,
    at: Ref,
    release: Ref,
    gives_back: bool,
) -> Result<(), AllocError>
    ensures { OnOk result (AddsBlocks (gives_back_told at release) out.old.items out.new.items) }
{
    let prose = if gives_back {
        " gives back what was delegated by "
    } else {
        " doesn't give back what was delegated by "
    };
    let lines = [
        ("Line ", ReportWord::Line(release)),
        (prose, ReportWord::Line(at)),
    ];
    push_block(out, BlockKind::Item, &lines, ".")
}

/// That it ended before the interval: by a chain from the line.
fn push_early(
    out: &mut Vec<Block>,
    report: &Report<'_>,
    at: Ref,
    told: &ReportedDelegation,
    chain: &Chain,
    mark: &Option<LineReading>,
) -> Result<(), AllocError>
    ensures { OnOk result (AddsBlocks (early_told report.now.skew report.now.transit
        report.now.certificate.now.from at told.now chain.now mark.now) out.old.items out.new.items) }
{
    let Some(mark) = mark else {
        return push_no_chain(out, at);
    };
    let (skew, transit) = (report.skew, report.transit);
    push_chain(out, chain)?;
    push_ended(out, skew, transit, at, &told.delegation.lasting, mark)?;
    push_must(out, NO_LATER, report.certificate.from)
}

/// Why a delegation stands outside of the interval.
fn push_outside(
    out: &mut Vec<Block>,
    report: &Report<'_>,
    at: Ref,
    told: &ReportedDelegation,
    outside: &ForeignEvidence<'_>,
) -> Result<(), AllocError>
    ensures { OnOk result (AddsBlocks (outside_told report.now.skew report.now.transit report.now.certificate.now
        at told.now outside.now) out.old.items out.new.items) }
{
    match outside {
        ForeignEvidence::Early(chain, mark) => push_early(out, report, at, told, chain, mark),
        ForeignEvidence::Late(chain, mark) => {
            push_written(out, BoundSide::Earliest, report.skew, at, chain, mark)?;
            push_must(out, NO_EARLIER, report.certificate.to)?;
            push_late(out, at, &told.delegation.lasting)
        }
        ForeignEvidence::Released {
            release,
            gives_back,
            order,
            chain,
            latest,
        } => {
            push_gives_back(out, at, *release, *gives_back)?;
            push_order(out, report.skew, at, *release, order)?;
            push_written(out, BoundSide::Latest, report.skew, *release, chain, latest)?;
            push_must(out, NO_LATER, report.certificate.from)
        }
    }
}

/// What a foreign entry's line tells of, and why that stands outside of the interval.
pub(crate) fn push_foreign(
    out: &mut Vec<Block>,
    report: &Report<'_>,
    foreign: &ForeignReport<'_>,
) -> Result<(), AllocError>
    ensures { OnOk result (AddsBlocks (foreign_told report.now.skew report.now.transit report.now.certificate.now
        foreign.now) out.old.items out.new.items) }
{
    let at = foreign.entry.grant;
    let heading = [(
        "Another client's delegation, of line ",
        ReportWord::Line(at),
    )];
    push_block(out, BlockKind::Heading, &heading, "")?;
    push_told(out, at, &foreign.told)?;
    match &foreign.told {
        Some(told) => push_outside(out, report, at, told, &foreign.outside),
        None => Ok(()),
    }
}
