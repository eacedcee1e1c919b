//! A delegation near the moment, in words.

ghost use Rattle.std.specs.Prelude.{◌≡◌, ◌∷◌, [], OnOk};
ghost use Rattle.candidate_leases.specs.Near.{shows_to};
ghost use Rattle.candidate_leases.specs.declared.at_moment.AtMoment.TheVariants as AtMoment;
ghost use Rattle.report_document.specs.Telling.{values_in, AddsBlocks};
ghost use Rattle.report_document.specs.Reasons.{line_told, begun_told, lasts_told, may_begin_told, may_last_told};
ghost use Rattle.report_document.specs.Reasons.{shown_told, possible_told, carried_told, lasting_told};
ghost use Rattle.report_document.specs.Reasons.{state_told, lease_told};
ghost use Rattle.report_document.specs.declared.word.ReportWord.TheVariants as word;

use crate::block::{Block, BlockKind, push_block, push_sum};
use crate::sums::with_both;
use crate::word::ReportWord;
use attribution::Lasting;
use binding_rules::Role;
use candidate_leases::{AtMoment, CandidateLease, begun_by, lasts_from, may_begin};
use journal_lines::Lease;
use lead_time::{End, Reading};
use plain_search::HolderQuery;
use std::alloc::AllocError;

/// What the line tells of.
fn push_told(out: &mut Vec<Block>, lease: &CandidateLease) -> Result<(), AllocError>
    ensures { OnOk result (AddsBlocks (line_told lease.now ∷ []) out.old.items out.new.items) }
{
    let delegation = &lease.delegation;
    let told = [
        ("Line ", ReportWord::Line(lease.line.at)),
        (": prefix ", ReportWord::Prefix(delegation.prefix)),
        (" to client ", ReportWord::Client(delegation.client)),
        (
            " under identity association ",
            ReportWord::Association(delegation.iaid),
        ),
    ];
    push_block(out, BlockKind::Heading, &told, "")
}

/// By when what was granted had begun.
fn push_begun(out: &mut Vec<Block>, reading: Reading, query: &HolderQuery) -> Result<(), AllocError>
    ensures { OnOk result (AddsBlocks (begun_told query.now reading ∷ []) out.old.items out.new.items) }
{
    let begun = begun_by(reading, query.skew, query.transit);
    let reading = reading.milliseconds();
    let shown = [
        ("The clock showed ", ReportWord::Reading(reading)),
        (". So the lease had begun by ", ReportWord::Number(reading)),
    ];
    push_sum(
        out,
        &shown,
        &with_both(query.skew, query.transit, begun),
        ".",
    )
}

/// Up to when it surely lasts.
fn push_lasts(
    out: &mut Vec<Block>,
    reading: Reading,
    valid: u32,
    query: &HolderQuery,
) -> Result<(), AllocError>
    ensures { OnOk result (AddsBlocks (lasts_told query.now reading valid (shows_to query.now.skew reading valid) ∷ [])
        out.old.items out.new.items) }
{
    match lasts_from(reading, valid, query.skew) {
        Some(end) => {
            let from = "If nothing gave it back it lasted at least to ";
            let lasts = [
                (from, ReportWord::Number(reading.milliseconds())),
                (" + ", ReportWord::Number(u64::from(valid) * 1000)),
                (
                    " (lifetime) - ",
                    ReportWord::Number(query.skew.milliseconds()),
                ),
                (" (skew) = ", ReportWord::Moment(end)),
            ];
            push_block(out, BlockKind::Item, &lasts, ".")
        }
        None => push_block(out, BlockKind::Item, &[], "Its lifetime never ends."),
    }
}

/// From when to when what was granted can be shown to be its client's.
fn push_shown(
    out: &mut Vec<Block>,
    reading: Reading,
    valid: u32,
    query: &HolderQuery,
) -> Result<(), AllocError>
    ensures { OnOk result (AddsBlocks (shown_told query.now reading valid) out.old.items out.new.items) }
{
    push_begun(out, reading, query)?;
    push_lasts(out, reading, valid, query)
}

/// From when on it may have begun.
fn push_may_begin(
    out: &mut Vec<Block>,
    reading: Reading,
    query: &HolderQuery,
) -> Result<(), AllocError>
    ensures { OnOk result (AddsBlocks (may_begin_told query.now reading ∷ []) out.old.items out.new.items) }
{
    let begins = [
        (
            "It may have begun from ",
            ReportWord::Number(reading.milliseconds()),
        ),
        (" - ", ReportWord::Number(query.skew.milliseconds())),
        (
            " (skew) = ",
            ReportWord::Moment(may_begin(reading, query.skew)),
        ),
    ];
    push_block(out, BlockKind::Item, &begins, " on.")
}

/// Up to when it may have lasted, if it ends.
fn push_may_last(
    out: &mut Vec<Block>,
    reading: Reading,
    valid: u32,
    query: &HolderQuery,
) -> Result<(), AllocError>
    ensures { OnOk result (AddsBlocks (may_last_told query.now reading valid) out.old.items out.new.items) }
{
    if valid == Lease::INFINITE {
        return Ok(());
    }
    let (skew, transit) = (query.skew.milliseconds(), query.transit.milliseconds());
    let (first, lifetime) = (reading.milliseconds(), u64::from(valid) * 1000);
    let end = begun_by(reading, query.skew, query.transit) + lifetime;
    let sum = [
        ("It may have lasted up to ", ReportWord::Number(first)),
        (" + ", ReportWord::Number(lifetime)),
        (" (lifetime) + ", ReportWord::Number(skew)),
        (" (skew) + ", ReportWord::Number(transit)),
        (" (transit) = ", ReportWord::Moment(end)),
    ];
    push_block(out, BlockKind::Item, &sum, ".")
}

/// From when to when what was granted may have been its client's.
fn push_possible(
    out: &mut Vec<Block>,
    reading: Reading,
    valid: u32,
    query: &HolderQuery,
) -> Result<(), AllocError>
    ensures { OnOk result (AddsBlocks (possible_told query.now reading valid) out.old.items out.new.items) }
{
    push_may_begin(out, reading, query)?;
    push_may_last(out, reading, valid, query)
}

const CARRIED_TO: &str =
    "It is carried from earlier volumes, which show when it began. It may have lasted up to ";

/// Up to when what is carried may have been its client's.
fn push_carried(out: &mut Vec<Block>, end: End, query: &HolderQuery) -> Result<(), AllocError>
    ensures { OnOk result (AddsBlocks (carried_told query.now end) out.old.items out.new.items) }
{
    let (skew, transit) = (query.skew.milliseconds(), query.transit.milliseconds());
    let end = end.milliseconds();
    let carried = [
        (CARRIED_TO, ReportWord::Number(end)),
        (
            " (its end by its server's clock) + ",
            ReportWord::Number(skew),
        ),
        (" (skew) + ", ReportWord::Number(transit)),
        (" (transit) = ", ReportWord::Moment(end + skew + transit)),
    ];
    push_block(out, BlockKind::Item, &carried, ".")
}

const CARRIED: &str =
    " it may have been its client's, but this journal doesn't show when it began.";

const BEGINNING: &str = " it may not have begun yet: the moment is too early by ";

const ENDING: &str = " it may have ended: the last moment that is shown was earlier by ";

const GIVEN_BACK: &str = " it had surely been given back: by line ";

const MAY_BE_GIVEN_BACK: &str = " it may have been given back: by line ";

const EARLIER: &str =
    " it may have been given back in an earlier volume, which isn't here, of journal ";

const LATER_GRANT: &str = ": a grant is surely later than that volume from the reading ";

const LATER: &str = " it may have been given back behind the close line of journal ";

/// That an earlier volume may have given it back.
fn push_earlier(
    out: &mut Vec<Block>,
    at: Reading,
    side: Role,
    needed: u64,
) -> Result<(), AllocError>
    ensures { OnOk result (AddsBlocks (state_told at (AtMoment.EarlierVolumes side needed) ∷ [])
        out.old.items out.new.items) }
{
    let told = [
        ("At ", ReportWord::Moment(at.milliseconds())),
        (EARLIER, ReportWord::Side(side)),
        (LATER_GRANT, ReportWord::Reading(needed)),
    ];
    push_block(out, BlockKind::Item, &told, " on.")
}

/// That what was written behind a close line may have given it back.
fn push_later(
    out: &mut Vec<Block>,
    at: Reading,
    side: Role,
    needed: u64,
    closed: Reading,
) -> Result<(), AllocError>
    ensures { OnOk result (AddsBlocks (state_told at (AtMoment.LaterVolumes side needed closed) ∷ [])
        out.old.items out.new.items) }
{
    let told = [
        ("At ", ReportWord::Moment(at.milliseconds())),
        (LATER, ReportWord::Side(side)),
        (
            ", at which the clock showed ",
            ReportWord::Reading(closed.milliseconds()),
        ),
        (
            ": the moment's end with the skew is ",
            ReportWord::Reading(needed),
        ),
    ];
    push_block(out, BlockKind::Item, &told, ".")
}

/// What is so at the moment asked about.
fn push_state(out: &mut Vec<Block>, state: &AtMoment, at: Reading) -> Result<(), AllocError>
    ensures { OnOk result (AddsBlocks (state_told at state.now ∷ []) out.old.items out.new.items) }
{
    let moment = at.milliseconds();
    let (said, value) = match state {
        AtMoment::NotBegun => (" it surely had not begun.", None),
        AtMoment::Ended(end) => (" it had surely ended: by ", Some(ReportWord::Moment(*end))),
        AtMoment::GivenBack(release) => (GIVEN_BACK, Some(ReportWord::Line(release.at))),
        AtMoment::Carried => (CARRIED, None),
        AtMoment::Beginning(begun) => (
            BEGINNING,
            Some(ReportWord::Milliseconds(begun.saturating_sub(moment))),
        ),
        AtMoment::Ending(end) => (
            ENDING,
            Some(ReportWord::Milliseconds((moment + 1).saturating_sub(*end))),
        ),
        AtMoment::MayBeGivenBack(release) => (
            MAY_BE_GIVEN_BACK,
            Some(ReportWord::Line(release.at)),
        ),
        AtMoment::EarlierVolumes { side, needed } => {
            return push_earlier(out, at, *side, *needed);
        }
        AtMoment::LaterVolumes {
            side,
            needed,
            closed,
        } => return push_later(out, at, *side, *needed, *closed),
        AtMoment::Shown => (" it was its client's.", None),
    };
    let at = ("At ", ReportWord::Moment(moment));
    match value {
        Some(value) => push_block(out, BlockKind::Item, &[at, (said, value)], "."),
        None => push_block(out, BlockKind::Item, &[at], said),
    }
}

/// All that is told of a delegation near the moment.
pub fn push_lease(
    out: &mut Vec<Block>,
    lease: &CandidateLease,
    query: &HolderQuery,
) -> Result<(), AllocError>
    ensures { OnOk result (AddsBlocks (lease_told query.now lease.now) out.old.items out.new.items) }
{
    push_told(out, lease)?;
    let reading = lease.line.reading;
    match lease.delegation.lasting {
        Lasting::For(valid) => {
            push_shown(out, reading, valid, query)?;
            push_possible(out, reading, valid, query)?;
        }
        Lasting::Until(end) => push_carried(out, end, query)?,
    }
    push_state(out, &lease.state, query.at)
}
