//! Words of a report, spelled.

ghost use Rattle.std.specs.Prelude.{◌≡◌, ◌++◌, OnOk};
ghost use Rattle.std.specs.Fmt.{decimal};
ghost use Rattle.attribution.specs.VerdictText.{side_text};
ghost use Rattle.report_render.specs.Spelling.{AddsTimed, AddsLocalPart, AddsZoned, AddsMoment, AddsWord, AddsWords};

use attribution::push_place;
use binding_rules::Role;
use client_id::Iaid;
use journal_text::push_entry;
use lead_time::Reading;
use prefix_range::push_prefix;
use report_document::ReportWord;
use std::alloc::{AllocError, Global};
use text_fields::{push_number, push_octets};
use time_text::push_time;
use zone_times::{ZoneFile, push_local};

/// Appends a moment in UTC, and its milliseconds in brackets.
fn push_timed(out: &mut Vec<u8>, moment: Reading) -> Result<(), AllocError>
    ensures { OnOk result (AddsTimed moment out.old.items out.new.items) }
{
    push_time(out, moment)?;
    out.extend_from_slice(b" [")?;
    push_number(out, moment.milliseconds())?;
    out.extend_from_slice(b"]")?;
    Ok(())
}

/// Appends a local time in parentheses.
fn push_local_part(
    out: &mut Vec<u8>,
    alloc: Global,
    zone: &ZoneFile,
    moment: Reading,
) -> Result<(), AllocError>
    ensures { OnOk result (AddsLocalPart zone.now moment out.old.items out.new.items) }
{
    out.extend_from_slice(b" (")?;
    push_local(out, alloc, zone, moment)?;
    out.extend_from_slice(b")")?;
    Ok(())
}

/// Appends a local time in parentheses, where a zone is given.
#[tactic(auto, using(crate::proofs::MoreWords::no_local, crate::proofs::MoreWords::zoned_by))]
fn push_zoned(
    out: &mut Vec<u8>,
    alloc: Global,
    zone: Option<&ZoneFile>,
    moment: Reading,
) -> Result<(), AllocError>
    ensures { OnOk result (AddsZoned zone.entry moment out.old.items out.new.items) }
{
    match zone {
        Some(zone) => push_local_part(out, alloc, zone, moment),
        None => Ok(()),
    }
}

/// Appends a moment in UTC, its milliseconds, and its local time. `AllocError` where a growth was refused.
#[tactic(auto, using(crate::proofs::MoreWords::timed_zoned))]
pub(crate) fn push_whole(
    out: &mut Vec<u8>,
    alloc: Global,
    zone: Option<&ZoneFile>,
    moment: Reading,
) -> Result<(), AllocError>
    ensures { OnOk result (AddsMoment zone.entry moment out.old.items out.new.items) }
{
    let _milliseconds = moment.milliseconds();
    push_timed(out, moment)?;
    push_zoned(out, alloc, zone, moment)
}

/// Appends that: or from 2^48 on the milliseconds alone.
#[tactic(auto, using(crate::proofs::MoreWords::only_milliseconds))]
fn push_moment(
    out: &mut Vec<u8>,
    alloc: Global,
    zone: Option<&ZoneFile>,
    milliseconds: u64,
) -> Result<(), AllocError>
    ensures { OnOk result (AddsMoment zone.entry milliseconds out.old.items out.new.items) }
{
    match Reading::new(milliseconds) {
        Ok(moment) => push_whole(out, alloc, zone, moment),
        Err(_) => push_number(out, milliseconds),
    }
}

/// Appends a number and its unit.
fn push_counted(out: &mut Vec<u8>, number: u64, unit: &[u8]) -> Result<(), AllocError>
    ensures { OnOk result (out.new.items ≡ out.old.items ++ (decimal number ++ unit.now)) }
{
    push_number(out, number)?;
    out.extend_from_slice(unit)
}

fn push_side(out: &mut Vec<u8>, side: Role) -> Result<(), AllocError>
    ensures { OnOk result (out.new.items ≡ out.old.items ++ side_text side) }
{
    match side {
        Role::Primary => out.extend_from_slice(b"A"),
        Role::Secondary => out.extend_from_slice(b"B"),
    }
}

/// Appends a word.
fn push_word(
    out: &mut Vec<u8>,
    alloc: Global,
    zone: Option<&ZoneFile>,
    word: &ReportWord,
) -> Result<(), AllocError>
    ensures { OnOk result (AddsWord zone.entry word.now out.old.items out.new.items) }
{
    match word {
        ReportWord::Prose(prose) => out.extend_from_slice(prose.as_bytes()),
        ReportWord::Side(side) => push_side(out, *side),
        ReportWord::Line(at) => push_place(out, at.side, at.number),
        ReportWord::Reading(milliseconds) => push_moment(out, alloc, None, *milliseconds),
        ReportWord::Moment(milliseconds) => push_moment(out, alloc, zone, *milliseconds),
        ReportWord::BeforeEpoch(milliseconds) => {
            push_counted(out, *milliseconds, b" ms before 1970-01-01T00:00:00.000Z")
        }
        ReportWord::Milliseconds(milliseconds) => push_counted(out, *milliseconds, b" ms"),
        ReportWord::Seconds(seconds) => push_counted(out, *seconds, b" s"),
        ReportWord::Number(number) => push_number(out, *number),
        ReportWord::Client(client) => push_octets(out, client.as_bytes()),
        ReportWord::Association(Iaid(number)) => push_octets(out, &number.to_be_bytes()),
        ReportWord::Prefix(prefix) => push_prefix(out, prefix),
        ReportWord::Entry(line) => push_entry(out, line),
    }
}

/// Appends words.
#[tactic(auto, using(crate::proofs::MoreWords::words_step, crate::proofs::MoreWords::no_words))]
pub(crate) fn push_words(
    out: &mut Vec<u8>,
    alloc: Global,
    zone: Option<&ZoneFile>,
    words: &[ReportWord],
) -> Result<(), AllocError>
    ensures { OnOk result (AddsWords zone.entry words.now out.old.items out.new.items) }
{
    for word in words {
        push_word(out, alloc, zone, word)?;
    }
    Ok(())
}
