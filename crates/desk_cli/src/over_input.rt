//! Answering over standard input.

ghost use Rattle.std.specs.Prelude.{IfOk};
ghost use Rattle.std.specs.Result.{ForOk};
ghost use Rattle.journal_text.specs.Closed.{IsClosed};

use crate::fault::DeskFault;
use crate::spans::{none_told, shortfall};
use crate::writing::{or_fault, write_both, write_out};
use crate::zones::{style_of, zone_named};
use archive_desk::{CommandOutput, TimingBounds};
use attribution_desk::{
    Command, DeskError, Intake, PairIntake, ReadInput, ReadPair, Search, UsageError, Watched,
    judge_parsed, run, search_pair, take_all, warnings_on,
};
use desk_args::{AnswerForm, MomentSpan, NoteDetail, ReportForm, ReportOptions, SettingsCheck};
use desk_reports::{
    ReportSource, ReportStyle, VolumeEnds, explain_told, found_data, holder_data, holder_told,
    refused_data, ruling_data,
};
use holder_answers::holder_answer;
use journal_text::{text_gives_what_it_spells, written_is_closed};
use lead_time::{Skew, Transit};
use plain_search::{HolderQuery, Query};
use std::sync::Wait;
use std::thread::Threads;

/// Answers a command.
pub(crate) fn answered(
    rt: &HostRuntime,
    threads: &(impl Threads + Wait + Sync),
    command: &Command,
) -> Result<u8, DeskFault> {
    let mut reader = Watched::new(rt.stdin());
    let mut writer = Watched::new(rt.stdout());
    let outcome = run(threads, rt.alloc(), command, &mut reader, &mut writer).map_err(
        DeskFault::Desk,
    )?;
    // (the answer is written: it stands, whether anybody reads a warning or not)
    let _ = rt.stderr().write_all(&outcome.warnings);
    Ok(outcome.status)
}

/// All that standard input has: two texts as journals, and a certificate's.
fn input_of(rt: &HostRuntime, threads: &(impl Threads + Sync)) -> Result<ReadInput, DeskError>
    ensures primary_closed { IfOk result (λ input. ForOk input.primary (λ journal. IsClosed journal.lines)) }
    ensures secondary_closed { IfOk result (λ input. ForOk input.secondary (λ journal. IsClosed journal.lines)) }
{
    let mut reader = Watched::new(rt.stdin());
    let intake = take_all(threads, rt.alloc(), &mut reader, Intake::new(rt.alloc()))?;
    let input = intake.finish();
    Ok(input)
}

/// All that standard input has: two texts as journals.
fn pair_of(rt: &HostRuntime, threads: &(impl Threads + Sync)) -> Result<ReadPair, DeskError>
    ensures primary_closed { IfOk result (λ pair. ForOk pair.primary (λ journal. IsClosed journal.lines)) }
    ensures secondary_closed { IfOk result (λ pair. ForOk pair.secondary (λ journal. IsClosed journal.lines)) }
{
    text_gives_what_it_spells();
    written_is_closed();
    let mut reader = Watched::new(rt.stdin());
    let intake = take_all(
        threads,
        rt.alloc(),
        &mut reader,
        PairIntake::new(rt.alloc()),
    )?;
    let pair = intake.finish();
    Ok(pair)
}

/// The ruling on a certificate, as one JSON object.
fn audit_written(
    rt: &HostRuntime,
    threads: &(impl Threads + Wait + Sync),
    skew: Skew,
    transit: Transit,
) -> Result<u8, DeskFault> {
    let alloc = rt.alloc();
    let input = input_of(rt, threads).map_err(DeskFault::Desk)?;
    let ReadInput {
        primary,
        secondary,
        rest,
    } = input;
    let notes = warnings_on(alloc, &primary, &secondary, skew, transit).map_err(DeskFault::Desk)?;
    let ruling = judge_parsed(threads, alloc, primary, secondary, &rest, skew, transit).map_err(
        DeskFault::Desk,
    )?;
    let text = ruling_data(alloc, &ruling, &notes).map_err(|_| DeskFault::memory())?;
    write_both(rt, &text, &notes)?;
    Ok(pair_judgement::status_of(&ruling))
}

/// What is found in two texts as journals, as one JSON object.
fn found_written(
    rt: &HostRuntime,
    threads: &(impl Threads + Wait + Sync),
    pair: &ReadPair,
    search: &Search,
) -> Result<u8, DeskFault>
    requires primary_closed { ForOk pair.now.primary (λ journal. IsClosed journal.lines) }
    requires secondary_closed { ForOk pair.now.secondary (λ journal. IsClosed journal.lines) }
{
    let alloc = rt.alloc();
    let found = search_pair(threads, alloc, pair, search).map_err(DeskFault::Desk)?;
    let mut notes = search.warnings(alloc, pair).map_err(DeskFault::Desk)?;
    notes
        .extend_from_slice(found.note())
        .map_err(|_| DeskFault::memory())?;
    let text = found_data(alloc, &found, &notes).map_err(DeskFault::Desk)?;
    write_both(rt, &text, &notes)?;
    Ok(found.status())
}

/// The evidence of what is asked, as one JSON object.
fn find_written(
    rt: &HostRuntime,
    threads: &(impl Threads + Wait + Sync),
    query: &Query,
) -> Result<u8, DeskFault> {
    let pair = pair_of(rt, threads).map_err(DeskFault::Desk)?;
    found_written(rt, threads, &pair, &Search::Find(*query))
}

/// Who held a prefix, as one JSON object.
fn who_written(
    rt: &HostRuntime,
    threads: &(impl Threads + Wait + Sync),
    query: &HolderQuery,
    settings: SettingsCheck,
) -> Result<u8, DeskFault> {
    let alloc = rt.alloc();
    let pair = pair_of(rt, threads).map_err(DeskFault::Desk)?;
    let ends = VolumeEnds::CLOSED;
    let found = holder_answer(threads, alloc, &pair, query, settings, ends).map_err(
        DeskFault::Desk,
    )?;
    let text = holder_data(alloc, &found).map_err(DeskFault::Desk)?;
    write_both(rt, &text, found.note())?;
    Ok(found.status())
}

/// Who held a prefix for all of some moments, in a form: `none` where it isn't shown of one client.
fn span_written(
    rt: &HostRuntime,
    threads: &(impl Threads + Wait + Sync),
    query: &HolderQuery,
    settings: SettingsCheck,
    span: MomentSpan,
    form: AnswerForm,
) -> Result<u8, DeskFault> {
    let alloc = rt.alloc();
    let pair = pair_of(rt, threads).map_err(DeskFault::Desk)?;
    let ends = VolumeEnds::CLOSED;
    let found = holder_answer(threads, alloc, &pair, query, settings, ends).map_err(
        DeskFault::Desk,
    )?;
    let lack = shortfall(alloc, query, span, &found).map_err(|_| DeskFault::memory())?;
    let (line, status) = match &lack {
        Some(line) => (line.as_slice(), 1),
        None => (found.note(), found.status()),
    };
    let text = match (form, &lack) {
        (AnswerForm::Plain, None) => found.text(alloc).map_err(DeskFault::Desk)?,
        (AnswerForm::Json, None) => holder_data(alloc, &found).map_err(DeskFault::Desk)?,
        (AnswerForm::Plain, Some(_)) => {
            none_told(alloc, b"", b"")
                .map_err(|_| DeskFault::memory())?
                .text
        }
        (AnswerForm::Json, Some(_)) => {
            refused_data(alloc, "who", b"none").map_err(|_| DeskFault::memory())?
        }
    };
    write_both(rt, &text, line)?;
    Ok(status)
}

/// Who held a prefix for all of some moments, whatever keeps it from an answer.
pub(crate) fn held_for_all(
    rt: &HostRuntime,
    threads: &(impl Threads + Wait + Sync),
    query: &HolderQuery,
    settings: SettingsCheck,
    span: MomentSpan,
    form: AnswerForm,
) -> Result<u8, DeskFault> {
    let told = match form {
        AnswerForm::Plain => ReportForm::Plain,
        AnswerForm::Json => ReportForm::Json,
    };
    or_fault(
        rt,
        told,
        span_written(rt, threads, query, settings, span, form),
    )
}

/// Answers a command, as one JSON object, whatever keeps it from an answer.
pub(crate) fn answered_json(
    rt: &HostRuntime,
    threads: &(impl Threads + Wait + Sync),
    command: &Command,
) -> Result<u8, DeskFault> {
    let written = match command {
        Command::Audit { skew, transit } => audit_written(rt, threads, *skew, *transit),
        Command::Find(query) => find_written(rt, threads, query),
        Command::Who(query, settings) => who_written(rt, threads, query, *settings),
        // (these have no object)
        Command::Batch { .. } | Command::Timeline | Command::Clocks => Err(DeskFault::Usage(
            UsageError::Usage,
        )),
    };
    or_fault(rt, ReportForm::Json, written)
}

/// What is reported on a certificate's text over two texts as journals.
fn explained_over(
    rt: &HostRuntime,
    threads: &(impl Threads + Wait + Sync),
    pair: &ReadPair,
    certificate: &[u8],
    bounds: &TimingBounds,
    style: &ReportStyle,
) -> Result<CommandOutput, DeskError>
    requires primary_closed { ForOk pair.now.primary (λ journal. IsClosed journal.lines) }
    requires secondary_closed { ForOk pair.now.secondary (λ journal. IsClosed journal.lines) }
{
    let source = ReportSource {
        pair,
        volumes: None,
        origins: None,
        access: b"",
        settings: SettingsCheck::MustAgree,
    };
    explain_told(threads, rt.alloc(), &source, certificate, bounds, style)
}

/// A report on a certificate.
fn explain_written(
    rt: &HostRuntime,
    threads: &(impl Threads + Wait + Sync),
    skew: Skew,
    transit: Transit,
    telling: &ReportOptions,
) -> Result<u8, DeskFault> {
    let zone = zone_named(rt, telling.zone)?;
    let input = input_of(rt, threads).map_err(DeskFault::Desk)?;
    let pair = ReadPair {
        primary: input.primary,
        secondary: input.secondary,
    };
    let style = style_of(telling, &zone, NoteDetail::Brief);
    let bounds = TimingBounds { skew, transit };
    let told = explained_over(rt, threads, &pair, &input.rest, &bounds, &style);
    write_out(rt, &told.map_err(DeskFault::Desk)?)
}

/// What is told of who held a prefix, over two texts as journals.
fn holder_over(
    rt: &HostRuntime,
    threads: &(impl Threads + Wait + Sync),
    pair: &ReadPair,
    query: &HolderQuery,
    settings: SettingsCheck,
    style: &ReportStyle,
) -> Result<CommandOutput, DeskError>
    requires primary_closed { ForOk pair.now.primary (λ journal. IsClosed journal.lines) }
    requires secondary_closed { ForOk pair.now.secondary (λ journal. IsClosed journal.lines) }
{
    let source = ReportSource {
        pair,
        volumes: None,
        origins: None,
        access: b"",
        settings,
    };
    holder_told(threads, rt.alloc(), &source, query, settings, style)
}

/// Who held a prefix, and a report on that.
fn holder_written(
    rt: &HostRuntime,
    threads: &(impl Threads + Wait + Sync),
    query: &HolderQuery,
    settings: SettingsCheck,
    telling: &ReportOptions,
) -> Result<u8, DeskFault> {
    let zone = zone_named(rt, telling.zone)?;
    let pair = pair_of(rt, threads).map_err(DeskFault::Desk)?;
    let style = style_of(telling, &zone, NoteDetail::Brief);
    let told = holder_over(rt, threads, &pair, query, settings, &style);
    write_out(rt, &told.map_err(DeskFault::Desk)?)
}

/// A report on a certificate, in the form that is asked for, whatever keeps it from one.
pub(crate) fn explained(
    rt: &HostRuntime,
    threads: &(impl Threads + Wait + Sync),
    skew: Skew,
    transit: Transit,
    telling: &ReportOptions,
) -> Result<u8, DeskFault> {
    let written = explain_written(rt, threads, skew, transit, telling);
    or_fault(rt, telling.form, written)
}

/// Who held a prefix, and a report on that, in the form that is asked for, whatever keeps it from one.
pub(crate) fn holder_explained(
    rt: &HostRuntime,
    threads: &(impl Threads + Wait + Sync),
    query: &HolderQuery,
    settings: SettingsCheck,
    telling: &ReportOptions,
) -> Result<u8, DeskFault> {
    let written = holder_written(rt, threads, query, settings, telling);
    or_fault(rt, telling.form, written)
}
