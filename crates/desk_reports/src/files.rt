//! Reports on who held a prefix, over the volumes of files.

ghost use Rattle.std.specs.Prelude.{◌≡◌, IfOk};
ghost use Rattle.journal_archive.specs.PairLookups.{IsPairLookup};
ghost use Rattle.archive_files.specs.Showing.{AreClosed};
ghost use Rattle.desk_reports.specs.OverFiles.{IsHolderAccess, IsSpannedReport, IsLackReport, IsHolderReport};
ghost use Rattle.desk_reports.specs.OverFiles.{scope_of, IsHolderReportOfFiles};
ghost use Rattle.desk_reports.specs.Unanswered.{IsHolderLackTold};

use crate::holders::reply_told;
use crate::sourcing::{behind_passed, noted_over, read_pair};
use crate::style::{ReportSource, ReportStyle};
use crate::unanswered::{ReportQuestion, lacking_told};
use access_records::AccessTexts;
use archive_desk::{CommandOutput, TimingBounds, access_over, expect_read};
use archive_files::{FilesError, JournalFiles, SettingsScope, catalogue_of};
use binding_rules::Role;
use desk_args::SettingsCheck;
use holder_answers::HolderAnswer;
use joined_answers::{SpanReply, SpannedAnswer, holder_over_spans};
use journal_archive::{Archive, CoverageGap, PairLookup, VolumePair};
use plain_search::HolderQuery;
use std::alloc::Global;
use std::path::PathBuf;
use std::thread::Threads;
use volume_spans::SpanPair;

/// What access records say of the grants that show a holder; nothing where nobody is named.
fn access_for<F: AccessTexts>(
    alloc: Global,
    files: &F,
    pair: &VolumePair,
    spans: &SpanPair,
    answer: &HolderAnswer,
) -> Result<Vec<u8>, FilesError>
    ensures { IfOk result
        (λ text. IsHolderAccess (F.says files.now) pair.now spans.now answer.now text.items) }
{
    match answer {
        HolderAnswer::Held(certificate) => access_over(alloc, files, pair, spans, certificate),
        HolderAnswer::Refused(_) | HolderAnswer::NotNamed(_) | HolderAnswer::TooLong(_) => {
            Ok(Vec::new(alloc))
        }
    }
}

/// The report on an answer over spans of volumes.
fn spanned_told<F: AccessTexts>(
    rt: &(impl Threads + Sync),
    alloc: Global,
    files: &F,
    names: &[PathBuf],
    answered: SpannedAnswer,
    query: &HolderQuery,
    settings: SettingsCheck,
    style: &ReportStyle,
) -> Result<CommandOutput, FilesError>
    requires { AreClosed answered.shown }
    ensures { IfOk result (IsSpannedReport names.now (F.says files.now) answered query.now settings style.now) }
{
    let SpannedAnswer {
        spans,
        pair,
        shown,
        answer,
        until: _until,
        origins,
    } = answered;
    let access = access_for(alloc, files, &pair, &spans, &answer)?;
    let read = read_pair(&pair, shown)?;
    let source = ReportSource {
        pair: &read,
        volumes: Some(spans),
        origins: Some(&origins),
        access: &access,
        settings: settings,
    };
    let told = reply_told(rt, alloc, &source, query, &answer, style);
    noted_over(alloc, names, &pair, &spans, told)
}

/// What is told of a moment that no volumes of a side show.
fn lacking_of(
    alloc: Global,
    names: &[PathBuf],
    query: &HolderQuery,
    side: Role,
    lack: &CoverageGap,
    style: &ReportStyle,
) -> Result<CommandOutput, FilesError>
    ensures { IfOk result (IsHolderLackTold style.now.form query.now side lack.now) }
{
    let question = ReportQuestion::Holder(query);
    let bounds = TimingBounds {
        skew: query.skew,
        transit: query.transit,
    };
    let told = lacking_told(alloc, question, names, side, lack, &bounds, style.form)?;
    Ok(told)
}

/// The side that lacks a moment which lies in a roll, and the roll: the two volumes of it aren't one journal. `Changed`
/// where one volume of each side shows the moment.
fn gap_at(archive: &Archive, query: &HolderQuery) -> Result<(Role, CoverageGap), FilesError>
    ensures { IfOk result (λ gap. IsPairLookup archive.now.primary archive.now.secondary query.now.skew
        query.now.transit query.now.at (PairLookup.Lacking gap.0 gap.1)) }
{
    match archive.at(query.at.milliseconds(), query.skew, query.transit) {
        PairLookup::Lacking(side, lack) => Ok((side, lack)),
        PairLookup::Shown(pair) => Err(FilesError::Changed {
            file: pair.primary.file,
        }),
    }
}

/// What is told of a moment in a roll whose two volumes aren't one journal.
fn roll_told(
    alloc: Global,
    names: &[PathBuf],
    archive: &Archive,
    query: &HolderQuery,
    style: &ReportStyle,
) -> Result<CommandOutput, FilesError>
    ensures { IfOk result (IsLackReport archive.now query.now style.now) }
{
    let (side, lack) = gap_at(archive, query)?;
    lacking_of(alloc, names, query, side, &lack, style)
}

/// The report on a search for a holder over the volumes that show the moment, or over earlier ones too.
#[tactic(auto, using(crate::proofs::Spans::closed_over))]
fn holder_over<F: JournalFiles + AccessTexts>(
    rt: &(impl Threads + Sync),
    alloc: Global,
    files: &F,
    names: &[PathBuf],
    archive: &Archive,
    query: &HolderQuery,
    settings: SettingsCheck,
    style: &ReportStyle,
) -> Result<CommandOutput, FilesError>
    ensures { IfOk result (IsHolderReport names.now (F.had files.now) (F.says files.now) archive.now query.now
        settings style.now) }
{
    match holder_over_spans(rt, alloc, files, archive, query, settings)? {
        SpanReply::Answered(answered) => spanned_told(
            rt, alloc, files, names, answered, query, settings, style,
        ),
        SpanReply::Lacking(side, lack) => lacking_of(alloc, names, query, side, &lack, style),
        SpanReply::Refused(_) => roll_told(alloc, names, archive, query, style),
    }
}

/// Whose settings must be one.
fn scope_of(settings: SettingsCheck) -> SettingsScope
    ensures { result ≡ scope_of settings }
{
    match settings {
        SettingsCheck::MustAgree => SettingsScope::OfBoth,
        SettingsCheck::MayDiffer => SettingsScope::OfEach,
    }
}

/// The report on a search for a holder over the volumes that files are. Errors are those of `archive_desk::answer`.
pub fn holder_in_files<F: JournalFiles + AccessTexts>(
    rt: &(impl Threads + Sync),
    alloc: Global,
    files: &F,
    names: &[PathBuf],
    query: &HolderQuery,
    settings: SettingsCheck,
    style: &ReportStyle,
) -> Result<CommandOutput, FilesError>
    ensures { IfOk result (IsHolderReportOfFiles names.now (F.had files.now) (F.files files.now) (F.says files.now)
        query.now settings style.now) }
{
    let catalogue = catalogue_of(alloc, files, scope_of(settings))?;
    expect_read(names, &catalogue.passed_over)?;
    let told = holder_over(
        rt,
        alloc,
        files,
        names,
        &catalogue.archive,
        query,
        settings,
        style,
    )?;
    behind_passed(alloc, names, &catalogue.passed_over, style.detail, told)
}
