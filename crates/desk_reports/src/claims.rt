//! Reports on certificates, over the volumes of files.

ghost use Rattle.std.specs.Prelude.{◌≡◌, ◌≤◌, [], Some, option_map, codes, IfOk, IfErr, IfSome, IsOkAnd, IsTrue};
ghost use Rattle.certificate.specs.Faults.{certificate_of};
ghost use Rattle.archive_files.specs.Showing.{AreClosed};
ghost use Rattle.volume_spans.specs.Reading.{AreWritten};
ghost use Rattle.volume_spans.specs.Shown.{IsShownOver};
ghost use Rattle.joined_rulings.specs.Lacks.{refusal_line, missing_line};
ghost use Rattle.pair_judgement.specs.Judgements.{judgement_line};
ghost use Rattle.desk_reports.specs.OverVolumes.{IsClaimAccess, IsReportOver, IsReportOfSpanned, IsReportOfSpans};
ghost use Rattle.desk_reports.specs.OverVolumes.{IsReportOverGiven, alone, spans_of, IsReportAt, IsReportOfOwn};
ghost use Rattle.desk_reports.specs.OverVolumes.{IsOrdered, are_in_order, in_order, accepted_spans, IsReportBy};
ghost use Rattle.desk_reports.specs.OverVolumes.{AcceptedIsTrue, IsReportOfFiles, IsReportOfAudit};
ghost use Rattle.desk_reports.specs.Unanswered.{IsRulingTold, IsLackTold};

use crate::laws::volume_reports_are_true;
use crate::sourcing::{behind_passed, noted_over, read_pair};
use crate::style::{ReportSource, ReportStyle};
use crate::telling::explain_told;
use crate::unanswered::{ReportQuestion, lacking_told, refused_told};
use access_records::AccessTexts;
use archive_desk::{CommandOutput, TimingBounds, access_over, expect_read};
use archive_files::{
    FilesError, JournalFiles, SettingsScope, ShownJournals, catalogue_of, shown_at,
};
use attribution::Verdict;
use binding_rules::Role;
use causal_order::CertificateFault;
use certificate::CertificateError;
use desk_args::{ReportForm, SettingsCheck};
use joined_rulings::{CertificateRuling, audit_widest, missing_told, refusal_told};
use journal_archive::{Archive, CoverageGap, FiledVolume, PairJournals, VolumePair};
use line_origins::SpanOrigins;
use open_volume::text_gives_the_volume_it_spells;
use pair_judgement::{Judgement, judgement_line};
use std::alloc::{AllocError, Global};
use std::path::PathBuf;
use std::sync::Wait;
use std::thread::Threads;
use volume_spans::{
    GivenSpans, JoinRefusal, ReadSpans, SpanPair, SpannedJournals, VolumeSpan, read_spans,
};

/// A certificate's text that is asked of volumes, with these bounds.
#[derive(Clone, Copy)]
struct ClaimAsked<'a> {
    certificate: &'a [u8],
    bounds: TimingBounds,
}

/// What access records say of the grants that a certificate names; nothing of a text that is none.
fn access_for<F: AccessTexts>(
    alloc: Global,
    files: &F,
    pair: &VolumePair,
    spans: &SpanPair,
    certificate: &[u8],
) -> Result<Vec<u8>, FilesError>
    ensures { IfOk result (λ text. IsClaimAccess (F.says files.now) pair.now spans.now
        (certificate_of certificate.now) text.items) }
{
    match certificate::read(alloc, certificate) {
        Ok(claim) => access_over(alloc, files, pair, spans, &claim),
        Err(CertificateError::Fault(_)) => Ok(Vec::new(alloc)),
        Err(CertificateError::Memory) => Err(FilesError::Memory),
    }
}

/// The report over the journals that these volumes show. `Changed` where one of them has no line any longer.
fn explain_shown<F: AccessTexts>(
    rt: &(impl Threads + Sync),
    alloc: Global,
    files: &F,
    names: &[PathBuf],
    pair: &VolumePair,
    spans: &SpanPair,
    origins: Option<&SpanOrigins>,
    shown: PairJournals,
    asked: &ClaimAsked,
    style: &ReportStyle,
) -> Result<CommandOutput, FilesError>
    requires { AreClosed shown }
    ensures { IfOk result (IsReportOver names.now (F.says files.now) pair.now spans.now
        (option_map (λ o. o.now) origins.entry) shown
        asked.now.certificate.now asked.now.bounds style.now) }
{
    let access = access_for(alloc, files, pair, spans, asked.certificate)?;
    let read = read_pair(pair, shown)?;
    let source = ReportSource {
        pair: &read,
        volumes: Some(*spans),
        origins,
        access: &access,
        settings: SettingsCheck::MustAgree,
    };
    let told = explain_told(rt, alloc, &source, asked.certificate, &asked.bounds, style);
    noted_over(alloc, names, pair, spans, told)
}

/// What is told of a certificate where the volumes of a side aren't one journal.
fn refused_over(
    alloc: Global,
    names: &[PathBuf],
    refusal: &JoinRefusal,
    certificate: &[u8],
    form: ReportForm,
) -> Result<CommandOutput, AllocError>
    ensures { IfOk result (IsRulingTold form certificate.now (refusal_line names.now refusal.now) []) }
{
    let told = refusal_told(alloc, names, refusal)?;
    let question = ReportQuestion::Certificate(certificate);
    refused_told(alloc, question, told.text, told.notes, form)
}

/// The report over the journals that these spans show.
fn explain_joined<F: AccessTexts>(
    rt: &(impl Threads + Sync),
    alloc: Global,
    files: &F,
    names: &[PathBuf],
    read: &ReadSpans,
    shown: PairJournals,
    asked: &ClaimAsked,
    style: &ReportStyle,
) -> Result<CommandOutput, FilesError>
    requires shown { IsShownOver read.now.primary.volumes.items read.now.secondary.volumes.items
        (SpannedJournals.Journals shown) }
    requires primary { AreWritten read.now.primary.volumes.items }
    requires secondary { AreWritten read.now.secondary.volumes.items }
    ensures { IfOk result (IsReportOfSpanned names.now (F.says files.now) read.now asked.now.certificate.now
        asked.now.bounds style.now (SpannedJournals.Journals shown)) }
{
    let (pair, spans) = (read.last_pair(), read.spans());
    let origins = SpanOrigins::of(alloc, read)?;
    let shows = Some(&origins);
    explain_shown(
        rt, alloc, files, names, &pair, &spans, shows, shown, asked, style,
    )
}

/// The report over the journals that spans show, or why the volumes of a side aren't one journal.
fn explain_read<F: AccessTexts>(
    rt: &(impl Threads + Sync),
    alloc: Global,
    files: &F,
    names: &[PathBuf],
    read: &ReadSpans,
    asked: &ClaimAsked,
    style: &ReportStyle,
) -> Result<CommandOutput, FilesError>
    requires primary { AreWritten read.now.primary.volumes.items }
    requires secondary { AreWritten read.now.secondary.volumes.items }
    ensures { IfOk result (IsReportOfSpans names.now (F.says files.now) read.now asked.now.certificate.now
        asked.now.bounds style.now) }
{
    match read.shown(alloc)? {
        SpannedJournals::Journals(shown) => {
            explain_joined(rt, alloc, files, names, read, shown, asked, style)
        }
        SpannedJournals::Refused(refusal) => {
            let told = refused_over(alloc, names, &refusal, asked.certificate, style.form);
            told_or_memory(told)
        }
    }
}

/// What is told; `Memory` where a growth was refused.
fn told_or_memory(told: Result<CommandOutput, AllocError>) -> Result<CommandOutput, FilesError>
    ensures told { IfOk result (λ output. IsOkAnd told (λ own. own ≡ output)) }
    ensures refused { IfErr result (λ e. e ≡ FilesError.Memory) }
{
    match told {
        Ok(told) => Ok(told),
        Err(_) => Err(FilesError::Memory),
    }
}

/// What is told of a certificate where a volume that it is asked of is missing.
fn missing_over(
    alloc: Global,
    side: Role,
    number: u32,
    certificate: &[u8],
    form: ReportForm,
) -> Result<CommandOutput, AllocError>
    ensures { IfOk result (IsRulingTold form certificate.now (codes "none\n") (missing_line side number)) }
{
    let told = missing_told(alloc, Vec::new(alloc), side, number)?;
    let question = ReportQuestion::Certificate(certificate);
    refused_told(alloc, question, told.text, told.notes, form)
}

/// The report over these volumes, of which each must be there.
fn explain_given<F: JournalFiles + AccessTexts>(
    rt: &(impl Threads + Sync),
    alloc: Global,
    files: &F,
    names: &[PathBuf],
    archive: &Archive,
    spans: &SpanPair,
    asked: &ClaimAsked,
    style: &ReportStyle,
) -> Result<CommandOutput, FilesError>
    requires { IsOrdered spans.now }
    ensures { IfOk result (IsReportOverGiven names.now (F.had files.now) (F.says files.now) archive.now spans.now
        asked.now.certificate.now asked.now.bounds style.now) }
{
    match read_spans(alloc, files, archive, spans)? {
        GivenSpans::Read(read) => explain_read(rt, alloc, files, names, &read, asked, style),
        GivenSpans::Missing(side, number) => {
            let told = missing_over(alloc, side, number, asked.certificate, style.form);
            told_or_memory(told)
        }
    }
}

/// A volume of each side, as spans.
fn spans_of(pair: &VolumePair) -> SpanPair
    ensures { result ≡ spans_of pair.now }
{
    SpanPair {
        primary: alone(&pair.primary),
        secondary: alone(&pair.secondary),
    }
}

fn alone(volume: &FiledVolume) -> VolumeSpan
    ensures { result ≡ alone volume.now }
{
    VolumeSpan {
        first: volume.outline.number,
        last: volume.outline.number,
    }
}

/// What is told of a certificate where no volume of a side shows the moment.
fn lacking_over(
    alloc: Global,
    names: &[PathBuf],
    side: Role,
    lack: &CoverageGap,
    asked: &ClaimAsked,
    form: ReportForm,
) -> Result<CommandOutput, AllocError>
    ensures { IfOk result (IsLackTold form asked.now.certificate.now side lack.now) }
{
    let question = ReportQuestion::Certificate(asked.certificate);
    lacking_told(alloc, question, names, side, lack, &asked.bounds, form)
}

/// The report over the pair of volumes that shows a moment, or what is lacking of it.
fn explain_at<F: JournalFiles + AccessTexts>(
    rt: &(impl Threads + Sync),
    alloc: Global,
    files: &F,
    names: &[PathBuf],
    archive: &Archive,
    moment: u64,
    asked: &ClaimAsked,
    style: &ReportStyle,
) -> Result<CommandOutput, FilesError>
    ensures { IfOk result (IsReportAt names.now (F.had files.now) (F.says files.now) archive.now moment
        asked.now.certificate.now asked.now.bounds style.now) }
{
    let TimingBounds { skew, transit } = asked.bounds;
    match shown_at(alloc, files, archive, moment, skew, transit)? {
        ShownJournals::Journals(pair, shown) => {
            let spans = spans_of(&pair);
            explain_shown(
                rt, alloc, files, names, &pair, &spans, None, shown, asked, style,
            )
        }
        ShownJournals::Lacking(side, lack) => {
            let told = lacking_over(alloc, names, side, &lack, asked, style.form);
            told_or_memory(told)
        }
    }
}

/// What is told of a certificate's text that is at fault.
fn fault_over(
    alloc: Global,
    fault: CertificateFault,
    certificate: &[u8],
    form: ReportForm,
) -> Result<CommandOutput, AllocError>
    ensures { IfOk result (IsRulingTold form certificate.now
        (judgement_line (Judgement.Verdict (Verdict.Certificate fault))) []) }
{
    let ruling = Judgement::Verdict(Verdict::Certificate(fault));
    let line = judgement_line(alloc, &ruling)?;
    let question = ReportQuestion::Certificate(certificate);
    refused_told(alloc, question, line, Vec::new(alloc), form)
}

/// The report over the pair of volumes that shows where the certificate's interval begins; of its text alone where that
/// is at fault.
fn explain_own<F: JournalFiles + AccessTexts>(
    rt: &(impl Threads + Sync),
    alloc: Global,
    files: &F,
    names: &[PathBuf],
    archive: &Archive,
    asked: &ClaimAsked,
    style: &ReportStyle,
) -> Result<CommandOutput, FilesError>
    ensures { IfOk result (IsReportOfOwn names.now (F.had files.now) (F.says files.now) archive.now
        asked.now.certificate.now asked.now.bounds style.now) }
{
    match certificate::read(alloc, asked.certificate) {
        Ok(claim) => {
            let moment = claim.from.milliseconds();
            explain_at(rt, alloc, files, names, archive, moment, asked, style)
        }
        Err(CertificateError::Fault(fault)) => {
            let told = fault_over(alloc, fault, asked.certificate, style.form);
            told_or_memory(told)
        }
        Err(CertificateError::Memory) => Err(FilesError::Memory),
    }
}

/// Returns whether the first volume of each side isn't behind its last.
fn are_in_order(spans: &SpanPair) -> bool
    ensures value { result ≡ are_in_order spans.now }
    ensures ordered { IsTrue result → IsOrdered spans.now }
{
    spans.primary.first <= spans.primary.last && spans.secondary.first <= spans.secondary.last
}

fn in_order(spans: SpanPair) -> Option<SpanPair>
    ensures value { result ≡ in_order spans }
    ensures ordered { IfSome result IsOrdered }
{
    if are_in_order(&spans) {
        Some(spans)
    } else {
        None
    }
}

/// The volumes over which `audit` accepts a certificate, where these are more than the pair that shows its interval's
/// beginning.
fn accepted_spans(rulings: &[CertificateRuling]) -> Option<SpanPair>
    ensures value { result ≡ accepted_spans rulings.now }
    ensures ordered { IfSome result IsOrdered }
{
    match rulings.first() {
        Some(CertificateRuling::Joined(ruling)) => in_order(ruling.spans),
        Some(CertificateRuling::Own(_)) | None => None,
    }
}

/// The report over these spans; where there are none over the pair that shows where the certificate's interval begins.
fn explain_by<F: JournalFiles + AccessTexts>(
    rt: &(impl Threads + Sync),
    alloc: Global,
    files: &F,
    names: &[PathBuf],
    archive: &Archive,
    spans: Option<SpanPair>,
    asked: &ClaimAsked,
    style: &ReportStyle,
) -> Result<CommandOutput, FilesError>
    requires { IfSome spans IsOrdered }
    ensures { IfOk result (IsReportBy names.now (F.had files.now) (F.says files.now) archive.now
        asked.now.certificate.now asked.now.bounds style.now spans) }
{
    match spans {
        Some(spans) => explain_given(rt, alloc, files, names, archive, &spans, asked, style),
        None => explain_own(rt, alloc, files, names, archive, asked, style),
    }
}

/// The same, of which the laws tell that it's true where it's accepted.
fn explain_truly<F: JournalFiles + AccessTexts>(
    rt: &(impl Threads + Sync),
    alloc: Global,
    files: &F,
    names: &[PathBuf],
    archive: &Archive,
    spans: Option<SpanPair>,
    asked: &ClaimAsked,
    style: &ReportStyle,
) -> Result<CommandOutput, FilesError>
    requires { IfSome spans IsOrdered }
    ensures report { IfOk result (IsReportBy names.now (F.had files.now) (F.says files.now) archive.now
        asked.now.certificate.now asked.now.bounds style.now spans) }
    ensures accepted { IfOk result (AcceptedIsTrue names.now (F.had files.now) archive.now asked.now.certificate.now
        asked.now.bounds) }
{
    volume_reports_are_true();
    text_gives_the_volume_it_spells();
    explain_by(rt, alloc, files, names, archive, spans, asked, style)
}

/// The same of the volumes that files are, behind what is said of the other files.
fn explain_over<F: JournalFiles + AccessTexts>(
    rt: &(impl Threads + Sync),
    alloc: Global,
    files: &F,
    names: &[PathBuf],
    spans: Option<SpanPair>,
    asked: &ClaimAsked,
    style: &ReportStyle,
) -> Result<CommandOutput, FilesError>
    requires { IfSome spans IsOrdered }
    ensures { IfOk result (IsReportOfFiles names.now (F.had files.now) (F.files files.now) (F.says files.now)
        asked.now.certificate.now asked.now.bounds style.now spans) }
{
    let catalogue = catalogue_of(alloc, files, SettingsScope::OfEach)?;
    expect_read(names, &catalogue.passed_over)?;
    let archive = &catalogue.archive;
    let told = explain_truly(rt, alloc, files, names, archive, spans, asked, style)?;
    behind_passed(alloc, names, &catalogue.passed_over, style.detail, told)
}

/// The report on a certificate over the volumes that files are: over those over which `audit` accepts it, or over the
/// pair that shows where its interval begins. Errors are those of `archive_desk::answer`.
pub fn explain_files<F: JournalFiles + AccessTexts>(
    rt: &(impl Threads + Wait + Sync),
    alloc: Global,
    files: &F,
    names: &[PathBuf],
    certificate: &[u8],
    bounds: &TimingBounds,
    style: &ReportStyle,
) -> Result<CommandOutput, FilesError>
    ensures { IfOk result (IsReportOfAudit names.now (F.had files.now) (F.files files.now) (F.says files.now)
        certificate.now bounds.now style.now) }
{
    let audit = audit_widest(rt, alloc, files, names, certificate, bounds)?;
    let spans = accepted_spans(&audit.rulings);
    let asked = ClaimAsked {
        certificate,
        bounds: *bounds,
    };
    explain_over(rt, alloc, files, names, spans, &asked, style)
}

/// The report on a certificate over these volumes. Errors are those of `joined_rulings::audit_spans`.
pub fn explain_spans<F: JournalFiles + AccessTexts>(
    rt: &(impl Threads + Sync),
    alloc: Global,
    files: &F,
    names: &[PathBuf],
    spans: &SpanPair,
    certificate: &[u8],
    bounds: &TimingBounds,
    style: &ReportStyle,
) -> Result<CommandOutput, FilesError>
    requires primary { spans.now.primary.first ≤ spans.now.primary.last }
    requires secondary { spans.now.secondary.first ≤ spans.now.secondary.last }
    ensures { IfOk result (IsReportOfFiles names.now (F.had files.now) (F.files files.now) (F.says files.now)
        certificate.now bounds.now style.now (Some spans.now)) }
{
    let asked = ClaimAsked {
        certificate,
        bounds: *bounds,
    };
    explain_over(rt, alloc, files, names, Some(*spans), &asked, style)
}
