//! Certificates, ruled over given volumes of both sides.

ghost use Rattle.std.specs.Prelude.{◌≤◌, ◌∷◌, [], ℕ, List, IfOk};
ghost use Rattle.attribution_desk.specs.Batch.{AreTexts};
ghost use Rattle.attribution_desk.specs.Claims.{texts_of};
ghost use Rattle.archive_files.specs.Showing.{AreClosed};
ghost use Rattle.volume_spans.specs.Reading.{AreWritten};
ghost use Rattle.volume_spans.specs.Shown.{IsShownOver};
ghost use Rattle.joined_rulings.specs.Given.{AreRuledBy, AreGivenRulings, IsGivenReply, IsGivenAudit};

use archive_desk::{TimingBounds, expect_lines, expect_read};
use archive_files::{FilesError, JournalFiles, SettingsScope, SkippedFile, catalogue_of};
use attribution_desk::{CertificateText, judge_certificates, texts_in};
use binding_rules::Role;
use desk_args::Workers;
use journal_archive::{Archive, PairJournals, VolumePair};
use pair_judgement::{Judgement, warnings};
use std::alloc::Global;
use std::path::PathBuf;
use std::sync::Wait;
use std::thread::Threads;
use volume_spans::{GivenSpans, JoinRefusal, ReadSpans, SpanPair, SpannedJournals, read_spans};

/// The rulings on certificates over the journals that given volumes show.
#[derive(Debug, Drop)]
pub struct GivenRulings {
    /// The volumes.
    pub spans: SpanPair,
    /// The last volume of each side.
    pub pair: VolumePair,
    /// On each of the certificates, in order.
    pub rulings: Vec<Judgement>,
    /// The warnings on the two journals (K2, K3), as lines.
    pub warnings: Vec<u8>,
}

/// What given volumes answer to certificates.
#[derive(Debug, Drop)]
pub enum GivenReply {
    Ruled(GivenRulings),
    /// The volume of this number of the side isn't in the archive, or its file is at fault.
    Missing(Role, u32),
    /// The volumes of a side aren't one journal.
    Refused(JoinRefusal),
}

/// What given volumes answer to certificates, and which of the files are no volumes.
#[derive(Debug, Drop)]
pub struct GivenAudit {
    pub passed_over: Vec<SkippedFile>,
    pub reply: GivenReply,
}

/// The rulings on certificates over two journals. `Changed` where one of them has no line.
fn rulings_by(
    rt: &(impl Threads + Wait + Sync),
    alloc: Global,
    pair: &VolumePair,
    shown: &PairJournals,
    claims: Vec<CertificateText>,
    bounds: &TimingBounds,
    workers: Workers,
) -> Result<Vec<Judgement>, FilesError>
    requires { AreClosed shown.now }
    ensures { IfOk result (λ rs. AreRuledBy shown.now bounds.now (texts_of claims.entry.items) rs.items) }
{
    expect_lines(pair, shown)?;
    match judge_certificates(
        rt,
        alloc,
        &shown.primary,
        &shown.secondary,
        claims,
        bounds.skew,
        bounds.transit,
        workers,
    ) {
        Ok(rulings) => Ok(rulings),
        Err(_) => Err(FilesError::Memory),
    }
}

/// The rulings on certificates over the journals that spans show.
fn ruled_over(
    rt: &(impl Threads + Wait + Sync),
    alloc: Global,
    read: &ReadSpans,
    shown: &PairJournals,
    claims: Vec<CertificateText>,
    bounds: &TimingBounds,
    workers: Workers,
) -> Result<GivenRulings, FilesError>
    requires shown { IsShownOver read.now.primary.volumes.items read.now.secondary.volumes.items
        (SpannedJournals.Journals shown.now) }
    requires primary { AreWritten read.now.primary.volumes.items }
    requires secondary { AreWritten read.now.secondary.volumes.items }
    ensures { IfOk result (AreGivenRulings read.now bounds.now (texts_of claims.entry.items)) }
{
    let pair = read.last_pair();
    let warnings = warnings(
        alloc,
        &shown.primary,
        &shown.secondary,
        bounds.skew,
        bounds.transit,
    )?;
    let rulings = rulings_by(rt, alloc, &pair, shown, claims, bounds, workers)?;
    Ok(GivenRulings {
        spans: read.spans(),
        pair,
        rulings,
        warnings,
    })
}

/// What the volumes of an archive that are asked for answer to certificates.
fn replied<F: JournalFiles>(
    rt: &(impl Threads + Wait + Sync),
    alloc: Global,
    files: &F,
    archive: &Archive,
    spans: &SpanPair,
    claims: Vec<CertificateText>,
    bounds: &TimingBounds,
    workers: Workers,
) -> Result<GivenReply, FilesError>
    requires primary { spans.now.primary.first ≤ spans.now.primary.last }
    requires secondary { spans.now.secondary.first ≤ spans.now.secondary.last }
    ensures { IfOk result (IsGivenReply (F.had files.now) archive.now spans.now bounds.now
        (texts_of claims.entry.items)) }
{
    let read = match read_spans(alloc, files, archive, spans)? {
        GivenSpans::Read(read) => read,
        GivenSpans::Missing(side, number) => return Ok(GivenReply::Missing(side, number)),
    };
    match read.shown(alloc)? {
        SpannedJournals::Journals(shown) => {
            let ruled = ruled_over(rt, alloc, &read, &shown, claims, bounds, workers)?;
            Ok(GivenReply::Ruled(ruled))
        }
        SpannedJournals::Refused(refusal) => Ok(GivenReply::Refused(refusal)),
    }
}

/// What the volumes that are asked for answer to certificates, out of files.
fn audited<F: JournalFiles>(
    rt: &(impl Threads + Wait + Sync),
    alloc: Global,
    files: &F,
    names: &[PathBuf],
    spans: &SpanPair,
    claims: Vec<CertificateText>,
    bounds: &TimingBounds,
    workers: Workers,
) -> Result<GivenAudit, FilesError>
    requires primary { spans.now.primary.first ≤ spans.now.primary.last }
    requires secondary { spans.now.secondary.first ≤ spans.now.secondary.last }
    ensures { IfOk result (IsGivenAudit (F.had files.now) (F.files files.now) names.now spans.now
        (texts_of claims.entry.items) bounds.now) }
{
    let catalogue = catalogue_of(alloc, files, SettingsScope::OfEach)?;
    expect_read(names, &catalogue.passed_over)?;
    let archive = &catalogue.archive;
    let reply = replied(rt, alloc, files, archive, spans, claims, bounds, workers)?;
    Ok(GivenAudit {
        passed_over: catalogue.passed_over,
        reply,
    })
}

/// The ruling on a text's one certificate over the journals that these volumes show; or which of them is missing, or
/// why those of a side aren't one journal.
///
/// `Archive` where the volumes can't be of one pair of servers, `Unread` where a file by the name of a volume's can't
/// be read, `OtherHead`, `Changed`, `Faulty` and `Torn` as of [`SpanReader::begin`], `Memory` where a growth was
/// refused.
///
/// [`SpanReader::begin`]: volume_spans::SpanReader::begin
pub fn audit_spans<F: JournalFiles>(
    rt: &(impl Threads + Wait + Sync),
    alloc: Global,
    files: &F,
    names: &[PathBuf],
    spans: &SpanPair,
    text: &[u8],
    bounds: &TimingBounds,
) -> Result<GivenAudit, FilesError>
    requires primary { spans.now.primary.first ≤ spans.now.primary.last }
    requires secondary { spans.now.secondary.first ≤ spans.now.secondary.last }
    ensures { IfOk result (IsGivenAudit (F.had files.now) (F.files files.now) names.now spans.now
        (text.now ∷ []) bounds.now) }
{
    // (one is a count of workers)
    let Some(alone) = Workers::new(1) else {
        return Err(FilesError::Memory);
    };
    let mut claims = Vec::new(alloc);
    claims.push(CertificateText { text, parsed: None })?;
    audited(rt, alloc, files, names, spans, claims, bounds, alone)
}

/// The rulings on the certificates of a text, one after another, by so many workers; as [`audit_spans`].
pub fn batch_spans<F: JournalFiles>(
    rt: &(impl Threads + Wait + Sync),
    alloc: Global,
    files: &F,
    names: &[PathBuf],
    spans: &SpanPair,
    texts: &[u8],
    bounds: &TimingBounds,
    workers: Workers,
) -> Result<GivenAudit, FilesError>
    requires primary { spans.now.primary.first ≤ spans.now.primary.last }
    requires secondary { spans.now.secondary.first ≤ spans.now.secondary.last }
    ensures { IfOk result (λ audit. (each : List (List ℕ)) × AreTexts texts.now each
        × IsGivenAudit (F.had files.now) (F.files files.now) names.now spans.now each bounds.now audit) }
{
    let claims = texts_in(alloc, texts)?;
    audited(rt, alloc, files, names, spans, claims, bounds, workers)
}
