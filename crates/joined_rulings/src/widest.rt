//! Certificates out of a file, ruled over the volumes of others: those that show where their intervals begin, or
//! earlier ones too.

ghost use Rattle.std.specs.Prelude.{◌≡◌, ◌↔◌, ◌∷◌, [], ℕ, List, length, IsTrue, IfOk};
ghost use Rattle.certificate.specs.Faults.{certificate_of};
ghost use Rattle.attribution_desk.specs.Batch.{AreTexts};
ghost use Rattle.attribution_desk.specs.Claims.{texts_of};
ghost use Rattle.archive_desk.specs.Judging.{Accepts};
ghost use Rattle.joined_rulings.specs.Rulings.{IsRulingOn, AreRulings, IsRuledWidest, IsSpannedAudit};

use crate::laws::accepted_is_true;
use crate::trial::SpanRuling;
use crate::trying::tried_over_spans;
use archive_desk::{ArchiveJudgement, PairWarnings, TimingBounds, expect_read, judged_over};
use archive_files::{FilesError, JournalFiles, SettingsScope, SkippedFile, catalogue_of};
use attribution::Verdict;
use attribution_desk::{CertificateText, texts_in};
use certificate::CertificateError;
use desk_args::Workers;
use journal_archive::Archive;
use pair_judgement::Judgement;
use std::alloc::Global;
use std::path::PathBuf;
use std::sync::Wait;
use std::thread::Threads;

/// The ruling on a certificate.
#[derive(Debug, Drop)]
pub enum CertificateRuling {
    /// What the pair of volumes answers that shows where its interval begins: it accepts it, or no spans do that were
    /// tried.
    Own(ArchiveJudgement),
    /// It's accepted over these spans, and not over its own pair.
    Joined(SpanRuling),
}

/// The rulings on certificates, in order, and which of the files are no volumes.
#[derive(Debug, Drop)]
pub struct SpannedAudit {
    pub bounds: TimingBounds,
    pub passed_over: Vec<SkippedFile>,
    /// The warnings on the certificates' own pairs of volumes.
    pub warnings: Vec<PairWarnings>,
    pub rulings: Vec<CertificateRuling>,
}

/// Certificates, ruled over the volumes of an archive.
#[derive(Drop)]
struct WidestRulings {
    warnings: Vec<PairWarnings>,
    rulings: Vec<CertificateRuling>,
}

/// Returns whether a certificate is accepted over its own pair of volumes.
fn accepts(own: &ArchiveJudgement) -> bool
    ensures { IsTrue result ↔ Accepts own.now }
{
    match own {
        ArchiveJudgement::Ruled(_, Judgement::Verdict(Verdict::Accepted)) => true,
        _ => false,
    }
}

/// The ruling on a certificate's text, on which its own pair of volumes ruled so.
fn ruling_on<F: JournalFiles>(
    rt: &(impl Threads + Sync),
    alloc: Global,
    files: &F,
    archive: &Archive,
    text: &[u8],
    own: &ArchiveJudgement,
    bounds: &TimingBounds,
) -> Result<CertificateRuling, FilesError>
    ensures { IfOk result
        (IsRulingOn (F.had files.now) archive.now bounds.now (certificate_of text.now) own.now) }
{
    if accepts(own) {
        return Ok(CertificateRuling::Own(*own));
    }
    let claim = match certificate::read(alloc, text) {
        Ok(claim) => claim,
        Err(CertificateError::Fault(_)) => return Ok(CertificateRuling::Own(*own)),
        Err(CertificateError::Memory) => return Err(FilesError::Memory),
    };
    match tried_over_spans(rt, alloc, files, archive, &claim, bounds)? {
        Some(accepted) => Ok(CertificateRuling::Joined(accepted.ruling)),
        None => Ok(CertificateRuling::Own(*own)),
    }
}

/// The rulings on certificates, on each of which its own pair of volumes ruled so.
fn rulings_on<F: JournalFiles>(
    rt: &(impl Threads + Sync),
    alloc: Global,
    files: &F,
    archive: &Archive,
    claims: &[CertificateText],
    owns: &[ArchiveJudgement],
    bounds: &TimingBounds,
) -> Result<Vec<CertificateRuling>, FilesError>
    requires { length owns.now ≡ length claims.now }
    ensures { IfOk result (λ rulings. AreRulings (F.had files.now) archive.now bounds.now (texts_of claims.now)
        owns.now rulings.items) }
{
    let mut rulings = Vec::new(alloc);
    for place in 0..claims.len() {
        let text = claims[place].text;
        let ruling = ruling_on(rt, alloc, files, archive, text, &owns[place], bounds)?;
        rulings.push(ruling)?;
    }
    Ok(rulings)
}

/// Rules on certificates over the volumes of an archive.
fn ruled_widest<F: JournalFiles>(
    rt: &(impl Threads + Wait + Sync),
    alloc: Global,
    files: &F,
    archive: &Archive,
    claims: &[CertificateText],
    bounds: &TimingBounds,
    workers: Workers,
) -> Result<WidestRulings, FilesError>
    ensures { IfOk result (λ ruled. IsRuledWidest (F.had files.now) archive.now bounds.now (texts_of claims.now)
        ruled.warnings.items ruled.rulings.items) }
{
    accepted_is_true();
    let own = judged_over(rt, alloc, files, archive, claims, bounds, workers)?;
    let rulings = rulings_on(rt, alloc, files, archive, claims, &own.judged, bounds)?;
    Ok(WidestRulings {
        warnings: own.warnings,
        rulings,
    })
}

/// Rules on certificates over the volumes that files are.
fn audited<F: JournalFiles>(
    rt: &(impl Threads + Wait + Sync),
    alloc: Global,
    files: &F,
    names: &[PathBuf],
    claims: &[CertificateText],
    bounds: &TimingBounds,
    workers: Workers,
) -> Result<SpannedAudit, FilesError>
    ensures { IfOk result
        (IsSpannedAudit (F.had files.now) (F.files files.now) names.now (texts_of claims.now) bounds.now) }
{
    let catalogue = catalogue_of(alloc, files, SettingsScope::OfEach)?;
    expect_read(names, &catalogue.passed_over)?;
    let ruled = ruled_widest(
        rt,
        alloc,
        files,
        &catalogue.archive,
        claims,
        bounds,
        workers,
    )?;
    Ok(SpannedAudit {
        bounds: *bounds,
        passed_over: catalogue.passed_over,
        warnings: ruled.warnings,
        rulings: ruled.rulings,
    })
}

/// The ruling on a text's one certificate: over the pair of volumes that shows where its interval begins; where that
/// doesn't accept it over the first spans that do, of those that `who` takes at the interval's first moment and at its
/// last; else over its own pair.
///
/// `Archive` where the volumes can't be of one pair of servers, `Unread` where a file by the name of a volume's can't
/// be read; `OtherHead`, `Changed` or `Faulty` where a file of its own pair, or one beside it, isn't what the archive
/// knows of it, or begins otherwise than the one before it names; `Changed` also where an earlier file isn't what the
/// archive knows of it; `Memory` where a growth was refused.
pub fn audit_widest<F: JournalFiles>(
    rt: &(impl Threads + Wait + Sync),
    alloc: Global,
    files: &F,
    names: &[PathBuf],
    text: &[u8],
    bounds: &TimingBounds,
) -> Result<SpannedAudit, FilesError>
    ensures { IfOk result
        (IsSpannedAudit (F.had files.now) (F.files files.now) names.now (text.now ∷ []) bounds.now) }
{
    // (one is a count of workers)
    let Some(alone) = Workers::new(1) else {
        return Err(FilesError::Memory);
    };
    let claims = [CertificateText { text, parsed: None }];
    audited(rt, alloc, files, names, &claims, bounds, alone)
}

/// The rulings on the certificates of a text, one after another: over their own pairs by so many workers, and over
/// spans one after the other. Each as [`audit_widest`].
pub fn batch_widest<F: JournalFiles>(
    rt: &(impl Threads + Wait + Sync),
    alloc: Global,
    files: &F,
    names: &[PathBuf],
    texts: &[u8],
    bounds: &TimingBounds,
    workers: Workers,
) -> Result<SpannedAudit, FilesError>
    ensures { IfOk result (λ audit. (each : List (List ℕ)) × AreTexts texts.now each
        × IsSpannedAudit (F.had files.now) (F.files files.now) names.now each bounds.now audit) }
{
    let claims = texts_in(alloc, texts)?;
    audited(rt, alloc, files, names, &claims, bounds, workers)
}
