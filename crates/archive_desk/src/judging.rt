//! Certificates, judged over the pair of volumes that shows where their interval begins.

ghost use Rattle.std.specs.Prelude.{◌≡◌, IfOk};
ghost use Rattle.attribution_desk.specs.Claims.{texts_of};
ghost use Rattle.archive_files.specs.Showing.{AreClosed};
ghost use Rattle.archive_desk.specs.Waiting.{AreWaiting, texts_waiting};
ghost use Rattle.archive_desk.specs.Judging.{IsRuledByShown, AreRuledOver};
ghost use Rattle.archive_desk.specs.Warnings.{IsWarnedOver, AreWarnings};

use crate::asking::expect_lines;
use crate::coverage_gaps::TimingBounds;
use crate::waiting::{PendingCertificate, PendingState, claims_of, members_of, waiting_of};
use archive_files::{FilesError, JournalFiles, shown_by};
use attribution_desk::{CertificateText, accepted_rulings_are_true, judge_certificates};
use binding_rules::Role;
use desk_args::Workers;
use journal_archive::{Archive, CoverageGap, PairJournals, VolumePair, shown_pairs_are_snapshots};
use pair_judgement::{Judgement, warnings};
use std::alloc::Global;
use std::sync::Wait;
use std::thread::Threads;

/// What files answer to a certificate.
#[derive(Clone, Copy, Debug)]
pub enum ArchiveJudgement {
    /// The ruling on it over the journals that these two volumes show.
    Ruled(VolumePair, Judgement),
    /// The ruling on its text, which is at fault.
    Faulty(Judgement),
    /// No volume of this side shows where its interval begins, and why.
    Lacking(Role, CoverageGap),
}

/// The warnings on the journals that two volumes show (K2, K3), as lines; none where nothing is to be warned of.
#[derive(Debug, Drop)]
pub struct PairWarnings {
    pub pair: VolumePair,
    pub text: Vec<u8>,
}

/// The rulings over the journals that two volumes show. `Changed` where one of them has no line any longer.
fn rulings_by(
    rt: &(impl Threads + Wait + Sync),
    alloc: Global,
    pair: &VolumePair,
    shown: &PairJournals,
    claims: Vec<CertificateText>,
    bounds: &TimingBounds,
    workers: Workers,
) -> Result<Vec<Judgement>, FilesError>
    requires { AreClosed shown.now }
    ensures { IfOk result (λ rs. IsRuledByShown shown.now bounds.now.skew bounds.now.transit
        (texts_of claims.entry.items) rs.items) }
{
    expect_lines(pair, shown)?;
    match judge_certificates(
        rt,
        alloc,
        &shown.primary,
        &shown.secondary,
        claims,
        bounds.skew,
        bounds.transit,
        workers,
    ) {
        Ok(rulings) => Ok(rulings),
        Err(_) => Err(FilesError::Memory),
    }
}

/// What certificates over one pair of volumes come to.
#[derive(Drop)]
struct JudgedCertificates {
    rulings: Vec<Judgement>,
    /// The warnings on the two journals (K2, K3).
    warnings: Vec<u8>,
}

/// Reads a pair of volumes, which must agree with those beside them, and rules on certificates over them.
fn rulings_over<F: JournalFiles>(
    rt: &(impl Threads + Wait + Sync),
    alloc: Global,
    files: &F,
    archive: &Archive,
    pair: &VolumePair,
    claims: Vec<CertificateText>,
    bounds: &TimingBounds,
    workers: Workers,
) -> Result<JudgedCertificates, FilesError>
    ensures rulings { IfOk result (λ ruled. AreRuledOver (F.had files.now) archive.now pair.now bounds.now.skew
        bounds.now.transit (texts_of claims.entry.items) ruled.rulings.items) }
    ensures warnings { IfOk result (λ ruled. IsWarnedOver (F.had files.now) pair.now bounds.now.skew bounds.now.transit
        ruled.warnings.items) }
{
    let shown = shown_by(alloc, files, archive, pair)?;
    let warnings = warnings(
        alloc,
        &shown.primary,
        &shown.secondary,
        bounds.skew,
        bounds.transit,
    )?;
    let rulings = rulings_by(rt, alloc, pair, &shown, claims, bounds, workers)?;
    Ok(JudgedCertificates { rulings, warnings })
}

/// Judges those of the certificates that a pair of volumes shows, which is read once, and returns the warnings on it.
fn judge_shown<F: JournalFiles>(
    rt: &(impl Threads + Wait + Sync),
    alloc: Global,
    files: &F,
    archive: &Archive,
    waiting: &mut [PendingCertificate],
    pair: &VolumePair,
    bounds: &TimingBounds,
    workers: Workers,
) -> Result<Vec<u8>, FilesError>
    requires { AreWaiting (F.had files.now) archive.now bounds.now.skew bounds.now.transit waiting.old }
    ensures texts { texts_waiting waiting.new ≡ texts_waiting waiting.old }
    ensures waiting { AreWaiting (F.had files.now) archive.now bounds.now.skew bounds.now.transit waiting.new }
    ensures warnings { IfOk result (λ warnings. IsWarnedOver (F.had files.now) pair.now bounds.now.skew
        bounds.now.transit warnings.items) }
{
    shown_pairs_are_snapshots();
    accepted_rulings_are_true();
    let members = members_of(alloc, waiting, pair)?;
    let claims = claims_of(alloc, &members)?;
    let ruled = rulings_over(rt, alloc, files, archive, pair, claims, bounds, workers)?;
    for i in 0..members.len() {
        let place = members[i].place;
        let judged = ArchiveJudgement::Ruled(*pair, ruled.rulings[i]);
        waiting[place].pending = PendingState::Judged(judged);
    }
    Ok(ruled.warnings)
}

/// Judges each of the certificates that isn't judged yet, and returns the warnings on the pairs of volumes.
fn judge_each<F: JournalFiles>(
    rt: &(impl Threads + Wait + Sync),
    alloc: Global,
    files: &F,
    archive: &Archive,
    waiting: &mut [PendingCertificate],
    bounds: &TimingBounds,
    workers: Workers,
) -> Result<Vec<PairWarnings>, FilesError>
    requires { AreWaiting (F.had files.now) archive.now bounds.now.skew bounds.now.transit waiting.old }
    ensures texts { texts_waiting waiting.new ≡ texts_waiting waiting.old }
    ensures waiting { AreWaiting (F.had files.now) archive.now bounds.now.skew bounds.now.transit waiting.new }
    ensures warnings { IfOk result
        (λ warnings. AreWarnings (F.had files.now) bounds.now.skew bounds.now.transit warnings.items) }
{
    let mut warnings = Vec::new(alloc);
    for place in 0..waiting.len() {
        if let PendingState::Shown(pair) = waiting[place].pending {
            let text = judge_shown(rt, alloc, files, archive, waiting, &pair, bounds, workers)?;
            warnings.push(PairWarnings { pair, text })?;
        }
    }
    Ok(warnings)
}

/// Certificates that are judged, and the warnings on the pairs of volumes that were read for them.
#[derive(Drop)]
pub(crate) struct AuditBatch<'a> {
    pub(crate) waiting: Vec<PendingCertificate<'a>>,
    pub(crate) warnings: Vec<PairWarnings>,
}

/// Judges certificates, each over the pair of volumes that shows where its interval begins; each such pair is read
/// once, and forgotten before the next. `Changed` or `Faulty` where a file isn't what the archive knows of it, `Memory`
/// where a growth was refused.
pub(crate) fn judge_all<'a, F: JournalFiles>(
    rt: &(impl Threads + Wait + Sync),
    alloc: Global,
    files: &F,
    archive: &Archive,
    claims: &[CertificateText<'a>],
    bounds: &TimingBounds,
    workers: Workers,
) -> Result<AuditBatch<'a>, FilesError>
    ensures texts { IfOk result (λ j. texts_waiting j.waiting.items ≡ texts_of claims.now) }
    ensures waiting { IfOk result
        (λ j. AreWaiting (F.had files.now) archive.now bounds.now.skew bounds.now.transit j.waiting.items) }
    ensures warnings { IfOk result
        (λ j. AreWarnings (F.had files.now) bounds.now.skew bounds.now.transit j.warnings.items) }
{
    let mut waiting = waiting_of(alloc, archive, claims, bounds)?;
    let warnings = judge_each(rt, alloc, files, archive, &mut waiting, bounds, workers)?;
    Ok(AuditBatch { waiting, warnings })
}
