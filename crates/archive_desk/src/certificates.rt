//! Certificates out of a file, judged over the journals of others.

ghost use Rattle.std.specs.Prelude.{IfOk};
ghost use Rattle.attribution_desk.specs.Claims.{texts_of};
ghost use Rattle.archive_desk.specs.Certificates.{AreTaken, AreRuledAnew, IsAudit, IsBatch};

use crate::coverage_gaps::TimingBounds;
use crate::judging::{ArchiveJudgement, PairWarnings, judge_all};
use crate::waiting::{PendingCertificate, PendingState};
use archive_files::{FilesError, JournalFiles};
use attribution_desk::{CertificateText, texts_in};
use desk_args::Workers;
use journal_archive::Archive;
use std::alloc::Global;
use std::sync::Wait;
use std::thread::Threads;

/// What files answer to certificates, in order, and the warnings on the pairs of volumes over which they are judged.
#[derive(Debug, Drop)]
pub struct JudgedAnswer {
    pub bounds: TimingBounds,
    pub warnings: Vec<PairWarnings>,
    pub judged: Vec<ArchiveJudgement>,
}

/// What was judged of certificates, none of which waits any longer.
fn judged_of(
    alloc: Global,
    waiting: &[PendingCertificate],
) -> Result<Vec<ArchiveJudgement>, FilesError>
    ensures { IfOk result (λ judged. AreTaken waiting.now judged.items) }
{
    let mut all = Vec::new(alloc);
    for one in waiting {
        // (none waits any longer)
        let PendingState::Judged(judged) = &one.pending else {
            return Err(FilesError::Memory);
        };
        all.push(*judged)?;
    }
    Ok(all)
}

/// Judges certificates, each over the pair of volumes that shows where its interval begins, by so many workers.
/// `Changed` or `Faulty` where a file isn't what the archive knows of it, `Memory` where a growth was refused.
pub fn judged_over<F: JournalFiles>(
    rt: &(impl Threads + Wait + Sync),
    alloc: Global,
    files: &F,
    archive: &Archive,
    claims: &[CertificateText],
    bounds: &TimingBounds,
    workers: Workers,
) -> Result<JudgedAnswer, FilesError>
    ensures { IfOk result (AreRuledAnew (F.had files.now) archive.now bounds.now (texts_of claims.now)) }
{
    let all = judge_all(rt, alloc, files, archive, claims, bounds, workers)?;
    let judged = judged_of(alloc, &all.waiting)?;
    Ok(JudgedAnswer {
        bounds: *bounds,
        warnings: all.warnings,
        judged,
    })
}

/// The verdict on a file's one certificate. `Changed` or `Faulty` where a file isn't what the archive knows of it,
/// `Memory` where a growth was refused.
pub(crate) fn audit<F: JournalFiles>(
    rt: &(impl Threads + Wait + Sync),
    alloc: Global,
    files: &F,
    archive: &Archive,
    text: &[u8],
    bounds: &TimingBounds,
) -> Result<JudgedAnswer, FilesError>
    ensures { IfOk result (IsAudit (F.had files.now) archive.now text.now bounds.now) }
{
    // (one is a count of workers)
    let Some(alone) = Workers::new(1) else {
        return Err(FilesError::Memory);
    };
    let claims = [CertificateText { text, parsed: None }];
    judged_over(rt, alloc, files, archive, &claims, bounds, alone)
}

/// The verdicts on a file's certificates, one after another, by so many workers.
pub(crate) fn batch<F: JournalFiles>(
    rt: &(impl Threads + Wait + Sync),
    alloc: Global,
    files: &F,
    archive: &Archive,
    texts: &[u8],
    bounds: &TimingBounds,
    workers: Workers,
) -> Result<JudgedAnswer, FilesError>
    ensures { IfOk result (IsBatch (F.had files.now) archive.now texts.now bounds.now) }
{
    let claims = texts_in(alloc, texts)?;
    judged_over(rt, alloc, files, archive, &claims, bounds, workers)
}
