//! The evidence of an interval, stretch by stretch, over the volumes that show where each begins, or earlier ones too.

ghost use Rattle.std.specs.Prelude.{IfOk};
ghost use Rattle.joined_evidence.specs.Stretches.{IsStretchAt, AreStretches, IsEvidence, IsSpannedEvidence};

use crate::asking::stretch_of;
use crate::laws::found_is_true;
use crate::own_evidence::{finds_nothing, found_at};
use crate::span_searching::SpanEvidence;
use crate::trying::tried_over_spans;
use archive_desk::{FoundStretch, expect_read};
use archive_files::{FilesError, JournalFiles, SettingsScope, SkippedFile, catalogue_of};
use evidence_search::Query;
use journal_archive::{Archive, CoverageSpan};
use std::alloc::Global;
use std::path::PathBuf;
use std::thread::Threads;

/// What files answer of a stretch of an interval.
#[derive(Debug, Drop)]
pub enum SpannedStretch {
    /// What the pair of volumes answers that shows where the stretch begins: it finds something, or is lacking or
    /// refused, or no evidence is found over the spans that were tried.
    Own(FoundStretch),
    /// The stretch's own pair finds nothing, and this is found over spans; and where the stretch ends, in milliseconds
    /// of true time.
    Joined(SpanEvidence, u64),
}

/// The question, what files answer of each stretch of its interval, in order, and which of the files are no volumes.
#[derive(Debug, Drop)]
pub struct SpannedEvidence {
    pub query: Query,
    pub passed_over: Vec<SkippedFile>,
    pub stretches: Vec<SpannedStretch>,
}

/// What is found of a stretch that begins at this moment and ends at that one: over the pair of volumes that shows
/// where it begins, and where that finds nothing over spans.
fn stretch_at<F: JournalFiles>(
    rt: &(impl Threads + Sync),
    alloc: Global,
    files: &F,
    archive: &Archive,
    moment: u64,
    query: &Query,
    end: u64,
) -> Result<SpannedStretch, FilesError>
    ensures { IfOk result (IsStretchAt (F.had files.now) archive.now moment query.now end) }
{
    let reply = found_at(rt, alloc, files, archive, moment, query)?;
    if !finds_nothing(&reply) {
        return Ok(SpannedStretch::Own(FoundStretch { reply, end }));
    }
    match tried_over_spans(rt, alloc, files, archive, query)? {
        Some(evidence) => Ok(SpannedStretch::Joined(evidence, end)),
        None => Ok(SpannedStretch::Own(FoundStretch { reply, end })),
    }
}

/// What is found of each of the stretches.
fn found_over<F: JournalFiles>(
    rt: &(impl Threads + Sync),
    alloc: Global,
    files: &F,
    archive: &Archive,
    query: &Query,
    spans: &[CoverageSpan],
) -> Result<Vec<SpannedStretch>, FilesError>
    ensures { IfOk result
        (λ stretches. AreStretches (F.had files.now) archive.now query.now spans.now stretches.items) }
{
    let mut stretches = Vec::new(alloc);
    for span in spans {
        let asked = stretch_of(query, span);
        let stretch = stretch_at(rt, alloc, files, archive, span.from, &asked, span.to)?;
        stretches.push(stretch)?;
    }
    Ok(stretches)
}

/// What is found of each stretch of the question's interval, which lie end to end; of the question as it is where its
/// interval has no moment.
fn stretches_for<F: JournalFiles>(
    rt: &(impl Threads + Sync),
    alloc: Global,
    files: &F,
    archive: &Archive,
    query: &Query,
) -> Result<Vec<SpannedStretch>, FilesError>
    ensures { IfOk result (λ stretches. IsEvidence (F.had files.now) archive.now query.now stretches.items) }
{
    let from = query.from.milliseconds();
    if from < query.to.milliseconds() {
        let spans = archive.over(alloc, query.from, query.to, query.skew, query.transit)?;
        return found_over(rt, alloc, files, archive, query, &spans);
    }
    let stretch = stretch_at(rt, alloc, files, archive, from, query, from)?;
    let mut stretches = Vec::new(alloc);
    stretches.push(stretch)?;
    Ok(stretches)
}

/// The evidence that the client held the prefix over the interval: for each stretch that one pair of volumes shows, in
/// order, over that pair, as far as the two bear each other out; where it finds nothing over the first spans that do,
/// of those that `who` takes where the stretch begins; or which side lacks a stretch. An interval without a moment is
/// asked of as it is, where it begins.
///
/// `Archive` where the volumes can't be of one pair of servers, `Unread` where a file by the name of a volume's can't
/// be read; `OtherHead`, `Changed` or `Faulty` where a file of a stretch's own pair, or one beside it, isn't what the
/// archive knows of it, or begins otherwise than the one before it names; `Changed` also where an earlier file isn't
/// what the archive knows of it; `Memory` where a growth was refused.
pub fn find_widest<F: JournalFiles>(
    rt: &(impl Threads + Sync),
    alloc: Global,
    files: &F,
    names: &[PathBuf],
    query: &Query,
) -> Result<SpannedEvidence, FilesError>
    ensures { IfOk result
        (IsSpannedEvidence (F.had files.now) (F.files files.now) names.now query.now) }
{
    found_is_true();
    let catalogue = catalogue_of(alloc, files, SettingsScope::OfEach)?;
    expect_read(names, &catalogue.passed_over)?;
    let stretches = stretches_for(rt, alloc, files, &catalogue.archive, query)?;
    Ok(SpannedEvidence {
        query: *query,
        passed_over: catalogue.passed_over,
        stretches,
    })
}
