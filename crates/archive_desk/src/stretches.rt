//! The evidence of an interval, stretch by stretch of one pair of volumes.

ghost use Rattle.std.specs.Prelude.{◌≡◌, IfOk};
ghost use Rattle.archive_files.specs.Showing.{AreClosed};
ghost use Rattle.archive_desk.specs.Stretches.{reading_or, stretch_of, cut_at, IsEvidenceOver, IsFoundAt, IsEvidence};
ghost use Rattle.archive_desk.specs.Stretches.{AreStretches};

use crate::asking::expect_lines;
use archive_files::{FilesError, JournalFiles, ShownJournals, shown_at, shown_until};
use attribution_desk::{Search, SearchAnswer, search_journals};
use binding_rules::Role;
use evidence_search::Query;
use journal_archive::{Archive, CoverageGap, CoverageSpan, PairJournals, VolumePair};
use lead_time::Reading;
use pair_judgement::warnings;
use std::alloc::Global;
use std::thread::Threads;

/// What files answer to a search for evidence.
#[derive(Debug, Drop)]
pub enum EvidenceReply {
    /// What the desk answers over the journals that these two volumes show, the warnings on those (K2, K3), and the
    /// first moment of which they can't tell, in milliseconds of true time.
    Answered {
        pair: VolumePair,
        answer: SearchAnswer,
        warnings: Vec<u8>,
        until: Option<u64>,
    },
    /// No volume of this side shows where the stretch begins, and why.
    Lacking(Role, CoverageGap),
}

/// What files answer of a stretch of an interval, and where it ends, in milliseconds of true time.
#[derive(Debug, Drop)]
pub struct FoundStretch {
    pub reply: EvidenceReply,
    pub end: u64,
}

/// The question, and what files answer of each stretch of its interval, in order.
#[derive(Debug, Drop)]
pub struct FindAnswer {
    pub query: Query,
    pub stretches: Vec<FoundStretch>,
}

/// The reading of a moment, or the other where none has so many milliseconds.
fn reading_or(moment: u64, other: Reading) -> Reading
    ensures { result ≡ reading_or moment other }
{
    match Reading::new(moment) {
        Ok(reading) => reading,
        Err(_) => other,
    }
}

/// The same question of a stretch of its interval.
fn stretch_of(query: &Query, span: &CoverageSpan) -> Query
    ensures { result ≡ stretch_of query.now span.now }
{
    Query {
        holder: query.holder,
        prefix: query.prefix,
        from: reading_or(span.from, query.from),
        to: reading_or(span.to, query.to),
        skew: query.skew,
        transit: query.transit,
    }
}

/// The question of an interval that ends where the two shown journals end, where they end within it.
fn cut_at(query: &Query, until: &Option<u64>) -> Query
    ensures { result ≡ cut_at until.now query.now }
{
    match until {
        Some(until) => {
            if query.from.milliseconds() < *until && *until < query.to.milliseconds() {
                Query {
                    holder: query.holder,
                    prefix: query.prefix,
                    from: query.from,
                    to: reading_or(*until, query.to),
                    skew: query.skew,
                    transit: query.transit,
                }
            } else {
                *query
            }
        }
        None => *query,
    }
}

/// The evidence of an interval over the journals that two volumes show, as far as the two bear each other out.
/// `Changed` where one of them has no line any longer.
fn evidence_over(
    rt: &(impl Threads + Sync),
    alloc: Global,
    pair: &VolumePair,
    shown: &PairJournals,
    query: &Query,
) -> Result<EvidenceReply, FilesError>
    requires { AreClosed shown.now }
    ensures { IfOk result (IsEvidenceOver pair.now shown.now query.now) }
{
    expect_lines(pair, shown)?;
    let until = shown_until(shown, query.skew);
    let search = Search::Find(cut_at(query, &until));
    let (primary, secondary) = (&shown.primary, &shown.secondary);
    let warnings = warnings(alloc, primary, secondary, query.skew, query.transit)?;
    match search_journals(rt, alloc, primary, secondary, &search) {
        Ok(answer) => Ok(EvidenceReply::Answered {
            pair: *pair,
            answer,
            warnings,
            until,
        }),
        Err(_) => Err(FilesError::Memory),
    }
}

/// The evidence of an interval over the pair of volumes that shows where it begins.
fn found_at<F: JournalFiles>(
    rt: &(impl Threads + Sync),
    alloc: Global,
    files: &F,
    archive: &Archive,
    moment: u64,
    query: &Query,
) -> Result<EvidenceReply, FilesError>
    ensures { IfOk result (IsFoundAt (F.had files.now) archive.now moment query.now) }
{
    match shown_at(alloc, files, archive, moment, query.skew, query.transit)? {
        ShownJournals::Journals(pair, shown) => evidence_over(rt, alloc, &pair, &shown, query),
        ShownJournals::Lacking(side, lack) => Ok(EvidenceReply::Lacking(side, lack)),
    }
}

/// What is found of each of the stretches.
fn found_over<F: JournalFiles>(
    rt: &(impl Threads + Sync),
    alloc: Global,
    files: &F,
    archive: &Archive,
    query: &Query,
    spans: &[CoverageSpan],
) -> Result<Vec<FoundStretch>, FilesError>
    ensures { IfOk result
        (λ stretches. AreStretches (F.had files.now) archive.now query.now spans.now stretches.items) }
{
    let mut stretches = Vec::new(alloc);
    for span in spans {
        let stretch = stretch_of(query, span);
        let reply = found_at(rt, alloc, files, archive, span.from, &stretch)?;
        stretches.push(FoundStretch {
            reply,
            end: span.to,
        })?;
    }
    Ok(stretches)
}

/// What is found of each stretch of the question's interval, which lie end to end; of the question as it is where its
/// interval has no moment.
fn stretches_for<F: JournalFiles>(
    rt: &(impl Threads + Sync),
    alloc: Global,
    files: &F,
    archive: &Archive,
    query: &Query,
) -> Result<Vec<FoundStretch>, FilesError>
    ensures { IfOk result (λ stretches. IsEvidence (F.had files.now) archive.now query.now stretches.items) }
{
    let from = query.from.milliseconds();
    if from < query.to.milliseconds() {
        let spans = archive.over(alloc, query.from, query.to, query.skew, query.transit)?;
        return found_over(rt, alloc, files, archive, query, &spans);
    }
    let reply = found_at(rt, alloc, files, archive, from, query)?;
    let mut stretches = Vec::new(alloc);
    stretches.push(FoundStretch { reply, end: from })?;
    Ok(stretches)
}

/// The evidence that the client held the prefix over the interval: for each stretch that one pair of volumes shows, in
/// order, as far as the two bear each other out; or which side lacks a stretch. An interval without a moment is asked of
/// as it is, of the pair that shows its beginning. `Changed` or `Faulty` where a file isn't what the archive knows of
/// it, `Memory` where a growth was refused.
pub(crate) fn find<F: JournalFiles>(
    rt: &(impl Threads + Sync),
    alloc: Global,
    files: &F,
    archive: &Archive,
    query: &Query,
) -> Result<FindAnswer, FilesError>
    ensures query { IfOk result (λ answer. answer.query ≡ query.now) }
    ensures found { IfOk result (λ answer. IsEvidence (F.had files.now) archive.now query.now answer.stretches.items) }
{
    let stretches = stretches_for(rt, alloc, files, archive, query)?;
    Ok(FindAnswer {
        query: *query,
        stretches,
    })
}
