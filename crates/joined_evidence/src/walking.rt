//! A search for evidence over spans that are widened one volume of each side at a time.

ghost use Rattle.std.specs.Prelude.{◌≡◌, ◌↔◌, ℕ, IsTrue, IfOk, MatchOption};
ghost use Rattle.volume_spans.specs.Spans.{ArePairRead};
ghost use Rattle.joined_answers.specs.Reach.{reach};
ghost use Rattle.joined_answers.specs.Widening.{AreWidenedWithin};
ghost use Rattle.joined_rulings.specs.Walking.{IsBarring, HasBarrier};
ghost use Rattle.joined_evidence.specs.Walking.{IsCarried, found_of, IsWalk};

use crate::span_searching::{SpanEvidence, SpanSearch, search_over};
use archive_files::{FilesError, JournalFiles};
use evidence_search::Query;
use joined_answers::{both_widened, may_widen};
use journal_archive::Archive;
use plain_search::HolderQuery;
use std::alloc::Global;
use std::thread::Threads;
use volume_spans::ReadSpans;

impl SpanSearch {
    /// Returns whether earlier volumes may say more: nothing is found, and a lease of the prefix is carried.
    fn is_carried(&self) -> bool
        ensures { IsTrue result ↔ IsCarried self.now }
    {
        match self {
            SpanSearch::Carried => true,
            SpanSearch::Found(_) => false,
            SpanSearch::NotFound => false,
            SpanSearch::Barred => false,
        }
    }

    /// The evidence, if some is found.
    fn into_found(self) -> Option<SpanEvidence>
        ensures { result ≡ found_of self }
    {
        match self {
            SpanSearch::Found(evidence) => Some(evidence),
            SpanSearch::Carried => None,
            SpanSearch::NotFound => None,
            SpanSearch::Barred => None,
        }
    }
}

/// Returns whether a reading was refused by what a file has: no further volumes are tried then. Else a file changed
/// while it was read, or memory was refused.
pub(crate) fn is_barring(error: &FilesError) -> bool
    ensures { IsTrue result ↔ IsBarring error.now }
{
    match error {
        FilesError::OtherHead { .. } => true,
        FilesError::Faulty { .. } => true,
        FilesError::Torn { .. } => true,
        _ => false,
    }
}

/// Takes one volume more in front of each side, where a lease may have begun before its span; none where a file stands
/// against that. `Changed` where a file isn't what the archive knows of it, `Memory` where a growth was refused.
fn widened<F: JournalFiles>(
    alloc: Global,
    files: &F,
    archive: &Archive,
    read: ReadSpans,
    moment: &HolderQuery,
) -> Result<Option<ReadSpans>, FilesError>
    requires { ArePairRead (F.had files.now) archive.now read }
    ensures { IfOk result (λ wider. MatchOption wider (HasBarrier (F.had files.now))
        (λ s. AreWidenedWithin moment.now.at (reach moment.now read) read s
        × ArePairRead (F.had files.now) archive.now s)) }
{
    match both_widened(alloc, files, archive, read, moment) {
        Ok(wider) => Ok(Some(wider)),
        Err(error) => {
            if is_barring(&error) {
                return Ok(None);
            }
            Err(error)
        }
    }
}

/// Searches for evidence over spans, and over wider ones for as long as none is given and a lease of the prefix is
/// carried within reach of earlier volumes; returns that of the first spans over which some is found. `Changed` where a
/// file isn't what the archive knows of it, `Memory` where a growth was refused.
pub(crate) fn walked<F: JournalFiles>(
    rt: &(impl Threads + Sync),
    alloc: Global,
    files: &F,
    archive: &Archive,
    begun: ReadSpans,
    query: &Query,
    moment: &HolderQuery,
) -> Result<Option<SpanEvidence>, FilesError>
    requires { ArePairRead (F.had files.now) archive.now begun }
    ensures { IfOk result (λ end. (times : ℕ)
        × IsWalk (F.had files.now) archive.now query.now moment.now times begun end) }
{
    let mut read = begun;
    let mut search = search_over(rt, alloc, &read, query, moment)?;
    while search.is_carried() && may_widen(moment, &read) {
        let Some(wider) = widened(alloc, files, archive, read, moment)? else {
            return Ok(None);
        };
        search = search_over(rt, alloc, &wider, query, moment)?;
        read = wider;
    }
    Ok(search.into_found())
}
