//! What a search for evidence comes to over two journals.

ghost use Rattle.std.specs.Prelude.{◌≡◌, IfOk};
ghost use Rattle.journal_text.specs.Closed.{IsClosed};
ghost use Rattle.joined_evidence.specs.Searches.{certificate_in, IsOpenSearch, IsJournalSearch};

use archive_files::FilesError;
use attribution_desk::{Finding, IndexedPair, Search, SearchAnswer, search_open};
use candidate_leases::candidate_leases;
use causal_order::Certificate;
use evidence_search::Query;
use joined_answers::has_carried;
use journal_archive::PairJournals;
use line_index::LineIndex;
use plain_search::HolderQuery;
use std::alloc::Global;
use std::thread::Threads;

/// What a search for evidence comes to over two journals.
#[derive(Debug, Drop)]
pub(crate) enum JournalSearch {
    /// This certificate shows what is asked.
    Shown(Certificate),
    /// None is given, and a lease of the prefix near the moment is carried from earlier volumes.
    Carried,
    /// None is given, and no such lease is.
    NotShown,
    /// Something stands against the two journals, whatever is asked of them.
    Barred,
}

/// The certificate that a search gives, if it gives one.
fn certificate_in(answer: SearchAnswer) -> Option<Certificate>
    ensures { result ≡ certificate_in answer }
{
    match answer {
        SearchAnswer::Found(Finding::Shown(certificate)) => Some(certificate),
        SearchAnswer::Found(Finding::NoneFound) => None,
        SearchAnswer::Found(Finding::TooLong) => None,
        SearchAnswer::Refused(_) => None,
    }
}

/// What a search comes to in an index of two journals against which nothing stands.
fn search_in(
    alloc: Global,
    index: &LineIndex,
    shown: &PairJournals,
    query: &Query,
    moment: &HolderQuery,
) -> Result<JournalSearch, FilesError>
    ensures { IfOk result (IsOpenSearch index.now.journals query.now moment.now) }
{
    let search = Search::Find(*query);
    let Ok(answer) = search_open(alloc, index, &shown.primary, &shown.secondary, &search) else {
        return Err(FilesError::Memory);
    };
    if let Some(certificate) = certificate_in(answer) {
        return Ok(JournalSearch::Shown(certificate));
    }
    let leases = candidate_leases(alloc, index, moment)?;
    if has_carried(&leases) {
        Ok(JournalSearch::Carried)
    } else {
        Ok(JournalSearch::NotShown)
    }
}

/// What a search comes to over two journals, whose lines are indexed once; leases are looked for near the moment.
/// `Memory` where a growth was refused.
pub(crate) fn journal_search(
    rt: &(impl Threads + Sync),
    alloc: Global,
    shown: &PairJournals,
    query: &Query,
    moment: &HolderQuery,
) -> Result<JournalSearch, FilesError>
    requires primary { IsClosed shown.now.primary.lines }
    requires secondary { IsClosed shown.now.secondary.lines }
    ensures { IfOk result (IsJournalSearch shown.now.primary shown.now.secondary query.now moment.now) }
{
    let Ok(case) = IndexedPair::of(rt, alloc, &shown.primary, &shown.secondary, query.skew) else {
        return Err(FilesError::Memory);
    };
    match &case {
        IndexedPair::Open(index) => search_in(alloc, index, shown, query, moment),
        IndexedPair::Refused(_) => Ok(JournalSearch::Barred),
    }
}
