//! What is ruled on a certificate over two journals.

ghost use Rattle.std.specs.Prelude.{IfOk};
ghost use Rattle.journal_text.specs.Closed.{IsClosed};
ghost use Rattle.joined_rulings.specs.Trials.{IsOpenTrial, IsJournalTrial};

use archive_files::FilesError;
use attribution::Verdict;
use attribution_desk::IndexedPair;
use auditor::audit;
use candidate_leases::candidate_leases;
use causal_order::Certificate;
use joined_answers::has_carried;
use journal_archive::PairJournals;
use line_index::LineIndex;
use plain_search::HolderQuery;
use std::alloc::{AllocError, Global};
use std::thread::Threads;

/// What comes of a certificate over two journals.
#[derive(Clone, Copy, Debug, PartialEq, Eq)]
pub(crate) enum JournalTrial {
    /// It's accepted.
    Accepted,
    /// It's refused, and a lease of its prefix near the moment is carried from earlier volumes.
    Carried,
    /// It's refused, and no such lease is.
    Refused,
    /// Something stands against the two journals, whatever is claimed over them.
    Barred,
}

/// What comes of a certificate over an index of two journals against which nothing stands.
fn trial_in(
    alloc: Global,
    index: &LineIndex,
    query: &HolderQuery,
    claim: &Certificate,
) -> Result<JournalTrial, AllocError>
    ensures { IfOk result (IsOpenTrial index.now.journals query.now claim.now) }
{
    if let Verdict::Accepted = audit(index, claim, query.skew, query.transit) {
        return Ok(JournalTrial::Accepted);
    }
    let leases = candidate_leases(alloc, index, query)?;
    if has_carried(&leases) {
        Ok(JournalTrial::Carried)
    } else {
        Ok(JournalTrial::Refused)
    }
}

/// What comes of a certificate over two journals, whose lines are indexed once. `Memory` where a growth was refused.
pub(crate) fn journal_trial(
    rt: &(impl Threads + Sync),
    alloc: Global,
    shown: &PairJournals,
    query: &HolderQuery,
    claim: &Certificate,
) -> Result<JournalTrial, FilesError>
    requires primary { IsClosed shown.now.primary.lines }
    requires secondary { IsClosed shown.now.secondary.lines }
    ensures { IfOk result (IsJournalTrial shown.now.primary shown.now.secondary query.now claim.now) }
{
    let Ok(case) = IndexedPair::of(rt, alloc, &shown.primary, &shown.secondary, query.skew) else {
        return Err(FilesError::Memory);
    };
    match &case {
        IndexedPair::Open(index) => Ok(trial_in(alloc, index, query, claim)?),
        IndexedPair::Refused(_) => Ok(JournalTrial::Barred),
    }
}
