//! The evidence of a stretch over the pair of volumes that shows where it begins.

ghost use Rattle.std.specs.Prelude.{◌↔◌, IsTrue, IfOk};
ghost use Rattle.archive_files.specs.Showing.{AreClosed};
ghost use Rattle.archive_desk.specs.Stretches.{IsEvidenceOver, IsFoundAt};
ghost use Rattle.joined_evidence.specs.Stretches.{FindsNothing};

use crate::asking::cut_at;
use archive_desk::{EvidenceReply, expect_lines};
use archive_files::{FilesError, JournalFiles, ShownJournals, shown_at, shown_until};
use attribution_desk::{Finding, Search, SearchAnswer, search_journals};
use evidence_search::Query;
use journal_archive::{Archive, PairJournals, VolumePair};
use pair_judgement::warnings;
use std::alloc::Global;
use std::thread::Threads;

/// The evidence of an interval over the journals that two volumes show, as far as the two bear each other out.
/// `Changed` where one of them has no line any longer.
fn evidence_over(
    rt: &(impl Threads + Sync),
    alloc: Global,
    pair: &VolumePair,
    shown: &PairJournals,
    query: &Query,
) -> Result<EvidenceReply, FilesError>
    requires { AreClosed shown.now }
    ensures { IfOk result (IsEvidenceOver pair.now shown.now query.now) }
{
    expect_lines(pair, shown)?;
    let until = shown_until(shown, query.skew);
    let search = Search::Find(cut_at(query, &until));
    let (primary, secondary) = (&shown.primary, &shown.secondary);
    let warnings = warnings(alloc, primary, secondary, query.skew, query.transit)?;
    match search_journals(rt, alloc, primary, secondary, &search) {
        Ok(answer) => Ok(EvidenceReply::Answered {
            pair: *pair,
            answer,
            warnings,
            until,
        }),
        Err(_) => Err(FilesError::Memory),
    }
}

/// The evidence of an interval over the pair of volumes that shows the moment where it begins.
pub(crate) fn found_at<F: JournalFiles>(
    rt: &(impl Threads + Sync),
    alloc: Global,
    files: &F,
    archive: &Archive,
    moment: u64,
    query: &Query,
) -> Result<EvidenceReply, FilesError>
    ensures { IfOk result (IsFoundAt (F.had files.now) archive.now moment query.now) }
{
    match shown_at(alloc, files, archive, moment, query.skew, query.transit)? {
        ShownJournals::Journals(pair, shown) => evidence_over(rt, alloc, &pair, &shown, query),
        ShownJournals::Lacking(side, lack) => Ok(EvidenceReply::Lacking(side, lack)),
    }
}

/// Returns whether a pair of volumes answers that there is no evidence.
pub(crate) fn finds_nothing(reply: &EvidenceReply) -> bool
    ensures { IsTrue result ↔ FindsNothing reply.now }
{
    match reply {
        EvidenceReply::Answered { answer, .. } => match answer {
            SearchAnswer::Found(Finding::NoneFound) => true,
            _ => false,
        },
        EvidenceReply::Lacking(_, _) => false,
    }
}
