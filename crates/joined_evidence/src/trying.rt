//! A search for evidence over the spans that `who` takes where the interval begins.

ghost use Rattle.std.specs.Prelude.{IfOk};
ghost use Rattle.joined_evidence.specs.Walking.{IsTried, IsTriedAt};

use crate::asking::asked_at;
use crate::span_searching::SpanEvidence;
use crate::walking::{is_barring, walked};
use archive_files::{FilesError, JournalFiles};
use evidence_search::Query;
use joined_answers::{MomentSpans, spans_at};
use journal_archive::Archive;
use plain_search::HolderQuery;
use std::alloc::Global;
use std::thread::Threads;

/// Searches for evidence over the spans that show a moment, and over wider ones. `Changed` where a file isn't what the
/// archive knows of it, `Memory` where a growth was refused.
fn tried_at<F: JournalFiles>(
    rt: &(impl Threads + Sync),
    alloc: Global,
    files: &F,
    archive: &Archive,
    query: &Query,
    moment: &HolderQuery,
) -> Result<Option<SpanEvidence>, FilesError>
    ensures { IfOk result (IsTriedAt (F.had files.now) archive.now query.now moment.now) }
{
    let spans = match spans_at(alloc, files, archive, moment) {
        Ok(spans) => spans,
        Err(error) => {
            if is_barring(&error) {
                return Ok(None);
            }
            return Err(error);
        }
    };
    match spans {
        MomentSpans::Read(read) => walked(rt, alloc, files, archive, read, query, moment),
        MomentSpans::Lacking(_, _) => Ok(None),
    }
}

/// Searches for evidence over the spans that `who` takes where the interval begins; returns that of the first over
/// which some is found. `Changed` where a file isn't what the archive knows of it, `Memory` where a growth was refused.
pub(crate) fn tried_over_spans<F: JournalFiles>(
    rt: &(impl Threads + Sync),
    alloc: Global,
    files: &F,
    archive: &Archive,
    query: &Query,
) -> Result<Option<SpanEvidence>, FilesError>
    ensures { IfOk result (IsTried (F.had files.now) archive.now query.now) }
{
    let moment = asked_at(query);
    tried_at(rt, alloc, files, archive, query, &moment)
}
