//! What a search for evidence comes to over the journals that spans of volumes show.

ghost use Rattle.std.specs.Prelude.{IfOk};
ghost use Rattle.volume_spans.specs.Reading.{AreWritten};
ghost use Rattle.volume_spans.specs.Shown.{IsShownOver};
ghost use Rattle.joined_evidence.specs.Searches.{IsSpanSearch};

use crate::asking::cut_at;
use crate::searched::{JournalSearch, journal_search};
use archive_desk::expect_lines;
use archive_files::{FilesError, shown_until};
use causal_order::Certificate;
use evidence_search::Query;
use journal_archive::{PairJournals, VolumePair};
use pair_judgement::warnings;
use plain_search::HolderQuery;
use std::alloc::Global;
use std::thread::Threads;
use volume_spans::{ReadSpans, SpanPair, SpannedJournals};

/// The evidence of a stretch over spans of volumes.
#[derive(Debug, Drop)]
pub struct SpanEvidence {
    /// The volumes.
    pub spans: SpanPair,
    /// The last volume of each side.
    pub pair: VolumePair,
    /// The certificate, which is accepted over the two journals that the volumes show.
    pub certificate: Certificate,
    /// The warnings on these (K2, K3), as lines.
    pub warnings: Vec<u8>,
    /// The first moment of which they can't tell, in milliseconds of true time. `None` where one has no line.
    pub until: Option<u64>,
}

/// What a search for evidence comes to over spans of both sides.
#[derive(Debug, Drop)]
pub(crate) enum SpanSearch {
    /// It's found over these.
    Found(SpanEvidence),
    /// None is given, and a lease of the prefix near the moment is carried from earlier volumes.
    Carried,
    /// None is given, and no such lease is.
    NotFound,
    /// The volumes of a side aren't one journal, or something stands against the two journals.
    Barred,
}

/// What a search comes to over the journals that spans show, as far as the two bear each other out. `Changed` where one
/// of them has no line any longer.
fn search_by(
    rt: &(impl Threads + Sync),
    alloc: Global,
    read: &ReadSpans,
    shown: PairJournals,
    query: &Query,
    moment: &HolderQuery,
) -> Result<SpanSearch, FilesError>
    requires primary { AreWritten read.now.primary.volumes.items }
    requires secondary { AreWritten read.now.secondary.volumes.items }
    requires shown { IsShownOver read.now.primary.volumes.items read.now.secondary.volumes.items
        (SpannedJournals.Journals shown) }
    ensures { IfOk result (IsSpanSearch read.now query.now moment.now) }
{
    let pair = read.last_pair();
    expect_lines(&pair, &shown)?;
    let until = shown_until(&shown, query.skew);
    let asked = cut_at(query, &until);
    match journal_search(rt, alloc, &shown, &asked, moment)? {
        JournalSearch::Shown(certificate) => {
            let warnings = warnings(
                alloc,
                &shown.primary,
                &shown.secondary,
                query.skew,
                query.transit,
            )?;
            Ok(SpanSearch::Found(SpanEvidence {
                spans: read.spans(),
                pair,
                certificate,
                warnings,
                until,
            }))
        }
        JournalSearch::Carried => Ok(SpanSearch::Carried),
        JournalSearch::NotShown => Ok(SpanSearch::NotFound),
        JournalSearch::Barred => Ok(SpanSearch::Barred),
    }
}

/// What a search comes to over spans of both sides. `Changed` where a file isn't what the archive knows of it, `Memory`
/// where a growth was refused.
pub(crate) fn search_over(
    rt: &(impl Threads + Sync),
    alloc: Global,
    read: &ReadSpans,
    query: &Query,
    moment: &HolderQuery,
) -> Result<SpanSearch, FilesError>
    requires primary { AreWritten read.now.primary.volumes.items }
    requires secondary { AreWritten read.now.secondary.volumes.items }
    ensures { IfOk result (IsSpanSearch read.now query.now moment.now) }
{
    match read.shown(alloc)? {
        SpannedJournals::Journals(shown) => search_by(rt, alloc, read, shown, query, moment),
        SpannedJournals::Refused(_) => Ok(SpanSearch::Barred),
    }
}
