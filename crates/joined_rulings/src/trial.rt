//! What is ruled on a certificate over the journals that spans of volumes show.

ghost use Rattle.std.specs.Prelude.{IfOk};
ghost use Rattle.volume_spans.specs.Reading.{AreWritten};
ghost use Rattle.volume_spans.specs.Shown.{IsShownOver};
ghost use Rattle.joined_rulings.specs.Trials.{IsTrial};

use crate::judged::{JournalTrial, journal_trial};
use archive_desk::expect_lines;
use archive_files::FilesError;
use causal_order::Certificate;
use journal_archive::{PairJournals, VolumePair};
use pair_judgement::warnings;
use plain_search::HolderQuery;
use std::alloc::Global;
use std::thread::Threads;
use volume_spans::{ReadSpans, SpanPair, SpannedJournals};

/// Spans of volumes over which a certificate is accepted.
#[derive(Debug, Drop)]
pub struct SpanRuling {
    /// The volumes.
    pub spans: SpanPair,
    /// The last volume of each side.
    pub pair: VolumePair,
    /// The warnings on the two journals that they show (K2, K3), as lines.
    pub warnings: Vec<u8>,
}

/// Spans of volumes over which a certificate is accepted, and the two journals that they show.
#[derive(Debug, Drop)]
pub struct SpanAcceptance {
    pub ruling: SpanRuling,
    pub shown: PairJournals,
}

/// What comes of a certificate over spans of both sides.
#[derive(Debug, Drop)]
pub(crate) enum SpanTrial {
    /// It's accepted over these.
    Accepted(SpanAcceptance),
    /// It's refused, and a lease of its prefix near the moment is carried from earlier volumes.
    Carried,
    /// It's refused, and no such lease is.
    Refused,
    /// The volumes of a side aren't one journal, or something stands against the two journals.
    Barred,
}

/// What comes of a certificate over the journals that spans show. `Changed` where one of them has no line any longer.
fn trial_by(
    rt: &(impl Threads + Sync),
    alloc: Global,
    read: &ReadSpans,
    shown: PairJournals,
    query: &HolderQuery,
    claim: &Certificate,
) -> Result<SpanTrial, FilesError>
    requires primary { AreWritten read.now.primary.volumes.items }
    requires secondary { AreWritten read.now.secondary.volumes.items }
    requires shown { IsShownOver read.now.primary.volumes.items read.now.secondary.volumes.items
        (SpannedJournals.Journals shown) }
    ensures { IfOk result (IsTrial read.now query.now claim.now) }
{
    let pair = read.last_pair();
    expect_lines(&pair, &shown)?;
    match journal_trial(rt, alloc, &shown, query, claim)? {
        JournalTrial::Accepted => {
            let warnings = warnings(
                alloc,
                &shown.primary,
                &shown.secondary,
                query.skew,
                query.transit,
            )?;
            let spans = read.spans();
            let ruling = SpanRuling {
                spans,
                pair,
                warnings,
            };
            Ok(SpanTrial::Accepted(SpanAcceptance { ruling, shown }))
        }
        JournalTrial::Carried => Ok(SpanTrial::Carried),
        JournalTrial::Refused => Ok(SpanTrial::Refused),
        JournalTrial::Barred => Ok(SpanTrial::Barred),
    }
}

/// What comes of a certificate over spans of both sides, as it's asked of a moment. `Changed` where a file isn't what
/// the archive knows of it, `Memory` where a growth was refused.
pub(crate) fn trial_over(
    rt: &(impl Threads + Sync),
    alloc: Global,
    read: &ReadSpans,
    query: &HolderQuery,
    claim: &Certificate,
) -> Result<SpanTrial, FilesError>
    requires primary { AreWritten read.now.primary.volumes.items }
    requires secondary { AreWritten read.now.secondary.volumes.items }
    ensures { IfOk result (IsTrial read.now query.now claim.now) }
{
    match read.shown(alloc)? {
        SpannedJournals::Journals(shown) => trial_by(rt, alloc, read, shown, query, claim),
        SpannedJournals::Refused(_) => Ok(SpanTrial::Barred),
    }
}
