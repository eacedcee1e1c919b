//! A certificate, tried over the spans that `who` takes at its moments.

ghost use Rattle.std.specs.Prelude.{◌≡◌, ◌-◌, None, IfOk};
ghost use Rattle.joined_rulings.specs.Between.{AreSeveral};
ghost use Rattle.joined_rulings.specs.Trying.{asked_at, AreShownSpans, IsTriedAt, IsTriedWithin, IsTriedBehind};
ghost use Rattle.joined_rulings.specs.Trying.{IsTriedBetween, IsTriedLater, IsTried};

use crate::between::{are_within_reach, spans_between, tried_over};
use crate::trial::SpanAcceptance;
use crate::walking::{is_barring, walked};
use archive_desk::TimingBounds;
use archive_files::{FilesError, JournalFiles};
use causal_order::Certificate;
use joined_answers::{MomentSpans, reach_over, spans_at};
use journal_archive::Archive;
use lead_time::Reading;
use plain_search::HolderQuery;
use std::alloc::Global;
use std::thread::Threads;
use volume_spans::{ReadSpans, SpanPair};

/// Who held the certificate's prefix at a moment.
fn asked_at(claim: &Certificate, bounds: &TimingBounds, at: Reading) -> HolderQuery
    ensures { result ≡ asked_at claim.now bounds.now at }
{
    HolderQuery {
        prefix: claim.prefix,
        at,
        skew: bounds.skew,
        transit: bounds.transit,
    }
}

/// The last moment of the certificate's interval.
fn last_moment(claim: &Certificate) -> Reading
    ensures { result ≡ claim.now.to - 1 }
{
    match Reading::new(claim.to.milliseconds().saturating_sub(1)) {
        Ok(last) => last,
        Err(_) => unreachable!(),
    }
}

/// The spans that show a moment; none where a side has no volumes that do, or a file stands against reading them.
/// `Changed` where a file isn't what the archive knows of it, `Memory` where a growth was refused.
fn shown_spans<F: JournalFiles>(
    alloc: Global,
    files: &F,
    archive: &Archive,
    query: &HolderQuery,
) -> Result<Option<ReadSpans>, FilesError>
    ensures { IfOk result (AreShownSpans (F.had files.now) archive.now query.now) }
{
    match spans_at(alloc, files, archive, query) {
        Ok(MomentSpans::Read(read)) => Ok(Some(read)),
        Ok(MomentSpans::Lacking(_, _)) => Ok(None),
        Err(error) => {
            if is_barring(&error) {
                return Ok(None);
            }
            Err(error)
        }
    }
}

/// Tries a certificate over the spans that show a moment, and over wider ones. `Changed` where a file isn't what the
/// archive knows of it, `Memory` where a growth was refused.
fn tried_at<F: JournalFiles>(
    rt: &(impl Threads + Sync),
    alloc: Global,
    files: &F,
    archive: &Archive,
    query: &HolderQuery,
    claim: &Certificate,
) -> Result<Option<SpanAcceptance>, FilesError>
    ensures { IfOk result (IsTriedAt (F.had files.now) archive.now query.now claim.now) }
{
    match shown_spans(alloc, files, archive, query)? {
        Some(read) => walked(rt, alloc, files, archive, read, query, claim),
        None => Ok(None),
    }
}

/// Tries a certificate over spans, where they are no further back than a lease that lasts at the moment may have begun,
/// by the settings of the volumes that show it. `Changed` where a file isn't what the archive knows of it, `Memory`
/// where a growth was refused.
fn tried_within<F: JournalFiles>(
    rt: &(impl Threads + Sync),
    alloc: Global,
    files: &F,
    archive: &Archive,
    spans: &SpanPair,
    read: &ReadSpans,
    query: &HolderQuery,
    claim: &Certificate,
) -> Result<Option<SpanAcceptance>, FilesError>
    requires { AreSeveral spans.now }
    ensures { IfOk result (IsTriedWithin (F.had files.now) archive.now spans.now read.now query.now claim.now) }
{
    let reach = reach_over(query, read);
    if !are_within_reach(archive, spans, query.at, reach) {
        return Ok(None);
    }
    tried_over(rt, alloc, files, archive, spans, query, claim)
}

/// Tries a certificate over spans, where they are no further back than a lease that lasts at the moment may have begun;
/// none accept it where no volumes show the moment. `Changed` where a file isn't what the archive knows of it, `Memory`
/// where a growth was refused.
fn tried_behind<F: JournalFiles>(
    rt: &(impl Threads + Sync),
    alloc: Global,
    files: &F,
    archive: &Archive,
    spans: &SpanPair,
    query: &HolderQuery,
    claim: &Certificate,
) -> Result<Option<SpanAcceptance>, FilesError>
    requires { AreSeveral spans.now }
    ensures { IfOk result (IsTriedBehind (F.had files.now) archive.now spans.now query.now claim.now) }
{
    match shown_spans(alloc, files, archive, query)? {
        Some(read) => tried_within(rt, alloc, files, archive, spans, &read, query, claim),
        None => Ok(None),
    }
}

/// Tries a certificate over the volumes from those that show where its interval begins to those that show its last
/// moment, where these are several of a side and no further back than a lease reaches. `Changed` where a file isn't what
/// the archive knows of it, `Memory` where a growth was refused.
fn tried_between<F: JournalFiles>(
    rt: &(impl Threads + Sync),
    alloc: Global,
    files: &F,
    archive: &Archive,
    claim: &Certificate,
    bounds: &TimingBounds,
) -> Result<Option<SpanAcceptance>, FilesError>
    ensures { IfOk result (IsTriedBetween (F.had files.now) archive.now bounds.now claim.now) }
{
    let last = last_moment(claim);
    let query = asked_at(claim, bounds, last);
    match spans_between(archive, bounds, claim.from, last) {
        Some(spans) => tried_behind(rt, alloc, files, archive, &spans, &query, claim),
        None => Ok(None),
    }
}

/// Tries a certificate over the spans that `who` takes at its interval's last moment, and then over the volumes
/// between. `Changed` where a file isn't what the archive knows of it, `Memory` where a growth was refused.
fn tried_later<F: JournalFiles>(
    rt: &(impl Threads + Sync),
    alloc: Global,
    files: &F,
    archive: &Archive,
    claim: &Certificate,
    bounds: &TimingBounds,
) -> Result<Option<SpanAcceptance>, FilesError>
    ensures { IfOk result (IsTriedLater (F.had files.now) archive.now bounds.now claim.now) }
{
    let last = asked_at(claim, bounds, last_moment(claim));
    if let Some(accepted) = tried_at(rt, alloc, files, archive, &last, claim)? {
        return Ok(Some(accepted));
    }
    tried_between(rt, alloc, files, archive, claim, bounds)
}

/// Tries a certificate over the spans that `who` takes at the moment where its interval begins, then over those that it
/// takes at the interval's last moment, and then over the volumes from the one's to the other's; returns the first that
/// accept it, with the two journals that they show.
///
/// `Changed` where a file isn't what the archive knows of it, `Memory` where a growth was refused.
pub fn tried_over_spans<F: JournalFiles>(
    rt: &(impl Threads + Sync),
    alloc: Global,
    files: &F,
    archive: &Archive,
    claim: &Certificate,
    bounds: &TimingBounds,
) -> Result<Option<SpanAcceptance>, FilesError>
    ensures { IfOk result (IsTried (F.had files.now) archive.now bounds.now claim.now) }
{
    let first = asked_at(claim, bounds, claim.from);
    if let Some(accepted) = tried_at(rt, alloc, files, archive, &first, claim)? {
        return Ok(Some(accepted));
    }
    tried_later(rt, alloc, files, archive, claim, bounds)
}
