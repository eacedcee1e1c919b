//! What releases leave of a grant, found in as many steps as halving them takes.

ghost use Rattle.std.specs.Prelude.{◌≡◌, ◌↔◌, ℕ, ◌⊎◌, ◌≤◌, ◌<◌, None, Some, MatchOption, IfOk, IfSome, OnOk, not};
ghost use Rattle.std.specs.Prelude.{Contains as Has};
ghost use Rattle.causal_order.specs.declared.reference.Ref.{Ref as RefValue};
ghost use Rattle.attribution.specs.Acceptance.{GivesBack};
ghost use Rattle.plain_search.specs.declared.collected.DatedRelease.{DatedRelease as DatedValue};
ghost use Rattle.plain_search.specs.Collected.{shows_before, AreRising, IsFirstFailing, NoneFails, IsKeptBy};
ghost use Rattle.plain_search.specs.Collected.{IsReturn, IsRecent};
ghost use Rattle.plain_search.specs.Search.{AreKeptTo, IsReturnedBy};

use crate::asking::reading_at;
use crate::collected::DatedRelease;
use crate::ordering::shows_before;
use crate::query::Query;
use crate::reach::Candidate;
use crate::recent::ReleaseCache;
use crate::walking;
use attribution::Delegation;
use auditor::LineSource;
use causal_order::Ref;
use lead_time::Skew;
use std::alloc::{AllocError, Global};

/// The first of these releases that isn't plainly before the grant.
fn first_cutting(
    releases: &[DatedRelease],
    grant: &DatedRelease,
    skew: Skew,
) -> Option<DatedRelease>
    requires { AreRising releases.now }
    ensures { MatchOption result (NoneFails (λ x. shows_before skew x grant.now) releases.now)
        (IsFirstFailing (λ x. shows_before skew x grant.now) releases.now) }
{
    let place = releases.partition_point(
        |release|
            ensures { result ≡ shows_before skew release.now grant.entry.now }
        { shows_before(release, grant, skew) },
    );
    if place == releases.len() {
        return None;
    }
    Some(releases[place])
}

/// The greatest reading up to this one that none of these releases cuts off.
fn kept_by(releases: &[DatedRelease], grant: &DatedRelease, skew: Skew, limit: u64) -> u64
    requires { AreRising releases.now }
    ensures { (least : ℕ) → least ≤ result ↔ ((least ≤ limit) × IsKeptBy skew grant.now releases.now least) }
{
    match first_cutting(releases, grant, skew) {
        Some(release) => limit.min(release.reading.milliseconds()),
        None => limit,
    }
}

/// The greatest reading up to this one that no release of what the grant gave cuts off.
pub fn kept_limit<S: LineSource>(
    alloc: Global,
    source: &S,
    recent: &mut ReleaseCache,
    candidate: &Candidate,
    skew: Skew,
    limit: u64,
) -> Result<u64, AllocError>
    requires { IsRecent (S.journals source.now) recent.old }
    ensures recent { OnOk result (IsRecent (S.journals source.now) recent.new) }
    ensures kept { IfOk result (λ kept. (least : ℕ) → least ≤ kept
        ↔ ((least ≤ limit) × AreKeptTo (S.journals source.now) skew candidate.now least)) }
{
    let delegation = Delegation::of_lease(&candidate.lease);
    let place = recent.place_for(alloc, source, &delegation)?;
    let releases = &recent.collected[place];
    let reading = reading_at(source, candidate.grant);
    match reading {
        Some(reading) if releases.are_rising => {
            let at = candidate.grant;
            let grant = DatedRelease { at, reading };
            let kept = kept_by(&releases.primary, &grant, skew, limit);
            Ok(kept_by(&releases.secondary, &grant, skew, kept))
        }
        _ => Ok(walking::kept_limit(source, candidate, skew, limit)),
    }
}

/// The first of these releases that is plainly after the line.
fn first_after(releases: &[DatedRelease], line: &DatedRelease, skew: Skew) -> Option<DatedRelease>
    requires { AreRising releases.now }
    ensures { MatchOption result (NoneFails (λ x. not (shows_before skew line.now x)) releases.now)
        (IsFirstFailing (λ x. not (shows_before skew line.now x)) releases.now) }
{
    let place = releases.partition_point(
        |release|
            ensures { result ≡ not (shows_before skew line.entry.now release.now) }
        { !shows_before(line, release, skew) },
    );
    if place == releases.len() {
        return None;
    }
    Some(releases[place])
}

/// The first of these releases that is plainly after the line, where it is by the query's beginning.
fn first_return(
    releases: &[DatedRelease],
    query: &Query,
    line: &DatedRelease,
) -> Option<DatedRelease>
    requires { AreRising releases.now }
    ensures { MatchOption result
        ((x : DatedValue) → Has releases.now x → IsReturn query.now line.now x → ⊥)
        (λ x. Has releases.now x × IsReturn query.now line.now x) }
{
    let Some(release) = first_after(releases, line, query.skew) else {
        return None;
    };
    if release.reading.milliseconds() + query.skew.milliseconds() > query.from.milliseconds() {
        return None;
    }
    Some(release)
}

/// The one of two lines that was read first, where there is one: the former where both were at once.
pub fn first_read(one: Option<DatedRelease>, other: Option<DatedRelease>) -> Option<DatedRelease>
    ensures found { MatchOption result ((one ≡ None) × (other ≡ None)) (λ x. (one ≡ Some x) ⊎ (other ≡ Some x)) }
    ensures first { IfSome one (λ x. IfSome other (λ y. ((y.reading < x.reading) × (result ≡ Some y))
        ⊎ ((x.reading ≤ y.reading) × (result ≡ Some x)))) }
{
    match (one, other) {
        (Some(first), Some(second)) => {
            if second.reading < first.reading {
                Some(second)
            } else {
                Some(first)
            }
        }
        (Some(first), None) => Some(first),
        (None, second) => second,
    }
}

/// A line that gives back what this line tells of, plainly after it and by the query's beginning.
pub fn returning<S: LineSource>(
    alloc: Global,
    source: &S,
    recent: &mut ReleaseCache,
    query: &Query,
    at: Ref,
    delegation: &Delegation,
) -> Result<Option<Ref>, AllocError>
    requires { IsRecent (S.journals source.now) recent.old }
    ensures recent { OnOk result (IsRecent (S.journals source.now) recent.new) }
    ensures returning { IfOk result (λ found. MatchOption found
        ((j : RefValue) → GivesBack (S.journals source.now) j delegation.now
        → IsReturnedBy (S.journals source.now) query.now at j → ⊥)
        (λ j. GivesBack (S.journals source.now) j delegation.now
        × IsReturnedBy (S.journals source.now) query.now at j)) }
{
    let walk = source.releases(delegation);
    if walking::are_few(source, delegation, walk) {
        return Ok(walking::returning(source, query, at, delegation, walk));
    }
    let place = recent.place_for(alloc, source, delegation)?;
    let releases = &recent.collected[place];
    let reading = reading_at(source, at);
    match reading {
        Some(reading) if releases.are_rising => {
            let line = DatedRelease { at, reading };
            let primary = first_return(&releases.primary, query, &line);
            let secondary = first_return(&releases.secondary, query, &line);
            match first_read(primary, secondary) {
                Some(release) => Ok(Some(release.at)),
                None => Ok(None),
            }
        }
        _ => Ok(walking::returning(source, query, at, delegation, walk)),
    }
}

/// The first line that gives back what this line tells of, plainly after it; none where such lines don't rise.
pub fn first_returning<S: LineSource>(
    alloc: Global,
    source: &S,
    recent: &mut ReleaseCache,
    skew: Skew,
    at: Ref,
    delegation: &Delegation,
) -> Result<Option<DatedRelease>, AllocError>
    requires { IsRecent (S.journals source.now) recent.old }
    ensures { OnOk result (IsRecent (S.journals source.now) recent.new) }
{
    let place = recent.place_for(alloc, source, delegation)?;
    let releases = &recent.collected[place];
    let reading = reading_at(source, at);
    match reading {
        Some(reading) if releases.are_rising => {
            let line = DatedRelease { at, reading };
            let primary = first_after(&releases.primary, &line, skew);
            let secondary = first_after(&releases.secondary, &line, skew);
            Ok(first_read(primary, secondary))
        }
        _ => Ok(None),
    }
}
