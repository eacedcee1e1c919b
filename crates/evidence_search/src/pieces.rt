//! The pieces that carry an interval, by chains through both journals.

ghost use Rattle.std.specs.Prelude.{IfOk, OnOk};
ghost use Rattle.plain_search.specs.Collected.{IsRecent};
ghost use Rattle.plain_search.specs.Search.{AreInOrder};

use crate::bounds::{ChainBound, earliest, earliest_chain, latest, latest_chain, over_message};
use crate::linking::{is_before, order};
use crate::messages::DeliveredMessages;
use attribution::Delegation;
use auditor::LineSource;
use causal_order::{Clear, ClearList, ClearReason, Lines, Piece, PieceList, Ref};
use lead_time::{Reading, Skew};
use plain_search::{
    Candidate, CarriedSpan, DatedRelease, FindError, Query, ReleaseCache, SweepState, are_apart,
    begin_of, farthest, is_holders, lease_at, lease_limit, less_skew, pass, reading_at, sort,
};
use std::alloc::{AllocError, Global};

/// Returns whether the bound shows that the line was written after its server's partner opened its journal.
fn is_past_open<S: LineSource>(source: &S, at: Ref, bound: &ChainBound, skew: Skew) -> bool {
    let partner = at.side.partner();
    if source.volume(partner) <= 1 || bound.over.is_some() {
        return true;
    }
    let open = Ref {
        side: partner,
        number: 1,
    };
    match reading_at(source, open) {
        Some(opened) => are_apart(opened, bound.reading, skew),
        None => false,
    }
}

/// From when the grant was written, behind its partner's earlier volumes.
fn granted_from<S: LineSource>(
    source: &S,
    messages: &DeliveredMessages,
    at: Ref,
    skew: Skew,
) -> Option<ChainBound> {
    let bound = earliest(source, messages, at)?;
    if is_past_open(source, at, &bound, skew) {
        return Some(bound);
    }
    over_message(source, messages, at)
}

/// Returns what a server's releases leave of this reading, up to which a lease lasts: the first that isn't before the
/// grant.
fn kept_by<L: Lines>(
    lines: &L,
    messages: &DeliveredMessages,
    releases: &[DatedRelease],
    grant: Ref,
    skew: Skew,
    limit: u64,
) -> u64 {
    let place = releases.partition_point(|release| is_before(
        lines, messages, release.at, grant, skew,
    ));
    let Some(release) = releases.get(place) else {
        return limit;
    };
    match earliest(lines, messages, release.at) {
        Some(bound) => limit.min(bound.reading.milliseconds()),
        None => limit,
    }
}

/// Returns what releases leave of this reading, up to which a lease lasts.
fn kept_limit<S: LineSource>(
    alloc: Global,
    source: &S,
    messages: &DeliveredMessages,
    recent: &mut ReleaseCache,
    candidate: &Candidate,
    skew: Skew,
    limit: u64,
) -> Result<u64, AllocError>
    requires { IsRecent (S.journals source.now) recent.old }
    ensures { OnOk result (IsRecent (S.journals source.now) recent.new) }
{
    let delegation = Delegation::of_lease(&candidate.lease);
    let place = recent.place_for(alloc, source, &delegation)?;
    let releases = &recent.collected[place];
    let grant = candidate.grant;
    let kept = kept_by(source, messages, &releases.primary, grant, skew, limit);
    Ok(kept_by(source, messages, &releases.secondary, grant, skew, kept))
}

/// The line as a grant that may carry pieces, as chains show when it was written, and from when on it does.
fn candidate_at<S: LineSource>(
    source: &S,
    messages: &DeliveredMessages,
    query: &Query,
    grant: Ref,
) -> Option<(Candidate, Reading)> {
    let lease = lease_at(source, grant)?;
    if !is_holders(&lease, query) {
        return None;
    }
    let reading = latest(source, messages, grant)?.reading;
    let begin = begin_of(
        query,
        &Candidate {
            grant,
            lease,
            reading,
        },
    )?;
    let reading = granted_from(source, messages, grant, query.skew)?.reading;
    let candidate = Candidate {
        grant,
        lease,
        reading,
    };
    Some((candidate, begin))
}

/// The line as a grant with the moments of the query that it carries, as chains show them.
pub fn linked_reach_at<S: LineSource>(
    alloc: Global,
    source: &S,
    messages: &DeliveredMessages,
    recent: &mut ReleaseCache,
    query: &Query,
    grant: Ref,
) -> Result<Option<CarriedSpan>, AllocError>
    requires { IsRecent (S.journals source.now) recent.old }
    ensures { OnOk result (IsRecent (S.journals source.now) recent.new) }
{
    let Some((candidate, begin)) = candidate_at(source, messages, query, grant) else {
        return Ok(None);
    };
    let skew = query.skew;
    let limit = lease_limit(query, &candidate);
    let kept = kept_limit(alloc, source, messages, recent, &candidate, skew, limit)?;
    match less_skew(kept, skew) {
        Some(end) => Ok(Some(CarriedSpan { grant, begin, end })),
        None => Ok(None),
    }
}

/// The grants that carry moments of the query, the first that does first.
fn reaches<S: LineSource>(
    alloc: Global,
    source: &S,
    messages: &DeliveredMessages,
    query: &Query,
) -> Result<Vec<CarriedSpan>, AllocError>
    ensures { IfOk result (λ xs. AreInOrder xs.items) }
{
    let mut reaches = Vec::new(alloc);
    let mut recent = ReleaseCache::new(alloc);
    let mut walk = source.overlaps(&query.prefix);
    while let Some(at) = source.next_overlap(&query.prefix, &mut walk) {
        let found = linked_reach_at(alloc, source, messages, &mut recent, query, at)?;
        if let Some(reach) = found {
            reaches.push(reach)?;
        }
    }
    sort(&mut reaches)?;
    Ok(reaches)
}

/// Why the release doesn't cut a piece of the grant short.
fn why_cleared<L: Lines>(
    alloc: Global,
    lines: &L,
    messages: &DeliveredMessages,
    release: Ref,
    grant: Ref,
    skew: Skew,
) -> Result<ClearReason, FindError> {
    if is_before(lines, messages, release, grant, skew) {
        let order = order(alloc, lines, messages, release, grant, skew)?;
        return Ok(ClearReason::Before(order));
    }
    let Some(bound) = earliest(lines, messages, release) else {
        return Err(FindError::NoneFound);
    };
    Ok(ClearReason::After(earliest_chain(alloc, release, &bound)?))
}

/// An entry for each release that gives back what the grant gave.
fn clears<S: LineSource>(
    alloc: Global,
    source: &S,
    messages: &DeliveredMessages,
    grant: Ref,
    skew: Skew,
) -> Result<ClearList, FindError> {
    let mut clears = ClearList::new(alloc);
    let Some(lease) = lease_at(source, grant) else {
        return Ok(clears);
    };
    let delegation = Delegation::of_lease(&lease);
    let mut walk = source.releases(&delegation);
    while let Some(release) = source.next_release(&delegation, &mut walk) {
        let why = why_cleared(alloc, source, messages, release, grant, skew)?;
        clears.push(Clear { release, why })?;
    }
    Ok(clears)
}

/// The piece that the reach carries from this moment on.
fn piece_of<S: LineSource>(
    alloc: Global,
    source: &S,
    messages: &DeliveredMessages,
    reach: &CarriedSpan,
    from: Reading,
    skew: Skew,
) -> Result<Piece, FindError> {
    let grant = reach.grant;
    let (Some(reached), Some(granted)) = (
        latest(source, messages, grant),
        granted_from(source, messages, grant, skew),
    ) else {
        return Err(FindError::NoneFound);
    };
    let clear = clears(alloc, source, messages, grant, skew)?;
    Ok(Piece {
        grant,
        from,
        to: reach.end,
        latest: latest_chain(alloc, grant, &reached)?,
        earliest: earliest_chain(alloc, grant, &granted)?,
        clear,
    })
}

/// Pieces end to end over the query, each of the one of these grants that reaches farthest. They have room for so many
/// lines.
fn pieces_of<S: LineSource>(
    alloc: Global,
    source: &S,
    messages: &DeliveredMessages,
    query: &Query,
    reaches: &[CarriedSpan],
    room: usize,
) -> Result<PieceList, FindError>
    requires { AreInOrder reaches.now }
{
    let mut pieces = PieceList::new(Vec::new(alloc));
    let mut left = room;
    let mut from = query.from;
    let mut passed = SweepState::NONE;
    while from < query.to {
        passed = pass(reaches, &passed, from);
        let Some(reach) = farthest(reaches, &passed, from) else {
            return Err(FindError::NoneFound);
        };
        let piece = piece_of(alloc, source, messages, &reach, from, query.skew)?;
        let clears = piece.clear.as_slice().len();
        if clears >= left {
            return Err(FindError::TooLong);
        }
        left -= clears + 1;
        pieces.push(piece)?;
        from = reach.end;
    }
    Ok(pieces)
}

/// Pieces end to end over the query, each of the grant that reaches farthest. `NoneFound` where no grant carries some
/// moment, `TooLong` as soon as those from the query's beginning on have more lines than there is room for.
pub fn linked_pieces<S: LineSource>(
    alloc: Global,
    source: &S,
    messages: &DeliveredMessages,
    query: &Query,
    room: usize,
) -> Result<PieceList, FindError> {
    let reaches = reaches(alloc, source, messages, query)?;
    pieces_of(alloc, source, messages, query, &reaches, room)
}
