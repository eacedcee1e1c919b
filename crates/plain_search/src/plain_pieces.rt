//! The pieces that carry an interval.

ghost use Rattle.std.specs.Prelude.{◌≡◌, ◌≤◌, All, IfOk, IsErrOf};
ghost use Rattle.causal_order.specs.declared.reference.Ref.{Ref as RefValue};
ghost use Rattle.attribution.specs.Acceptance.{GivesBack};
ghost use Rattle.plain_search.specs.Search.{IsPlainEntry, HasEntry, AreEntries, IsReach, AreAllReaches, AreInOrder};
ghost use Rattle.plain_search.specs.Search.{IsPieceOf, ReachTo, HasGap, ArePiecesOver};
ghost use Rattle.plain_search.specs.Limits.{lines_of_all};

use crate::asking::lease_at;
use crate::error::FindError;
use crate::ordering::{is_plainly_before, plain_order, single};
use crate::query::Query;
use crate::reach::{CarriedSpan, reaches};
use crate::sweep::{SweepState, farthest, pass};
use attribution::Delegation;
use auditor::LineSource;
use causal_order::{Clear, ClearList, ClearReason, Lines, Piece, PieceList, Ref};
use lead_time::{Reading, Skew};
use std::alloc::{AllocError, Global};

/// Why the release doesn't cut a piece of the grant short.
fn why_cleared<L: Lines>(
    alloc: Global,
    lines: &L,
    release: Ref,
    grant: Ref,
    skew: Skew,
) -> Result<ClearReason, AllocError>
    ensures { IfOk result (IsPlainEntry (L.journals lines.now) skew release grant) }
{
    if is_plainly_before(lines, release, grant, skew) {
        return Ok(ClearReason::Before(plain_order(alloc, release, grant)?));
    }
    Ok(ClearReason::After(single(alloc, release)?))
}

/// An entry for each release that gives the delegation of this grant back.
fn clears<S: LineSource>(
    alloc: Global,
    source: &S,
    grant: Ref,
    delegation: &Delegation,
    skew: Skew,
) -> Result<ClearList, AllocError>
    ensures { IfOk result (λ ks. (j : RefValue) → GivesBack (S.journals source.now) j delegation.now
        → HasEntry (S.journals source.now) skew grant ks j) }
{
    let mut clears = ClearList::new(alloc);
    let mut walk = source.releases(delegation);
    while let Some(release) = source.next_release(delegation, &mut walk) {
        let why = why_cleared(alloc, source, release, grant, skew)?;
        clears.push(Clear { release, why })?;
    }
    Ok(clears)
}

/// An entry for each release that gives back what the grant gave.
fn clears_of<S: LineSource>(
    alloc: Global,
    source: &S,
    grant: Ref,
    skew: Skew,
) -> Result<ClearList, AllocError>
    ensures { IfOk result (AreEntries (S.journals source.now) skew grant) }
{
    match lease_at(source, grant) {
        Some(lease) => clears(alloc, source, grant, &Delegation::of_lease(&lease), skew),
        None => Ok(ClearList::new(alloc)),
    }
}

/// The piece that the reach carries from this moment on.
fn piece_of<S: LineSource>(
    alloc: Global,
    source: &S,
    reach: &CarriedSpan,
    from: Reading,
    skew: Skew,
) -> Result<Piece, AllocError>
    ensures { IfOk result (λ p. IsPieceOf (S.journals source.now) skew reach.now from p) }
{
    Ok(Piece {
        grant: reach.grant,
        from,
        to: reach.end,
        latest: single(alloc, reach.grant)?,
        earliest: single(alloc, reach.grant)?,
        clear: clears_of(alloc, source, reach.grant, skew)?,
    })
}

/// Pieces end to end over the query, each of the one of these grants that reaches farthest: they stand in the order in
/// which they begin. They have room for so many lines.
fn pieces_of<S: LineSource>(
    alloc: Global,
    source: &S,
    query: &Query,
    reaches: &[CarriedSpan],
    room: usize,
) -> Result<PieceList, FindError>
    requires interval { query.now.from ≤ query.now.to }
    requires each { All (IsReach (S.journals source.now) query.now) reaches.now }
    requires all { AreAllReaches (S.journals source.now) query.now reaches.now }
    requires sorted { AreInOrder reaches.now }
    ensures found { IfOk result (ReachTo (S.journals source.now) query.now query.now.to) }
    ensures fits { IfOk result (λ ps. lines_of_all ps ≤ room) }
    ensures none { IsErrOf result FindError.NoneFound → HasGap (S.journals source.now) query.now }
    ensures long { IsErrOf result FindError.TooLong → ArePiecesOver (S.journals source.now) query.now room }
{
    let mut pieces = Vec::new(alloc);
    let mut left = room;
    let mut from = query.from;
    let mut passed = SweepState::NONE;
    while from < query.to {
        passed = pass(reaches, &passed, from);
        let Some(reach) = farthest(reaches, &passed, from) else {
            return Err(FindError::NoneFound);
        };
        let piece = piece_of(alloc, source, &reach, from, query.skew)?;
        let clears = piece.clear.as_slice().len();
        if clears >= left {
            return Err(FindError::TooLong);
        }
        left -= clears + 1;
        pieces.push(piece)?;
        from = reach.end;
    }
    Ok(PieceList::new(pieces))
}

/// Pieces end to end over the query, each of the grant that reaches farthest. `NoneFound` where no grant carries some
/// moment, `TooLong` as soon as those from the query's beginning on have more lines than there is room for.
pub fn pieces<S: LineSource>(
    alloc: Global,
    source: &S,
    query: &Query,
    room: usize,
) -> Result<PieceList, FindError>
    requires { query.now.from ≤ query.now.to }
    ensures found { IfOk result (ReachTo (S.journals source.now) query.now query.now.to) }
    ensures fits { IfOk result (λ ps. lines_of_all ps ≤ room) }
    ensures none { IsErrOf result FindError.NoneFound → HasGap (S.journals source.now) query.now }
    ensures long { IsErrOf result FindError.TooLong → ArePiecesOver (S.journals source.now) query.now room }
{
    let reaches = reaches(alloc, source, query)?;
    pieces_of(alloc, source, query, &reaches, room)
}
