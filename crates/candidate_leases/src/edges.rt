//! Where two journals begin and end, beside a moment. Numbers are milliseconds.

ghost use Rattle.std.specs.Prelude.{◌≡◌, ℕ, MatchOption};
ghost use Rattle.binding_rules.specs.declared.role.Role.{Role as RoleValue};
ghost use Rattle.binding_rules.specs.Role.{partner_of};
ghost use Rattle.candidate_leases.specs.Conditions.{asked_of, OpensAt, IsBeforeOpen, IsPastOpen, IsPastClose};
ghost use Rattle.candidate_leases.specs.Conditions.{IsBeforeClose, IsBeforeFirst, MayPrecedePartner, IsPastPartner};

use auditor::LineSource;
use binding_rules::Role;
use causal_order::Ref;
use evidence_report::{LineReading, mark_at};
use lead_time::Reading;
use plain_search::HolderQuery;

/// A side whose journal is closed too early: at which reading, and from which on it would be late enough.
#[derive(Clone, Copy, Debug)]
pub struct EarlyClose {
    pub side: Role,
    pub needed: u64,
    pub closed: Reading,
}

/// What the clock showed at the side's first line.
#[tactic(auto, using(crate::proofs::EdgeReadings::opens_by_mark, crate::proofs::EdgeReadings::opens_anyway))]
fn opened<S: LineSource>(source: &S, side: Role) -> Reading
    ensures { OpensAt (S.journals source.now) side result }
{
    let closed = source.close_reading(side);
    match mark_at(source, Ref { side, number: 1 }) {
        Some(first) => first.reading,
        None => closed,
    }
}

/// By when the answers of the side's earlier volumes had surely come, if that is later than the moment.
pub fn before_open<S: LineSource>(source: &S, side: Role, query: &HolderQuery) -> Option<u64>
    ensures { MatchOption result (IsPastOpen (S.journals source.now) (asked_of query.now) side)
        (IsBeforeOpen (S.journals source.now) (asked_of query.now) side) }
{
    if source.volume(side) <= 1 {
        return None;
    }
    let opened = opened(source, side).milliseconds();
    let needed = opened + query.skew.milliseconds() + query.transit.milliseconds();
    if needed <= query.at.milliseconds() {
        return None;
    }
    Some(needed)
}

/// The reading at which the side's journal is closed, if the moment's end with the skew is later.
pub fn past_close<S: LineSource>(source: &S, side: Role, query: &HolderQuery) -> Option<EarlyClose>
    ensures { MatchOption result (IsBeforeClose (S.journals source.now) (asked_of query.now) side)
        (λ early. (early.side ≡ side)
        × IsPastClose (S.journals source.now) (asked_of query.now) side early.needed early.closed) }
{
    let closed = source.close_reading(side);
    let needed = query.at.milliseconds() + 1 + query.skew.milliseconds();
    if needed <= closed.milliseconds() {
        return None;
    }
    Some(EarlyClose {
        side,
        needed,
        closed,
    })
}

/// The first side whose journal is closed too early for the moment.
#[tactic(auto, using(crate::proofs::EdgeReadings::before_both))]
pub fn first_past_close<S: LineSource>(source: &S, query: &HolderQuery) -> Option<EarlyClose>
    ensures { MatchOption result
        ((side : RoleValue) → IsBeforeClose (S.journals source.now) (asked_of query.now) side)
        (λ early. IsPastClose (S.journals source.now) (asked_of query.now) early.side early.needed early.closed) }
{
    if let Some(early) = past_close(source, Role::Primary, query) {
        return Some(early);
    }
    let early = past_close(source, Role::Secondary, query)?;
    Some(early)
}

/// The reading at which the side's first volume began, if the moment is surely earlier.
#[tactic(auto, using(crate::proofs::EdgeReadings::after_first))]
pub fn before_first<S: LineSource>(source: &S, side: Role, query: &HolderQuery) -> Option<Reading>
    ensures { MatchOption result
        ((opened : ℕ) → IsBeforeFirst (S.journals source.now) (asked_of query.now) side opened → ⊥)
        (IsBeforeFirst (S.journals source.now) (asked_of query.now) side) }
{
    if 1 < source.volume(side) {
        return None;
    }
    let opened = opened(source, side);
    if opened.milliseconds() <= query.at.milliseconds() + query.skew.milliseconds() {
        return None;
    }
    Some(opened)
}

/// The reading from which on the line would surely be later than the earlier volumes of its server's partner, if it was
/// read before that.
pub fn may_precede_partner<S: LineSource>(
    source: &S,
    line: &LineReading,
    query: &HolderQuery,
) -> Option<u64>
    ensures { MatchOption result (IsPastPartner (S.journals source.now) (asked_of query.now) line.now)
        (MayPrecedePartner (S.journals source.now) (asked_of query.now) line.now (partner_of line.now.at.side)) }
{
    let partner = line.at.side.partner();
    if source.volume(partner) <= 1 {
        return None;
    }
    let opened = opened(source, partner).milliseconds();
    let needed = opened + 2 * query.skew.milliseconds() + 1;
    if needed <= line.reading.milliseconds() {
        return None;
    }
    Some(needed)
}
