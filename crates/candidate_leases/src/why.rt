//! Why nobody is named.

ghost use Rattle.std.specs.Prelude.{◌≡◌, ◌≢◌, ◌+◌, IsTrue, MatchOption, List, Contains as Has, false};
ghost use Rattle.binding_rules.specs.declared.role.Role.{Role as RoleValue};
ghost use Rattle.candidate_leases.specs.declared.candidates.CandidateLease.{CandidateLease};
ghost use Rattle.candidate_leases.specs.declared.volume_ends.VolumeEnds.{VolumeEnds as EndsValue};
ghost use Rattle.candidate_leases.specs.declared.at_moment.AtMoment.TheVariants as state;
ghost use Rattle.candidate_leases.specs.Conditions.{asked_of, end_of, IsMet, IsUnmet, IsPastClose, IsBeforeClose};
ghost use Rattle.candidate_leases.specs.Near.{SaysPossible};
ghost use Rattle.candidate_leases.specs.Why.{Case, case_of, IsWhy, MayBe, IsInPools, IsInVolumes, IsPastOpens};
ghost use Rattle.candidate_leases.specs.Why.{IsWritten, IsCovered, IsOneUnit, IsFirstEarly};

use crate::at_moment::AtMoment;
use crate::candidates::CandidateLease;
use crate::edges::{EarlyClose, before_first, before_open, past_close};
use crate::pools::{PoolLine, met_pool};
use crate::volume_ends::{VolumeEnd, VolumeEnds};
use auditor::LineSource;
use binding_rules::Role;
use evidence_report::LineReading;
use lead_time::Reading;
use plain_search::HolderQuery;

/// Why nobody is named as the holder of a prefix at a moment: the first of these that holds. Numbers are milliseconds.
#[derive(Clone, Copy, Debug, PartialEq, Eq)]
pub enum NoHolderReason {
    /// `outside_pools`: no pool of these journals has an address of the prefix.
    OutsidePools,
    /// `before_first_volume`: the moment, with the skew, lies before the first volumes of both sides began, at these
    /// readings.
    BeforeFirstVolume {
        primary: Reading,
        secondary: Reading,
    },
    /// `before_open`: the answers of earlier volumes of this side may have come at the moment: they had surely come by
    /// `needed` alone.
    BeforeOpen {
        side: Role,
        needed: u64,
    },
    /// `after_last_line`: this side's volume is still being written, and the moment's end with the skew (`needed`) is
    /// later than the reading of its last line. Ask again later.
    AfterLastLine {
        side: Role,
        needed: u64,
        last: Reading,
    },
    /// `past_end`: this side's volume is closed, and the moment's end with the skew (`needed`) is later than the
    /// reading of its close line.
    PastEnd {
        side: Role,
        needed: u64,
        closed: Reading,
    },
    /// `several_customers`: the prefix is shorter than the units of a pool that has an address of it, so it is several
    /// customers': prefixes of this length can be asked about.
    SeveralCustomers {
        unit_length: u8,
    },
    /// `several`: two clients or more may have had addresses of it, by these lines.
    Several {
        first: LineReading,
        other: LineReading,
    },
    /// `carried`: one client alone may have had one, and by this line a lease of it began in a volume that isn't here.
    Carried {
        line: LineReading,
    },
    /// `not_shown`: one client alone may have had one, and it isn't shown that it had all of the prefix.
    NotShown,
    /// `nobody`: both journals show the moment, and by their lines no address of the prefix can have been any client's.
    Nobody,
}

/// A moment before the first volumes of both sides.
#[tactic(auto, using(crate::proofs::Whys::not_before_primarys, crate::proofs::Whys::not_before_secondarys))]
fn before_volumes<S: LineSource>(source: &S, query: &HolderQuery) -> Option<NoHolderReason>
    ensures { (ends : EndsValue) → IsInPools (case_of (S.journals source.now) query.now ends)
        → MatchOption result (IsInVolumes (case_of (S.journals source.now) query.now ends))
        (λ why. (leases : List CandidateLease) → IsWhy (case_of (S.journals source.now) query.now ends) leases why) }
{
    let primary = before_first(source, Role::Primary, query)?;
    let secondary = before_first(source, Role::Secondary, query)?;
    Some(NoHolderReason::BeforeFirstVolume { primary, secondary })
}

/// A moment at which answers of earlier volumes may have come.
fn before_opens<S: LineSource>(source: &S, query: &HolderQuery) -> Option<NoHolderReason>
    ensures { (ends : EndsValue) → IsInVolumes (case_of (S.journals source.now) query.now ends)
        → MatchOption result (IsPastOpens (case_of (S.journals source.now) query.now ends))
        (λ why. (leases : List CandidateLease) → IsWhy (case_of (S.journals source.now) query.now ends) leases why) }
{
    let side = Role::Primary;
    if let Some(needed) = before_open(source, side, query) {
        return Some(NoHolderReason::BeforeOpen { side, needed });
    }
    let side = Role::Secondary;
    let needed = before_open(source, side, query)?;
    Some(NoHolderReason::BeforeOpen { side, needed })
}

/// The reading at which the side's journal is closed, if it ends so and the moment is later.
fn early_on<S: LineSource>(
    source: &S,
    query: &HolderQuery,
    ends: VolumeEnds,
    end: VolumeEnd,
    side: Role,
) -> Option<EarlyClose>
    ensures { MatchOption result
        (end_of ends side ≡ end → IsBeforeClose (S.journals source.now) (asked_of query.now) side)
        (λ early. (end_of ends side ≡ end) × (early.side ≡ side)
        × IsPastClose (S.journals source.now) (asked_of query.now) side early.needed early.closed) }
{
    if ends.of(side) != end {
        return None;
    }
    past_close(source, side, query)
}

/// The first side whose volume ends so, and too early.
fn first_early<S: LineSource>(
    source: &S,
    query: &HolderQuery,
    ends: VolumeEnds,
    end: VolumeEnd,
) -> Option<EarlyClose>
    ensures { MatchOption result
        ((side : RoleValue) → end_of ends side ≡ end → IsBeforeClose (S.journals source.now) (asked_of query.now) side)
        (λ early. IsFirstEarly (case_of (S.journals source.now) query.now ends) end early.side early.needed
        early.closed) }
{
    if let Some(early) = early_on(source, query, ends, end, Role::Primary) {
        return Some(early);
    }
    early_on(source, query, ends, end, Role::Secondary)
}

/// A moment that a volume doesn't show yet, which is still being written.
fn after_last_line<S: LineSource>(
    source: &S,
    query: &HolderQuery,
    ends: VolumeEnds,
) -> Option<NoHolderReason>
    requires { IsPastOpens (case_of (S.journals source.now) query.now ends) }
    ensures { MatchOption result (IsWritten (case_of (S.journals source.now) query.now ends))
        (λ why. (leases : List CandidateLease) → IsWhy (case_of (S.journals source.now) query.now ends) leases why) }
{
    let early = first_early(source, query, ends, VolumeEnd::Open)?;
    Some(NoHolderReason::AfterLastLine {
        side: early.side,
        needed: early.needed,
        last: early.closed,
    })
}

/// A moment that a closed volume doesn't show.
#[tactic(auto, using(crate::proofs::Whys::covered))]
fn past_end<S: LineSource>(
    source: &S,
    query: &HolderQuery,
    ends: VolumeEnds,
) -> Option<NoHolderReason>
    requires { IsWritten (case_of (S.journals source.now) query.now ends) }
    ensures { MatchOption result (IsCovered (case_of (S.journals source.now) query.now ends))
        (λ why. (leases : List CandidateLease) → IsWhy (case_of (S.journals source.now) query.now ends) leases why) }
{
    let early = first_early(source, query, ends, VolumeEnd::Closed)?;
    Some(NoHolderReason::PastEnd {
        side: early.side,
        needed: early.needed,
        closed: early.closed,
    })
}

/// Why the journals don't show the moment, or `None` where both do.
fn uncovered<S: LineSource>(
    source: &S,
    query: &HolderQuery,
    ends: VolumeEnds,
) -> Option<NoHolderReason>
    ensures { MatchOption result (IsCovered (case_of (S.journals source.now) query.now ends))
        (λ why. (leases : List CandidateLease) → IsWhy (case_of (S.journals source.now) query.now ends) leases why) }
{
    let Some(_pool) = met_pool(source, &query.prefix, 0) else {
        return Some(NoHolderReason::OutsidePools);
    };
    if let Some(why) = before_volumes(source, query) {
        return Some(why);
    }
    if let Some(why) = before_opens(source, query) {
        return Some(why);
    }
    if let Some(why) = after_last_line(source, query, ends) {
        return Some(why);
    }
    past_end(source, query, ends)
}

/// A pool whose units are longer than the prefix.
fn longer_units<S: LineSource>(source: &S, query: &HolderQuery) -> Option<PoolLine>
    ensures { MatchOption result
        (IsUnmet (S.journals source.now) query.now.prefix (query.now.prefix.length + 1))
        (IsMet (S.journals source.now) query.now.prefix (query.now.prefix.length + 1)) }
{
    met_pool(source, &query.prefix, query.prefix.len() + 1)
}

/// Returns whether the other lease may have been another client's.
fn rivals(lease: &CandidateLease, other: &CandidateLease) -> bool
    ensures rival { IsTrue result
        → SaysPossible other.now.state × (other.now.delegation.client ≢ lease.now.delegation.client) }
    ensures none { result ≡ false → SaysPossible other.now.state
        → other.now.delegation.client ≡ lease.now.delegation.client }
{
    other.state.is_possible() && other.delegation.client != lease.delegation.client
}

/// The first lease that may have been its client's.
fn first_possible(leases: &[CandidateLease]) -> Option<CandidateLease>
    ensures { MatchOption result ((n : CandidateLease) → MayBe leases.now n → ⊥) (MayBe leases.now) }
{
    leases
        .iter()
        .find(|lease| lease.state.is_possible())
        .copied()
}

/// The first lease that may have been another client's.
fn first_rival(lease: &CandidateLease, leases: &[CandidateLease]) -> Option<CandidateLease>
    ensures { MatchOption result
        ((n : CandidateLease) → MayBe leases.now n → n.delegation.client ≡ lease.now.delegation.client)
        (λ n. MayBe leases.now n × (n.delegation.client ≢ lease.now.delegation.client)) }
{
    leases.iter().find(|other| rivals(lease, other)).copied()
}

/// The first lease that is carried, and may have been its client's.
fn first_carried(leases: &[CandidateLease]) -> Option<CandidateLease>
    ensures { MatchOption result ((n : CandidateLease) → Has leases.now n → n.state ≡ state.Carried → ⊥)
        (λ n. Has leases.now n × (n.state ≡ state.Carried)) }
{
    leases
        .iter()
        .find(|lease| lease.state.is_carried())
        .copied()
}

/// What the leases near a moment that both journals show come to.
#[tactic(auto, using(crate::proofs::Whys::none_so, crate::proofs::Whys::several_so, crate::proofs::Whys::carried_so, crate::proofs::Whys::one_so))]
fn why_by(leases: &[CandidateLease]) -> NoHolderReason
    ensures { (c : Case) → IsOneUnit c → IsWhy c leases.now result }
{
    let Some(first) = first_possible(leases) else {
        return NoHolderReason::Nobody;
    };
    if let Some(other) = first_rival(&first, leases) {
        return NoHolderReason::Several {
            first: first.line,
            other: other.line,
        };
    }
    match first_carried(leases) {
        Some(lease) => NoHolderReason::Carried { line: lease.line },
        None => NoHolderReason::NotShown,
    }
}

/// Why nobody is named, by the leases near the moment: the first reason that holds, in the order of [`NoHolderReason`].
/// `ends` says which of both volumes are still being written.
pub fn no_holder_reason<S: LineSource>(
    source: &S,
    leases: &[CandidateLease],
    query: &HolderQuery,
    ends: VolumeEnds,
) -> NoHolderReason
    // The reason holds, with the values that were compared, and none before it in the list does.
    ensures { IsWhy (case_of (S.journals source.now) query.now ends) leases.now result }
{
    if let Some(why) = uncovered(source, query, ends) {
        return why;
    }
    match longer_units(source, query) {
        Some(pool) => NoHolderReason::SeveralCustomers {
            unit_length: pool.unit_length,
        },
        None => why_by(leases),
    }
}
