//! The pools of two journals.

ghost use Rattle.std.specs.Prelude.{◌≡◌, ℕ, ◌≤◌, MatchOption};
ghost use Rattle.prefix_range.specs.Prefix.{Prefix as PrefixValue};
ghost use Rattle.journal_lines.specs.declared.event.Event.TheVariants as line;
ghost use Rattle.candidate_leases.specs.Conditions.{IsMet, IsUnmetOn, IsUnmet};
ghost use Rattle.candidate_leases.specs.declared.pools.PoolLine.{PoolLine as PoolValue};

use binding_rules::Role;
use causal_order::{Lines, Ref};
use journal_lines::Event;
use prefix_range::Prefix;

/// A pool whose units a server delegates: each is a prefix of so many bits.
#[derive(Clone, Copy, Debug, PartialEq, Eq)]
pub struct PoolLine {
    pub prefix: Prefix,
    pub unit_length: u8,
}

/// The last line of a journal that may be a pool line.
const LAST_OF_POOLS: u32 = 17;

/// The pool that the event says, if it does.
fn pool_of(event: &Event) -> Option<PoolLine>
    ensures { MatchOption result ((prefix : PrefixValue) (length : ℕ) → event.now ≡ line.Pool prefix length → ⊥)
        (λ pool. event.now ≡ line.Pool pool.prefix pool.unit_length) }
{
    match event {
        Event::Pool {
            prefix,
            unit_length,
        } => Some(PoolLine {
            prefix: *prefix,
            unit_length: *unit_length,
        }),
        _ => None,
    }
}

/// The pool that the line says, if it has an address of the prefix, and units of so many bits or more.
#[tactic(auto, using(crate::proofs::PoolLines::no_line, crate::proofs::PoolLines::no_pool, crate::proofs::PoolLines::not_met, crate::proofs::PoolLines::is_met))]
fn met_at<L: Lines>(lines: &L, at: Ref, prefix: &Prefix, least: u8) -> Option<PoolLine>
    requires { at.number ≤ 17 }
    ensures { MatchOption result ((pool : PoolValue) → (h : IsMet (L.journals lines.now) prefix.now least pool)
        → h.line ≡ at → ⊥)
        (IsMet (L.journals lines.now) prefix.now least) }
{
    let line = lines.line(at)?;
    let pool = pool_of(&line.event)?;
    if pool.prefix.overlaps(prefix) && least <= pool.unit_length {
        return Some(pool);
    }
    None
}

/// The first pool of the side's journal that has an address of the prefix, and units of so many bits or more.
#[tactic(auto, using(crate::proofs::PoolLines::none_first, crate::proofs::PoolLines::none_next, crate::proofs::PoolLines::none_at_all))]
fn met_on<L: Lines>(lines: &L, side: Role, prefix: &Prefix, least: u8) -> Option<PoolLine>
    ensures { MatchOption result (IsUnmetOn (L.journals lines.now) prefix.now least side)
        (IsMet (L.journals lines.now) prefix.now least) }
{
    let mut number = 1;
    while number <= LAST_OF_POOLS {
        if let Some(pool) = met_at(lines, Ref { side, number }, prefix, least) {
            return Some(pool);
        }
        number += 1;
    }
    None
}

/// The first pool that has an address of the prefix, and units of so many bits or more.
#[tactic(auto, using(crate::proofs::PoolLines::none_on_both))]
pub fn met_pool<L: Lines>(lines: &L, prefix: &Prefix, least: u8) -> Option<PoolLine>
    ensures { MatchOption result (IsUnmet (L.journals lines.now) prefix.now least)
        (IsMet (L.journals lines.now) prefix.now least) }
{
    if let Some(pool) = met_on(lines, Role::Primary, prefix, least) {
        return Some(pool);
    }
    let pool = met_on(lines, Role::Secondary, prefix, least)?;
    Some(pool)
}
