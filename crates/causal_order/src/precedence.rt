//! Lines that were surely written before others.

ghost use Rattle.std.specs.Prelude.{◌≡◌, ◌↔◌, ◌≤◌, IsTrue, length};
ghost use Rattle.causal_order.specs.declared.order.Precedes.TheVariants.{Clock};
ghost use Rattle.causal_order.specs.Order.{Leads, IsSurelyBefore};
ghost use Rattle.causal_order.specs.Tests.{is_at, leads};
ghost use Rattle.causal_order.specs.Bounds.{IsEarlier};

use crate::bounds::{earliest_of, first_of_chain, is_chain, last_of_chain, latest_of};
use crate::lines::Lines;
use crate::order::Precedes;
use crate::reference::Ref;
use lead_time::Skew;

/// Returns whether a chain begins or ends with this reference.
fn is_at(end: Option<Ref>, at: Ref) -> bool
    ensures { result ≡ is_at end at }
{
    match end {
        None => false,
        Some(end) => end == at,
    }
}

/// Returns whether the references are a chain from the first line to the second.
fn leads<L: Lines>(lines: &L, chain: &[Ref], first: Ref, second: Ref) -> bool
    ensures { result ≡ leads (L.journals lines.now) chain.now first second }
{
    is_chain(lines, chain)
        && is_at(first_of_chain(chain), first)
        && is_at(last_of_chain(chain), second)
}

/// Returns whether the references are a chain from the first line to the second, of two lines or more.
fn leads_on<L: Lines>(lines: &L, chain: &[Ref], first: Ref, second: Ref) -> bool
    ensures { IsTrue result ↔ (Leads (L.journals lines.now) chain.now first second × (2 ≤ length chain.now)) }
{
    chain.len() >= 2 && leads(lines, chain, first, second)
}

fn is_earlier(latest: Option<i64>, earliest: Option<i64>) -> bool
    ensures { IsTrue result ↔ IsEarlier latest earliest }
{
    match (latest, earliest) {
        (Some(latest), Some(earliest)) => latest < earliest,
        _ => false,
    }
}

/// Returns whether the chain from the first line and the chain to the second lie further apart than both skews.
#[tactic(auto, using(crate::proofs::Clocks::other_begin))]
fn is_apart<L: Lines>(
    lines: &L,
    before: &[Ref],
    after: &[Ref],
    first: Ref,
    second: Ref,
    skew: Skew,
) -> bool
    ensures { IsTrue result ↔ IsSurelyBefore (L.journals lines.now) skew (Clock before.now after.now) first second }
{
    if !is_at(first_of_chain(before), first) {
        return false;
    }
    if !is_at(last_of_chain(after), second) {
        return false;
    }
    is_earlier(
        latest_of(lines, before, skew),
        earliest_of(lines, after, skew),
    )
}

/// Returns whether the first line was surely written before the second, as `order` has it.
pub fn precedes<L: Lines>(lines: &L, first: Ref, second: Ref, order: &Precedes, skew: Skew) -> bool
    ensures { IsTrue result ↔ IsSurelyBefore (L.journals lines.now) skew order.now first second }
{
    match order {
        Precedes::Chain(chain) => leads_on(lines, chain.as_slice(), first, second),
        Precedes::Clock(before, after) => {
            is_apart(
                lines,
                before.as_slice(),
                after.as_slice(),
                first,
                second,
                skew,
            )
        }
    }
}
