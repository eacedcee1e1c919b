//! Lines in their order, each once: the primary's before the secondary's, and then by number.

ghost use Rattle.std.specs.Prelude.{◌≡◌, ◌↔◌, ◌+◌, ◌<◌, ◌^◌, IfOk, IsTrue};
ghost use Rattle.std.specs.List.Sorted.{IsNonDecreasingBy};
ghost use Rattle.causal_order.specs.WrittenOrder.{place_of};
ghost use Rattle.evidence_report.specs.Lines.{AreOnce, ComesAfterLast};

use binding_rules::Role;
use causal_order::Ref;
use std::alloc::{AllocError, Global};

/// The place of a line among all.
fn place_of(at: Ref) -> u64
    ensures place { result ≡ place_of at }
    ensures small { at.number < 2 ^ 32 }
{
    let place = 1 + u64::from(at.number);
    match at.side {
        Role::Primary => place,
        Role::Secondary => place + (1 << 32),
    }
}

/// Returns whether the line comes behind the last of these.
fn is_behind(once: &[Ref], at: Ref) -> bool
    ensures behind { IsTrue result ↔ ComesAfterLast once.now at }
    ensures small { at.number < 2 ^ 32 }
{
    let place = place_of(at);
    match once.last() {
        Some(last) => place_of(*last) < place,
        None => true,
    }
}

/// Of lines in order, each once.
fn each_once(alloc: Global, refs: &[Ref]) -> Result<Vec<Ref>, AllocError>
    requires { IsNonDecreasingBy place_of refs.now }
    ensures { IfOk result (λ once. AreOnce refs.now once.items) }
{
    let mut once = Vec::new(alloc);
    for at in refs {
        if is_behind(&once, *at) {
            once.push(*at)?;
        }
    }
    Ok(once)
}

/// The lines in order, each once: the primary's before the secondary's, and then by number. `AllocError` where a
/// growth was refused.
pub fn in_order(alloc: Global, refs: Vec<Ref>) -> Result<Vec<Ref>, AllocError>
    ensures { IfOk result (λ once. AreOnce refs.items once.items) }
{
    let mut sorted = refs;
    sorted.sort_by_key(
        |at|
            ensures { result ≡ place_of at.now }
        { place_of(*at) },
    )?;
    let once = each_once(alloc, &sorted)?;
    Ok(once)
}
