//! The order in which refusals name lines.

ghost use Rattle.std.specs.Prelude.{◌↔◌, IsTrue};
ghost use Rattle.causal_order.specs.LineOrder.{ComesBefore};
ghost use Rattle.auditor.specs.Refusals.{ComesFirst};

use binding_rules::Role;
use causal_order::Ref;

/// Returns whether the one line comes before the other: the primary's before the secondary's, and then by number.
fn is_before(one: Ref, other: Ref) -> bool
    ensures { IsTrue result ↔ ComesBefore one other }
{
    match (one.side, other.side) {
        (Role::Primary, Role::Secondary) => true,
        (Role::Secondary, Role::Primary) => false,
        _ => one.number < other.number,
    }
}

/// Returns whether the line comes before the least so far.
pub fn comes_first(at: Ref, least: Option<Ref>) -> bool
    ensures { IsTrue result ↔ ComesFirst at least }
{
    match least {
        Some(least) => is_before(at, least),
        None => true,
    }
}
