//! The order of a volume's head lines.

ghost use Rattle.std.specs.Prelude.{◌≡◌, ◌↔◌, IsTrue};
ghost use Rattle.book_state.specs.HeadOrder.{IsPrefixBefore, IsHolderBefore, IsCarriedBefore};
ghost use Rattle.book_state.specs.HeadOrder.{IsBeforeBase, IsPastBase, CarryFollows, UnitFollows};

use crate::place::Place;
use journal_lines::Carried;
use prefix_range::Prefix;
use std::cmp::Ordering;

/// Returns whether a prefix comes before another, by address and then by length.
fn is_prefix_before(one: &Prefix, other: &Prefix) -> bool
    ensures { IsTrue result ↔ IsPrefixBefore one.now other.now }
{
    one.first() < other.first() || (one.first() == other.first() && one.len() < other.len())
}

/// Returns whether a client's identity association comes before another's, by the client's octets and then by its
/// number.
#[tactic(auto, using(crate::proofs::Orders::same_client, crate::proofs::Orders::last_behind))]
fn is_holder_before(one: &Carried, other: &Carried) -> bool
    ensures { IsTrue result ↔ IsHolderBefore one.now other.now }
{
    match one.client.as_bytes().cmp(other.client.as_bytes()) {
        Ordering::Less => true,
        Ordering::Equal => one.iaid.0 < other.iaid.0,
        Ordering::Greater => false,
    }
}

/// Returns whether a carry line comes before another, by prefix, client and identity association.
fn is_carried_before(one: &Carried, other: &Carried) -> bool
    ensures { IsTrue result ↔ IsCarriedBefore one.now other.now }
{
    if one.prefix == other.prefix {
        is_holder_before(one, other)
    } else {
        is_prefix_before(&one.prefix, &other.prefix)
    }
}

impl Place {
    /// Returns whether no line came but the open line and pool lines.
    pub fn is_at_pools(&self) -> bool
        ensures { IsTrue result ↔ (self.now ≡ Place.AtPools) }
    {
        matches!(self, Place::AtPools)
    }

    /// Returns whether a base line may follow.
    pub fn is_before_base(&self) -> bool
        ensures { IsTrue result ↔ IsBeforeBase self.now }
    {
        matches!(self, Place::AtPools | Place::AtTransit)
    }

    /// Returns whether the base line has come, or other lines than head lines.
    pub fn is_past_base(&self) -> bool
        ensures { IsTrue result ↔ IsPastBase self.now }
    {
        !matches!(self, Place::AtPools | Place::AtTransit)
    }

    /// Returns whether a carry line may follow.
    pub fn is_followed_by_carry(&self, carried: &Carried) -> bool
        ensures { IsTrue result ↔ CarryFollows self.now carried.now }
    {
        match self {
            Place::AtBase => true,
            Place::AtCarry(last) => is_carried_before(last, carried),
            _ => false,
        }
    }

    /// Returns whether the line of a unit may follow.
    pub fn is_followed_by_unit(&self, prefix: &Prefix) -> bool
        ensures { IsTrue result ↔ UnitFollows self.now prefix.now }
    {
        match self {
            Place::AtBase | Place::AtCarry(_) => true,
            Place::AtUnit(last) => is_prefix_before(last, prefix),
            _ => false,
        }
    }
}
