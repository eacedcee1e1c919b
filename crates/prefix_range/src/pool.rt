//! The units of a pool.

ghost use Rattle.std.specs.Prelude.{◌≡◌, ◌*◌, ◌^◌, ◌<◌, ◌≤◌, IfSome, IfNone, SomeIff};
ghost use Rattle.prefix_range.specs.Prefix.{Prefix as PrefixValue, IsPrefix, size_of};
ghost use Rattle.prefix_range.specs.Unit.{IsUnit};

use crate::prefix::Prefix;

/// Returns how many addresses lie before a place among prefixes of one length, if they are fewer than 2^128.
fn addresses_before(length: u8, index: u128) -> Option<u128>
    requires { length ≤ 128 }
    ensures { SomeIff result (index * size_of length < 2 ^ 128) (index * size_of length) }
{
    if length == 0 {
        return if index == 0 { Some(0) } else { None };
    }
    index.checked_mul(1u128 << (128 - length))
}

/// The prefix of `length` bits at this place in the pool, counted from 0 in the order of addresses; `None`
/// where the pool has none there.
pub fn unit(pool: &Prefix, length: u8, index: u128) -> Option<Prefix>
    ensures found { IfSome result (λ u. IsUnit pool.now length index u) }
    ensures none { IfNone result ((u : PrefixValue) → IsPrefix u → IsUnit pool.now length index u → ⊥) }
{
    if length < pool.len() || length > 128 {
        return None;
    }
    let last = pool.last();
    let before = addresses_before(length, index)?;
    let address = pool.first().checked_add(before)?;
    if address > last {
        return None;
    }
    Prefix::new(address, length).ok()
}
