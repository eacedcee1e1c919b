//! A pool of delegable prefixes.

ghost use Rattle.std.specs.Prelude.{◌≡◌, ◌-◌, ◌<◌, ◌≤◌, ◌↔◌, true, IsTrue};
ghost use Rattle.prefix_range.specs.Prefix.{size_of};

use prefix_range::Prefix;

/// The most units that the pools of a server have together.
pub const MOST_UNITS: usize = 65_536;

/// The most pools of a server.
pub const MOST_POOLS: usize = 16;

/// Returns how many addresses a prefix of this length has, where these aren't all addresses.
fn addresses(length: u8) -> u128
    requires some { 1 ≤ length }
    requires short { length ≤ 128 }
    ensures { result ≡ size_of length }
{
    1u128 << (128 - length)
}

/// A pool: the prefixes of `unit_length` bits in `prefix` are its units (RFC 8415, section 6.3).
#[derive(Clone, Copy, Debug, PartialEq, Eq)]
pub struct Pool {
    pub prefix: Prefix,
    pub unit_length: u8,
}

impl Pool {
    ghost use Rattle.book_state.specs.Book.{is_in, units_in};
    ghost use Rattle.book_state.specs.Places.{IsPool, IsUnitAt, index_in};

    /// The pool of this prefix with units of this length.
    pub fn new(prefix: &Prefix, unit_length: u8) -> Pool
        requires longer { prefix.now.length ≤ unit_length }
        requires short { unit_length ≤ 128 }
        ensures pool { result ≡ record { prefix = prefix.now; unit_length = unit_length } }
        ensures whole { IsPool result }
    {
        // from this call the proof learns what every prefix keeps, of which `whole` speaks
        let _length = prefix.len();
        Pool {
            prefix: *prefix,
            unit_length,
        }
    }

    /// Returns whether a prefix is one of the pool's units.
    pub(crate) fn has(&self, prefix: &Prefix) -> bool
        requires { IsPool self.now }
        ensures { result ≡ is_in self.now prefix.now }
    {
        prefix.len() == self.unit_length && self.prefix.contains(prefix)
    }

    /// The place of a unit among the pool's, from 0.
    #[tactic(auto, using(crate::proofs::Ranges::index_below))]
    pub(crate) fn index_of(&self, unit: &Prefix) -> usize
        requires pool { IsPool self.now }
        requires within { is_in self.now unit.now ≡ true }
        requires few { units_in self.now ≤ 65536 }
        ensures { result ≡ index_in self.now unit.now }
    {
        if unit.len() == 0 {
            return 0;
        }
        let size = addresses(unit.len());
        (unit.first() / size - self.prefix.first() / size) as usize
    }

    /// The unit at a place of the pool, counted from 0 in the order of addresses.
    pub fn unit(&self, index: usize) -> Prefix
        requires pool { IsPool self.now }
        requires within { index < units_in self.now }
        ensures { IsUnitAt self.now index result }
    {
        if self.unit_length == 0 {
            return self.prefix;
        }
        let address = self.prefix.first() + index as u128 * addresses(self.unit_length);
        match Prefix::new(address, self.unit_length) {
            Ok(unit) => unit,
            Err(_) => unreachable!(),
        }
    }

    /// Returns how many units the pool has.
    #[tactic(auto, using(crate::proofs::Ranges::few_bits, crate::proofs::Ranges::many_bits))]
    pub fn count(&self) -> usize
        requires longer { self.now.prefix.length ≤ self.now.unit_length }
        requires few { units_in self.now ≤ 65536 }
        ensures { result ≡ units_in self.now }
    {
        1usize << (self.unit_length - self.prefix.len())
    }

    /// Returns whether the pool has at most [`MOST_UNITS`] units.
    #[tactic(auto, using(crate::proofs::Ranges::few_bits, crate::proofs::Ranges::many_bits))]
    pub fn is_small(&self) -> bool
        requires { self.now.prefix.length ≤ self.now.unit_length }
        ensures { IsTrue result ↔ (units_in self.now ≤ 65536) }
    {
        self.unit_length - self.prefix.len() <= 16
    }
}
