//! The octets of a frame, taken from the front.

ghost use Rattle.std.specs.Prelude.{◌≡◌, ◌≤◌, length, IfSome};
ghost use Rattle.std.specs.Int.{w32, w64, w128};
ghost use Rattle.text_fields.specs.Parsing.{Moves};
ghost use Rattle.failover_message.specs.Parsing.{octet_at, number_at, limited_at, count_at, octets_at, prefix_at};

use binding_rules::Counter;
use prefix_range::Prefix;
use std::marker::Model;

/// The octets of a frame that are still to be parsed. Contracts see the list of them.
///
/// Each call takes the value that stands in front. It answers `None` where the octets are too few or spell no
/// such value, and then the frame has a fault.
#[derive(Drop)]
pub struct Octets<'a> {
    rest: &'a [u8],
}

impl<'a> Model for Octets<'a> {
    ghost use Rattle.std.specs.Prelude.{List, ℕ};

    ghost Value = { List ℕ };

    ghost view = { λ o. o.rest.now };
}

impl<'a> Octets<'a> {
    /// These octets, none of them taken yet.
    pub fn new(octets: &'a [u8]) -> Octets<'a>
        ensures { result ≡ octets.now }
    {
        Octets { rest: octets }
    }

    /// Returns how many octets are left.
    pub fn len(&self) -> usize
        ensures { result ≡ length self.now }
    {
        self.rest.len()
    }

    /// The same octets, to look ahead in.
    pub fn again(&self) -> Octets<'a>
        ensures { result ≡ self.now }
    {
        Octets { rest: self.rest }
    }

    /// The octets that are left.
    pub fn into_rest(self) -> &'a [u8]
        ensures { result.now ≡ self.entry }
    {
        self.rest
    }

    /// The next octet.
    pub fn octet(&mut self) -> Option<u8>
        ensures { Moves (λ n. n) result self.new (octet_at self.old) }
    {
        let (octet, rest) = self.rest.split_first()?;
        self.rest = rest;
        Some(*octet)
    }

    /// The next `count` octets.
    #[tactic(auto, unfolding(crate::specs::Parsing::octets_at))]
    pub fn octets(&mut self, count: usize) -> Option<&'a [u8]>
        ensures { Moves (λ o. o.now) result self.new (octets_at count self.old) }
    {
        if self.rest.len() < count {
            return None;
        }
        let (octets, rest) = self.rest.split_at(count);
        self.rest = rest;
        Some(octets)
    }

    /// A number of 4 octets.
    #[tactic(auto, unfolding(crate::specs::Parsing::number_at))]
    pub fn u32(&mut self) -> Option<u32>
        ensures { Moves (λ n. n) result self.new (number_at w32 self.old) }
    {
        let (octets, rest) = self.rest.split_first_chunk::<4>()?;
        self.rest = rest;
        Some(u32::from_be_bytes(*octets))
    }

    /// A number of 8 octets.
    #[tactic(auto, unfolding(crate::specs::Parsing::number_at))]
    pub fn u64(&mut self) -> Option<u64>
        ensures { Moves (λ n. n) result self.new (number_at w64 self.old) }
    {
        let (octets, rest) = self.rest.split_first_chunk::<8>()?;
        self.rest = rest;
        Some(u64::from_be_bytes(*octets))
    }

    /// A number of 16 octets.
    #[tactic(auto, unfolding(crate::specs::Parsing::number_at))]
    pub fn u128(&mut self) -> Option<u128>
        ensures { Moves (λ n. n) result self.new (number_at w128 self.old) }
    {
        let (octets, rest) = self.rest.split_first_chunk::<16>()?;
        self.rest = rest;
        Some(u128::from_be_bytes(*octets))
    }

    /// A number of 8 octets that is at most `limit`.
    #[tactic(auto, unfolding(crate::specs::Parsing::limited_at))]
    pub fn limited(&mut self, limit: u64) -> Option<u64>
        ensures found { Moves (λ n. n) result self.new (limited_at limit self.old) }
        ensures within { IfSome result (λ n. n ≤ limit) }
    {
        let number = self.u64()?;
        if number <= limit { Some(number) } else { None }
    }

    /// A counter of a server.
    pub fn count(&mut self) -> Option<Counter>
        ensures { Moves (λ n. n) result self.new (count_at self.old) }
    {
        Counter::new(self.limited(Counter::MAX)?)
    }

    /// A prefix: its length, then its address.
    #[tactic(auto, unfolding(crate::specs::Parsing::prefix_at))]
    pub fn prefix(&mut self) -> Option<Prefix>
        ensures { Moves (λ p. p) result self.new (prefix_at self.old) }
    {
        let bits = self.octet()?;
        let address = self.u128()?;
        Prefix::new(address, bits).ok()
    }
}
