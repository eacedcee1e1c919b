//! A prefix as a set of addresses.

ghost use Rattle.std.specs.Prelude.{◌≡◌, ◌≢◌, ◌+◌, ◌%◌, ◌^◌, ◌<◌, ◌≤◌, ◌↔◌, IfOk, IsErrOf, IsTrue};
ghost use Rattle.prefix_range.specs.Prefix.{size_of, IsPrefix, Contains, Overlaps, IsFirst, IsLast};

use crate::error::PrefixError;
use std::marker::Model;

/// The addresses that share their first `len` bits (RFC 4291, section 2.3). Contracts see a record of the
/// address, whose other bits are zero, and the length.
#[derive(Clone, Copy, Debug, PartialEq, Eq)]
pub struct Prefix {
    address: u128,
    length: u8,
}

impl Model for Prefix {
    ghost use Rattle.prefix_range.specs.Prefix.{Prefix as PrefixValue, IsPrefix};

    ghost Value = { PrefixValue };

    ghost view = { λ p. record { address = p.address; length = p.length } };

    ghost invariant = { λ p. IsPrefix (record { address = p.address; length = p.length }) };

    ghost inverse = { λ p. record { address = p.address; length = p.length } };
}

/// The bits past a length, all set.
fn host_mask(length: u8) -> u128
    requires { length ≤ 128 }
    ensures { result + 1 ≡ size_of length }
{
    if length == 0 {
        u128::MAX
    } else {
        (1u128 << (128 - length)) - 1
    }
}

fn has_host_bits(address: u128, length: u8) -> bool
    requires { length ≤ 128 }
    ensures { IsTrue result ↔ (address % size_of length ≢ 0) }
{
    if length == 0 {
        address != 0
    } else {
        address % (1u128 << (128 - length)) != 0
    }
}

impl Prefix {
    /// The prefix of the first `length` bits of `address`: `LengthOver128` for more than 128 bits, then
    /// `HostBits` where another bit is set.
    pub fn new(address: u128, length: u8) -> Result<Prefix, PrefixError>
        ensures made { IfOk result (λ p. p ≡ record { address = address; length = length }) }
        ensures too_long { IsErrOf result PrefixError.LengthOver128 ↔ (128 < length) }
        ensures host_bits { IsErrOf result PrefixError.HostBits ↔ ((length ≤ 128) × (address % size_of length ≢ 0)) }
        ensures ok { length ≤ 128 → address % size_of length ≡ 0
            → result ≡ Ok (record { address = address; length = length }) }
    {
        if length > 128 {
            return Err(PrefixError::LengthOver128);
        }
        if has_host_bits(address, length) {
            return Err(PrefixError::HostBits);
        }
        Ok(Prefix { address, length })
    }

    /// The least address.
    #[tactic(auto, using(crate::proofs::Ends::is_first))]
    pub fn first(&self) -> u128
        ensures first { IsFirst self.now result }
        ensures value { result ≡ self.now.address }
    {
        self.address
    }

    /// The greatest address.
    #[tactic(auto, using(crate::proofs::Ends::is_last))]
    pub fn last(&self) -> u128
        ensures last { IsLast self.now result }
        ensures value { result + 1 ≡ self.now.address + size_of self.now.length }
    {
        self.address + host_mask(self.length)
    }

    /// The length in bits: at most 128.
    pub fn len(&self) -> u8
        ensures value { result ≡ self.now.length }
        ensures whole { IsPrefix self.now }
    {
        self.length
    }

    /// Returns whether each address of `other` is one of this prefix.
    #[tactic(auto, using(crate::proofs::Ends::contains_by_ends))]
    pub fn contains(&self, other: &Prefix) -> bool
        ensures { IsTrue result ↔ Contains self.now other.now }
    {
        self.address <= other.address && other.last() <= self.last()
    }

    /// Returns whether some address is in both.
    #[tactic(auto, using(crate::proofs::Ends::overlaps_by_ends))]
    pub fn overlaps(&self, other: &Prefix) -> bool
        ensures { IsTrue result ↔ Overlaps self.now other.now }
    {
        self.address <= other.last() && other.address <= self.last()
    }
}
