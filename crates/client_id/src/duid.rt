//! DHCP unique identifiers.

ghost use Rattle.std.specs.Prelude.{◌≡◌, ◌%◌, ◌≤◌, ◌↔◌, ℕ, List, length, replicate, option_map, Err, None, Ok};
ghost use Rattle.std.specs.Prelude.{IfOk, IfErr};
ghost use Rattle.std.specs.Prelude.{IsErrOf, string_bytes};
ghost use Rattle.std.specs.Str.{bytes_eq};
ghost use Rattle.std.specs.Cmp.Rules.{comparing};
ghost use Rattle.std.proofs.Common.{rules};
ghost use Rattle.text_fields.specs.Octets.{hex, octets_of};
ghost use Rattle.text_fields.specs.Parsing.{Finds};
ghost use Rattle.client_id.specs.Octets.{padded};
ghost use Rattle.client_id.specs.Duid.{IsDuid, IsHex, duid_in, duid_of, duid_word};

use crate::error::ClientIdError;
use std::alloc::Global;
use std::marker::Model;
use text_fields::{is_hex, octets_of};

/// A DHCP unique identifier (RFC 8415, section 11): 3 to 130 octets, the two of its type included.
/// Contracts see the list of its octets; `==` is their equality.
#[derive(Clone, Copy, Debug)]
pub struct Duid {
    bytes: [u8; 130],
    len: u8,
}

impl Model for Duid {
    ghost use Rattle.std.specs.Prelude.{List, ℕ, length, take};
    ghost use Rattle.client_id.specs.Octets.{IsPadded, padded};

    ghost Value = { List ℕ };

    ghost view = { λ d. take d.len d.bytes };

    ghost invariant = { λ d. IsPadded d.bytes d.len };

    ghost inverse = { λ octets. record { bytes = padded octets; len = length octets } };

    ghost use Rattle.client_id.specs.PaddedLaws.{padded-take, length-take_len};

    ghost inverse_ok = { λ d h i. record {
      bytes = padded-take d.bytes d.len h i;
      len = length-take_len d.bytes d.len h i;
    } };
}

impl PartialEq for Duid {
    ghost eq = { λ one other. bytes_eq one other };

    ghost laws = { Prim.search (comparing, rules) };

    fn eq(&self, other: &Duid) -> bool {
        self.as_bytes() == other.as_bytes()
    }
}

impl Eq for Duid {
    ghost laws = { Prim.search (comparing, rules) };
}

#[tactic(auto, using(crate::proofs::Filling::filled_zeros))]
fn filled(octets: &[u8]) -> [u8; 130]
    requires { length octets.now ≤ 130 }
    ensures { result ≡ padded octets.now }
{
    let mut bytes = [0u8; 130];
    bytes[..octets.len()].copy_from_slice(octets);
    bytes
}

/// Reads the digits into the front of an array of zeros; `None` where one is no digit.
#[tactic(auto, using(crate::proofs::Filling::filled_front, crate::proofs::Filling::filled_none))]
fn fill(text: &[u8], bytes: &mut [u8; 130]) -> Option<()>
    requires zeros { bytes.old ≡ replicate 130 0 }
    requires even { length text.now % 2 ≡ 0 }
    requires most { length text.now ≤ 260 }
    ensures { Finds (λ _. bytes.new) result (option_map padded (octets_of text.now)) }
{
    octets_of(text, &mut bytes[..text.len() / 2])?;
    Some(())
}

/// Why a text spells no identifier: first a fault of its digits, then one of its length.
#[tactic(auto, using(crate::proofs::TextLaws::hex_fault_is, crate::proofs::TextLaws::short_fault, crate::proofs::TextLaws::long_fault,))]
fn fault_of(text: &[u8]) -> ClientIdError
    requires { duid_word text.now ≡ None }
    ensures { Err result ≡ duid_of text.now }
{
    if !is_hex(text) {
        ClientIdError::Hex
    } else if text.len() < 6 {
        ClientIdError::TooShort
    } else {
        ClientIdError::TooLong
    }
}

#[tactic(auto, using(crate::proofs::TextLaws::word_found))]
fn read_hex(text: &[u8]) -> Result<Duid, ClientIdError>
    ensures { result ≡ duid_of text.now }
{
    match Duid::from_word(text) {
        Some(duid) => Ok(duid),
        None => Err(fault_of(text)),
    }
}

impl Duid {
    /// The identifier of these octets: `TooShort` for fewer than 3, `TooLong` for more than 130.
    #[tactic(auto, using(crate::proofs::Filling::is_padded))]
    pub fn from_bytes(octets: &[u8]) -> Result<Duid, ClientIdError>
        ensures { result ≡ duid_in octets.now }
    {
        if octets.len() < 3 {
            return Err(ClientIdError::TooShort);
        }
        if octets.len() > 130 {
            return Err(ClientIdError::TooLong);
        }
        Ok(Duid {
            bytes: filled(octets),
            len: octets.len() as u8,
        })
    }

    /// The octets: 3 to 130.
    pub fn as_bytes(&self) -> &[u8]
        ensures octets { result.now ≡ self.now }
        ensures whole { IsDuid result.now }
    {
        &self.bytes[..self.len as usize]
    }

    /// The identifier that a word spells, as `from_hex` finds it, with no fault told where it spells none.
    #[tactic(auto, using(crate::proofs::TextLaws::wrong_length))]
    pub fn from_word(word: &[u8]) -> Option<Duid>
        ensures { Finds (λ d. d) result (duid_word word.now) }
    {
        let len = word.len();
        if len < 6 || len > 260 || len % 2 != 0 {
            return None;
        }
        let mut bytes = [0u8; 130];
        match fill(word, &mut bytes) {
            Some(()) => Some(Duid {
                bytes,
                len: (len / 2) as u8,
            }),
            None => None,
        }
    }

    /// The identifier that lower-case digits spell, two for each octet: `Hex` where they spell no octets,
    /// else as `from_bytes`.
    pub fn from_hex(text: &[u8]) -> Result<Duid, ClientIdError>
        // What is read is spelled so.
        ensures found { IfOk result (λ d. (text.now ≡ hex d) × IsDuid d) }
        // What is spelled so is read.
        ensures only { (octets : List ℕ) → IsDuid octets → text.now ≡ hex octets → result ≡ Ok octets }
        // Digits come before lengths.
        ensures hex { IsErrOf result ClientIdError.Hex ↔ ¬ (IsHex text.now) }
        ensures exact { result ≡ duid_of text.now }
    {
        read_hex(text)
    }

    /// Two lower-case digits for each octet; `Memory` where a growth was refused.
    pub fn to_hex(&self, alloc: Global) -> Result<String, ClientIdError>
        ensures text { IfOk result (λ text. string_bytes text ≡ hex self.now) }
        ensures memory { IfErr result (λ e. e ≡ ClientIdError.Memory) }
    {
        match hex::encode(alloc, self.as_bytes()) {
            Ok(text) => Ok(text),
            Err(_) => Err(ClientIdError::Memory),
        }
    }
}
