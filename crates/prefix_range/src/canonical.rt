//! The canonical text of a prefix.

ghost use Rattle.std.specs.Prelude.{◌≡◌, ◌+◌, ◌++◌, ◌∷◌, ◌<◌, ◌≤◌, [], length, take, drop, map, Ok, IfOk, IfErr, OnOk};
ghost use Rattle.text_fields.specs.Parsing.{Finds, Answers};
ghost use Rattle.text_fields.specs.Cuts.{joined};
ghost use Rattle.prefix_range.specs.Prefix.{Prefix as PrefixValue, IsPrefix};
ghost use Rattle.prefix_range.specs.Text.{groups_of, group_of, group_text, address_of, prefix_text};
ghost use Rattle.prefix_range.specs.Text.{prefix_word};

use crate::error::PrefixError;
use crate::prefix::Prefix;
use std::alloc::{AllocError, Global};
use text_fields::{number_of, octet_of, push_number, push_octets};

/// How many groups of 16 bits an address has.
const GROUPS: usize = 8;

/// How many octets the text of an address has: four for each group, and a colon between each two.
const ADDRESS_OCTETS: usize = 39;

#[tactic(auto, using(crate::proofs::Offsets::group_is))]
fn group_of(a: u8, b: u8, c: u8, d: u8) -> Option<u16>
    ensures { Finds (λ n. n) result (group_of (a ∷ b ∷ c ∷ d ∷ [])) }
{
    let high = octet_of(a, b)?;
    let low = octet_of(c, d)?;
    Some(256 * u16::from(high) + u16::from(low))
}

fn group_at(text: &[u8], at: usize) -> Option<u16>
    requires { at + 4 ≤ length text.now }
    ensures { Finds (λ n. n) result (group_of (take 4 (drop at text.now))) }
{
    group_of(text[at], text[at + 1], text[at + 2], text[at + 3])
}

#[tactic(auto, using(crate::proofs::Offsets::begun, crate::proofs::Offsets::no_group, crate::proofs::Offsets::no_colon,))]
fn address_of(text: &[u8]) -> Option<u128>
    requires { length text.now ≡ ADDRESS_OCTETS }
    ensures { Finds (λ n. n) result (address_of text.now) }
{
    let mut address = 0u128;
    for i in 0..GROUPS - 1 {
        let group = group_at(text, 5 * i)?;
        if text[5 * i + 4] != b':' {
            return None;
        }
        address = address * 65536 + u128::from(group);
    }
    let group = group_at(text, ADDRESS_OCTETS - 4)?;
    Some(address * 65536 + u128::from(group))
}

#[tactic(auto, using(crate::proofs::Offsets::too_short, crate::proofs::Offsets::no_slash, crate::proofs::Offsets::no_address,))]
fn prefix_of(word: &[u8]) -> Option<Prefix>
    ensures { Finds (λ p. p) result (prefix_word word.now) }
{
    if word.len() <= ADDRESS_OCTETS + 1 || word[ADDRESS_OCTETS] != b'/' {
        return None;
    }
    let address = address_of(&word[..ADDRESS_OCTETS])?;
    let length = number_of(&word[ADDRESS_OCTETS + 1..])?;
    if length > 128 {
        return None;
    }
    Prefix::new(address, length as u8).ok()
}

/// The prefix that a text spells in canonical form: eight groups of four lower-case digits, a slash and the
/// length without leading zeros. `NotCanonical` for every fault.
pub fn read_canonical(text: &[u8]) -> Result<Prefix, PrefixError>
    // What is read is spelled so.
    ensures found { IfOk result (λ p. (text.now ≡ prefix_text p) × IsPrefix p) }
    // What is spelled so is read.
    ensures only { (p : PrefixValue) → IsPrefix p → text.now ≡ prefix_text p → result ≡ Ok p }
    ensures refused { IfErr result (λ e. e ≡ PrefixError.NotCanonical) }
    ensures exact { Answers (λ p. p) result (prefix_word text.now) }
{
    match prefix_of(text) {
        Some(prefix) => Ok(prefix),
        None => Err(PrefixError::NotCanonical),
    }
}

/// Appends the lowest 16 `count` bits of an address as groups, the highest first.
fn push_groups(out: &mut Vec<u8>, count: usize, address: u128) -> Result<(), AllocError>
    requires { 0 < count }
    ensures { OnOk result (out.new.items ≡ out.old.items ++ joined 58 (map group_text (groups_of count address))) }
{
    if count > 1 {
        push_groups(out, count - 1, address / 65536)?;
        out.push(b':')?;
    }
    let group = (address % 65536) as u16;
    push_octets(out, &group.to_be_bytes())
}

/// Appends the canonical text of a prefix.
pub fn push_prefix(out: &mut Vec<u8>, prefix: &Prefix) -> Result<(), AllocError>
    ensures { OnOk result (out.new.items ≡ out.old.items ++ prefix_text prefix.now) }
{
    push_groups(out, GROUPS, prefix.first())?;
    out.push(b'/')?;
    push_number(out, u64::from(prefix.len()))
}

/// The canonical text of a prefix; `Memory` where a growth was refused.
pub fn write_text(alloc: Global, prefix: Prefix) -> Result<Vec<u8>, PrefixError>
    ensures text { IfOk result (λ text. text.items ≡ prefix_text prefix) }
    ensures memory { IfErr result (λ e. e ≡ PrefixError.Memory) }
{
    let mut text = Vec::new(alloc);
    push_prefix(&mut text, &prefix).map_err(|_| PrefixError::Memory)?;
    Ok(text)
}
