//! The texts of a prefix.

ghost use Rattle.std.specs.Prelude.{◌≡◌, ◌≢◌, ◌%◌, ◌<◌, ◌≤◌, ◌↔◌, ℕ, IfOk, IsErrOf, Ok};
ghost use Rattle.text_fields.specs.Parsing.{Finds};
ghost use Rattle.prefix_range.specs.Prefix.{Prefix as PrefixValue, IsPrefix, size_of};
ghost use Rattle.prefix_range.specs.Spelling.{Spells};
ghost use Rattle.prefix_range.specs.Parsing.{spelled, prefix_in, prefix_spelled};

use crate::address::text_address;
use crate::error::PrefixError;
use crate::numeral::numeral_in;
use crate::prefix::Prefix;
use text_fields::Cuts;

/// The address and the length that a text spells.
#[tactic(auto, unfolding(crate::specs::Parsing::spelled))]
fn spelled(text: &[u8]) -> Option<(u128, u16)>
    ensures { Finds (λ s. s) result (spelled text.now) }
{
    let mut parts = Cuts::new(text, b'/');
    let address = text_address(parts.next_cut()?)?;
    let length = numeral_in(10, 3, parts.next_cut()?)?;
    if !parts.is_done() {
        return None;
    }
    Some((address, length))
}

/// The prefix of an address and a length.
fn prefix_in(address: u128, length: u16) -> Result<Prefix, PrefixError>
    ensures value { result ≡ prefix_in address length }
    ensures whole { IfOk result (λ p. IsPrefix p) }
{
    if length > 128 {
        return Err(PrefixError::LengthOver128);
    }
    Prefix::new(address, length as u8)
}

fn prefix_spelled(found: Option<(u128, u16)>) -> Result<Prefix, PrefixError>
    ensures value { result ≡ prefix_spelled found }
    ensures whole { IfOk result (λ p. IsPrefix p) }
{
    match found {
        Some((address, length)) => prefix_in(address, length),
        None => Err(PrefixError::Text),
    }
}

/// The prefix that a text spells: an address in form 1 or 2 of RFC 4291, section 2.2, digits of either case, a slash
/// and one to three decimal digits. `Text` where it spells none, then `LengthOver128`, then `HostBits`.
pub fn read_text(text: &[u8]) -> Result<Prefix, PrefixError>
    // What is read is spelled so.
    ensures found { IfOk result (λ p. Spells text.now p.address p.length × IsPrefix p) }
    // What is spelled so is read.
    ensures only { (p : PrefixValue) → IsPrefix p → Spells text.now p.address p.length → result ≡ Ok p }
    // No address and length are spelled so.
    ensures no_text { IsErrOf result PrefixError.Text ↔ ((address length : ℕ) → Spells text.now address length → ⊥) }
    ensures too_long { IsErrOf result PrefixError.LengthOver128
        ↔ ((address : ℕ) × (length : ℕ) × Spells text.now address length × (128 < length)) }
    ensures host_bits { IsErrOf result PrefixError.HostBits
        ↔ ((address : ℕ) × (length : ℕ) × Spells text.now address length × (length ≤ 128)
        × (address % size_of length ≢ 0)) }
    ensures exact { result ≡ prefix_spelled (spelled text.now) }
{
    prefix_spelled(spelled(text))
}
