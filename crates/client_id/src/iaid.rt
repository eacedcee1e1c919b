//! Identity association identifiers.

ghost use Rattle.std.specs.Prelude.{◌≡◌, ◌^◌, ◌<◌, ℕ, Ok, IfOk, IfErr};
ghost use Rattle.text_fields.specs.Parsing.{Finds, Answers};
ghost use Rattle.client_id.specs.Duid.{iaid_text, iaid_word};

use crate::error::ClientIdError;
use std::marker::Model;
use text_fields::octets_of;

/// The identifier of an identity association (RFC 8415, section 12): a client's own number for one of its
/// delegations. Contracts see the number.
#[derive(Clone, Copy, Debug, PartialEq, Eq, PartialOrd, Ord)]
pub struct Iaid(pub u32);

impl Model for Iaid {
    ghost use Rattle.std.specs.Prelude.{ℕ};

    ghost Value = { ℕ };

    ghost view = { λ i. i.0 };

    ghost inverse = { λ n. record { 0 = n } };
}

#[tactic(auto, unfolding(crate::specs::Duid::iaid_word))]
fn number_of(text: &[u8]) -> Option<u32>
    ensures { Finds (λ n. n) result (iaid_word text.now) }
{
    if text.len() != 8 {
        return None;
    }
    let mut octets = [0u8; 4];
    octets_of(text, &mut octets)?;
    Some(u32::from_be_bytes(octets))
}

impl Iaid {
    /// The identifier that eight lower-case digits spell, or `Hex`.
    pub fn from_hex(text: &[u8]) -> Result<Iaid, ClientIdError>
        // What is read is spelled so.
        ensures found { IfOk result (λ i. (text.now ≡ iaid_text i) × (i < 2 ^ 32)) }
        // What is spelled so is read.
        ensures only { (iaid : ℕ) → iaid < 2 ^ 32 → text.now ≡ iaid_text iaid → result ≡ Ok iaid }
        ensures hex { IfErr result (λ e. e ≡ ClientIdError.Hex) }
        ensures exact { Answers (λ i. i) result (iaid_word text.now) }
    {
        match number_of(text) {
            Some(number) => Ok(Iaid(number)),
            None => Err(ClientIdError::Hex),
        }
    }
}
