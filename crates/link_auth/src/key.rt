//! The key that the two ends of a link share.

ghost use Rattle.std.specs.Prelude.{◌≡◌, ◌≤◌, ◌*◌, length, replicate, MatchResult, Ok, Err};
ghost use Rattle.hex.specs.Hex.{decode_of};
ghost use Rattle.link_auth.specs.declared.key.KeyError.TheVariants.{NotHexadecimal};
ghost use Rattle.link_auth.specs.Hmac.{filled};
ghost use Rattle.link_auth.specs.Key.{line_of, key_of};

use crate::coder::BLOCK;
use std::marker::Model;
use thiserror::Error;

/// The fewest digits of a key.
const LEAST_DIGITS: usize = 64;

/// The most digits of a key.
const MOST_DIGITS: usize = 2 * BLOCK;

/// Why a text is no key. Where several apply it is the first of these.
#[derive(Clone, Copy, Debug, PartialEq, Eq, Error)]
pub enum KeyError {
    /// It has fewer than 64 digits.
    #[error("a key has at least 32 octets, which are 64 hexadecimal digits")]
    TooShort,
    /// It has more than 128 digits.
    #[error("a key has at most 64 octets, which are 128 hexadecimal digits")]
    TooLong,
    /// A character is no hexadecimal digit, or the last octet lacks a digit.
    #[error("a key is hexadecimal, two digits for each octet")]
    NotHexadecimal,
}

/// The key that the two ends of a link share: 32 to 64 octets. Contracts see them filled up with zeros to 64, as HMAC
/// takes a key.
#[derive(Clone, Copy)]
pub struct LinkKey {
    block: [u8; BLOCK],
}

impl Model for LinkKey {
    ghost use Rattle.std.specs.Prelude.{List, ℕ};

    ghost Value = { List ℕ };

    ghost view = { λ k. k.block };

    ghost inverse = { λ block. record { block = block } };
}

/// A text without the line feed at its end.
fn line_of(text: &[u8]) -> &[u8]
    ensures { result.now ≡ line_of text.now }
{
    match text.last() {
        Some(b'\n') => &text[..text.len() - 1],
        _ => text,
    }
}

/// Writes the octets of the digits over the front of zeros.
#[tactic(auto, using(crate::proofs::HmacLaws::filled_zeros))]
fn fill(digits: &[u8], block: &mut [u8; BLOCK]) -> Result<(), KeyError>
    requires zeros { block.old ≡ replicate BLOCK 0 }
    requires most { length digits.now ≤ 2 * BLOCK }
    ensures { MatchResult (decode_of digits.now) (λ octets. (result ≡ Ok tt) × (block.new ≡ filled octets))
        (λ _. result ≡ Err NotHexadecimal) }
{
    match hex::decode_to_slice(digits, &mut block[..digits.len() / 2]) {
        Ok(()) => Ok(()),
        Err(_) => Err(KeyError::NotHexadecimal),
    }
}

impl LinkKey {
    /// The key that a text spells: hexadecimal digits in either case, two for each octet, and perhaps a line feed.
    pub fn from_text(text: &[u8]) -> Result<LinkKey, KeyError>
        ensures { MatchResult (key_of text.now) (λ octets. result ≡ Ok (filled octets)) (λ e. result ≡ Err e) }
    {
        let digits = line_of(text);
        if digits.len() < LEAST_DIGITS {
            return Err(KeyError::TooShort);
        }
        if digits.len() > MOST_DIGITS {
            return Err(KeyError::TooLong);
        }
        let mut block = [0u8; BLOCK];
        fill(digits, &mut block)?;
        Ok(LinkKey { block })
    }

    /// The octets, as HMAC takes them: zeros fill them up to 64.
    pub(crate) fn block(&self) -> &[u8; BLOCK]
        ensures { result.now ≡ self.now }
    {
        &self.block
    }
}
