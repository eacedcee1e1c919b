//! Decimal numbers.

ghost use Rattle.std.specs.Prelude.{◌≡◌, ◌≤◌, ◌++◌, length, take, Some, IfSome, OnOk};
ghost use Rattle.std.specs.Fmt.{decimal};
ghost use Rattle.text_fields.specs.Number.{with_digit, digits_of, number_of};
ghost use Rattle.text_fields.specs.Cuts.{split, cuts_left};
ghost use Rattle.text_fields.specs.Parsing.{Finds, first_word};

use itoa::Buffer;
use std::alloc::AllocError;

#[tactic(auto, unfolding(crate::specs::Number::with_digit))]
fn with_digit(n: u64, b: u8) -> Option<u64>
    ensures { Finds (λ m. m) result (with_digit n b) }
{
    if !b.is_ascii_digit() {
        return None;
    }
    n.checked_mul(10)?.checked_add(u64::from(b - b'0'))
}

#[tactic(auto, using(crate::proofs::Digits::digits_step, crate::proofs::Digits::digits_end))]
fn digits_of(word: &[u8]) -> Option<u64>
    ensures { Finds (λ n. n) result (digits_of 0 word.now) }
{
    let mut n: u64 = 0;
    for b in word {
        n = with_digit(n, *b)?;
    }
    Some(n)
}

/// The number that a word spells: decimal digits without a sign or a leading zero, that fit 64 bits.
#[tactic(auto, unfolding(crate::specs::Number::number_of))]
pub fn number_of(word: &[u8]) -> Option<u64>
    ensures { Finds (λ n. n) result (number_of word.now) }
{
    match word {
        [] | [b'0', _, ..] => None,
        _ => digits_of(word),
    }
}

/// So many digits make no number past 64 bits.
const SURE_DIGITS: usize = 19;

/// The number that the first digits of a text make, `SURE_DIGITS` at most, and how many they are.
#[tactic(auto, using(crate::proofs::Ahead::none_read, crate::proofs::Ahead::one_more))]
fn leading_number(text: &[u8]) -> (u64, usize)
    ensures value { digits_of 0 (take result.1 text.now) ≡ Some result.0 }
    ensures within { result.1 ≤ length text.now }
{
    let most = text.len().min(SURE_DIGITS);
    let mut number: u64 = 0;
    for i in 0..most {
        if !text[i].is_ascii_digit() {
            return (number, i);
        }
        number = 10 * number + u64::from(text[i] - b'0');
    }
    (number, most)
}

/// The number that the first cut of a text spells, and what stands behind its stop: the stop needs no search of its
/// own. `None` also for a number of more than `SURE_DIGITS`.
pub(crate) fn number_ahead(text: &[u8], stop: u8) -> Option<(u64, Option<&[u8]>)>
    ensures { IfSome result (λ x. first_word number_of (split stop text.now) ≡ Some (x.0, cuts_left stop x.1)) }
{
    let (number, count) = leading_number(text);
    if count == 0 || count > 1 && text[0] == b'0' || stop.is_ascii_digit() {
        return None;
    }
    if count == text.len() {
        return Some((number, None));
    }
    if text[count] != stop {
        return None;
    }
    Some((number, Some(&text[count + 1..])))
}

/// Appends the decimal digits of `n`.
pub fn push_number(out: &mut Vec<u8>, n: u64) -> Result<(), AllocError>
    ensures { OnOk result (out.new.items ≡ out.old.items ++ decimal n) }
{
    let mut digits = Buffer::new();
    out.extend_from_slice(digits.format(n).as_bytes())
}
