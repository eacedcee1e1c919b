//! Numerals of a few digits.

ghost use Rattle.std.specs.Prelude.{◌≡◌, ◌≤◌};
ghost use Rattle.text_fields.specs.Parsing.{Finds};
ghost use Rattle.prefix_range.specs.Spelling.{digit_value, with_digit, digits_on};
ghost use Rattle.prefix_range.specs.Parsing.{numeral_in};

fn digit_value(byte: u8) -> Option<u16>
    ensures { Finds (λ d. d) result (digit_value byte) }
{
    match byte {
        b'0'..=b'9' => Some(u16::from(byte - b'0')),
        b'a'..=b'f' => Some(u16::from(byte - b'a' + 10)),
        b'A'..=b'F' => Some(u16::from(byte - b'A' + 10)),
        _ => None,
    }
}

#[tactic(auto, unfolding(crate::specs::Spelling::with_digit))]
fn with_digit(base: u16, number: u16, byte: u8) -> Option<u16>
    ensures { Finds (λ n. n) result (with_digit base number byte) }
{
    let digit = digit_value(byte)?;
    if digit >= base {
        return None;
    }
    base.checked_mul(number)?.checked_add(digit)
}

#[tactic(auto, using(crate::proofs::Numerals::digits_step, crate::proofs::Numerals::digits_end))]
fn digits_on(base: u16, word: &[u8]) -> Option<u16>
    ensures { Finds (λ n. n) result (digits_on base 0 word.now) }
{
    let mut number = 0u16;
    for byte in word {
        number = with_digit(base, number, *byte)?;
    }
    Some(number)
}

/// The number of a word of one to `most` digits of a base, of either case.
#[tactic(auto, unfolding(crate::specs::Parsing::numeral_in))]
pub(crate) fn numeral_in(base: u16, most: usize, word: &[u8]) -> Option<u16>
    ensures { Finds (λ n. n) result (numeral_in base most word.now) }
{
    if word.is_empty() || word.len() > most {
        return None;
    }
    digits_on(base, word)
}
