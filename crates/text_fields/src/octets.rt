//! Octets in lower-case hexadecimal.

ghost use Rattle.std.specs.Prelude.{◌≡◌, ◌*◌, ◌%◌, ◌^◌, ◌<◌, ◌++◌, length, is_some, IsTrue, MatchOption, OnOk};
ghost use Rattle.std.specs.List.{list_all};
ghost use Rattle.text_fields.specs.Octets.{hex_digit, hex, hex_value, octet_of, octets_of};
ghost use Rattle.text_fields.specs.Parsing.{Finds};

use std::alloc::AllocError;

/// What each octet stands for as a digit, and 256 where it is none, so that no sum with it is below 256.
static DIGIT_VALUES: [u16; 256] = [
    256, 256, 256, 256, 256, 256, 256, 256, 256, 256, 256, 256, 256, 256, 256, 256, 256, 256, 256,
    256, 256, 256, 256, 256, 256, 256, 256, 256, 256, 256, 256, 256, 256, 256, 256, 256, 256, 256,
    256, 256, 256, 256, 256, 256, 256, 256, 256, 256, 0, 1, 2, 3, 4, 5, 6, 7, 8, 9, 256, 256, 256,
    256, 256, 256, 256, 256, 256, 256, 256, 256, 256, 256, 256, 256, 256, 256, 256, 256, 256, 256,
    256, 256, 256, 256, 256, 256, 256, 256, 256, 256, 256, 256, 256, 256, 256, 256, 256, 10, 11,
    12, 13, 14, 15, 256, 256, 256, 256, 256, 256, 256, 256, 256, 256, 256, 256, 256, 256, 256, 256,
    256, 256, 256, 256, 256, 256, 256, 256, 256, 256, 256, 256, 256, 256, 256, 256, 256, 256, 256,
    256, 256, 256, 256, 256, 256, 256, 256, 256, 256, 256, 256, 256, 256, 256, 256, 256, 256, 256,
    256, 256, 256, 256, 256, 256, 256, 256, 256, 256, 256, 256, 256, 256, 256, 256, 256, 256, 256,
    256, 256, 256, 256, 256, 256, 256, 256, 256, 256, 256, 256, 256, 256, 256, 256, 256, 256, 256,
    256, 256, 256, 256, 256, 256, 256, 256, 256, 256, 256, 256, 256, 256, 256, 256, 256, 256, 256,
    256, 256, 256, 256, 256, 256, 256, 256, 256, 256, 256, 256, 256, 256, 256, 256, 256, 256, 256,
    256, 256, 256, 256, 256, 256, 256, 256, 256, 256, 256, 256, 256, 256, 256, 256, 256, 256, 256,
    256, 256, 256, 256,
];

fn digit_value(b: u8) -> u16
    ensures { MatchOption (hex_value b) (result ≡ 256) (λ n. (result ≡ n) × (n < 16)) }
{
    DIGIT_VALUES[b as usize]
}

/// The octet of two lower-case digits; `None` where one of them is none.
#[tactic(auto, unfolding(crate::specs::Octets::octet_of))]
pub fn octet_of(a: u8, b: u8) -> Option<u8>
    ensures { Finds (λ n. n) result (octet_of a b) }
{
    let octet = 16 * digit_value(a) + digit_value(b);
    if octet < 256 { Some(octet as u8) } else { None }
}

fn are_digits(word: &[u8]) -> bool
    ensures { result ≡ list_all (λ b. is_some (hex_value b)) word.now }
{
    word.iter().all(|b| digit_value(*b) < 16)
}

/// Returns whether a word spells octets: lower-case digits, an even number of them.
#[tactic(auto, using(crate::proofs::DigitTests::spells_octets))]
pub fn is_hex(word: &[u8]) -> bool
    ensures value { result ≡ is_some (octets_of word.now) }
    ensures even { IsTrue result → length word.now % 2 ≡ 0 }
{
    word.len() % 2 == 0 && are_digits(word)
}

/// Reads two lower-case digits for each octet of `out`; `None` where a digit is none.
#[tactic(auto, using(crate::proofs::Digits::octets_step, crate::proofs::Digits::octets_kept, crate::proofs::Digits::octets_done,))]
pub fn octets_of(word: &[u8], out: &mut [u8]) -> Option<()>
    requires { length word.now ≡ 2 * length out.old }
    ensures { Finds (λ _. out.new) result (octets_of word.now) }
{
    let len = out.len();
    for i in 0..len {
        out[i] = octet_of(word[2 * i], word[2 * i + 1])?;
    }
    Some(())
}

fn hex_digit(n: u8) -> u8
    requires { n < 16 }
    ensures { result ≡ hex_digit n }
{
    if n < 10 { b'0' + n } else { b'a' + (n - 10) }
}

/// Appends two lower-case digits for each octet.
pub fn push_octets(out: &mut Vec<u8>, octets: &[u8]) -> Result<(), AllocError>
    ensures { OnOk result (out.new.items ≡ out.old.items ++ hex octets.now) }
{
    for octet in octets {
        out.extend_from_slice(&[hex_digit(octet / 16), hex_digit(octet % 16)])?;
    }
    Ok(())
}
