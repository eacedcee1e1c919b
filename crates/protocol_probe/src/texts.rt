//! Cuts, numbers, octets and words.

use line_words::{SPACE, Words, add_number, add_word};
use probe_lines::{Arguments, octets_in};
use std::alloc::{AllocError, Global};
use text_fields::{Cuts, number_of, push_octets};

/// Yes or no.
pub fn add_answer(out: &mut Vec<u8>, answer: bool) -> Result<(), AllocError> {
    add_word(out, if answer { b"yes" } else { b"no" })
}

/// The number, or `none`.
fn add_found(out: &mut Vec<u8>, found: Option<u64>) -> Result<(), AllocError> {
    match found {
        Some(number) => add_number(out, number),
        None => add_word(out, b"none"),
    }
}

/// `cuts TEXT`: what stands between its spaces, each cut in brackets, up to the last; then what the next one is.
pub fn cuts(arguments: &mut Arguments<'_>, out: &mut Vec<u8>) -> Result<(), AllocError> {
    let text = arguments.text();
    let mut cuts = Cuts::new(text, SPACE);
    for _ in 0..=text.len() {
        if cuts.is_done() {
            break;
        }
        add_word(out, b"[")?;
        out.extend_from_slice(cuts.next_cut().unwrap_or(b"none"))?;
        out.push(b']')?;
    }
    add_word(out, cuts.next_cut().unwrap_or(b"none"))
}

/// `number TEXT`.
pub fn number(arguments: &mut Arguments<'_>, out: &mut Vec<u8>) -> Result<(), AllocError> {
    add_found(out, number_of(arguments.text()))
}

/// `octets DIGITS`: how many, and each.
pub fn octets(
    alloc: Global,
    arguments: &mut Arguments<'_>,
    out: &mut Vec<u8>,
) -> Result<(), AllocError> {
    let Some(octets) = octets_in(alloc, arguments.text())? else {
        return add_word(out, b"none");
    };
    add_number(out, octets.len() as u64)?;
    out.push(b':')?;
    for octet in &octets {
        add_number(out, u64::from(*octet))?;
    }
    Ok(())
}

/// `digits OCTET OCTET ..`: the digits of octets.
pub fn digits(
    alloc: Global,
    arguments: &mut Arguments<'_>,
    out: &mut Vec<u8>,
) -> Result<(), AllocError> {
    let mut octets = Vec::new(alloc);
    for _ in 0..u16::MAX {
        if arguments.is_done() {
            break;
        }
        octets.push(arguments.number_of_8_bits())?;
    }
    out.push(SPACE)?;
    push_octets(out, &octets)
}

/// `words NAME DUID IAID PREFIX NUMBER READING NUMBER`: the name, the lengths of the DUID and of the prefix beside the
/// IAID, numbers up to 3599 and 9, and whether any is left before the last and behind it.
pub fn words(arguments: &mut Arguments<'_>, out: &mut Vec<u8>) -> Result<(), AllocError> {
    let mut words = Words::new(arguments.text());
    add_word(out, words.next_word().unwrap_or(b"none"))?;
    add_found(out, words.duid().map(|duid| duid.as_bytes().len() as u64))?;
    add_found(out, words.iaid().map(|iaid| u64::from(iaid.0)))?;
    add_found(out, words.prefix().map(|prefix| u64::from(prefix.len())))?;
    add_found(out, words.number(3599))?;
    add_found(out, words.reading().map(|reading| reading.milliseconds()))?;
    add_answer(out, !words.is_done())?;
    add_found(out, words.number(9))?;
    add_answer(out, !words.is_done())
}
