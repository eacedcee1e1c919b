//! Octets of an argument: pairs of digits, repeated and joined.

ghost use Rattle.std.specs.Prelude.{◌≤◌, ◌<◌};

use line_words::Words;
use std::alloc::{AllocError, Global};
use text_fields::{Cuts, is_hex, octets_of};

/// The octets of pairs of digits.
pub fn octets_in(alloc: Global, digits: &[u8]) -> Result<Option<Vec<u8>>, AllocError> {
    if !is_hex(digits) {
        return Ok(None);
    }
    let mut octets = vec![in alloc; 0u8; digits.len() / 2]?;
    match octets_of(digits, &mut octets) {
        Some(()) => Ok(Some(octets)),
        None => Ok(None),
    }
}

/// Appends digits' octets, as often as the number behind a `*` says.
fn add_repeated(alloc: Global, piece: &[u8], all: &mut Vec<u8>) -> Result<bool, AllocError> {
    let mut parts = Cuts::new(piece, b'*');
    let Some(digits) = parts.next_cut() else {
        return Ok(false);
    };
    let times = if parts.is_done() {
        Some(1)
    } else {
        parts.next_number()
    };
    let (Some(octets), Some(times)) = (octets_in(alloc, digits)?, times) else {
        return Ok(false);
    };
    for _ in 0..times {
        all.extend_from_slice(&octets)?;
    }
    Ok(parts.is_done())
}

/// The octets that a word spells.
pub fn spelled(alloc: Global, word: &[u8]) -> Result<Option<Vec<u8>>, AllocError> {
    let mut all = Vec::new(alloc);
    if word == b"-".as_slice() {
        return Ok(Some(all));
    }
    let mut pieces = Words::between(word, b'+');
    for _ in 0..=word.len() {
        let Some(piece) = pieces.next_word() else {
            break;
        };
        if !add_repeated(alloc, piece, &mut all)? {
            return Ok(None);
        }
    }
    Ok(Some(all))
}
