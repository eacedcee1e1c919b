//! Questions to a book: `request_updates A QUESTION`.
//!
//! QUESTION is `lines` (how many its journal has), `text N` (the N-th line of its text), `status PREFIX`,
//! `counts PREFIX` (the server's changes of the unit, and the partner's), `told PREFIX` (the end that the partner is
//! told), `waiting`, `rolls`, `down`, `expirable READING`, `seizable READING`, or `mark PREFIX` (the next marked unit
//! that begins at that prefix's first address or above).

use crate::fault::Fault;
use crate::replies::{add_flag, add_found, status_name};
use crate::shelf::Shelf;
use crate::words::Words;
use binding_rules::Unit;
use lead_time::Reading;
use line_words::{add_number, add_word};
use prefix_range::Prefix;
use server_book::Book;
use std::alloc::{AllocError, Global};

/// The line of a book's text that has a number, counted from 1.
fn add_text_line(alloc: Global, out: &mut Vec<u8>, book: &Book, number: u64) -> Result<(), Fault> {
    let Ok(text) = journal_text::write(alloc, book.role(), book.head(), book.journal()) else {
        return Err(Fault::Memory);
    };
    let mut count = 0u64;
    for line in text.split(|octet| *octet == b'\n') {
        count = count.saturating_add(1);
        if count == number && !line.is_empty() {
            return Ok(add_word(out, line)?);
        }
    }
    Ok(add_word(out, b"none")?)
}

/// What is known of a unit.
#[derive(Clone, Copy)]
enum Side {
    Status,
    Counts,
    Told,
}

fn add_side(out: &mut Vec<u8>, unit: &Unit, side: Side) -> Result<(), AllocError> {
    match side {
        Side::Status => add_word(out, status_name(unit.status.status())),
        Side::Counts => {
            add_number(out, unit.mine.number())?;
            add_number(out, unit.seen.number())
        }
        Side::Told => add_number(out, unit.out_end.milliseconds()),
    }
}

/// Appends what a book knows of the unit of a prefix.
fn add_known(out: &mut Vec<u8>, book: &Book, prefix: Prefix, side: Side) -> Result<(), AllocError> {
    match &book.unit(prefix) {
        Some(unit) => add_side(out, unit, side),
        None => add_word(out, b"none"),
    }
}

/// Since when the partner is taken for down.
fn add_down(out: &mut Vec<u8>, down: Option<Reading>) -> Result<(), AllocError> {
    match down {
        Some(reading) => add_number(out, reading.milliseconds()),
        None => add_word(out, b"no"),
    }
}

/// `request_updates A QUESTION`.
pub fn add_answer(
    alloc: Global,
    shelf: &Shelf,
    words: &mut Words<'_>,
    out: &mut Vec<u8>,
) -> Result<(), Fault> {
    let book = shelf.book(words.letter()?)?;
    match words.next() {
        "lines" => add_number(out, book.journal().len() as u64)?,
        "waiting" => add_flag(out, book.waiting())?,
        "rolls" => add_flag(out, book.can_roll())?,
        "down" => add_down(out, book.down())?,
        "text" => add_text_line(alloc, out, book, words.number()?)?,
        "status" => add_known(out, book, words.prefix()?, Side::Status)?,
        "counts" => add_known(out, book, words.prefix()?, Side::Counts)?,
        "told" => add_known(out, book, words.prefix()?, Side::Told)?,
        "expirable" => add_found(out, book.first_to_expire(words.reading()?))?,
        "seizable" => add_found(out, book.first_to_seize(words.reading()?))?,
        "mark" => add_found(out, book.next_mark(words.prefix()?.first()))?,
        _ => return Err(Fault::Words),
    }
    Ok(())
}
