//! Books that begin: `open A READING`, `head HEADLINE`, `line LINE`, `replay A COUNT`, `copy B A`, `next B A READING`.

use crate::fault::Fault;
use crate::replies::{add_opening_refusal, add_refusal};
use crate::shelf::Shelf;
use crate::words::Words;
use line_words::add_word;
use server_book::{Book, BookError, OpenError, read_settings};
use std::alloc::Global;

fn opened(alloc: Global, settings: &str, words: &mut Words<'_>) -> Result<Book, OpenError> {
    let Ok(now) = words.reading() else {
        return Err(OpenError::Settings);
    };
    let settings = read_settings(alloc, settings.as_bytes())?;
    Book::open(alloc, now, &settings)
}

/// `open A READING`: A is the book that a server of the last settings begins.
pub fn add_opened(
    alloc: Global,
    shelf: &mut Shelf,
    settings: &str,
    words: &mut Words<'_>,
    out: &mut Vec<u8>,
) -> Result<(), Fault> {
    let letter = words.letter()?;
    match opened(alloc, settings, words) {
        Ok(book) => {
            shelf.put(alloc, letter, book)?;
            Ok(add_word(out, b"done")?)
        }
        Err(error) => Ok(add_opening_refusal(out, &error)?),
    }
}

/// `head HEADLINE`: a journal's text begins with this line.
pub fn add_head(journal: &mut String, words: &Words<'_>, out: &mut Vec<u8>) -> Result<(), Fault> {
    journal.clear();
    add_line(journal, words, out)
}

/// `line LINE`: the text goes on with this line.
pub fn add_line(journal: &mut String, words: &Words<'_>, out: &mut Vec<u8>) -> Result<(), Fault> {
    journal.push_str(words.rest())?;
    journal.push('\n')?;
    Ok(add_word(out, b"noted")?)
}

/// The book of the first lines of a text, which has that many.
fn replayed(alloc: Global, text: &str, count: u64) -> Result<Result<Book, BookError>, Fault> {
    let Ok(journal) = journal_text::read(alloc, text.as_bytes()) else {
        return Err(Fault::Words);
    };
    let mut lines = Vec::new(alloc);
    for line in journal.lines.as_slice() {
        if u64::from(line.number) <= count {
            lines.extend_from_slice(&[*line])?;
        }
    }
    Ok(Book::replay(alloc, journal.role, journal.head, &lines))
}

/// Puts a book that was made in its place, or says why there is none.
fn add_made(
    alloc: Global,
    shelf: &mut Shelf,
    letter: u8,
    made: Result<Book, BookError>,
    out: &mut Vec<u8>,
) -> Result<(), Fault> {
    match made {
        Ok(book) => {
            shelf.put(alloc, letter, book)?;
            Ok(add_word(out, b"done")?)
        }
        Err(error) => Ok(add_refusal(alloc, out, &error)?),
    }
}

/// `replay A COUNT`: A is the book that the first lines of the text lead to.
pub fn add_replayed(
    alloc: Global,
    shelf: &mut Shelf,
    journal: &str,
    words: &mut Words<'_>,
    out: &mut Vec<u8>,
) -> Result<(), Fault> {
    let letter = words.letter()?;
    let count = words.number()?;
    let made = replayed(alloc, journal, count)?;
    add_made(alloc, shelf, letter, made, out)
}

/// `copy B A`: B is a copy of A.
pub fn add_copied(
    alloc: Global,
    shelf: &mut Shelf,
    words: &mut Words<'_>,
    out: &mut Vec<u8>,
) -> Result<(), Fault> {
    let letter = words.letter()?;
    let made = shelf.book(words.letter()?)?.copy();
    add_made(alloc, shelf, letter, made, out)
}

/// `next B A READING`: B is the volume behind A.
pub fn add_next(
    alloc: Global,
    shelf: &mut Shelf,
    words: &mut Words<'_>,
    out: &mut Vec<u8>,
) -> Result<(), Fault> {
    let letter = words.letter()?;
    let book = shelf.book(words.letter()?)?;
    let now = words.reading()?;
    if !book.can_roll() {
        return Ok(add_word(out, b"doesn't roll")?);
    }
    let made = book.next_volume(now);
    add_made(alloc, shelf, letter, made, out)
}
