//! Many orders in one line: `visits A READING FROM TO`, `same A`.
//!
//! A visit of a client is a Request, a Renew and a Release, and two more Renews, which are refused. The clients are
//! those of the numbers from FROM up to TO, and each gets the unit of its number of the pool 2001:db8::/48.

use crate::fault::Fault;
use crate::replies::add_flag;
use crate::shelf::Shelf;
use crate::words::Words;
use client_id::{Duid, Iaid};
use lead_time::Reading;
use line_words::add_number;
use prefix_range::{Prefix, read_text, unit};
use server_book::{Book, BookError, LeaseRequest, Order, Reply};
use std::alloc::{AllocError, Global};

/// The unit of a number.
fn unit_of(number: u8) -> Result<Prefix, Fault> {
    let Ok(pool) = read_text(b"2001:db8::/48") else {
        return Err(Fault::Words);
    };
    unit(&pool, 56, u128::from(number)).ok_or(Fault::Words)
}

/// The client of a number.
fn client_of(number: u8) -> Result<Duid, Fault> {
    Duid::from_bytes(&[0, 3, 0, 1, 2, 0, 0, 0, 0, number]).map_err(|_| Fault::Words)
}

fn asked(client: Duid, hint: Option<Prefix>) -> LeaseRequest {
    LeaseRequest {
        client,
        iaid: Iaid(1),
        hint,
    }
}

/// Returns whether a unit is given for an hour.
fn is_given(given: &Result<Reply, BookError>, unit: &Prefix) -> bool {
    match given {
        Ok(Reply::Granted { prefix, valid }) => *prefix == *unit && *valid == 3600,
        _ => false,
    }
}

fn is_unbound(given: &Result<Reply, BookError>) -> bool {
    matches!(given, Err(BookError::NoBinding))
}

/// Returns how many of a visit's orders get what they are to get.
fn visit(book: &mut Book, now: Reading, number: u8) -> Result<u64, Fault> {
    let client = client_of(number)?;
    let unit = unit_of(number)?;
    let request = Order::Request(asked(client, None));
    let renew = Order::Renew(asked(client, None));
    let release = Order::Release(asked(client, Some(unit)));
    let right = [
        is_given(&book.apply(now, &request), &unit),
        is_given(&book.apply(now, &renew), &unit),
        matches!(&book.apply(now, &release), Ok(Reply::Released)),
        is_unbound(&book.apply(now, &renew)),
        is_unbound(&book.apply(now, &renew)),
    ];
    let mut count = 0u64;
    for is_right in right {
        count = count.saturating_add(u64::from(is_right));
    }
    Ok(count)
}

/// `visits A READING FROM TO`: how many of the orders get what they are to get.
pub fn add_visits(
    shelf: &mut Shelf,
    words: &mut Words<'_>,
    out: &mut Vec<u8>,
) -> Result<(), Fault> {
    let book = shelf.book_mut(words.letter()?)?;
    let now = words.reading()?;
    let from = words.octet()?;
    let to = words.octet()?;
    let mut count = 0u64;
    for number in from..to {
        count = count.saturating_add(visit(book, now, number)?);
    }
    Ok(add_number(out, count)?)
}

/// Returns whether two books know the same of a unit, and find the same from it on.
fn is_same(book: &Book, again: &Book, prefix: Prefix) -> bool {
    let from = prefix.first();
    book.unit(prefix) == again.unit(prefix) && book.next_change(from) == again.next_change(from)
}

/// Returns how many units of the pool are the same to two books.
fn same_units(book: &Book, again: &Book) -> Result<u64, Fault> {
    let mut count = 0u64;
    for number in 0..=u8::MAX {
        count = count.saturating_add(u64::from(is_same(book, again, unit_of(number)?)));
    }
    Ok(count)
}

/// `same A`: how many units of the pool the book and the replay of its lines know alike, and whether they find the
/// same first expiry.
pub fn add_same(
    alloc: Global,
    shelf: &Shelf,
    words: &mut Words<'_>,
    out: &mut Vec<u8>,
) -> Result<(), Fault> {
    let book = shelf.book(words.letter()?)?;
    let again = match Book::replay(alloc, book.role(), book.head(), book.journal()) {
        Ok(again) => again,
        Err(_) => return Err(Fault::Memory),
    };
    add_number(out, same_units(book, &again)?)?;
    Ok(add_flag(out, book.first_expiry() == again.first_expiry())?)
}
