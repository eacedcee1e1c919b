//! Orders to a book: `order A READING ORDER`, `offer A READING DUID IAID HINT`, `tell B A READING ORDER`, `again A
//! READING FLOOR SKEW TRANSIT ORDER`.
//!
//! ORDER is `request DUID IAID HINT`, `renew ..`, `release ..`, where HINT is a prefix or `-`; `expire PREFIX`, `backup
//! ..`, `reclaim ..`, `seize ..`, `send-update ..`, `send-reply ..`; `contact`, `take TERM SERIAL BODY`, `down`,
//! `restart` or `close`.

use crate::fault::Fault;
use crate::replies::{add_granted, add_refusal, add_reply};
use crate::shelf::Shelf;
use crate::words::Words;
use binding_rules::{PartnerMessage, ServerState};
use client_service::{ReusableLease, ReuseTerms, find_reusable_lease};
use journal_lines::Event;
use lead_time::{Reading, Skew, Transit};
use line_words::{add_number, add_word};
use prefix_range::{Prefix, read_canonical};
use server_book::{Book, BookError, LeaseRequest, Order, Reply};
use std::alloc::Global;

/// The prefix that a word names.
fn named(word: &str) -> Result<Prefix, Fault> {
    read_canonical(word.as_bytes()).map_err(|_| Fault::Words)
}

/// Returns what a client asks about.
pub fn asked_in(words: &mut Words<'_>) -> Result<LeaseRequest, Fault> {
    let client = words.client()?;
    let iaid = words.iaid()?;
    let hint = match words.next() {
        "-" => None,
        word => Some(named(word)?),
    };
    Ok(LeaseRequest { client, iaid, hint })
}

/// A client's order.
fn request_in(call: &str, words: &mut Words<'_>) -> Result<Order, Fault> {
    let asked = match asked_in(words) {
        Ok(asked) => asked,
        Err(fault) => return Err(fault),
    };
    match call {
        "request" => Ok(Order::Request(asked)),
        "renew" => Ok(Order::Renew(asked)),
        _ => Ok(Order::Release(asked)),
    }
}

/// An order of a unit.
fn change_in(call: &str, words: &mut Words<'_>) -> Result<Order, Fault> {
    let prefix = words.prefix()?;
    match call {
        "expire" => Ok(Order::Expire(prefix)),
        "backup" => Ok(Order::Backup(prefix)),
        "reclaim" => Ok(Order::Reclaim(prefix)),
        "seize" => Ok(Order::Seize(prefix)),
        "send-update" => Ok(Order::SendUpdate(prefix)),
        "send-reply" => Ok(Order::SendReply(prefix)),
        _ => Err(Fault::Words),
    }
}

/// The partner's message of these words: they are read as a journal's only line.
fn message_in(alloc: Global, words: &str) -> Result<PartnerMessage, Fault> {
    let text = format!(in alloc; "pd-journal 1 A\n1 0 take {words}\n2 0 close\nend 2\n")?;
    let Ok(journal) = journal_text::read(alloc, text.as_bytes()) else {
        return Err(Fault::Words);
    };
    let Some(line) = journal.lines.as_slice().first() else {
        return Err(Fault::Words);
    };
    match &line.event {
        Event::Take(message) => Ok(*message),
        _ => Err(Fault::Words),
    }
}

/// An order of the partner's message.
fn take_in(alloc: Global, words: &mut Words<'_>) -> Result<Order, Fault> {
    match message_in(alloc, words.rest()) {
        Ok(message) => Ok(Order::Take(message)),
        Err(fault) => Err(fault),
    }
}

fn order_in(alloc: Global, words: &mut Words<'_>) -> Result<Order, Fault> {
    match words.next() {
        "contact" => Ok(Order::SendContact),
        "down" => Ok(Order::State(ServerState::Down)),
        "restart" => Ok(Order::Restart),
        "close" => Ok(Order::Close),
        "take" => take_in(alloc, words),
        call @ ("request" | "renew" | "release") => request_in(call, words),
        call => change_in(call, words),
    }
}

/// Appends what a book makes of an order.
fn add_applied(
    alloc: Global,
    out: &mut Vec<u8>,
    book: &mut Book,
    now: Reading,
    order: &Order,
) -> Result<(), Fault> {
    match &book.apply(now, order) {
        Ok(reply) => Ok(add_reply(out, now, reply)?),
        Err(error) => Ok(add_refusal(alloc, out, error)?),
    }
}

/// `order A READING ORDER`.
pub fn add_ordered(
    alloc: Global,
    shelf: &mut Shelf,
    words: &mut Words<'_>,
    out: &mut Vec<u8>,
) -> Result<(), Fault> {
    let book = shelf.book_mut(words.letter()?)?;
    let now = words.reading()?;
    match &order_in(alloc, words) {
        Ok(order) => add_applied(alloc, out, book, now, order),
        Err(fault) => Err(*fault),
    }
}

/// `offer A READING DUID IAID HINT`: what a Request would be given.
pub fn add_offered(
    alloc: Global,
    shelf: &Shelf,
    words: &mut Words<'_>,
    out: &mut Vec<u8>,
) -> Result<(), Fault> {
    let book = shelf.book(words.letter()?)?;
    let now = words.reading()?;
    let asked = match asked_in(words) {
        Ok(asked) => asked,
        Err(fault) => return Err(fault),
    };
    match book.offer(now, &Order::Request(asked)) {
        Ok((prefix, valid)) => Ok(add_granted(out, &prefix, valid)?),
        Err(error) => Ok(add_refusal(alloc, out, &error)?),
    }
}

/// The message that a book sends by an order.
fn sent(book: &mut Book, now: Reading, order: &Order) -> Result<Order, BookError> {
    match &book.apply(now, order) {
        Ok(Reply::Sent { serial, body }) => Ok(Order::Take(PartnerMessage {
            term: 0,
            serial: *serial,
            body: *body,
        })),
        Ok(_) => Err(BookError::NotServing),
        Err(error) => Err(*error),
    }
}

/// `tell B A READING ORDER`: what B makes of what A sends by the order.
pub fn add_told(
    alloc: Global,
    shelf: &mut Shelf,
    words: &mut Words<'_>,
    out: &mut Vec<u8>,
) -> Result<(), Fault> {
    let to = words.letter()?;
    let from = words.letter()?;
    let now = words.reading()?;
    let order = match order_in(alloc, words) {
        Ok(order) => order,
        Err(fault) => return Err(fault),
    };
    match &sent(shelf.book_mut(from)?, now, &order) {
        Ok(message) => add_applied(alloc, out, shelf.book_mut(to)?, now, message),
        Err(error) => Ok(add_refusal(alloc, out, error)?),
    }
}

/// By what a grant is told again: its floor in seconds, the skew and the transit in milliseconds.
fn terms_in(words: &mut Words<'_>) -> Result<ReuseTerms, Fault> {
    let floor = words.seconds()?;
    let skew = Skew::new(words.number()?).map_err(|_| Fault::Words)?;
    let transit = Transit::new(words.number()?).map_err(|_| Fault::Words)?;
    Ok(ReuseTerms {
        floor,
        skew,
        transit,
    })
}

/// Appends what a client has by a line.
fn add_reusable(out: &mut Vec<u8>, found: &Option<ReusableLease>) -> Result<(), Fault> {
    let Some(lease) = found else {
        return Ok(add_word(out, b"none")?);
    };
    add_granted(out, &lease.prefix, lease.valid)?;
    add_word(out, b"by")?;
    Ok(add_number(out, u64::from(lease.number))?)
}

/// Appends what an order's client is told again.
fn add_recalled(
    alloc: Global,
    out: &mut Vec<u8>,
    book: &Book,
    terms: &ReuseTerms,
    now: Reading,
    order: &Order,
) -> Result<(), Fault> {
    match &find_reusable_lease(book, terms, now, order) {
        Ok(found) => add_reusable(out, found),
        Err(error) => Ok(add_refusal(alloc, out, error)?),
    }
}

/// `again A READING FLOOR SKEW TRANSIT ORDER`: what the order's client has that it is told again, and by which line.
pub fn add_again(
    alloc: Global,
    shelf: &Shelf,
    words: &mut Words<'_>,
    out: &mut Vec<u8>,
) -> Result<(), Fault> {
    let book = shelf.book(words.letter()?)?;
    let now = words.reading()?;
    let terms = terms_in(words)?;
    match &order_in(alloc, words) {
        Ok(order) => add_recalled(alloc, out, book, &terms, now, order),
        Err(fault) => Err(*fault),
    }
}
