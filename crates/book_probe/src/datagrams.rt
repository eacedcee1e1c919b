//! Datagrams, and what goes back: `datagram A READING OWN OCTETS`, `told A READING PARTNER OWN OCTETS`, and `each` with
//! the same words, as a server of years takes them.
//!
//! OWN is the identifier of the book's server, PARTNER is `up` or `down`.

use crate::fault::Fault;
use crate::shelf::Shelf;
use crate::words::Words;
use client_service::{
    ClientReply, ExclusiveService, NoReplyReason, PartnerAvailability, answer_to,
};
use dhcp6_pd::{ClientMessage, decode};
use line_words::{add_number, add_word};
use server_book::ReplyPolicy;
use std::alloc::{AllocError, Global};
use text_fields::push_octets;

/// `datagram A READING OWN OCTETS`: what A's server sends back while its partner is up.
pub fn add_answered(
    alloc: Global,
    shelf: &mut Shelf,
    words: &mut Words<'_>,
    out: &mut Vec<u8>,
) -> Result<(), Fault> {
    let book = shelf.book_mut(words.letter()?)?;
    let now = words.reading()?;
    let own = words.client()?;
    let octets = words.octets(alloc)?;
    let Ok(message) = decode(alloc, &octets, &own) else {
        return Ok(add_word(out, b"none")?);
    };
    match answer_to(
        alloc,
        &ExclusiveService,
        book,
        &own,
        &ReplyPolicy::plain(alloc),
        PartnerAvailability::Up,
        &[],
        now,
        &message,
        (),
    ) {
        Ok(answer) => Ok(add_octets(out, &answer)?),
        Err(_) => Err(Fault::Words),
    }
}

fn add_octets(out: &mut Vec<u8>, answer: &ClientReply<()>) -> Result<(), AllocError> {
    add_word(out, b"")?;
    push_octets(out, answer.octets())
}

/// Appends the number of the last line that an answer tells of, or `-`, and its octets.
fn add_numbered(out: &mut Vec<u8>, answer: &ClientReply<()>) -> Result<(), AllocError> {
    match answer.line() {
        Some(number) => add_number(out, u64::from(number))?,
        None => add_word(out, b"-")?,
    }
    add_octets(out, answer)
}

/// Returns why there is no answer, in a word.
fn reason(why: NoReplyReason) -> Result<&'static [u8], Fault> {
    match why {
        NoReplyReason::NothingRequested => Ok(b"nothing-asked"),
        NoReplyReason::Refused(_) => Ok(b"refused"),
        NoReplyReason::UnknownBinding => Ok(b"elsewhere"),
        NoReplyReason::TooLong => Ok(b"too-long"),
        NoReplyReason::Memory => Err(Fault::Memory),
    }
}

fn partner_in(words: &mut Words<'_>) -> Result<PartnerAvailability, Fault> {
    match words.next() {
        "up" => Ok(PartnerAvailability::Up),
        "down" => Ok(PartnerAvailability::Down),
        _ => Err(Fault::Words),
    }
}

/// What a RELEASE orders of each IA_PD.
#[derive(Clone, Copy)]
pub enum Orders {
    /// Its first prefix.
    First,
    EachPrefix,
}

impl Orders {
    fn of(self, message: ClientMessage) -> ClientMessage {
        match self {
            Orders::First => message,
            Orders::EachPrefix => message.by_prefix(),
        }
    }
}

/// `told A READING PARTNER OWN OCTETS`, or `each ..`: the number of the last line that the answer tells of, or `-`, and
/// the answer; else why there is none.
pub fn add_told(
    alloc: Global,
    shelf: &mut Shelf,
    words: &mut Words<'_>,
    orders: Orders,
    out: &mut Vec<u8>,
) -> Result<(), Fault> {
    let book = shelf.book_mut(words.letter()?)?;
    let now = words.reading()?;
    let partner = partner_in(words)?;
    let own = words.client()?;
    let octets = words.octets(alloc)?;
    let Ok(message) = decode(alloc, &octets, &own) else {
        return Ok(add_word(out, b"none")?);
    };
    let message = orders.of(message);
    match answer_to(
        alloc,
        &ExclusiveService,
        book,
        &own,
        &ReplyPolicy::plain(alloc),
        partner,
        &[],
        now,
        &message,
        (),
    ) {
        Ok(answer) => Ok(add_numbered(out, &answer)?),
        Err(why) => Ok(add_word(out, reason(why)?)?),
    }
}
