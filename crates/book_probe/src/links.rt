//! The talk of two servers, whose octets are carried by hand: `link A`, `quiet A READING`, `over A READING`,
//! `handle_control A READING OCTETS`, `carry A B READING`, `front A B READING COUNT`, `lose A`.
//!
//! Each answers what A's end, or B's, hands out: of each frame the number of the line that sends it, or `-`, and its
//! octets; and behind them `ended`, or why its connection has to be ended.

use crate::fault::Fault;
use crate::shelf::{LinkEnd, Shelf};
use crate::words::Words;
use exclusive_book::ExclusivePairBook;
use failover_message::encode;
use failover_session::{FailoverSession, LinkInput, OutboundFrame, SessionError, SessionPolicy};
use line_words::{add_number, add_word};
use server_book::read_settings;
use std::alloc::Global;
use text_fields::push_octets;

/// Returns why a connection has to be ended, in a word.
fn reason(why: SessionError) -> Result<&'static [u8], Fault> {
    match why {
        SessionError::Frame => Ok(b"frame"),
        SessionError::Serve(_) => Ok(b"refused"),
        SessionError::Memory => Err(Fault::Memory),
    }
}

/// Appends what was handed out, and keeps its octets to be carried.
fn add_handed(
    alloc: Global,
    written: &mut Vec<u8>,
    handed: &[OutboundFrame],
    out: &mut Vec<u8>,
) -> Result<(), Fault> {
    for handed in handed {
        match handed.number {
            Some(number) => add_number(out, u64::from(number))?,
            None => add_word(out, b"-")?,
        }
        let Ok(octets) = encode(alloc, &handed.frame) else {
            return Err(Fault::Memory);
        };
        add_word(out, b"")?;
        push_octets(out, octets.as_slice())?;
        written.extend_from_slice(octets.as_slice())?;
    }
    Ok(())
}

/// `link A`: a connection of A's end begins, by the last settings.
pub fn add_begun(
    alloc: Global,
    shelf: &mut Shelf,
    settings: &str,
    words: &mut Words<'_>,
    out: &mut Vec<u8>,
) -> Result<(), Fault> {
    let named = shelf.named_mut(words.letter()?)?;
    let settings = match read_settings(alloc, settings.as_bytes()) {
        Ok(settings) => settings,
        Err(_) => return Err(Fault::Words),
    };
    let mut talk = FailoverSession::new(alloc, SessionPolicy::Run);
    if talk.send_greeting(&named.own, &settings).is_err() {
        return Err(Fault::Memory);
    }
    let mut written = Vec::new(alloc);
    add_handed(alloc, &mut written, &talk.take_frames(), out)?;
    named.end = Some(LinkEnd {
        settings,
        talk,
        written,
    });
    Ok(())
}

/// One turn of A's end, at a reading.
fn add_turn(
    alloc: Global,
    shelf: &mut Shelf,
    letter: u8,
    words: &mut Words<'_>,
    came: &LinkInput<'_>,
    out: &mut Vec<u8>,
) -> Result<(), Fault> {
    let now = words.reading()?;
    let named = shelf.named_mut(letter)?;
    let Some(end) = &mut named.end else {
        return Err(Fault::Words);
    };
    let done = end.talk.poll(&ExclusivePairBook, &mut named.own, &end.settings, now, came);
    let handed = end.talk.take_frames();
    add_handed(alloc, &mut end.written, &handed, out)?;
    match done {
        Err(why) => Ok(add_word(out, reason(why)?)?),
        Ok(()) if end.talk.stage().has_ended() => Ok(add_word(out, b"ended")?),
        Ok(()) => Ok(()),
    }
}

/// `quiet A READING`: nothing came to A for a while.
pub fn add_quiet(
    alloc: Global,
    shelf: &mut Shelf,
    words: &mut Words<'_>,
    out: &mut Vec<u8>,
) -> Result<(), Fault> {
    let letter = words.letter()?;
    add_turn(alloc, shelf, letter, words, &LinkInput::Idle, out)
}

/// `handle_heartbeat A READING`: a contact of A's is due.
pub fn add_beat(
    alloc: Global,
    shelf: &mut Shelf,
    words: &mut Words<'_>,
    out: &mut Vec<u8>,
) -> Result<(), Fault> {
    let letter = words.letter()?;
    add_turn(alloc, shelf, letter, words, &LinkInput::HeartbeatDue, out)
}

/// `over A READING`: A's wire has ended.
pub fn add_over(
    alloc: Global,
    shelf: &mut Shelf,
    words: &mut Words<'_>,
    out: &mut Vec<u8>,
) -> Result<(), Fault> {
    let letter = words.letter()?;
    add_turn(alloc, shelf, letter, words, &LinkInput::Closed, out)
}

/// `handle_control A READING OCTETS`: these octets come to A.
pub fn add_heard(
    alloc: Global,
    shelf: &mut Shelf,
    words: &mut Words<'_>,
    out: &mut Vec<u8>,
) -> Result<(), Fault> {
    let letter = words.letter()?;
    let mut ahead = Words::new(words.rest());
    let _reading = ahead.next();
    let octets = ahead.octets(alloc)?;
    add_turn(
        alloc,
        shelf,
        letter,
        words,
        &LinkInput::Octets(&octets),
        out,
    )
}

/// Takes the first octets that A handed out, so many at most.
fn taken(alloc: Global, shelf: &mut Shelf, letter: u8, count: usize) -> Result<Vec<u8>, Fault> {
    let Some(end) = &mut shelf.named_mut(letter)?.end else {
        return Err(Fault::Words);
    };
    let count = count.min(end.written.len());
    let front = end.written[..count].to_vec(alloc)?;
    let rest = end.written[count..].to_vec(alloc)?;
    end.written = rest;
    Ok(front)
}

/// `carry A B READING`: all that A handed out, and that wasn't carried or lost yet, comes to B.
pub fn add_carried(
    alloc: Global,
    shelf: &mut Shelf,
    words: &mut Words<'_>,
    out: &mut Vec<u8>,
) -> Result<(), Fault> {
    let from = words.letter()?;
    let to = words.letter()?;
    let octets = taken(alloc, shelf, from, usize::MAX)?;
    add_turn(alloc, shelf, to, words, &LinkInput::Octets(&octets), out)
}

/// `front A B READING COUNT`: so many octets of it.
pub fn add_front(
    alloc: Global,
    shelf: &mut Shelf,
    words: &mut Words<'_>,
    out: &mut Vec<u8>,
) -> Result<(), Fault> {
    let from = words.letter()?;
    let to = words.letter()?;
    let mut ahead = Words::new(words.rest());
    let _reading = ahead.next();
    let Ok(count) = usize::try_from(ahead.number()?) else {
        return Err(Fault::Words);
    };
    let octets = taken(alloc, shelf, from, count)?;
    add_turn(alloc, shelf, to, words, &LinkInput::Octets(&octets), out)
}

/// `lose A`: what A handed out, and that wasn't carried yet, comes nowhere.
pub fn add_lost(
    alloc: Global,
    shelf: &mut Shelf,
    words: &mut Words<'_>,
    out: &mut Vec<u8>,
) -> Result<(), Fault> {
    let _lost = taken(alloc, shelf, words.letter()?, usize::MAX)?;
    Ok(add_word(out, b"done")?)
}
