//! What a talk's orders show of the partner's settings, and of a journal that is full.

use crate::noted::{Counts, NONE, Noted};
use crate::notice_books::{
    ACCEPT_1, CONNECT, CONNECT_REPLY, FULL, NOW, OF_NO_UNIT_1, REJECT_1, UPDATE_1, UPDATE_2, fill,
    octets, opened, settings_of,
};
use binding_rules::Role;
use exclusive_book::{ExclusiveBook, ExclusivePairBook};
use failover_session::{FailoverSession, LinkInput, SessionError, SessionPolicy};
use lead_time::Reading;
use locked_book::ServeError;
use node_threads::WatchedBook;
use prefix_range::read_text;
use server_book::{BookError, Order, Settings};
use std::alloc::Global;
use std::process::Abort;
use std::test::Fail;

const DIFFER: Counts = Counts {
    settings_differ: 1,
    ..NONE
};

const NO_ROOM: Counts = Counts {
    journal_full: 1,
    ..NONE
};

/// A server's book of at least so many lines, in which the primary has moved the first unit to the secondary.
fn moved(
    alloc: Global,
    settings: &Settings,
    now: Reading,
    lines: usize,
) -> Result<ExclusiveBook, Fail> {
    let mut book = opened(alloc, settings)?;
    if settings.role() == Role::Primary {
        let unit = read_text(b"2001:db8::/56")?;
        if book.apply(now, &Order::Backup(unit)).is_err() {
            return Err(Fail::from("not moved"));
        }
    }
    fill(&mut book, now, lines)?;
    Ok(ExclusiveBook::new(alloc, book))
}

/// Returns what is told of frames that come to a server's end of the link, by its orders to a book that has at least so
/// many lines: up to a message that it has no room for.
fn told(alloc: Global, role: Role, lines: usize, frames: &[&[u8]]) -> Result<Counts, Fail> {
    let settings = settings_of(alloc, role)?;
    let now = Reading::new(NOW)?;
    let mut own = moved(alloc, &settings, now, lines)?;
    let noted = Noted::new();
    let watched = WatchedBook {
        book: &ExclusivePairBook,
        notices: &noted,
    };
    let mut talk = FailoverSession::new(alloc, SessionPolicy::Run);
    if talk.send_greeting(&own, &settings).is_err() {
        return Err(Fail::from("out of memory"));
    }
    for frame in frames {
        let octets = octets(alloc, frame)?;
        match talk.poll(
            &watched,
            &mut own,
            &settings,
            now,
            &LinkInput::Octets(&octets),
        ) {
            Ok(()) => {}
            Err(SessionError::Serve(ServeError::Book(BookError::Full))) => return Ok(
                noted.counts(),
            ),
            Err(_) => return Err(Fail::from("the talk ended")),
        }
        let _written = talk.take_frames();
    }
    Ok(noted.counts())
}

#[test]
fn an_update_of_what_is_no_unit_shows_that_settings_differ(rt: HostRuntime) -> Result<(), Fail> {
    let alloc = rt.alloc();
    let strange = told(alloc, Role::Secondary, 2, &[CONNECT, OF_NO_UNIT_1])?;
    assert_eq!(rt; strange, DIFFER);
    // An update that is accepted shows nothing, and neither does one that is dropped since it was taken before.
    let again = told(alloc, Role::Secondary, 2, &[CONNECT, UPDATE_1, UPDATE_2])?;
    assert_eq!(rt; again, NONE);
    Ok(())
}

#[test]
fn a_refused_move_shows_that_settings_differ(rt: HostRuntime) -> Result<(), Fail> {
    let alloc = rt.alloc();
    let rejected = told(alloc, Role::Primary, 3, &[CONNECT_REPLY, REJECT_1])?;
    assert_eq!(rt; rejected, DIFFER);
    let accepted = told(alloc, Role::Primary, 3, &[CONNECT_REPLY, ACCEPT_1])?;
    assert_eq!(rt; accepted, NONE);
    Ok(())
}

#[test]
fn an_order_that_finds_no_room_shows_that_the_journal_is_full(rt: HostRuntime) -> Result<(), Fail> {
    let alloc = rt.alloc();
    // What is due isn't sent.
    let unsent = told(alloc, Role::Primary, FULL, &[CONNECT_REPLY])?;
    assert_eq!(rt; unsent, NO_ROOM);
    // What came isn't taken.
    let untaken = told(alloc, Role::Secondary, FULL, &[CONNECT, UPDATE_1])?;
    assert_eq!(rt; untaken, NO_ROOM);
    Ok(())
}
