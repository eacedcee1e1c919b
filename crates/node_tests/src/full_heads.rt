//! A head that leaves no room for a further line. It takes some 5 seconds and 1.3 GB as the gate builds it, and
//! `rt try --test` needs more than its minute.

use crate::requests::{at, request};
use client_id::Iaid;
use journal_lines::{Carried, Event, Line};
use journal_text::read;
use prefix_range::{read_text, unit};
use server_book::{Book, BookError, Order, Reply};
use std::alloc::Global;
use std::test::Fail;

/// A second volume that carries one lease.
const SECOND: &[u8] = b"pd-journal 2 A 2\n1 1000000 open 2000 3600 3600\n\
    2 1000000 pool 2001:0db8:0000:0000:0000:0000:0000:0000/48 56\n3 1000000 base 0 0 0 0 0\n\
    4 1000000 carry 00030001020000000001 00000001 2001:0db8:0000:0000:0000:0000:0000:0000/56 3610000\n\
    5 1000000 close\nend 5\n";

/// How many leases are carried. With three lines of settings before them there is room for three grants and the close,
/// but the next head has two lines more for each grant: 2^20 in all.
const LEASES: u32 = 1_048_567;

/// The carry line of another identity association.
fn another(line: &Line, iaid: u32) -> Result<Line, Fail> {
    match &line.event {
        Event::Carry(carried) => Ok(Line {
            number: iaid.saturating_add(4),
            reading: line.reading,
            event: Event::Carry(Carried {
                iaid: Iaid(iaid),
                ..*carried
            }),
        }),
        _ => Err(Fail::from("no carry line")),
    }
}

/// The settings of a volume and so many carry lines.
fn carrying(alloc: Global, lines: &[Line], leases: u32) -> Result<Vec<Line>, Fail> {
    if lines.len() != 5 {
        return Err(Fail::from("not five lines"));
    }
    let mut all = lines[..3].to_vec(alloc)?;
    for iaid in 0..leases {
        all.extend_from_slice(&[another(&lines[3], iaid)?])?;
    }
    Ok(all)
}

/// Returns whether a client is granted the unit of a number for an hour.
fn is_granted(book: &mut Book, client: u8, number: u128) -> Result<bool, Fail> {
    let pool = read_text(b"2001:db8::/48")?;
    let wanted = unit(&pool, 56, number);
    let Some(order) = request(0, client) else {
        return Err(Fail::from("no client"));
    };
    match &book.apply(at(1_500_000)?, &order) {
        Ok(Reply::Granted { prefix, valid }) => Ok(Some(*prefix) == wanted && *valid == 3600),
        Ok(_) => Ok(false),
        Err(error) => Err(Fail::from(*error)),
    }
}

/// Returns whether a book closes at 2000000, and no volume follows it for want of room.
fn is_last(book: &mut Book) -> Result<bool, Fail> {
    let now = at(2_000_000)?;
    let closed = matches!(&book.apply(now, &Order::Close), Ok(Reply::Done));
    if !book.can_roll() {
        return Err(Fail::from("it doesn't roll"));
    }
    Ok(closed && matches!(&book.next_volume(now), Err(BookError::Full)))
}

#[test]
fn has_no_volume_behind_too_many_leases(rt: HostRuntime) -> Result<(), Fail> {
    let journal = read(rt.alloc(), SECOND)?;
    let lines = carrying(rt.alloc(), journal.lines.as_slice(), LEASES)?;
    let mut book = Book::replay(rt.alloc(), journal.role, journal.head, &lines)?;
    for (client, number) in [(2, 0), (3, 1), (4, 2)] {
        assert!(&rt; is_granted(&mut book, client, number)?);
    }
    assert!(&rt; is_last(&mut book)?);
    Ok(())
}
