//! What the desk says of a book that two threads served out of.

use crate::requests::at;
use crate::threads::both_served;
use attribution::Verdict;
use auditor::audit_bytes;
use client_id::Duid;
use journal_lines::{Event, Line};
use journal_text::write;
use lead_time::{Reading, Skew, Transit};
use prefix_range::{read_text, unit};
use server_book::{Book, Order};
use std::alloc::Global;
use std::test::*;

const PARTNER: &[u8] = b"pd-journal 1 B
1 9000 open 2000 3600 3600
2 9000 pool 2001:0db8:0000:0000:0000:0000:0000:0000/48 56
3 3700000 close
end 3
";

/// The whole-hour certificate, before and behind its holder.
const FRONT: &[u8] = b"pd-certificate 1\nholder ";

const REST: &[u8] = b"
prefix 2001:0db8:0000:0000:0000:0000:0000:0000/56
interval 12000 3608000
piece A3 12000 3608000 latest A3 earliest A3
end
";

/// Returns whether a line grants the unit of this index.
fn is_granted(lines: &[Line], index: u128) -> Result<bool, Fail> {
    let pool = read_text(b"2001:db8::/48")?;
    let prefix = unit(&pool, 56, index).ok_or("no unit")?;
    for line in lines {
        if let Event::Grant(lease) = &line.event {
            if lease.prefix == prefix {
                return Ok(true);
            }
        }
    }
    Ok(false)
}

/// Closes a book, and says whether it could be.
fn closes(book: &mut Book, now: Reading) -> bool {
    match book.apply(now, &Order::Close) {
        Ok(_) => true,
        Err(_) => false,
    }
}

/// The client of a book's third line.
fn client_of_third(book: &Book) -> Option<Duid> {
    match book.journal().get(2)?.event {
        Event::Grant(lease) => Some(lease.client),
        _ => None,
    }
}

/// The verdict on the whole-hour certificate of this client, over the book's text and its partner's.
fn verdict_of(alloc: Global, book: &Book, client: &Duid) -> Result<Verdict, Fail> {
    let journal = write(alloc, book.role(), book.head(), book.journal())?;
    let holder = client.to_hex(alloc)?;
    let mut certificate = Vec::new(alloc);
    certificate.extend_from_slice(FRONT)?;
    certificate.extend_from_slice(holder.as_bytes())?;
    certificate.extend_from_slice(REST)?;
    let skew = Skew::new(2000)?;
    Ok(audit_bytes(alloc, &journal, PARTNER, &certificate, skew, Transit::ZERO)?)
}

#[test]
fn two_hundred_units_are_granted(rt: HostRuntime) -> Result<(), Fail> {
    let served = both_served(&rt, rt.alloc())?;
    for index in 0..200u8 {
        assert!(rt; is_granted(served.book.journal(), u128::from(index))?);
    }
    assert!(rt; !is_granted(served.book.journal(), 200)?);
    Ok(())
}

#[test]
fn first_client_held_its_unit_for_the_hour(rt: HostRuntime) -> Result<(), Fail> {
    let served = both_served(&rt, rt.alloc())?;
    let mut book = served.book;
    assert!(rt; closes(&mut book, at(3_700_000)?));
    let client = client_of_third(&book).ok_or("no grant")?;
    assert_eq!(rt; verdict_of(rt.alloc(), &book, &client)?, Verdict::Accepted);
    Ok(())
}
