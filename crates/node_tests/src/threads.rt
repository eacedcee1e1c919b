//! Two threads that serve out of one book.

ghost use Rattle.std.specs.Prelude.{◌≡◌, length};

use crate::requests::{at, opened, request};
use lead_time::Reading;
use locked_book::{BookName, Pass, Receipt, SharedBook};
use prefix_range::{Prefix, read_text};
use server_book::{Book, Order, Reply};
use std::alloc::Global;
use std::marker::Brand;
use std::sync::Wait;
use std::sync::ledger::Blank;
use std::test::*;
use std::thread;
use std::thread::Threads;

const EACH: u8 = 100;

const TURNS: usize = 1_000_000;

/// Looks until there are four lines: the opening's two, this thread's and the other's.
fn sees_another<N: BookName, R: Wait>(
    rt: &R,
    shared: &SharedBook<N>,
    pass: &mut Pass<N>,
    prefix: Prefix,
) -> bool {
    for _ in 0..TURNS {
        match shared.look(rt, pass, prefix) {
            Ok(look) => {
                if look.lines >= 4 {
                    return true;
                }
            }
            Err(_) => return false,
        }
        thread::yield_now();
    }
    false
}

/// Serves one client, and says whether it was given a prefix.
fn serves<N: BookName, R: Wait>(
    rt: &R,
    shared: &SharedBook<N>,
    pass: &mut Pass<N>,
    now: Reading,
    order: Option<Order>,
) -> bool {
    let Some(order) = order else {
        return false;
    };
    match shared.serve(rt, pass, now, &order) {
        Ok(receipt) => matches!(&receipt.reply, Reply::Granted { .. }),
        Err(_) => false,
    }
}

/// Serves a hundred clients, looks after the first, and says whether all went well.
fn serves_all<N: BookName, R: Wait>(
    rt: &R,
    shared: &SharedBook<N>,
    mut pass: Pass<N>,
    now: Reading,
    prefix: Prefix,
    thread: u8,
) -> (Pass<N>, bool) {
    let mut well = serves(rt, shared, &mut pass, now, request(thread, 0));
    well = well && sees_another(rt, shared, &mut pass, prefix);
    for client in 1..EACH {
        well = well && serves(rt, shared, &mut pass, now, request(thread, client));
    }
    (pass, well)
}

/// Returns how many of these receipts have this number.
fn count_of(receipts: &[Receipt], number: u32) -> usize {
    receipts
        .iter()
        .filter(|receipt| receipt.number == number)
        .count()
}

/// Returns whether the lines behind the opening have one receipt each.
fn each_has_one(first: &[Receipt], second: &[Receipt]) -> bool {
    (3..=202).all(|number| count_of(first, number).saturating_add(count_of(second, number)) == 1)
}

/// What two threads leave.
#[derive(Drop)]
pub struct ServedByThreads {
    pub book: Book,
    /// How many receipts they had.
    count: usize,
    /// Whether each line behind the opening has one.
    each: bool,
    /// Whether each client was given a prefix, and each thread saw the other's first line.
    well: bool,
}

/// Returns what two threads leave that serve a hundred clients each.
fn by_two<N: BookName + Send + Sync, R: Threads + Wait + Sync>(
    rt: &R,
    alloc: Global,
    blank: Blank,
    book: Book,
    now: Reading,
    prefix: Prefix,
) -> Option<ServedByThreads>
    requires name { blank.name ≡ N.name }
    requires passes { (blank.parts ≡ N.parts) × (N.parts ≡ 2) × (N.passes ≡ 2) }
    requires lines { N.opened ≡ length book.lines }
{
    let Ok((shared, mut passes)) = SharedBook::<N>::open(alloc, blank, book, 2) else {
        return None;
    };
    let second = passes.pop()?;
    let first = passes.pop()?;
    let lent = &shared;
    let (one, other) = thread::join(
        rt,
        move || serves_all(rt, lent, first, now, prefix, 1),
        move || serves_all(rt, lent, second, now, prefix, 2),
    );
    let (first, well) = one;
    let (second, also) = other;
    let count = first
        .receipts()
        .len()
        .saturating_add(second.receipts().len());
    let each = each_has_one(first.receipts(), second.receipts());
    passes.push(first).ok()?;
    passes.push(second).ok()?;
    match shared.close(passes) {
        Ok(book) => Some(ServedByThreads {
            book,
            count,
            each,
            well: well && also,
        }),
        Err(_) => None,
    }
}

/// Returns what two threads leave that serve a hundred clients each at 10000, out of the primary's book.
pub fn both_served(
    rt: &(impl Threads + Wait + Sync),
    alloc: Global,
) -> Result<ServedByThreads, Fail> {
    let book = opened(alloc)?;
    let prefix = read_text(b"2001:db8::/56")?;
    let now = at(10000)?;
    match by_two::<Brand, _>(rt, alloc, Blank::new(2), book, now, prefix) {
        Some(served) => Ok(served),
        None => Err(Fail::from("not served")),
    }
}

#[test]
fn two_threads_serve(rt: HostRuntime) -> Result<(), Fail> {
    let ServedByThreads {
        book,
        count,
        each,
        well,
    } = both_served(&rt, rt.alloc())?;
    assert!(rt; well);
    assert_eq!(rt; count, 200);
    assert!(rt; each);
    assert_eq!(rt; book.journal().len(), 202);
    Ok(())
}
