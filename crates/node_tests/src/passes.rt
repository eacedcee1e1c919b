//! How many passes a shared book has, and what it closes by.

ghost use Rattle.std.specs.Prelude.{◌≡◌, length};

use crate::requests::{at, opened, request};
use lead_time::Reading;
use locked_book::{BookName, CloseError, CloseFault, LockError, LockFault, SharedBook};
use server_book::Book;
use std::alloc::Global;
use std::marker::Brand;
use std::sync::Wait;
use std::sync::ledger::Blank;
use std::test::*;

/// Why a book isn't shared among this many passes, and how many lines the book has that comes back.
fn refused<N: BookName>(
    alloc: Global,
    blank: Blank,
    book: Book,
    passes: usize,
) -> Option<(LockFault, usize)>
    requires name { blank.name ≡ N.name }
    requires passes { (blank.parts ≡ N.parts) × (N.parts ≡ passes) × (N.passes ≡ passes) }
    requires lines { N.opened ≡ length book.lines }
{
    match SharedBook::<N>::open(alloc, blank, book, passes) {
        Ok(_) => None,
        Err(LockError { why, book }) => Some((why, book.journal().len())),
    }
}

/// How many passes there may be, and why not where there may not.
const PASSES: [(usize, Option<(LockFault, usize)>); 6] = [
    (0, Some((LockFault::Passes, 2))),
    (1, None),
    (33, None),
    (63, None),
    (64, None),
    (65, Some((LockFault::Passes, 2))),
];

#[test]
fn one_to_sixty_four_passes_share_a_book(rt: HostRuntime) -> Result<(), Fail> {
    for (passes, wanted) in PASSES {
        let book = opened(rt.alloc())?;
        let found = refused::<Brand>(rt.alloc(), Blank::new(passes as u64), book, passes);
        assert_eq!(rt; found, wanted);
    }
    Ok(())
}

/// The number of a first receipt, why a closing without the second pass is refused, and how many lines the book has
/// that a closing with both gives.
fn with_one_missing<N: BookName, R: Wait>(
    rt: &R,
    alloc: Global,
    blank: Blank,
    book: Book,
    now: Reading,
) -> Option<(u32, CloseFault, usize)>
    requires name { blank.name ≡ N.name }
    requires passes { (blank.parts ≡ N.parts) × (N.parts ≡ 2) × (N.passes ≡ 2) }
    requires lines { N.opened ≡ length book.lines }
{
    let Ok((shared, mut passes)) = SharedBook::<N>::open(alloc, blank, book, 2) else {
        return None;
    };
    let second = passes.pop()?;
    let mut first = passes.pop()?;
    let order = request(0, 1)?;
    let receipt = shared.serve(rt, &mut first, now, &order).ok()?;
    passes.push(first).ok()?;
    let Err(
        CloseError {
            why,
            shared,
            mut passes,
        },
    ) = shared.close(passes)
    else {
        return None;
    };
    passes.push(second).ok()?;
    match shared.close(passes) {
        Ok(book) => Some((receipt.number, why, book.journal().len())),
        Err(_) => None,
    }
}

#[test]
fn all_passes_close(rt: HostRuntime) -> Result<(), Fail> {
    let book = opened(rt.alloc())?;
    let found = with_one_missing::<Brand, _>(&rt, rt.alloc(), Blank::new(2), book, at(10000)?);
    assert_eq!(rt; found, Some((3, CloseFault::MissingPass, 3)));
    Ok(())
}
