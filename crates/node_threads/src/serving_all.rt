//! Several workers over one book.

ghost use Rattle.std.specs.Prelude.{◌≡◌, ◌<◌, ◌≤◌, ◌⊎◌, length, take, IfOk, IsErrOf};
ghost use Rattle.order_book.specs.Replayed.{IsLegal};

use crate::clock::Clock;
use crate::error::NodeError;
use crate::mailbox::Mailbox;
use crate::notices::Notices;
use crate::seats::{leave_seats, seats_of, serve_seats};
use crate::turns::Turns;
use client_id::Duid;
use client_service::PartnerAvailability;
use locked_book::{BookName, LockFault, SharedBook};
use server_book::Book;
use std::alloc::Global;
use std::sync::Wait;
use std::sync::ledger::Blank;
use std::thread::Threads;
use thiserror::Error;

/// The book and the passes that workers leave.
#[derive(Drop)]
pub struct WorkersResult {
    /// The book with their lines. It isn't closed.
    pub book: Book,
    /// How many datagrams they received in all, or why the first of those that failed did.
    pub received: Result<u32, NodeError>,
}

/// Why workers leave no book.
#[derive(Clone, Copy, Debug, PartialEq, Eq, Error)]
pub enum ServeAllError {
    /// Not 1 to 64 workers.
    #[error("a book has 1 to 64 workers")]
    Workers,
    /// A growth was refused.
    #[error("out of memory")]
    Memory,
    /// The lines of the book aren't those that the workers were told.
    #[error("the receipts aren't the lines of the book")]
    Book,
}

/// Shares a book among workers, one for each mailbox, each of which answers datagrams while there are turns, and gives
/// it back with the lines that came of it. A worker that fails doesn't stop the others. It stands in a function over
/// `N`, which its caller calls with `Brand`: `N` names the workers, and the lines that the book has.
///
/// The refusals: `Workers`, `Memory`, and `Book` where the lines aren't what the workers were told.
pub fn serve_all<
    N: BookName + Send + Sync,
    R: Threads + Wait + Sync,
    M: Mailbox + Drop + Send,
    C: Clock + Sync,
    V: Notices + Sync,
>(
    rt: &R,
    alloc: Global,
    blank: Blank,
    book: Book,
    mailboxes: Vec<M>,
    own: &Duid,
    clock: &C,
    turns: &Turns,
    partner: PartnerAvailability,
    notices: &V,
) -> Result<WorkersResult, ServeAllError>
    requires name { blank.name ≡ N.name }
    requires parts { (blank.parts ≡ N.parts) × (N.parts ≡ length mailboxes.items) }
    requires passes { N.passes ≡ length mailboxes.items }
    requires lines { N.opened ≡ length book.lines }
    ensures opening { IfOk result (λ left. take (length book.lines) left.book.lines ≡ book.lines) }
    ensures legal { IfOk result (λ left. IsLegal left.book) }
    ensures within { IfOk result (λ _. (1 ≤ length mailboxes.items) × (length mailboxes.items ≤ 64)) }
    ensures outside { IsErrOf result ServeAllError.Workers → (length mailboxes.items ≡ 0) ⊎ (64 < length mailboxes.items) }
{
    let workers = mailboxes.len();
    let (shared, passes) = match SharedBook::<N>::open(alloc, blank, book, workers) {
        Ok(opened) => opened,
        Err(refused) => {
            return match refused.why {
                LockFault::Passes => Err(ServeAllError::Workers),
                LockFault::Memory => Err(ServeAllError::Memory),
            };
        }
    };
    let Ok(mut left) = Vec::with_capacity(alloc, workers) else {
        return Err(ServeAllError::Memory);
    };
    let Ok(mut seats) = seats_of(alloc, passes, mailboxes) else {
        return Err(ServeAllError::Memory);
    };
    serve_seats(
        rt, alloc, &shared, &mut seats, own, clock, turns, partner, notices,
    );
    let Ok(received) = leave_seats(seats, &mut left) else {
        return Err(ServeAllError::Memory);
    };
    match shared.close(left) {
        Ok(book) => Ok(WorkersResult { book, received }),
        Err(_) => Err(ServeAllError::Book),
    }
}
