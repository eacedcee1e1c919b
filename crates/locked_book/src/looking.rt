//! What is read of a book, also under the lock, by one who knows it by a last receipt.

ghost use Rattle.order_book.specs.Answer.{IsRequest};
ghost use Rattle.order_book.specs.Replayed.{IsLegal};
ghost use Rattle.locked_book.specs.Serving.{IsLooked, IsPassOffered, IsWorkFound};

use crate::error::ServeError;
use crate::receipt::{Look, PendingWork, Receipt};
use crate::receipt_check::check_receipt;
use lead_time::Reading;
use order_book::{Book, Order};
use prefix_range::Prefix;

/// Returns what a book has now: how many lines, this unit, whether it waits, and whether its partner is down. It takes
/// no memory. The one refusal is `Stranger`, where the book hasn't the line of the last receipt, if there is one.
pub fn look_at(book: &Book, last: Option<Receipt>, prefix: Prefix) -> Result<Look, ServeError>
    ensures looked { IsLooked book.now last prefix result }
    ensures legal { IsLegal book.now }
{
    let lines = book.journal();
    check_receipt(lines, last)?;
    Ok(Look {
        lines: lines.len(),
        unit: book.unit(prefix),
        waiting: book.waiting(),
        down: book.down(),
    })
}

/// Returns what there is to do in a book at a reading; of what is to be sent, for units that begin at an address or
/// above. It takes no memory. The one refusal is `Stranger`, as of `look_at`.
pub fn work_at(
    book: &Book,
    last: Option<Receipt>,
    now: Reading,
    from: u128,
) -> Result<PendingWork, ServeError>
    ensures found { IsWorkFound book.now last now from result }
    ensures legal { IsLegal book.now }
{
    let lines = book.journal();
    check_receipt(lines, last)?;
    Ok(PendingWork {
        lines: lines.len(),
        expired: book.first_to_expire(now),
        expiry: book.first_expiry(),
        reply: book.next_reply(from),
        change: book.next_change(from),
        mark: book.next_mark(from),
        seizable: book.first_to_seize(now),
        usable: book.first_usable(),
        waiting: book.waiting(),
        down: book.down(),
    })
}

/// Returns what a Request would be given.
pub(crate) fn offer_of(
    book: &Book,
    last: Option<Receipt>,
    now: Reading,
    order: &Order,
) -> Result<(Prefix, u32), ServeError>
    requires { IsRequest order.now }
    ensures offered { IsPassOffered book.now last now order.now result }
    ensures legal { IsLegal book.now }
{
    check_receipt(book.journal(), last)?;
    match book.offer(now, order) {
        Ok(offer) => Ok(offer),
        Err(error) => Err(ServeError::Book(error)),
    }
}
