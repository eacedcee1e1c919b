//! The receipts of a book's lines.

ghost use Rattle.std.specs.Prelude.{◌≡◌, ◌++◌, IfOk};
ghost use Rattle.book_rules.specs.State.{state};
ghost use Rattle.client_service.specs.Lines.{receipts_of};
ghost use Rattle.order_book.specs.Answer.{reply_to};

use book_rules::Table;
use journal_lines::{Event, Line};
use locked_book::Receipt;
use order_book::{Book, Reply};
use std::alloc::{AllocError, Global};

/// Returns what was told of a line, where the table is that of the book before it.
fn reply_to(table: &Table, line: &Line) -> Reply
    ensures { result ≡ reply_to (state table.now) line.now.reading line.now.event }
{
    match &line.event {
        Event::Grant(lease) => Reply::Granted {
            prefix: lease.prefix,
            valid: lease.valid,
        },
        Event::Release { .. } => Reply::Released,
        Event::Send(message) => Reply::Sent {
            serial: message.serial,
            body: message.body,
        },
        Event::Take(message) => Reply::Taken(table.outcome(line.reading, message)),
        _ => Reply::Done,
    }
}

/// These receipts, and behind them those of a book's lines: each has the reply that its line had. It goes through the
/// lines once.
pub(crate) fn with_receipts_of(
    alloc: Global,
    book: &Book,
    mut receipts: Vec<Receipt>,
) -> Result<Vec<Receipt>, AllocError>
    ensures { IfOk result (λ all. all.items ≡ receipts.items ++ receipts_of book.now) }
{
    let mut table = Table::new(alloc, book.role(), book.head());
    for line in book.journal() {
        let reply = reply_to(&table, line);
        receipts.extend_from_slice(&[Receipt {
            number: line.number,
            line: *line,
            reply,
        }])?;
        table.enter(line)?;
    }
    Ok(receipts)
}
