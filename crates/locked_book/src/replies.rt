//! What is told of a line.

ghost use Rattle.std.specs.Prelude.{◌≡◌};
ghost use Rattle.book_state.specs.Book.{BookState};
ghost use Rattle.order_book.specs.Answer.{reply_to};
ghost use Rattle.locked_book.specs.Replies.{outcome_in};

use binding_rules::Outcome;
use journal_lines::{Event, Line};
use order_book::Reply;

/// Returns what was made of a message, where the reply tells it.
pub(crate) fn outcome_in(reply: &Reply) -> Option<Outcome>
    ensures { result ≡ outcome_in reply.now }
{
    match reply {
        Reply::Taken(outcome) => Some(*outcome),
        _ => None,
    }
}

/// The reply that a line had, where this was made of the message that it takes.
pub(crate) fn reply_of(line: &Line, outcome: Option<Outcome>) -> Reply
    ensures { (b : BookState) → outcome ≡ outcome_in (reply_to b line.now.reading line.now.event)
        → result ≡ reply_to b line.now.reading line.now.event }
{
    match (&line.event, outcome) {
        (Event::Grant(lease), _) => Reply::Granted {
            prefix: lease.prefix,
            valid: lease.valid,
        },
        (Event::Release { .. }, _) => Reply::Released,
        (Event::Send(message), _) => Reply::Sent {
            serial: message.serial,
            body: message.body,
        },
        (Event::Take(_), Some(outcome)) => Reply::Taken(outcome),
        _ => Reply::Done,
    }
}
