//! Whether a clock may go on with a journal.

ghost use Rattle.std.specs.Prelude.{◌≡◌, ◌↔◌, IsTrue, IsNone, IfSome};
ghost use Rattle.order_book.specs.Replayed.{state_of};
ghost use Rattle.server_start.specs.Clock.{IsClockBehind};

use lead_time::{Reading, Skew};
use order_book::Book;

/// Returns whether a clock that reads `now` reads more than twice the skew below a line that was written at `last`:
/// what is written now would be what no clocks within the skew can have written.
pub fn is_behind(now: Reading, last: Reading, skew: Skew) -> bool
    ensures { IsTrue result ↔ IsClockBehind now last skew }
{
    now.milliseconds() + 2 * skew.milliseconds() < last.milliseconds()
}

/// The reading of the book's last line, where the clock is too far behind it.
pub(crate) fn reading_ahead(book: &Book, now: Reading, skew: Skew) -> Option<Reading>
    ensures behind { IfSome result (λ last. (last ≡ (state_of book.now).reading) × IsClockBehind now last skew) }
    ensures fit { IsNone result ↔ (IsClockBehind now (state_of book.now).reading skew → ⊥) }
{
    let last = book.journal().last()?.reading;
    if is_behind(now, last, skew) {
        Some(last)
    } else {
        None
    }
}
