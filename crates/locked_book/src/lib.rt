//! A book behind a mutex, shared by 1 to 64 workers. Each worker serves orders through its own `Pass`, which keeps a
//! receipt for each line that it added; `close` returns the book and proves that the journal is the opening lines plus
//! one line for each receipt. It holds the lock for one order at a time and does no I/O.
//!
//! A [`SharedBook`] is a book behind a lock. `open` makes it, with the passes to it; `serve` does one order and gives
//! the pass its [`Receipt`]; `look`, `work` and `offer` read; `close` gives the book back. The lock is held for one
//! order and no longer. [`Kept`] is the value behind the lock: it stands in a module of its own, with private fields,
//! so that only `enter` changes the book, and `enter` says the change in full.
//!
//! ```text
//! let (shared, passes) = SharedBook::<N>::open(alloc, blank, book, 2)?; // one pass a thread
//! let receipt = shared.serve(rt, &mut pass, now, &order)?; // one line, one receipt
//! let book = shared.close(passes)?; // the opening, and a line for each receipt
//! ```
//!
//! How many lines were added is counted in a ledger, of which each pass has a share: the number of its receipts. So
//! an accepted `serve` is one accepted `enter`. What calls under the lock answer is in specs/Serving, what `close`
//! promises in specs/Closing.
#![tactic(auto)]

mod closing;
mod error;
mod keeping;
mod looking;
mod name;
mod receipt;
mod receipt_check;
mod replies;
mod shared;

pub use error::{CloseFault, LockFault, ServeError};
pub use keeping::{Kept, Pass, newest};
pub use looking::{look_at, work_at};
pub use name::BookName;
pub use receipt::{Look, PendingWork, Receipt};
pub use shared::{CloseError, LockError, SharedBook};
