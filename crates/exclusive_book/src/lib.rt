//! A `PairBook` for one owner: a book that needs no lock because nobody else serves it. `ExclusivePairBook` gives it
//! orders and keeps their receipts in an `ExclusiveBook`. The test drivers use it; `node serve` doesn't.
//!
//! [`ExclusiveBook`] is a book with the receipts of what its end of the link ordered, and [`ExclusivePairBook`] gives
//! it orders as [`PairBook`](failover_session::PairBook) promises, without a lock: for programs that answer calls, and
//! for tests.
//!
//! ```text
//! let mut own = ExclusiveBook::new(alloc, book);
//! talk.greet(&own, &settings)?;
//! talk.turn(&ExclusivePairBook, &mut own, &settings, now, &LinkInput::Octets(octets))?;
//! ```
#![tactic(auto)]

mod exclusive;

pub use exclusive::{ExclusiveBook, ExclusivePairBook};
