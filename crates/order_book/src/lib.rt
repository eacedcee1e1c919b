//! A server's book: its journal, and the commands that append to it. `apply` takes an `Order`, appends exactly one
//! line and returns a `Reply`, or refuses and leaves the book unchanged; `offer` only computes what a request would
//! get. It is a single-threaded value without I/O; `locked_book` shares it.
//!
//! A [`Book`] is all that a server knows of its delegations. `apply` does what it is ordered to: it appends the one
//! line that the order gets and replies, or refuses and leaves the book as it was. `offer` says what a Request would be
//! given. `open` begins a book by a server's settings; `replay` makes one of the lines of a journal, exactly where they
//! break no rule; `next_volume` begins the book of the volume behind a closed one. Contracts see a book as its journal,
//! and `state_of` (specs/Replayed) is the book that the journal leads to.
//!
//! What an order is answered stands apart from the code: which unit it is about in specs/Bindings, the event that it
//! names in specs/Named, its line and reply or its first refusal in specs/Answer. That it has one of these, and not
//! both, is a law.
//!
//! ```text
//! let mut book = Book::open(alloc, now, &settings)?;
//! let reply = book.apply(now, &Order::Request(asked))?; // Granted { prefix, valid }
//! ```
#![tactic(auto)]

mod book;
mod error;
mod latest_grants;
mod laws;
mod opening;
mod order;
mod reply;
mod volume_head;

pub use book::Book;
pub use error::BookError;
pub use laws::{answer_is_one, opening_is_legal};
pub use order::{LeaseRequest, Order};
pub use reply::Reply;
