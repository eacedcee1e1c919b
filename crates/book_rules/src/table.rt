//! A book's state, as its lines lead to it.

ghost use Rattle.book_rules.specs.Fits.{Fits};

use book_state::{StateNumbers, Units};

mod looking;
mod making;
mod replaying;

/// The state of a server's book: its settings, its numbers, and each unit as the lines so far left it. Contracts see
/// the `Book` of `book_state` by `state`.
#[derive(Drop)]
pub struct Table {
    pub(crate) numbers: StateNumbers,
    pub(crate) units: Units,
    ghost fits: { Fits numbers units },
}
