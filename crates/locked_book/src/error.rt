//! Why an order, an opening or a closing is refused.

ghost use Rattle.std.specs.Prelude.{◌≡◌};
ghost use Rattle.locked_book.specs.declared.error.ServeError.TheVariants.{Memory};

use journal_lines::Line;
use order_book::BookError;
use std::alloc::AllocError;
use thiserror::Error;

/// Why a pass isn't served. A refusal leaves the book and the pass as they were.
#[derive(Clone, Copy, Debug, PartialEq, Eq, Error)]
pub enum ServeError {
    /// The line found at the number of the pass's last receipt isn't the receipt's.
    #[error("line {number} isn't the line of the last receipt")]
    Stranger { number: u32, found: Option<Line> },
    /// The book refuses the order.
    #[error("refused by the book: {0}")]
    Book(BookError),
    /// No room for the receipt.
    #[error("out of memory")]
    Memory,
}

impl From<AllocError> for ServeError {
    ghost from_gives = { λ _ e. e ≡ Memory };

    fn from(_error: AllocError) -> ServeError {
        ServeError::Memory
    }
}

/// Why a book isn't shared.
#[derive(Clone, Copy, Debug, PartialEq, Eq, Error)]
pub enum LockFault {
    /// Not 1 to 64 passes.
    #[error("a shared book has 1 to 64 passes")]
    Passes,
    /// A growth was refused.
    #[error("out of memory")]
    Memory,
}

/// Why a shared book isn't closed.
#[derive(Clone, Copy, Debug, PartialEq, Eq, Error)]
pub enum CloseFault {
    /// Not as many passes as were made.
    #[error("a pass is missing")]
    MissingPass,
    /// The book doesn't begin with the opening lines, or the receipts aren't the lines behind them, each once.
    #[error("the receipts aren't the lines of the book")]
    ReceiptMismatch,
}
