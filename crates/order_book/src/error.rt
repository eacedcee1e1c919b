//! Why a book refuses.

ghost use Rattle.std.specs.Prelude.{◌≡◌};
ghost use Rattle.order_book.specs.declared.error.BookError.TheVariants.{Memory};

use book_rules::Rule;
use std::alloc::{AllocError, AllocFailed};
use thiserror::Error;

/// Why a book doesn't do what it is ordered to. A refusal leaves the book as it was.
#[derive(Clone, Copy, Debug, PartialEq, Eq, Error)]
pub enum BookError {
    /// The book is closed, or it waits for its partner since a restart and a client asks for a lease.
    #[error("the server doesn't serve")]
    NotServing,
    /// The journal has 2^20 - 1 lines or more, and only a close line has room; or no further volume can begin.
    #[error("the journal is full")]
    Full,
    /// The client has no such delegation.
    #[error("no binding")]
    NoBinding,
    /// The server has no unit to give.
    #[error("no prefix available")]
    NoPrefix,
    /// The line would be the one of this number, and this is the least rule that it would break.
    #[error("line {line} would break rule {rule}")]
    Rule { line: u32, rule: Rule },
    /// A growth was refused.
    #[error("out of memory")]
    Memory,
}

impl From<AllocError> for BookError {
    ghost from_gives = { λ _ e. e ≡ Memory };

    fn from(_error: AllocError) -> BookError {
        BookError::Memory
    }
}

impl<T: Drop> From<AllocFailed<T>> for BookError {
    ghost from_gives = { λ _ e. e ≡ Memory };

    fn from(_error: AllocFailed<T>) -> BookError {
        BookError::Memory
    }
}
