//! What a book replies to an order.

use binding_rules::{Body, Counter, Outcome};
use prefix_range::Prefix;

/// The effect of an order that was done.
#[derive(Clone, Copy, Debug, PartialEq, Eq)]
pub enum Reply {
    /// The client has this prefix for so many seconds.
    Granted { prefix: Prefix, valid: u32 },
    /// The client's prefix was taken back.
    Released,
    /// This message is to go to the partner, in the book's term.
    Sent { serial: Counter, body: Body },
    /// What was made of the partner's message.
    Taken(Outcome),
    /// A line was written; there is no more to say.
    Done,
}
