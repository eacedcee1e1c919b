//! What a pass is given.

use binding_rules::Unit;
use journal_lines::Line;
use lead_time::{End, Reading};
use order_book::Reply;
use prefix_range::Prefix;

/// One accepted order: the line that it added, the line's number (from 1) and the reply.
#[derive(Clone, Copy, Debug, PartialEq, Eq)]
pub struct Receipt {
    pub number: u32,
    pub line: Line,
    pub reply: Reply,
}

/// The findings of one look at the book.
#[derive(Clone, Copy, Debug, PartialEq, Eq)]
pub struct Look {
    /// How many lines the journal has.
    pub lines: usize,
    /// The unit that was asked for; `None` where the prefix is no unit of the server's pools.
    pub unit: Option<Unit>,
    /// Whether the server waits for its partner's answer to the last restart.
    pub waiting: bool,
    /// The reading since which the partner is taken for down.
    pub down: Option<Reading>,
}

/// The work that there is in a book at a reading: of each kind the unit with the lowest address, if there is one. Where
/// it was asked from an address on, that is for what is to be sent: the reply, the change and the mark.
#[derive(Clone, Copy, Debug, PartialEq, Eq)]
pub struct PendingWork {
    /// How many lines the journal has.
    pub lines: usize,
    /// The unit that an Expire ends.
    pub expired: Option<Prefix>,
    /// The first reading at which an Expire ends one, in milliseconds.
    pub expiry: Option<End>,
    /// The unit with a pending reply.
    pub reply: Option<Prefix>,
    /// The unit with a change that is due to be told.
    pub change: Option<Prefix>,
    /// The unit that was seized, and isn't acknowledged yet.
    pub mark: Option<Prefix>,
    /// The unit that a Seize takes over.
    pub seizable: Option<Prefix>,
    /// The unit that the server may give to any client.
    pub usable: Option<Prefix>,
    /// Whether the server waits for its partner's answer to the last restart.
    pub waiting: bool,
    /// The reading since which the partner is taken for down.
    pub down: Option<Reading>,
}
