//! The numbered messages between the partners, which stand in their journals, and what they tell of themselves.

use crate::counter::Counter;
use crate::update::{BindReply, Update};

/// What a numbered message says.
#[derive(Clone, Copy, Debug, PartialEq, Eq)]
pub enum Body {
    /// What a unit became.
    Update(Update),
    /// Whether an update was taken over.
    Reply(BindReply),
    /// After a restart, the number that the partner is to answer; and the answer to the partner's last number.
    /// Each is 0 where there is none.
    Contact { ask: Counter, answer: Counter },
}

/// A numbered message from one partner to the other.
#[derive(Clone, Copy, Debug, PartialEq, Eq)]
pub struct PartnerMessage {
    pub term: u32,
    /// The sender's messages are counted from 1.
    pub serial: Counter,
    pub body: Body,
}

/// What a server takes its partner for (RFC 8156, section 8, whose names these are).
#[derive(Clone, Copy, Debug, PartialEq, Eq)]
pub enum ServerState {
    Normal,
    Interrupted,
    /// The partner is known to be down.
    Down,
}
