//! One failover connection as a state machine without I/O. `poll` takes what a read brought and a clock reading, gives
//! orders to a `PairBook`, and queues outbound frames, each with the number of the journal line that it sends. It
//! opens no socket, reads no clock, and leaves reconnecting to its caller.
//!
//! A [`FailoverSession`] is one connection. At each turn it takes what came by a read, at a reading of the clock: it
//! gives orders to the book, and hands out frames, each frame of a message with the number of the line that sends it.
//! It joins the two ends, takes the partner's messages, ends leases that have ended, shares units, and sends replies
//! and updates; a turn costs what there is to do. The book stands behind the trait [`PairBook`], which [`LockedBook`]
//! is by a shared book.
//!
//! The definitions stand in specs/: which messages the lines take and which frames are handed out (Receipts, Handed,
//! Talking), and both of one turn (Turning). So **each message that was handed out stands in the journal, by the number
//! that it goes with, and none is left out**: first what was sent above the serial that the partner named, then what
//! the added lines send, in their order.
//!
//! ```text
//! let mut talk = FailoverSession::new(alloc, SessionPolicy::Serve);
//! talk.greet(&pass, &settings)?;
//! loop {
//!     for handed in talk.hand_out() { write(handed.frame) }
//!     talk.turn(&book, &mut pass, &settings, now, &LinkInput::Octets(read()))?;
//! }
//! ```
#![tactic(auto)]

mod book;
mod crossing;
mod error;
mod in_flight;
mod link_endpoint;
mod link_input;
mod messages;
mod outbox;
mod policy;
mod raising;
mod recent;
mod returning;
mod sending;
mod sent_state;
mod session;
mod session_state;
mod shared;
mod sharing;
mod shortage;
mod stage;
mod taking;
mod updates_done;

pub use book::{PairBook, Receipts};
pub use error::SessionError;
pub use link_input::LinkInput;
pub use outbox::OutboundFrame;
pub use policy::SessionPolicy;
pub use session::FailoverSession;
pub use shared::LockedBook;
pub use shortage::JournalShortage;
pub use stage::SessionStage;
