//! The threads of `node run`, for trials: workers that answer datagrams out of one `locked_book`, and one end of the
//! failover link. Sockets and clock are traits, so tests supply their own. It doesn't persist the journal: `node
//! serve` does.
//!
//! [`serve_datagrams`] is a worker: it takes a turn, receives a datagram, reads it, takes the time, has
//! `client_service`
//! order what the client asks, and sends the answer. It goes over any [`Mailbox`] and any [`Clock`], so a test may hold
//! them; [`UdpMailbox`] and [`SystemClock`] are the system's. No lock is held but for one order. Each worker has a
//! mailbox of its own.
//!
//! [`serve_all`] has several workers serve one book, and gives it back with their lines.
//!
//! [`serve_link`] is one end of the link: over a [`Wire`], which [`TcpWire`] is by the system's streams, it joins the
//! other end, takes its messages, ends leases that have ended, shares units, and sends replies and updates of the book.
//!
//! What the person who runs a node is to know an engine tells [`Notices`]: [`EachOnce`] hands each [`Notice`] on once.
//!
//! ```text
//! let (shared, mut passes) = SharedBook::<N>::open(alloc, blank, book, 1)?;
//! let mut mailbox = UdpMailbox::new(&socket);
//! let received = serve_datagrams(
//!     rt, alloc, &shared, &mut pass, own, &mut mailbox, &clock, &turns, PartnerAvailability::Up, &notices,
//! )?;
//! let book = shared.close(passes)?;                                         // a line for each answer that was given
//! ```
//!
//! What an engine does to its pass is in specs/Receipts: it adds receipts, and takes no message twice. What a worker
//! sends is in specs/Sending: for a datagram that came at most one, to its peer, with the octets of its answer, which
//! tells what the lines say that were written for it. That datagrams arrive and go out by a socket is tested alone.
#![tactic(auto)]

mod clock;
mod error;
mod link;
mod mailbox;
mod notices;
mod pauses;
mod seats;
mod serving_all;
mod settings;
mod turns;
mod watched_book;
mod wire;
mod worker_outcome;
mod workers;

pub use client_service::PartnerAvailability;
pub use clock::{Clock, SystemClock};
pub use error::{NetFault, NodeError};
pub use link::serve_link;
pub use mailbox::{Mailbox, UdpMailbox};
pub use notices::{EachOnce, NoNotices, Notice, Notices};
pub use pauses::{IdleTimer, PAUSES_A_SECOND};
pub use seats::{leave_seats, seats_of, serve_seats};
pub use serving_all::{ServeAllError, WorkersResult, serve_all};
pub use settings::NodeSettings;
pub use turns::Turns;
pub use watched_book::WatchedBook;
pub use wire::{Got, TcpWire, Wire};
pub use worker_outcome::WorkerOutcome;
pub use workers::serve_datagrams;
