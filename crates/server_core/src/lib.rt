//! A running server without I/O for the network: its book, the file of its open volume, and everything that waits for
//! the disk. `handle_datagram` and `handle_input` append lines and hold their replies back; `commit` writes and syncs
//! the new lines and only then returns the replies and frames that may leave. Nothing else returns anything to send.
//!
//! A server's book with a receipt for each of its lines, as its one thread serves clients and its partner by it.
//!
//! A [`ReceiptBook`] is the book of the volume that is written now, the receipts of its lines, and before them those of
//! lines of older volumes, as far as they are kept: what was sent to the partner and not taken yet is found in these.
//! [`ReceiptBookAccess`] gives it orders, as a [`BookService`](client_service::BookService) for clients and as a
//! [`PairBook`](failover_session::PairBook) for the talk with the partner: both see the same receipts.
//!
//! ```text
//! let mut book = ReceiptBook::new(alloc, book, Vec::new(alloc))?;
//! let told = answer_to(alloc, &ReceiptBookAccess, &mut book, &own, PartnerAvailability::Up, &permits, now, &message, peer);
//! talk.turn(&ReceiptBookAccess, &mut book, &settings, now, &came)?;
//! for receipt in &book.receipts()[written..] { volume.append(&receipt.line)?; }
//! ```
//!
//! A server that runs, without sockets, clocks or threads: what it hears, what it holds back, and what may leave.
//!
//! A [`ServerCore`] server owns its book, the file of the open volume and the folder. Datagrams and the partner's
//! octets are heard one after the other; their answers and frames are held back. [`ServerCore::commit`] puts all new
//! lines to the file by one write and one sync, and only then gives what may leave. So whatever was ever told stands in
//! what any loss of power leaves.
//!
//! That the volumes of a server that runs are one server's, whatever it does and at whatever moment the power goes.
//!
//! A server's earlier volumes have ended in their files, and its open one stands in its file as far as it was put
//! (`IsServers` of specs/Servers). Two laws: of a settle, which puts lines, and of a roll, which ends the open volume
//! and begins the next one. Behind either the volumes are one server's again, and none of their lines has changed; and
//! at each moment meanwhile a loss of power leaves contents of that server's folder
//! (`volume_store::left_are_a_servers` says what a recovery makes of these).
#![tactic(auto)]

mod book;
mod committed_output;
mod datagram_outcome;
mod error;
mod forgetting;
mod laws;
mod link;
mod making;
mod rolling;
mod served;
mod server;
mod starting;
mod volume_writer;

pub use book::ReceiptBook;
pub use committed_output::{CommittedOutput, HeldAnswer};
pub use datagram_outcome::DatagramOutcome;
pub use error::{BeginFault, EndFault, RollFault, VolumeCommitError};
pub use laws::{commit_keeps_volumes, roll_keeps_volumes, start_keeps_volumes};
pub use served::ReceiptBookAccess;
pub use server::{Committed, ServerCore};
pub use starting::{StartContext, end, first, follow, go_on, restarted, server_of};
pub use volume_writer::{CommitFailure, VolumeWriter};
