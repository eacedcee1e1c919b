//! Authentication of the failover link by a shared key: a challenge-response handshake with HMAC-SHA-256, then
//! authenticated records. `KeyHandshake` proves that both ends have the key, `RecordWriter` and `RecordReader` protect
//! the stream afterwards, and `PeerEntry` decides when a connection counts as the partner. It doesn't encrypt, and
//! does no I/O.
//!
//! A link that takes nobody but the partner: two ends that share a key, and records that nobody else can make.
//!
//! Each end of a connection sends 32 octets that were drawn for it alone (its nonce), then a proof: a code by the key
//! over both nonces and its own side. Who has heard the other's proof goes on with records ([`KeyHandshake`],
//! [`HandshakeProgress`]): what [`RecordWriter`] makes of octets, [`RecordReader`] gives back, however the stream was
//! cut into chunks. Each direction of each connection has a key of its own, and each record a number, which its code is
//! over too. A code is half of HMAC-SHA-256 (RFC 2104). Nothing is hidden: who sees the stream can read it.
//!
//! What is promised stands at these calls and at the laws (specs/Laws.antt): a stream is read in one way, and what was
//! written is read. **What is read is a beginning of what the other end wrote**, where nobody else can make a code: no
//! record was made, changed, repeated, left out or sent back by a stranger. That nobody else can is a premise on the
//! codes that came, an ideal that no proof gives of SHA-256. It rests on two things that nobody sees here: the key is
//! known to both ends alone, and no nonce is drawn twice.
//!
//! ```text
//! let opening = KeyHandshake::new(alloc, LinkKey::from_text(&file)?, HandshakeRole::Initiator, nonce);
//! send(opening.greeting());
//! match opening.hear(&chunk)? {
//!     HandshakeProgress::More { opening, answer } => .., // sends `answer`, where there is one, and hears the next chunk
//!     HandshakeProgress::Joined { joined, answer, behind, .. } => { // sends `answer`, where there is one
//!         let octets = joined.reader.feed(&chunk[chunk.len() - behind..])?;
//!         send(&joined.writer.write(&octets)?);
//!     }
//! }
//! ```
//!
//! Who is let in as the partner, and how octets go over its connection.
//!
//! Each connection waits first ([`PeerEntry`]): with a key until its other end has proved that it has it, and without
//! one until it has said the partner's first frame, CONNECT. Until then nothing that it says counts, and whatever else
//! comes refuses it alone ([`EntryFault`]). Who was let in ([`AuthenticatedPeer`]) goes on by a [`SecureChannel`]:
//! octets as they are, or in records that only who has the key can make (`link_auth`).
//!
//! ```text
//! let mut waiting = keeper.begin(alloc, nonce);
//! send(waiting.greeting());
//! match waiting.hear(alloc, &chunk)? {
//!     EntryProgress::Waits { waiting, answer } => .., // sends `answer`, where there is one, and hears the next chunk
//!     EntryProgress::Admitted(entrant) => .., // sends `entrant.answer`, where there is one, and goes on with what is `ahead`
//! }
//! ```
#![tactic(auto)]

mod code;
mod coder;
mod compare;
mod cursor;
mod derived;
mod entry_fault;
mod fault;
mod handshake;
mod handshake_role;
mod key;
mod key_handshake;
mod laws;
mod peer_authenticator;
mod peer_entry;
mod reader;
mod secure_channel;
mod writer;

pub use coder::hmac;
pub use entry_fault::EntryFault;
pub use fault::LinkFault;
pub use handshake::RecordChannel;
pub use handshake_role::HandshakeRole;
pub use key::{KeyError, LinkKey};
pub use key_handshake::{HandshakeProgress, KeyHandshake, PeerNonces};
pub use laws::{
    chunks_join, ends_meet, messages_stand_apart, nothing_is_forged, records_stand_apart,
};
pub use peer_authenticator::PeerAuthenticator;
pub use peer_entry::{AuthenticatedPeer, EntryProgress, PeerEntry};
pub use reader::RecordReader;
pub use secure_channel::SecureChannel;
pub use writer::RecordWriter;
