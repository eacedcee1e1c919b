//! Non-blocking sockets of the daemon, over mio: UDP datagrams, the partner's TCP connection, the control socket, and
//! a poller that waits for any of them. Connections that aren't authenticated yet wait in `PendingPeers`, eight at
//! most. It moves octets and knows nothing of books or leases.
//!
//! Each device has a trait, over which a loop is generic, so that a test may hold its own; and one of the system's
//! sockets. A call gives what has come by now, or nothing. Where a turn of the loop found nothing anywhere, it rests
//! ([`Poller`]) until a socket has something, or a time is up.
//!
//! Of the connections that come by the door nothing counts at first: they wait side by side ([`PendingPeers`]) until
//! one is let in (`link_auth`), and has 5 s for that.
//!
//! A connection says whether notices go over it beside the frames ([`NoticeUse`]): where both ends' nonces end with the
//! mark of those that understand them. Each nonce that is drawn here ends so.
//!
//! What is written to a stream that takes no more now waits in [`SendBuffer`], and goes out at a later turn.
//!
//! ```text
//! let rest = Readiness::new(&rt)?;
//! let mut datagrams = UdpDatagrams::bind(&rt, listen, &rest)?;
//! let mut door = SystemConnectionSource::listen(&rt, address, &rest)?;
//! ..
//! while let Some((length, peer)) = datagrams.receive(&mut buffer)? { .. }
//! rest.rest(Duration::from_millis(50))?;
//! ```
#![tactic(auto)]

mod connection;
mod connection_source;
mod control;
mod control_client;
mod datagrams;
mod non_blocking_stream;
mod notice_use;
mod pending_peer;
mod pending_peers;
mod polling;
mod send_buffer;

pub use connection::{Connection, ConnectionLost, IdleSecond, ReadOutcome};
pub use connection_source::{ConnectionSource, NewConnection, Pause, SystemConnectionSource};
pub use control::{Control, ControlSocket};
pub use datagrams::{Datagrams, UdpDatagrams};
pub use non_blocking_stream::NonBlockingStream;
pub use notice_use::NoticeUse;
pub use pending_peer::PeerRejected;
pub use pending_peers::PendingPeers;
pub use polling::{PollRegistry, Poller, Readiness};
pub use send_buffer::SendBuffer;
