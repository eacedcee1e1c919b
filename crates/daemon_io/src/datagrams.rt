//! Datagrams that come and go.

ghost use Rattle.std.specs.Prelude.{◌≤◌, ℕ, List, length, IfOk, IfSome};

use crate::polling::PollRegistry;
use mio::net::UdpSocket;
use std::io;
use std::io::ErrorKind;
use std::net::{IpAddr, Net, SocketAddr};

/// A way to those who send datagrams, that doesn't wait.
///
/// Its members are relations between a way before a call and behind it. What a socket of the system does can't be said,
/// so that of [`UdpDatagrams`] holds of any two; a way in memory can say what it was given.
pub trait Datagrams: Drop {
    /// Who sent a datagram, and to whom its answer goes.
    type Peer: Drop;

    // from a way to the next a datagram may have come, and none was sent
    ghost listens: { Self → Self → Type 0 };

    // from a way to the next a datagram was sent: to this peer, with these octets
    ghost sends: { Self → Self.Peer → List ℕ → Self → Type 0 };

    /// Puts a datagram that has come at the front of the buffer, and gives its length in octets and its sender; `None`
    /// where none has come. An error where none will come any more.
    fn receive(&mut self, buffer: &mut [u8]) -> io::Result<Option<(usize, Self::Peer)>>
        ensures length { IfOk result (λ came. IfSome came (λ got. got.0 ≤ length buffer.new)) }
        ensures listens { listens self.old self.new };

    /// The address that a peer sends from, the first octet first; `None` where it isn't one of IPv6.
    fn source(peer: &Self::Peer) -> Option<[u8; 16]>;

    /// Sends octets to a peer, if they can be sent now: a datagram may always be lost.
    fn send(&mut self, peer: &Self::Peer, octets: &[u8])
        ensures sent { sends self.old peer.now octets.now self.new };
}

/// Datagrams by a socket of the system. An answer goes to the address, port and scope that its question came from.
#[derive(Drop)]
pub struct UdpDatagrams {
    socket: UdpSocket,
}

impl UdpDatagrams {
    /// Listens at an address; a rest ends when a datagram comes.
    pub fn bind(
        net: &impl Net,
        listen: SocketAddr,
        watched: &PollRegistry,
    ) -> io::Result<UdpDatagrams> {
        let mut socket = UdpSocket::bind(net, listen)?;
        watched.add_reads(&mut socket)?;
        Ok(UdpDatagrams { socket })
    }
}

impl Datagrams for UdpDatagrams {
    type Peer = SocketAddr;

    ghost listens = { λ old new. Unit };

    ghost sends = { λ old peer octets new. Unit };

    fn receive(&mut self, buffer: &mut [u8]) -> io::Result<Option<(usize, SocketAddr)>> {
        match self.socket.recv_from(buffer) {
            Ok(received) => Ok(Some(received)),
            Err(error) => match error.kind() {
                ErrorKind::WouldBlock | ErrorKind::Interrupted => Ok(None),
                _ => Err(error),
            },
        }
    }

    fn source(peer: &SocketAddr) -> Option<[u8; 16]> {
        match peer.ip() {
            IpAddr::V6(address) => Some(address.octets()),
            IpAddr::V4(_) => None,
        }
    }

    // What a datagram's sender can cause (port 0, no route, an answer too large for the path, a refused port) is none
    // of the daemon's: a socket that is dead fails at its next receive.
    fn send(&mut self, peer: &SocketAddr, octets: &[u8]) {
        let _ = self.socket.send_to(octets, *peer);
    }
}
