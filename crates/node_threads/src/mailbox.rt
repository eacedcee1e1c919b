//! Datagrams that come, those who send them, and what is sent back.

ghost use Rattle.std.specs.Prelude.{◌≡◌, ◌≤◌, ℕ, List, length, take, IfOk, OnErr};

use crate::error::NetFault;
use client_service::ClientReply;
use std::net::{SocketAddr, UdpSocket};

/// One worker's way to those who send datagrams: by it the worker receives, and sends answers. Several workers may have
/// one socket, each by a mailbox of its own.
///
/// Its members are relations between a mailbox before a call and behind it. What a socket of the system does can't be
/// said, so that of [`UdpMailbox`] holds of any two; a mailbox in memory can say what it was given.
pub trait Mailbox {
    /// Who sent a datagram, and to whom its answer goes.
    type Peer: Drop + Send;

    // from a mailbox to the next a datagram came: from this peer, with these octets
    ghost receives: { Self → Self.Peer → List ℕ → Self → Type 0 };

    // from a mailbox to the next a datagram was sent: to this peer, with these octets
    ghost sends: { Self → Self.Peer → List ℕ → Self → Type 0 };

    // from a mailbox to the next a call of it failed
    ghost fails: { Self → Self → Type 0 };

    /// Waits for a datagram, puts it at the front of the buffer, and gives its length in octets and its sender.
    fn receive(&mut self, buffer: &mut [u8]) -> Result<(usize, Self::Peer), NetFault>
        ensures count { IfOk result (λ got. got.0 ≤ length buffer.new) }
        ensures came { IfOk result (λ got. receives self.old got.1 (take got.0 buffer.new) self.new) }
        ensures failed { OnErr result (fails self.old self.new) };

    /// Sends the octets of an answer to its peer.
    fn send(&mut self, answer: ClientReply<Self::Peer>) -> Result<(), NetFault>
        ensures sent { IfOk result (λ _. sends self.old answer.peer answer.octets self.new) }
        ensures failed { OnErr result (fails self.old self.new) };
}

/// Datagrams by a socket of the system. An answer goes to the address, port and scope that its question came from.
#[derive(Drop)]
pub struct UdpMailbox<'a> {
    socket: &'a UdpSocket,
}

impl<'a> UdpMailbox<'a> {
    /// Receives and sends by this socket.
    pub fn new(socket: &'a UdpSocket) -> UdpMailbox<'a> {
        UdpMailbox { socket }
    }
}

impl Mailbox for UdpMailbox<'_> {
    type Peer = SocketAddr;

    ghost receives = { λ old peer octets new. Unit };

    ghost sends = { λ old peer octets new. Unit };

    ghost fails = { λ old new. Unit };

    fn receive(&mut self, buffer: &mut [u8]) -> Result<(usize, SocketAddr), NetFault> {
        let Ok(received) = self.socket.recv_from(buffer) else {
            return Err(NetFault);
        };
        Ok(received)
    }

    // What a datagram's sender can cause (port 0, no route, an answer too large for the path, a refused port) counts
    // as sent: a socket that is dead fails at its next receive.
    fn send(&mut self, answer: ClientReply<SocketAddr>) -> Result<(), NetFault>
        ensures sent { IfOk result (λ _. Unit) }
        ensures failed { OnErr result Unit }
    {
        let _ = self.socket.send_to(answer.octets(), *answer.peer());
        Ok(())
    }
}
