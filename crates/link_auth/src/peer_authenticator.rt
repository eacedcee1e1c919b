//! How an end lets the other in.

ghost use Rattle.link_auth.specs.Entering.{Begins};

use crate::handshake_role::HandshakeRole;
use crate::key::LinkKey;
use crate::key_handshake::KeyHandshake;
use crate::peer_entry::PeerEntry;
use std::alloc::Global;

/// How an end lets the other in.
#[derive(Clone, Copy)]
pub struct PeerAuthenticator {
    /// Which end it is.
    pub side: HandshakeRole,
    /// The key that the other end has to have; none where another layer lets nobody but the partner come.
    pub key: Option<LinkKey>,
}

impl PeerAuthenticator {
    /// A connection begins. The nonce was drawn by the system's generator for it alone.
    pub fn begin(&self, alloc: Global, nonce: [u8; 32]) -> PeerEntry
        ensures { Begins self.now.side self.now.key nonce result }
    {
        match &self.key {
            Some(key) => PeerEntry::Proof(KeyHandshake::new(alloc, *key, self.side, nonce)),
            None => match &self.side {
                HandshakeRole::Initiator => PeerEntry::Callee,
                HandshakeRole::Responder => PeerEntry::Greeting(Vec::new(alloc)),
            },
        }
    }
}
