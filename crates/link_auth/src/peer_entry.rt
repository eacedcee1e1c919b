//! One end of a connection until the other end counts.

ghost use Rattle.std.specs.Prelude.{◌≡◌, ◌↔◌, ◌++◌, Some, None, IsTrue, IfOk, IfErr};
ghost use Rattle.link_auth.specs.Entering.{IsConnect, Proves, Greets, Hears, Greeted, greeting_of, fault_of};

use crate::entry_fault::EntryFault;
use crate::fault::LinkFault;
use crate::key_handshake::{HandshakeProgress, KeyHandshake, PeerNonces};
use crate::secure_channel::{SecureChannel, copied};
use binding_rules::Role;
use failover_message::{Feed, Frame, FrameKind, LinkError};
use std::alloc::Global;

/// One end of a connection until the other end counts as the partner.
#[derive(Drop)]
pub enum PeerEntry {
    /// The other end has to prove that it has the key.
    Proof(KeyHandshake),
    /// The other end has to say CONNECT: this has come of it.
    Greeting(Vec<u8>),
    /// The other end is who was called.
    Callee,
}

/// Who was let in.
#[derive(Drop)]
pub struct AuthenticatedPeer {
    /// How octets go over its connection from here on.
    pub passage: SecureChannel,
    /// What it has said already.
    pub ahead: Vec<u8>,
    /// What is to be sent before all else, where it wasn't yet.
    pub answer: Option<[u8; 32]>,
    /// The nonces of both ends; none where the link has no key.
    pub nonces: Option<PeerNonces>,
}

/// What a chunk led to.
#[derive(Drop)]
pub enum EntryProgress {
    /// More is to come.
    Waits {
        waiting: PeerEntry,
        /// What is to be sent now.
        answer: Option<[u8; 32]>,
    },
    /// The other end is the partner.
    Admitted(AuthenticatedPeer),
}

/// Why a connection isn't let in by a fault of its proof or of its records.
fn fault_of(fault: LinkFault) -> EntryFault
    ensures { result ≡ fault_of fault }
{
    match fault {
        LinkFault::Memory => EntryFault::Memory,
        LinkFault::Forged | LinkFault::TooLong | LinkFault::Spent => EntryFault::Forged,
    }
}

/// Returns whether a frame is what the primary says first.
fn is_connect(kind: &FrameKind) -> bool
    ensures { IsTrue result ↔ IsConnect kind.now }
{
    matches!(
        kind,
        FrameKind::Connect {
            role: Role::Primary,
            ..
        }
    )
}

/// Takes a chunk of an end that has to prove that it has the key.
fn prove(alloc: Global, opening: KeyHandshake, chunk: &[u8]) -> Result<EntryProgress, EntryFault>
    ensures { Proves opening chunk.now result }
{
    match opening.receive(chunk) {
        Ok(HandshakeProgress::More { opening, answer }) => Ok(EntryProgress::Waits {
            waiting: PeerEntry::Proof(opening),
            answer,
        }),
        Ok(
            HandshakeProgress::Joined {
                joined,
                answer,
                nonces,
                behind,
            },
        ) => {
            let mut passage = SecureChannel::Authenticated(joined);
            let rest = &chunk[chunk.len().saturating_sub(behind)..];
            match passage.decode(alloc, rest) {
                Ok(ahead) => Ok(EntryProgress::Admitted(AuthenticatedPeer {
                    passage,
                    ahead,
                    answer,
                    nonces: Some(nonces),
                })),
                Err(fault) => Err(fault_of(fault)),
            }
        }
        Err(fault) => Err(fault_of(fault)),
    }
}

/// What follows from all that has come of an end that has to say CONNECT, which begins with these frames.
fn greeted(come: Vec<u8>, frames: &[Frame]) -> Result<EntryProgress, EntryFault>
    ensures { Greeted come.items frames.now result }
{
    match frames.first() {
        None => Ok(EntryProgress::Waits {
            waiting: PeerEntry::Greeting(come),
            answer: None,
        }),
        Some(frame) => {
            if !is_connect(&frame.kind) {
                return Err(EntryFault::Stranger);
            }
            Ok(EntryProgress::Admitted(AuthenticatedPeer {
                passage: SecureChannel::Plain,
                ahead: come,
                answer: None,
                nonces: None,
            }))
        }
    }
}

/// Takes a chunk of an end that has to say CONNECT.
fn greet(alloc: Global, mut heard: Vec<u8>, chunk: &[u8]) -> Result<EntryProgress, EntryFault>
    ensures { Greets (heard.items ++ chunk.now) result }
{
    heard.extend_from_slice(chunk)?;
    let mut feed = Feed::new(alloc);
    match feed.feed(heard.as_slice()) {
        Ok(frames) => greeted(heard, frames.as_slice()),
        Err(LinkError::Memory) => Err(EntryFault::Memory),
        Err(LinkError::Length | LinkError::Kind | LinkError::Field) => Err(EntryFault::Stranger),
    }
}

impl PeerEntry {
    /// What is to be sent first.
    pub fn greeting(&self) -> Option<[u8; 32]>
        ensures { result ≡ greeting_of self.now }
    {
        match self {
            PeerEntry::Proof(opening) => Some(*opening.greeting()),
            PeerEntry::Greeting(_) | PeerEntry::Callee => None,
        }
    }

    /// Takes the next chunk of what the other end sends, of any length. `Forged` where it hasn't the key, `Stranger`
    /// where what it says first isn't CONNECT, `Memory` where a growth was refused: then the connection is over.
    pub fn receive(self, alloc: Global, chunk: &[u8]) -> Result<EntryProgress, EntryFault>
        ensures { Hears self chunk.now result }
    {
        match self {
            PeerEntry::Proof(opening) => prove(alloc, opening, chunk),
            PeerEntry::Greeting(heard) => greet(alloc, heard, chunk),
            PeerEntry::Callee => Ok(EntryProgress::Admitted(AuthenticatedPeer {
                passage: SecureChannel::Plain,
                ahead: copied(alloc, chunk)?,
                answer: None,
                nonces: None,
            })),
        }
    }
}
