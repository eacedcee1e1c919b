//! One end of a connection until the other has proved that it has the key.

ghost use Rattle.std.specs.Prelude.{◌≡◌, []};
ghost use Rattle.link_auth.specs.KeyHandshakes.{Hears, answer_to};

use crate::fault::LinkFault;
use crate::handshake::{ProofExchange, RecordChannel};
use crate::handshake_role::HandshakeRole;
use crate::key::LinkKey;
use std::alloc::Global;
use std::marker::Model;

/// The octets of a nonce, and of a proof.
const PART: usize = 32;

/// One end of a connection until the other has proved that it has the key: of the other's nonce and proof, which are
/// 64 octets, some have come. Contracts see the end's key, side and nonce, and what has come.
#[derive(Drop)]
pub struct KeyHandshake {
    key: LinkKey,
    side: HandshakeRole,
    nonce: [u8; 32],
    heard: Vec<u8>,
    alloc: Global,
}

impl Model for KeyHandshake {
    ghost use Rattle.link_auth.specs.Handshake.{Opened, IsOpening};

    ghost Value = { Opened };

    ghost view = { λ o. record {
      party = record { key = o.key; side = o.side; nonce = o.nonce };
      heard = o.heard.items;
    } };

    ghost invariant = { λ o. IsOpening o.heard.items };
}

/// The nonces of both ends of a connection, as one of them sees them.
#[derive(Clone, Copy, Debug, PartialEq, Eq)]
pub struct PeerNonces {
    /// What this end drew.
    pub own: [u8; 32],
    /// What the other end sent first.
    pub other: [u8; 32],
}

/// What a chunk led to.
#[derive(Drop)]
pub enum HandshakeProgress {
    /// More is to come.
    More {
        opening: KeyHandshake,
        /// What is to be sent now: this end's proof, with the chunk that completed the other's nonce.
        answer: Option<[u8; 32]>,
    },
    /// The other end has the key.
    Joined {
        joined: RecordChannel,
        /// What is to be sent before all records, where it wasn't yet.
        answer: Option<[u8; 32]>,
        /// Both nonces, which the proofs of both ends are over.
        nonces: PeerNonces,
        /// How many octets at the end of the chunk stand behind the proof: the first of the records.
        behind: usize,
    },
}

/// What is to be sent once the other's nonce has come, if it hadn't before.
fn answer_to(had: usize, proving: &ProofExchange) -> Option<[u8; 32]>
    ensures { result ≡ answer_to had proving.now }
{
    if had >= PART {
        None
    } else {
        Some(proving.proof())
    }
}

impl KeyHandshake {
    /// The end of a connection that begins now: it sends its `greeting` first. The nonce is drawn by the system's
    /// generator for this connection alone: who repeats one lets a stranger send it an earlier connection again.
    pub fn new(alloc: Global, key: LinkKey, side: HandshakeRole, nonce: [u8; 32]) -> KeyHandshake
        ensures { result ≡ record { party = record { key = key; side = side; nonce = nonce }; heard = [] } }
    {
        KeyHandshake {
            key,
            side,
            nonce,
            heard: Vec::new(alloc),
            alloc,
        }
    }

    /// What is to be sent first.
    pub fn greeting(&self) -> &[u8; 32]
        ensures { result.now ≡ self.now.party.nonce }
    {
        &self.nonce
    }

    /// Takes the next chunk of what the other end sends, of any length. `Forged` where its proof is wrong, and `Memory`
    /// where a growth was refused: then the connection is over.
    pub fn receive(mut self, chunk: &[u8]) -> Result<HandshakeProgress, LinkFault>
        ensures { Hears self chunk.now result }
    {
        let had = self.heard.len();
        self.heard.extend_from_slice(chunk)?;
        let Some((nonce, proof)) = self.heard.split_first_chunk::<PART>() else {
            return Ok(HandshakeProgress::More {
                opening: self,
                answer: None,
            });
        };
        let proving = ProofExchange::new(self.key, self.side, self.nonce, *nonce);
        let answer = answer_to(had, &proving);
        let nonces = PeerNonces {
            own: self.nonce,
            other: *nonce,
        };
        let Some(proof) = proof.first_chunk::<PART>() else {
            return Ok(HandshakeProgress::More {
                opening: self,
                answer,
            });
        };
        let joined = proving.join(self.alloc, proof)?;
        let behind = self.heard.len() - 2 * PART;
        Ok(HandshakeProgress::Joined {
            joined,
            answer,
            nonces,
            behind,
        })
    }
}
