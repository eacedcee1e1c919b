//! How the two ends of a connection prove to each other that they have the key.

ghost use Rattle.std.specs.Prelude.{◌≡◌, ◌↔◌, [], IfOk, IsOk, IfErr};
ghost use Rattle.link_auth.specs.Handshake.{own_for, other_for, Joins};

use crate::compare::equal_in_constant_time;
use crate::derived::{Purpose, derived};
use crate::fault::LinkFault;
use crate::handshake_role::HandshakeRole;
use crate::key::LinkKey;
use crate::reader::RecordReader;
use crate::writer::RecordWriter;
use std::alloc::Global;
use std::marker::Model;

/// An end that knows both nonces, and waits for the other's proof. Contracts see all four.
#[derive(Drop)]
pub(crate) struct ProofExchange {
    key: LinkKey,
    side: HandshakeRole,
    nonce: [u8; 32],
    other: [u8; 32],
}

impl Model for ProofExchange {
    ghost use Rattle.link_auth.specs.Handshake.{Party, Meeting};

    ghost Value = { Meeting };

    ghost view = { λ p. record {
      party = record { key = p.key; side = p.side; nonce = p.nonce };
      other = p.other;
    } };
}

/// The two directions of a connection whose other end has the key.
#[derive(Drop)]
pub struct RecordChannel {
    /// What goes to the other end.
    pub writer: RecordWriter,
    /// What comes from it.
    pub reader: RecordReader,
}

impl ProofExchange {
    /// An end with its nonce and the other's.
    pub(crate) fn new(
        key: LinkKey,
        side: HandshakeRole,
        nonce: [u8; 32],
        other: [u8; 32],
    ) -> ProofExchange
        ensures { result ≡ record { party = record { key = key; side = side; nonce = nonce }; other = other } }
    {
        ProofExchange {
            key,
            side,
            nonce,
            other,
        }
    }

    /// The octets of this end for a purpose.
    fn own(&self, purpose: Purpose) -> [u8; 32]
        ensures { result ≡ own_for self.now purpose }
    {
        derived(&self.key, purpose, self.side, &self.nonce, &self.other)
    }

    /// The octets of the other end for a purpose, where it has the key.
    fn others(&self, purpose: Purpose) -> [u8; 32]
        ensures { result ≡ other_for self.now purpose }
    {
        let side = self.side.other();
        derived(&self.key, purpose, side, &self.other, &self.nonce)
    }

    /// What is to be sent behind the nonce: the proof that this end has the key.
    pub(crate) fn proof(&self) -> [u8; 32]
        ensures { result ≡ own_for self.now Purpose.Proof }
    {
        self.own(Purpose::Proof)
    }

    /// The connection, where `proof` is the other end's; else `Forged`. What this end sent, sent back, is no proof.
    pub(crate) fn join(self, alloc: Global, proof: &[u8; 32]) -> Result<RecordChannel, LinkFault>
        ensures proved { IsOk result ↔ (proof.now ≡ other_for self Purpose.Proof) }
        ensures joined { IfOk result (λ j. Joins self j.writer j.reader) }
        ensures fault { IfErr result (λ e. e ≡ LinkFault.Forged) }
    {
        if !equal_in_constant_time(proof, &self.others(Purpose::Proof)) {
            return Err(LinkFault::Forged);
        }
        Ok(RecordChannel {
            writer: RecordWriter::new(alloc, self.own(Purpose::Records)),
            reader: RecordReader::new(alloc, self.others(Purpose::Records)),
        })
    }
}
