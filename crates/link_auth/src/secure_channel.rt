//! How octets go over a connection.

ghost use Rattle.std.specs.Prelude.{◌≡◌, IfOk, OnErr};
ghost use Rattle.link_auth.specs.Passing.{Puts, Takes};

use crate::fault::LinkFault;
use crate::handshake::RecordChannel;
use std::alloc::{AllocError, Global};

/// How octets go over a connection, both ways.
#[derive(Drop)]
pub enum SecureChannel {
    /// As they are.
    Plain,
    /// In records, which only who has the key can make.
    Authenticated(RecordChannel),
}

/// The same octets.
pub(crate) fn copied(alloc: Global, octets: &[u8]) -> Result<Vec<u8>, AllocError>
    ensures { IfOk result (λ copy. copy.items ≡ octets.now) }
{
    let mut copy = Vec::new(alloc);
    copy.extend_from_slice(octets)?;
    Ok(copy)
}

impl SecureChannel {
    /// What is to be sent over the connection, behind all else, that the other end may have these octets. `Spent` where
    /// no number is left for a record, `Memory` where a growth was refused: then nothing is to be sent.
    pub fn encode(&mut self, alloc: Global, octets: &[u8]) -> Result<Vec<u8>, LinkFault>
        ensures sent { IfOk result (λ sent. Puts self.old octets.now sent.items self.new) }
        ensures kept { OnErr result (self.new ≡ self.old) }
    {
        match self {
            SecureChannel::Plain => Ok(copied(alloc, octets)?),
            SecureChannel::Authenticated(joined) => joined.writer.write(octets),
        }
    }

    /// The octets of the other end that a chunk of what came completes. `Forged` and `TooLong` where a record isn't the
    /// other end's, `Spent` where no number is left for one, `Memory` where a growth was refused: then the chunk counts
    /// for nothing.
    pub fn decode(&mut self, alloc: Global, chunk: &[u8]) -> Result<Vec<u8>, LinkFault>
        ensures taken { IfOk result (λ octets. Takes self.old chunk.now octets.items self.new) }
        ensures kept { OnErr result (self.new ≡ self.old) }
    {
        match self {
            SecureChannel::Plain => Ok(copied(alloc, chunk)?),
            SecureChannel::Authenticated(joined) => joined.reader.feed(chunk),
        }
    }
}
