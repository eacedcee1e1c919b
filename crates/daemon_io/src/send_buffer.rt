//! Octets that wait to be written.

ghost use Rattle.std.specs.Prelude.{◌≡◌, ◌≤◌, ◌++◌, [], length, take, IfOk, OnErr, is_ok, if◌then◌else◌};
ghost use Rattle.std.specs.Io.KnownBytes.{Appends, Keeps};
ghost use Rattle.daemon_io.specs.ConnectionWrites.{IsPassedOn};

use std::alloc::{AllocError, Global};
use std::io;
use std::io::{ErrorKind, Write};
use std::marker::Model;

/// Octets that wait to be written to a stream that doesn't wait, in their order. Contracts see the list of them.
#[derive(Drop)]
pub struct SendBuffer {
    octets: Vec<u8>,
}

impl Model for SendBuffer {
    ghost use Rattle.std.specs.Prelude.{List, ℕ};

    ghost Value = { List ℕ };

    ghost view = { λ u. u.octets.items };
}

/// How many octets a stream takes now: none where it would wait.
#[tactic(auto, using(crate::proofs::Given::kept_adds_none, crate::proofs::Given::none_is_kept))]
fn taken<W: Write>(stream: &mut W, octets: &[u8]) -> io::Result<usize>
    ensures count { IfOk result (λ count. count ≤ length octets.now) }
    ensures passed { IfOk result (λ count.
        Appends (W.contents stream.old) (W.contents stream.new) (take count octets.now)) }
    ensures kept { OnErr result (Keeps (W.contents stream.old) (W.contents stream.new)) }
{
    match stream.write(octets) {
        Ok(0) => Err(io::Error::from(ErrorKind::WriteZero)),
        Ok(count) => Ok(count),
        Err(error) => match error.kind() {
            ErrorKind::WouldBlock | ErrorKind::Interrupted => Ok(0),
            _ => Err(error),
        },
    }
}

impl SendBuffer {
    /// None wait.
    pub fn new(alloc: Global) -> SendBuffer
        ensures { result ≡ [] }
    {
        SendBuffer {
            octets: Vec::new(alloc),
        }
    }

    /// Returns how many octets wait.
    pub fn len(&self) -> usize
        ensures { result ≡ length self.now }
    {
        self.octets.len()
    }

    /// Adds octets behind the others; none of them where a growth is refused.
    pub fn add(&mut self, octets: &[u8]) -> Result<(), AllocError>
        ensures { self.new ≡ (if is_ok result then self.old ++ octets.now else self.old) }
    {
        self.octets.extend_from_slice(octets)
    }

    /// Writes as many from the front as the stream takes now. An error of the stream's, other than that it would wait.
    #[tactic(auto, using(crate::proofs::Given::none_passed, crate::proofs::Given::stays))]
    pub fn write_to<W: Write>(&mut self, stream: &mut W) -> io::Result<()>
        ensures { IsPassedOn (W.contents stream.old) self.old (W.contents stream.new) self.new }
    {
        if self.octets.is_empty() {
            return Ok(());
        }
        let count = taken(stream, &self.octets)?;
        self.octets.drain(..count);
        Ok(())
    }
}
