//! A stream of octets both ways.

ghost use Rattle.std.specs.Prelude.{◌≤◌, length, IfOk};
ghost use Rattle.std.specs.Io.KnownBytes.{Keeps};

use mio::net::TcpStream;
use std::io;
use std::io::{Read, Write};

/// A stream of octets both ways, that doesn't wait: what is read of it changes nothing of what was written to it.
pub trait NonBlockingStream: Read + Write + Drop {
    /// Puts octets that have come at the front of the buffer, as [`Read::read`] does.
    fn read_now(&mut self, buffer: &mut [u8]) -> io::Result<usize>
        ensures bound { IfOk result (λ count. count ≤ length buffer.new) }
        ensures kept { Keeps (Self.contents self.old) (Self.contents self.new) };
}

impl NonBlockingStream for TcpStream {
    fn read_now(&mut self, buffer: &mut [u8]) -> io::Result<usize> {
        Read::read(self, buffer)
    }
}
