//! One end of a stream of octets.

ghost use Rattle.std.specs.Prelude.{◌≡◌, ◌≤◌, ℕ, List, length, IfOk, OnOk, OnErr};
ghost use Rattle.node_threads.specs.Reading.{octets_in};

use crate::error::NetFault;
use crate::pauses::PAUSE;
use std::io::{ErrorKind, Read, Write};
use std::net::OpenStream;
use std::thread;
use std::time::{Clock as Handle, Duration};

/// The outcome of a read of a wire.
#[derive(Clone, Copy, Debug, PartialEq, Eq)]
pub enum Got {
    /// So many octets, at the front of the buffer.
    Octets(usize),
    /// None in this pause: 2 ms.
    Idle,
    /// None, and none will come.
    End,
}

/// A wire that carries the partners' link.
///
/// Its members are relations between a wire before a call and behind it. What a stream of the system does can't be
/// said, so that of [`TcpWire`] holds of any two; a wire in memory can say what it was given.
pub trait Wire {
    // from a wire to the next a read brought these octets, or none
    ghost brings: { Self → List ℕ → Self → Type 0 };

    // from a wire to the next these octets were written
    ghost writes: { Self → List ℕ → Self → Type 0 };

    // from a wire to the next a call of it failed
    ghost fails: { Self → Self → Type 0 };

    /// Waits for octets, at most a pause of 2 ms, and puts them at the front of the buffer.
    fn read(&mut self, buffer: &mut [u8]) -> Result<Got, NetFault>
        ensures count { IfOk result (λ got. (count : ℕ) → got ≡ Got.Octets count → count ≤ length buffer.new) }
        ensures came { IfOk result (λ got. brings self.old (octets_in got buffer.new) self.new) }
        ensures failed { OnErr result (fails self.old self.new) };

    /// Writes all of the octets.
    fn write(&mut self, octets: &[u8]) -> Result<(), NetFault>
        ensures written { OnOk result (writes self.old octets.now self.new) }
        ensures failed { OnErr result (fails self.old self.new) };
}

/// A wire over a stream of the system.
#[derive(Drop)]
pub struct TcpWire<'a, R: Handle, S: Read + Write + OpenStream + Drop> {
    handle: &'a R,
    stream: S,
}

impl<'a, R: Handle, S: Read + Write + OpenStream + Drop> TcpWire<'a, R, S> {
    /// A wire whose reads are idle after a pause of 2 ms, through which it sleeps by the handle. Its writes wait as
    /// long as the stream lets them.
    pub fn new(handle: &'a R, stream: S) -> TcpWire<'a, R, S> {
        TcpWire { handle, stream }
    }

    /// Lets the stream's calls wait, or not.
    fn wait(&self, waits: bool) -> Result<(), NetFault> {
        match self.stream.set_nonblocking(!waits) {
            Ok(()) => Ok(()),
            Err(_) => Err(NetFault),
        }
    }

    /// What has come, without waiting for it.
    fn come(&mut self, buffer: &mut [u8]) -> Result<Got, NetFault>
        ensures { IfOk result (λ got. (count : ℕ) → got ≡ Got.Octets count → count ≤ length buffer.new) }
    {
        match self.stream.read(buffer) {
            Ok(0) => Ok(Got::End),
            Ok(count) => Ok(Got::Octets(count)),
            Err(e) => match e.kind() {
                ErrorKind::WouldBlock | ErrorKind::TimedOut | ErrorKind::Interrupted => {
                    Ok(Got::Idle)
                }
                _ => Err(NetFault),
            },
        }
    }
}

impl<R: Handle, S: Read + Write + OpenStream + Drop> Wire for TcpWire<'_, R, S> {
    ghost brings = { λ old octets new. Unit };

    ghost writes = { λ old octets new. Unit };

    ghost fails = { λ old new. Unit };

    fn read(&mut self, buffer: &mut [u8]) -> Result<Got, NetFault> {
        self.wait(false)?;
        let got = self.come(buffer)?;
        self.wait(true)?;
        if got == Got::Idle {
            thread::sleep(self.handle, Duration::from_millis(PAUSE));
        }
        Ok(got)
    }

    fn write(&mut self, octets: &[u8]) -> Result<(), NetFault> {
        match self.stream.write_all(octets) {
            Ok(()) => Ok(()),
            Err(_) => Err(NetFault),
        }
    }
}
