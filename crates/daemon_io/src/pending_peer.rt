//! A connection that waits to be let in.

ghost use Rattle.std.specs.Prelude.{◌≡◌, ◌≤◌, ◌↔◌, length, IsTrue, IfOk};
ghost use Rattle.daemon_io.specs.ConnectionWrites.{ConnectionState, IsUnused};
ghost use Rattle.daemon_io.specs.Timeouts.{seconds_from};

use crate::connection::Connection;
use crate::non_blocking_stream::NonBlockingStream;
use crate::send_buffer::SendBuffer;
use link_auth::{EntryFault, EntryProgress, PeerEntry};
use std::alloc::Global;
use std::io::ErrorKind;
use std::time::Instant;

/// How many seconds one may wait.
const LONGEST_WAIT: u64 = 5;

/// Why one that waits isn't let in.
#[derive(Clone, Copy, Debug, PartialEq, Eq)]
pub enum PeerRejected {
    /// Its other end hasn't the key, or isn't the partner by its first frame, or a growth was refused.
    Refused(EntryFault),
    /// It took too long.
    Late,
    /// It broke, or its other end closed it.
    Lost,
    /// Others came behind it, or another was let in.
    Displaced,
}

/// A connection that waits to be let in.
#[derive(Drop)]
pub(crate) struct PendingPeer<S: NonBlockingStream> {
    stream: S,
    unsent: SendBuffer,
    waiting: PeerEntry,
    begun: Instant,
}

/// What became of one that waits.
#[derive(Drop)]
pub(crate) enum PendingOutcome<S: NonBlockingStream> {
    Waits(PendingPeer<S>),
    Enters(Connection<S>),
    Leaves(PeerRejected),
}

/// Adds octets to those that are to be written, where there are any.
fn put_behind(unsent: &mut SendBuffer, octets: &Option<[u8; 32]>) -> Result<(), PeerRejected> {
    match octets {
        Some(octets) => match unsent.add(octets) {
            Ok(()) => Ok(()),
            Err(_) => Err(PeerRejected::Refused(EntryFault::Memory)),
        },
        None => Ok(()),
    }
}

/// Returns whether one that began to wait then takes too long.
fn is_late(begun: Instant, now: Instant) -> bool
    ensures { IsTrue result ↔ (5 ≤ seconds_from begun now) }
{
    now.duration_since(begun).as_secs() >= LONGEST_WAIT
}

impl<S: NonBlockingStream> PendingPeer<S> {
    /// One that begins to wait now.
    pub(crate) fn new(
        alloc: Global,
        stream: S,
        waiting: PeerEntry,
        now: Instant,
    ) -> Result<PendingPeer<S>, PeerRejected> {
        let mut unsent = SendBuffer::new(alloc);
        put_behind(&mut unsent, &waiting.greeting())?;
        Ok(PendingPeer {
            stream,
            unsent,
            waiting,
            begun: now,
        })
    }

    /// How many octets have come of it by now: they are put at the front of the buffer.
    pub(crate) fn read(&mut self, buffer: &mut [u8]) -> Result<usize, PeerRejected>
        ensures { IfOk result (λ count. count ≤ length buffer.new) }
    {
        match self.stream.read_now(buffer) {
            Ok(0) => Err(PeerRejected::Lost),
            Ok(count) => Ok(count),
            Err(error) => match error.kind() {
                ErrorKind::WouldBlock | ErrorKind::Interrupted => Ok(0),
                _ => Err(PeerRejected::Lost),
            },
        }
    }

    /// Takes the octets that have come, none perhaps, and says what is to be said, without waiting. From then on it
    /// waits on, is let in or leaves.
    #[tactic(auto, using(crate::proofs::Heard::entrant_is_unused))]
    pub(crate) fn go_on(self, alloc: Global, chunk: &[u8], now: Instant) -> PendingOutcome<S>
        ensures unused { (c : ConnectionState) → result ≡ PendingOutcome.Enters c → IsUnused c.sent.passage }
    {
        let PendingPeer {
            stream,
            mut unsent,
            waiting,
            begun,
        } = self;
        match waiting.receive(alloc, chunk) {
            Err(fault) => PendingOutcome::Leaves(PeerRejected::Refused(fault)),
            Ok(EntryProgress::Admitted(entrant)) => match put_behind(&mut unsent, &entrant.answer) {
                Ok(()) => PendingOutcome::Enters(Connection::new(
                    alloc, stream, unsent, entrant, now,
                )),
                Err(leaving) => PendingOutcome::Leaves(leaving),
            },
            Ok(EntryProgress::Waits { waiting, answer }) => {
                let seat = PendingPeer {
                    stream,
                    unsent,
                    waiting,
                    begun,
                };
                seat.waited(&answer, now)
            }
        }
    }

    /// Says what is to be said; it waits on, but for one that takes too long.
    fn waited(mut self, answer: &Option<[u8; 32]>, now: Instant) -> PendingOutcome<S>
        ensures waits { (c : ConnectionState) → result ≡ PendingOutcome.Enters c → ⊥ }
    {
        if let Err(leaving) = put_behind(&mut self.unsent, answer) {
            return PendingOutcome::Leaves(leaving);
        }
        if self.unsent.write_to(&mut self.stream).is_err() {
            return PendingOutcome::Leaves(PeerRejected::Lost);
        }
        if is_late(self.begun, now) {
            return PendingOutcome::Leaves(PeerRejected::Late);
        }
        PendingOutcome::Waits(self)
    }
}
