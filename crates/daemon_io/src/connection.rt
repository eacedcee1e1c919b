//! A connection with the partner.

ghost use Rattle.std.specs.Prelude.{◌≡◌, ◌≤◌, ◌↔◌, ◌⊎◌, ℕ, Err, length, IsTrue, if◌then◌else◌};
ghost use Rattle.daemon_io.specs.declared.connection.ConnectionLost.TheVariants.{Memory, Spent};
ghost use Rattle.std.specs.Io.KnownBytes.{Keeps};
ghost use Rattle.daemon_io.specs.ConnectionWrites.{IsGiven, OnlyHears};
ghost use Rattle.daemon_io.specs.NoticeUses.{IsNoticeUse};
ghost use Rattle.daemon_io.specs.Timeouts.{seconds_from, IsTimedOut};

use crate::non_blocking_stream::NonBlockingStream;
use crate::notice_use::NoticeUse;
use crate::send_buffer::SendBuffer;
use link_auth::{AuthenticatedPeer, LinkFault, SecureChannel};
use std::alloc::Global;
use std::io::ErrorKind;
use std::marker::Model;
use std::time::Instant;
use thiserror::Error;

/// So many octets may wait to be written: a partner that takes none for so long has lost the connection.
const MOST_UNSENT: usize = 8 << 20;

/// After how many seconds without a first octet it is given up.
const FIRST_SILENCE: u64 = 5;

/// After how many seconds without an octet it is given up where a second connection comes.
const LONG_SILENCE: u64 = 60;

/// After how many seconds without an octet it is given up.
const LONGEST_SILENCE: u64 = 600;

/// What has come over a connection by now.
#[derive(Clone, Copy, Debug, PartialEq, Eq)]
pub enum ReadOutcome {
    /// So many octets, at the front of the buffer.
    Octets(usize),
    /// None now.
    Nothing,
    /// None, and none will come.
    End,
    /// Some that somebody sent who hasn't the key: none of the connection count any more.
    Forged,
}

/// Why a connection is over.
#[derive(Clone, Copy, Debug, PartialEq, Eq, Error)]
pub enum ConnectionLost {
    /// A write to it failed.
    #[error("it can't be written to")]
    Broken,
    /// The partner takes no octets: more than 8 MiB wait.
    #[error("its other end takes nothing")]
    Stuck,
    /// No number is left for a record.
    #[error("no number is left for a record")]
    Spent,
    /// A growth was refused.
    #[error("out of memory")]
    Memory,
}

/// The only connection with the partner while it stands, by a stream that doesn't wait.
#[derive(Drop)]
pub struct Connection<S: NonBlockingStream> {
    alloc: Global,
    stream: S,
    passage: SecureChannel,
    /// What has come and wasn't read yet.
    ahead: Vec<u8>,
    unsent: SendBuffer,
    /// When octets came last; before, when it began.
    heard: Instant,
    /// Whether any came.
    has_heard: bool,
    /// Whether notices go over it, as the nonces of its ends say.
    notices: NoticeUse,
}

impl<S: NonBlockingStream> Model for Connection<S> {
    ghost use Rattle.std.specs.Io.KnownBytes.{Keeps};
    ghost use Rattle.daemon_io.specs.ConnectionWrites.{ConnectionState, given};

    ghost Value = { ConnectionState };

    ghost view = { λ c. record {
      sent = record { given = given (S.contents c.stream) c.unsent; passage = c.passage };
      heard = c.heard;
      has_heard = c.has_heard;
      notices = c.notices;
    } };
}

/// The seconds in which nothing came: each is told once.
#[derive(Clone, Copy)]
pub struct IdleSecond {
    begun: Instant,
}

impl IdleSecond {
    /// The first begins now.
    pub fn new(now: Instant) -> IdleSecond {
        IdleSecond { begun: now }
    }

    /// Begins again, since something came.
    pub fn begin(&mut self, now: Instant)
        ensures { self.new.begun ≡ now }
    {
        self.begun = now;
    }

    /// Returns whether a second is full; the next one then begins.
    pub fn is_full(&mut self, now: Instant) -> bool
        ensures full { IsTrue result ↔ (1 ≤ seconds_from self.old.begun now) }
        ensures next { self.new.begun ≡ (if result then now else self.old.begun) }
    {
        let is_full = now.duration_since(self.begun).as_secs() >= 1;
        if is_full {
            self.begun = now;
        }
        is_full
    }
}

/// Puts octets that have come at the front of the buffer, as many as it takes, and keeps the others.
fn given_out(ahead: &mut Vec<u8>, buffer: &mut [u8]) -> usize
    ensures { result ≤ length buffer.new }
{
    let count = ahead.len().min(buffer.len());
    buffer[..count].copy_from_slice(&ahead[..count]);
    ahead.drain(..count);
    count
}

/// Why octets aren't given to a connection.
fn lost_by(fault: LinkFault) -> ConnectionLost
    ensures { (result ≡ Memory) ⊎ (result ≡ Spent) }
{
    match fault {
        LinkFault::Spent => ConnectionLost::Spent,
        LinkFault::TooLong | LinkFault::Forged | LinkFault::Memory => ConnectionLost::Memory,
    }
}

impl<S: NonBlockingStream> Connection<S> {
    /// The connection of who was let in now, over which these octets were still to be written.
    pub(crate) fn new(
        alloc: Global,
        stream: S,
        unsent: SendBuffer,
        entrant: AuthenticatedPeer,
        now: Instant,
    ) -> Connection<S>
        ensures passage { result.sent.passage ≡ entrant.passage }
        ensures notices { IsNoticeUse entrant.nonces result.notices }
    {
        let AuthenticatedPeer {
            passage,
            ahead,
            nonces,
            ..
        } = entrant;
        let has_heard = !ahead.is_empty();
        let notices = NoticeUse::of(&nonces);
        Connection {
            alloc,
            stream,
            passage,
            ahead,
            unsent,
            heard: now,
            has_heard,
            notices,
        }
    }

    /// Puts the octets that have come at the front of the buffer. An error of the stream's is its end, and so is want
    /// of memory.
    pub fn read(&mut self, buffer: &mut [u8], now: Instant) -> ReadOutcome
        ensures hears { OnlyHears self.old.sent self.new.sent }
        ensures notices { self.new.notices ≡ self.old.notices }
        ensures count { (count : ℕ) → result ≡ ReadOutcome.Octets count → count ≤ length buffer.new }
    {
        if !self.ahead.is_empty() {
            return ReadOutcome::Octets(given_out(&mut self.ahead, buffer));
        }
        match self.stream.read_now(buffer) {
            Ok(0) => ReadOutcome::End,
            Ok(count) => {
                self.heard = now;
                self.has_heard = true;
                self.take(buffer, count)
            }
            Err(error) => match error.kind() {
                ErrorKind::WouldBlock | ErrorKind::Interrupted => ReadOutcome::Nothing,
                _ => ReadOutcome::End,
            },
        }
    }

    /// Puts what the octets at the front of the buffer say there.
    fn take(&mut self, buffer: &mut [u8], count: usize) -> ReadOutcome
        requires { count ≤ length buffer.old }
        ensures hears { OnlyHears self.old.sent self.new.sent }
        ensures notices { self.new.notices ≡ self.old.notices }
        ensures count { (count : ℕ) → result ≡ ReadOutcome.Octets count → count ≤ length buffer.new }
    {
        match self.passage.decode(self.alloc, &buffer[..count]) {
            Ok(octets) => {
                self.ahead = octets;
                ReadOutcome::Octets(given_out(&mut self.ahead, buffer))
            }
            Err(LinkFault::Memory) => ReadOutcome::End,
            Err(LinkFault::TooLong | LinkFault::Forged | LinkFault::Spent) => ReadOutcome::Forged,
        }
    }

    /// Writes octets behind all others: now, or as soon as the stream takes them (`flush`).
    #[tactic(auto, using(crate::proofs::Given::put_is_lost, crate::proofs::Given::nothing_given))]
    pub fn write(&mut self, octets: &[u8]) -> Result<(), ConnectionLost>
        ensures given { IsGiven octets.now self.old.sent self.new.sent result }
        ensures notices { self.new.notices ≡ self.old.notices }
    {
        let sent = match self.passage.encode(self.alloc, octets) {
            Ok(sent) => sent,
            Err(fault) => return Err(lost_by(fault)),
        };
        if self.unsent.add(&sent).is_err() {
            return Err(ConnectionLost::Memory);
        }
        self.flush()
    }

    /// Writes what waits, as far as the stream takes it now.
    #[tactic(auto, using(crate::proofs::Given::passed_is_kept))]
    pub fn flush(&mut self) -> Result<(), ConnectionLost>
        ensures given { Keeps self.old.sent.given self.new.sent.given }
        ensures passage { self.new.sent.passage ≡ self.old.sent.passage }
        ensures notices { self.new.notices ≡ self.old.notices }
        ensures stream { (result ≡ Err Memory → ⊥) × (result ≡ Err Spent → ⊥) }
    {
        if self.unsent.write_to(&mut self.stream).is_err() {
            return Err(ConnectionLost::Broken);
        }
        if self.unsent.len() > MOST_UNSENT {
            return Err(ConnectionLost::Stuck);
        }
        Ok(())
    }

    /// Returns whether octets have come over it.
    pub fn has_heard(&self) -> bool
        ensures { result ≡ self.now.has_heard }
    {
        self.has_heard
    }

    /// Returns whether notices go over it.
    pub fn notices(&self) -> NoticeUse
        ensures { result ≡ self.now.notices }
    {
        self.notices
    }

    /// Returns whether it is to be given up: nothing came at first, or for long, or a second connection has come
    /// behind a minute of silence: its other end may have lost it without a word.
    pub fn is_timed_out(&self, now: Instant, has_other: bool) -> bool
        ensures { IsTrue result ↔ IsTimedOut self.now.has_heard has_other (seconds_from self.now.heard now) }
    {
        let silence = now.duration_since(self.heard).as_secs();
        if !self.has_heard {
            return silence >= FIRST_SILENCE;
        }
        silence >= LONGEST_SILENCE || (has_other && silence >= LONG_SILENCE)
    }
}
