//! Where connections wait, side by side, until one of them is let in.

ghost use Rattle.std.specs.Prelude.{IfSome};
ghost use Rattle.daemon_io.specs.ConnectionWrites.{IsUnused};

use crate::connection::Connection;
use crate::connection_source::NewConnection;
use crate::non_blocking_stream::NonBlockingStream;
use crate::pending_peer::{PeerRejected, PendingOutcome, PendingPeer};
use link_auth::{HandshakeRole, PeerAuthenticator};
use std::alloc::Global;
use std::mem;
use std::time::Instant;

/// How many may wait side by side.
const MOST_SEATS: usize = 8;

/// Where connections wait to be let in.
#[derive(Drop)]
pub struct PendingPeers<S: NonBlockingStream> {
    alloc: Global,
    keeper: PeerAuthenticator,
    seats: Vec<PendingPeer<S>>,
    /// Why those left that weren't let in, since this was asked last.
    left: Vec<PeerRejected>,
    /// Whether anything came, since this was asked last.
    has_come: bool,
}

impl<S: NonBlockingStream> PendingPeers<S> {
    /// None waits yet.
    pub fn new(alloc: Global, keeper: PeerAuthenticator) -> PendingPeers<S> {
        PendingPeers {
            alloc,
            keeper,
            seats: Vec::new(alloc),
            left: Vec::new(alloc),
            has_come: false,
        }
    }

    /// Returns whether another connection may wait. An end that calls has one connection; one that is called takes
    /// others too while one stands, where the key tells who the partner is.
    pub fn has_room(&self, stands: bool) -> bool {
        match self.keeper.side {
            HandshakeRole::Initiator => !stands && self.seats.is_empty(),
            HandshakeRole::Responder => !stands || self.keeper.key.is_some(),
        }
    }

    /// Returns how many may come in one turn: as many as there are free seats, and one where all are taken, who puts
    /// out another: so those that wait have some turns to show who they are.
    pub fn places(&self) -> usize {
        MOST_SEATS.saturating_sub(self.seats.len()).max(1)
    }

    /// Returns whether anything came, since this was asked last.
    pub fn has_come(&mut self) -> bool {
        mem::replace(&mut self.has_come, false)
    }

    /// Why those left that weren't let in, since this was asked last; for want of memory it isn't known.
    pub fn left(&mut self) -> Vec<PeerRejected> {
        mem::replace(&mut self.left, Vec::new(self.alloc))
    }

    /// Notes why one left.
    fn note(&mut self, leaving: PeerRejected) {
        // for want of memory it goes untold
        let _ = self.left.push(leaving);
    }

    /// Gives one that has come a seat; where all are taken, who has waited longest is put out.
    pub fn seat(&mut self, arrival: NewConnection<S>, now: Instant) {
        let NewConnection { stream, nonce } = arrival;
        self.has_come = true;
        let waiting = self.keeper.begin(self.alloc, nonce);
        match PendingPeer::new(self.alloc, stream, waiting, now) {
            Ok(seat) => {
                if self.seats.len() >= MOST_SEATS {
                    self.seats.drain(..1);
                    self.note(PeerRejected::Displaced);
                }
                if self.seats.push(seat).is_err() {
                    self.note(PeerRejected::Lost);
                }
            }
            Err(leaving) => self.note(leaving),
        }
    }

    /// Goes on with one that waits. Gives it where it is let in.
    fn go_on_with(
        &mut self,
        mut seat: PendingPeer<S>,
        buffer: &mut [u8],
        now: Instant,
    ) -> Option<Connection<S>>
        ensures unused { IfSome result (λ c. IsUnused c.sent.passage) }
    {
        let count = match seat.read(buffer) {
            Ok(count) => count,
            Err(leaving) => {
                self.note(leaving);
                return None;
            }
        };
        self.has_come |= count > 0;
        match seat.go_on(self.alloc, &buffer[..count], now) {
            PendingOutcome::Enters(connection) => return Some(connection),
            PendingOutcome::Waits(seat) => self.keep(seat),
            PendingOutcome::Leaves(leaving) => self.note(leaving),
        }
        None
    }

    /// Goes on with all that wait, in the order in which they came, and gives the first that is let in now: no record
    /// was put over it yet. Without a key all others are put out then.
    pub fn go_on(&mut self, buffer: &mut [u8], now: Instant) -> Option<Connection<S>>
        ensures unused { IfSome result (λ c. IsUnused c.sent.passage) }
    {
        let mut entered = None;
        let seats = mem::replace(&mut self.seats, Vec::new(self.alloc));
        for seat in seats {
            if entered.is_none() {
                entered = self.go_on_with(seat, buffer, now);
            } else {
                self.keep(seat);
            }
        }
        if entered.is_some() && self.keeper.key.is_none() {
            self.put_all_out();
        }
        entered
    }

    /// Puts all out that wait.
    fn put_all_out(&mut self) {
        for _seat in 0..self.seats.len() {
            self.note(PeerRejected::Displaced);
        }
        self.seats.clear();
    }

    /// Keeps one that waits on.
    fn keep(&mut self, seat: PendingPeer<S>) {
        if self.seats.push(seat).is_err() {
            self.note(PeerRejected::Lost);
        }
    }
}
