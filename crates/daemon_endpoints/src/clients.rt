//! What clients and relays ask, and what they are told.

ghost use Rattle.std.specs.Prelude.{◌≡◌, ◌↔◌, IsTrue, IfOk};
ghost use Rattle.daemon_endpoints.specs.Sending.{longest_wait, IsInTime, Leaves, AllLeave};
ghost use Rattle.daemon_endpoints.specs.Receiving.{MayReceive, HasHeard};

use crate::arrival::Arrival;
use crate::receiving::ReceiveError;
use access_records::{AccessRecord, Address};
use client_limits::{Limiter, PartnerReach};
use client_service::Admission;
use daemon_io::Datagrams;
use dhcp6_pd::{ClientKind, PdError, PdFault, ServerKind};
use disk_model::Folder;
use lead_time::{Reading, Transit};
use order_book::Book;
use server_book::ReplyPolicy;
use server_clocks::{Clocks, Moment};
use server_core::{DatagramOutcome, HeldAnswer, ServerCore};
use server_log::{Log, LogEvent};
use server_status::Traffic;
use std::alloc::{AllocError, Global};
use std::mem;
use std::time::{Duration, Instant};

/// The longest datagram, in octets.
const LONGEST: usize = 65_535;

/// How many datagrams are heard in one turn, at most: their lines are put to the disk together.
const MOST_HEARD: usize = 256;

/// How many milliseconds an answer may wait, where the settings have no transit.
const LONGEST_WITHOUT_TRANSIT: u64 = 1000;

/// The clients of a server and their relays.
#[derive(Drop)]
pub struct ClientEndpoint<G: Datagrams> {
    alloc: Global,
    datagrams: G,
    buffer: Vec<u8>,
    /// How long an answer may be under way to its client.
    transit: Transit,
    traffic: Traffic,
    /// The types of the answers that are held back, in their order.
    held: Vec<ServerKind>,
    /// What they may order, and the access records of what they were granted.
    limiter: Limiter,
}

/// The type of the answer to a message of this type.
fn answer_kind(kind: ClientKind) -> ServerKind {
    match kind {
        ClientKind::Solicit => ServerKind::Advertise,
        ClientKind::Request | ClientKind::Renew | ClientKind::Rebind | ClientKind::Release => {
            ServerKind::Reply
        }
    }
}

/// Returns whether a datagram with this fault is ordinary traffic: it was meant for another server, or has a type that
/// others read.
fn is_ordinary(fault: PdFault) -> bool {
    matches!(fault, PdFault::NotOurs | PdFault::Ignored)
}

/// The address that a datagram came from, if it is known.
fn source_of<G: Datagrams>(peer: &G::Peer) -> Option<Address> {
    let octets = G::source(peer)?;
    Some(Address(u128::from_be_bytes(octets)))
}

/// What the clocks read now: `Clock` where one tells no time.
fn read_clocks<C: Clocks>(clocks: &C) -> Result<Moment, ReceiveError>
    ensures { IfOk result C.gives }
{
    match clocks.now() {
        Some(now) => Ok(now),
        None => Err(ReceiveError::Clock),
    }
}

/// Hears a datagram: its orders are done at the reading of when it was heard.
fn hear<F: Folder + Drop, P: Drop, A: Admission>(
    running: &mut ServerCore<F, Arrival<P>>,
    admission: &mut A,
    manner: &ReplyPolicy,
    datagram: &[u8],
    peer: P,
    heard: Moment,
) -> DatagramOutcome
where
    F::File: Drop,
    ensures { HasHeard (λ m. m ≡ heard) running.old running.new }
{
    let reading = heard.reading;
    let arrival = Arrival { peer, heard };
    running.handle_datagram(admission, manner, reading, datagram, arrival)
}

impl<G: Datagrams> ClientEndpoint<G> {
    /// Clients whose datagrams come there, and who may order what this lets them. An error where a growth was refused.
    pub fn new(
        alloc: Global,
        datagrams: G,
        transit: Transit,
        limiter: Limiter,
    ) -> Result<ClientEndpoint<G>, AllocError>
        ensures datagrams { IfOk result (λ c. c.datagrams ≡ datagrams) }
        ensures transit { IfOk result (λ c. c.transit ≡ transit) }
    {
        Ok(ClientEndpoint {
            alloc,
            datagrams,
            buffer: vec![in alloc; 0u8; LONGEST]?,
            transit,
            traffic: Traffic::NONE,
            held: Vec::new(alloc),
            limiter,
        })
    }

    /// From now on clients may order what this lets them.
    pub fn limit_by(&mut self, limiter: Limiter)
        ensures datagrams { self.new.datagrams ≡ self.old.datagrams }
        ensures transit { self.new.transit ≡ self.old.transit }
    {
        self.limiter = limiter;
    }

    /// What came and what was sent so far.
    pub fn traffic(&self) -> Traffic {
        Traffic {
            held: self.held.len() as u64,
            over_quota: self.limiter.refused(),
            ..self.traffic
        }
    }

    /// Counts what became of a datagram. A fault that isn't ordinary is told.
    fn count<L: Print>(&mut self, heard: &DatagramOutcome, now: Reading, log: &mut Log<'_, L>)
        ensures { (self.new.datagrams ≡ self.old.datagrams) × (self.new.transit ≡ self.old.transit) }
    {
        match heard {
            DatagramOutcome::Answered(kind) => {
                self.traffic.messages.add(*kind);
                let _ = self.held.push(answer_kind(*kind));
            }
            DatagramOutcome::AnsweredInformation => {
                let _ = self.held.push(ServerKind::Reply);
            }
            DatagramOutcome::Unanswered(_)
            | DatagramOutcome::UnansweredInformation(_)
            | DatagramOutcome::EarlyRelease
            | DatagramOutcome::LeftToPartner => {
                self.traffic.unanswered = self.traffic.unanswered.saturating_add(1);
            }
            DatagramOutcome::TooMany => {
                self.traffic.unanswered = self.traffic.unanswered.saturating_add(1);
                log.log_limited(&LogEvent::TooMany, now);
            }
            DatagramOutcome::Malformed(PdError::Fault(fault)) => {
                self.traffic.faults.add(*fault);
                if !is_ordinary(*fault) {
                    log.log_limited(&LogEvent::Refused(*fault), now);
                }
            }
            DatagramOutcome::Malformed(PdError::TooLong | PdError::Memory) => {}
        }
    }

    /// Hears the datagrams that have come, 256 at most, while the partner is so far. The clocks are read after each: a
    /// line that was written for it mustn't be older than what it answers. Their answers are held back. Returns how many
    /// came.
    pub fn receive<F: Folder + Drop, C: Clocks, L: Print>(
        &mut self,
        running: &mut ServerCore<F, Arrival<G::Peer>>,
        manner: &ReplyPolicy,
        reach: PartnerReach,
        clocks: &C,
        log: &mut Log<'_, L>,
    ) -> Result<usize, ReceiveError>
    where
        F::File: Drop,
        ensures hears { MayReceive G.listens self.old.datagrams self.new.datagrams }
        ensures transit { self.new.transit ≡ self.old.transit }
        ensures heard { HasHeard C.gives running.old running.new }
    {
        self.limiter.set_partner_reach(reach);
        for count in 0..MOST_HEARD {
            let (length, peer) = match self.datagrams.receive(&mut self.buffer) {
                Ok(Some(came)) => came,
                Ok(None) => return Ok(count),
                Err(error) => return Err(ReceiveError::Datagrams(error)),
            };
            let now = read_clocks(clocks)?;
            let (strays, refused) = (self.limiter.moved_clients(), self.limiter.refused());
            self.limiter.comes_from(source_of::<G>(&peer));
            let reading = now.reading;
            let datagram = &self.buffer[..length];
            let outcome = hear(running, &mut self.limiter, manner, datagram, peer, now);
            self.count(&outcome, reading, log);
            self.log_moved_clients(strays, reading, log);
            self.log_refused(refused, reading, log);
        }
        Ok(MOST_HEARD)
    }

    /// Passes over the datagrams that have come, 256 at most: nobody answers them later. Returns how many.
    pub fn discard(&mut self) -> Result<usize, ReceiveError>
        ensures hears { MayReceive G.listens self.old.datagrams self.new.datagrams }
        ensures transit { self.new.transit ≡ self.old.transit }
    {
        for count in 0..MOST_HEARD {
            match self.datagrams.receive(&mut self.buffer) {
                Ok(Some(_)) => {}
                Ok(None) => return Ok(count),
                Err(error) => return Err(ReceiveError::Datagrams(error)),
            }
        }
        Ok(MOST_HEARD)
    }

    /// Takes the access records of what clients were granted since the last time, by the book that has the lines. For
    /// want of memory a grant goes without one.
    pub fn take_records(&mut self, book: &Book) -> Vec<AccessRecord>
        ensures datagrams { self.new.datagrams ≡ self.old.datagrams }
        ensures transit { self.new.transit ≡ self.old.transit }
    {
        let _ = self.limiter.scan_book(book);
        self.limiter.take_records()
    }

    /// Tells of identity associations that came from another relay port than their units were given by, if there are
    /// more than before.
    fn log_moved_clients<L: Print>(&self, before: u64, now: Reading, log: &mut Log<'_, L>) {
        if self.limiter.moved_clients() > before {
            log.log_limited(&LogEvent::Stray, now);
        }
    }

    /// Tells by which relay port was asked for what a quota refused, if there is more of it than before.
    fn log_refused<L: Print>(&self, before: u64, now: Reading, log: &mut Log<'_, L>) {
        if self.limiter.refused() > before {
            log.log_refused_port(self.limiter.port_words(), now);
        }
    }

    /// How many milliseconds an answer may wait before it leaves: half of the transit, rounded up, since the other half
    /// is the network's.
    fn longest_wait(&self) -> u64
        ensures { result ≡ longest_wait self.now.transit }
    {
        match self.transit.milliseconds() {
            0 => LONGEST_WITHOUT_TRANSIT,
            transit => (transit + 1) / 2,
        }
    }

    /// Returns whether an answer may still leave now, by when its message was heard.
    fn is_in_time(&self, heard: Instant, now: Instant) -> bool
        ensures { IsTrue result ↔ IsInTime self.now.transit heard now }
    {
        now.duration_since(heard) <= Duration::from_millis(self.longest_wait())
    }

    /// Notes that an answer isn't sent, since it is too late.
    fn note_late<L: Print>(&mut self, now: Reading, log: &mut Log<'_, L>)
        ensures { (self.new.datagrams ≡ self.old.datagrams) × (self.new.transit ≡ self.old.transit) }
    {
        self.traffic.late = self.traffic.late.saturating_add(1);
        log.log_limited(&LogEvent::Late, now);
    }

    /// Sends an answer to who asked, and counts it, unless it is too late by now: that is told. The clocks are read just
    /// before.
    fn send_one<C: Clocks, L: Print>(
        &mut self,
        held: &HeldAnswer<Arrival<G::Peer>>,
        kind: Option<ServerKind>,
        clocks: &C,
        log: &mut Log<'_, L>,
    )
        ensures leaves { Leaves C.gives C.fails G.sends self.old.transit self.old.datagrams held.now
            self.new.datagrams }
        ensures transit { self.new.transit ≡ self.old.transit }
    {
        let Some(now) = clocks.now() else {
            self.note_late(held.read, log);
            return;
        };
        let arrival = held.answer.peer();
        if !self.is_in_time(arrival.heard.instant, now.instant) {
            self.note_late(now.reading, log);
            return;
        }
        self.datagrams.send(&arrival.peer, held.answer.octets());
        if let Some(kind) = kind {
            self.traffic.answers.add(kind);
        }
    }

    /// Sends the answers that were held back, each to who asked, but for those that are too late.
    pub fn send<C: Clocks, L: Print>(
        &mut self,
        answers: &[HeldAnswer<Arrival<G::Peer>>],
        clocks: &C,
        log: &mut Log<'_, L>,
    )
        ensures leave { AllLeave C.gives C.fails G.sends self.old.transit self.old.datagrams answers.now
            self.new.datagrams }
        ensures transit { self.new.transit ≡ self.old.transit }
    {
        let kinds = mem::replace(&mut self.held, Vec::new(self.alloc));
        let mut kinds = kinds.into_iter();
        for held in answers {
            self.send_one(held, kinds.next(), clocks, log);
        }
    }
}
