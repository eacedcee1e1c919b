//! The partner: the connections that wait, and the one that stands.

ghost use Rattle.std.specs.Prelude.{◌≡◌, [], Some, None, IfOk, IfSome};
ghost use Rattle.daemon_io.specs.ConnectionWrites.{IsUnused};
ghost use Rattle.daemon_endpoints.specs.Receiving.{HasSameFiles};
ghost use Rattle.daemon_endpoints.specs.Serials.{UsesNoSerial, UsesNoSerialApart};
ghost use Rattle.daemon_endpoints.specs.Saying.{frames_of, SaysOver, StandsOn, MayStand};

use crate::partner_arrival::PartnerArrival;
use crate::peer_connection::{Heard, PeerConnection};
use crate::receiving::ReceiveError;
use binding_rules::ServerState;
use daemon_io::{Connection, ConnectionSource, Pause, PeerRejected, PendingPeers};
use disk_model::Folder;
use failover_session::{OutboundFrame, SessionStage};
use lead_time::Reading;
use link_auth::{EntryFault, PeerAuthenticator};
use notice_exchange::NoticeTalk;
use order_book::Order;
use server_clocks::{Clocks, Moment};
use server_core::ServerCore;
use server_log::{DisconnectReason, Log, LogEvent};
use server_settings::Settings;
use server_status::LastRefusal;
use std::alloc::{AllocError, Global};
use std::marker::Model;
use std::time::{Duration, Instant};

/// How many octets are read at once, at most.
const READ_SIZE: usize = 65_536;

/// The way to the partner. Contracts see what was given to the connection that stands, if one does.
#[derive(Drop)]
pub struct PartnerEndpoint<D: ConnectionSource> {
    alloc: Global,
    door: D,
    buffer: Vec<u8>,
    waiting: PendingPeers<D::Stream>,
    pub(crate) standing: Option<PeerConnection<D>>,
    /// What the two told each other by notices over the connection before.
    pub(crate) last: Option<NoticeTalk>,
    /// When the partner was heard last over a connection that is over.
    last_heard: Option<Reading>,
    /// Why the partner was refused last, until a connection with it has stood for a while.
    refusal: Option<LastRefusal>,
}

impl<D: ConnectionSource> Model for PartnerEndpoint<D> {
    ghost use Rattle.std.specs.Prelude.{Option, option_map};
    ghost use Rattle.daemon_io.specs.ConnectionWrites.{Sent};

    ghost Value = { Option Sent };

    ghost view = { λ p. option_map (λ s. s.connection.sent) p.standing };
}

/// What a person is told of one that waited and wasn't let in.
fn event_of(leaving: &PeerRejected) -> LogEvent {
    match leaving {
        PeerRejected::Refused(EntryFault::Forged) => LogEvent::Disconnected(
            DisconnectReason::Forged,
        ),
        PeerRejected::Refused(EntryFault::Stranger) => LogEvent::Disconnected(
            DisconnectReason::Stranger,
        ),
        PeerRejected::Refused(EntryFault::Memory) => LogEvent::Disconnected(
            DisconnectReason::Memory,
        ),
        PeerRejected::Late => LogEvent::Disconnected(DisconnectReason::Unproved),
        PeerRejected::Lost => LogEvent::Disconnected(DisconnectReason::LostUnproved),
        PeerRejected::Displaced => LogEvent::Rejected,
    }
}

/// Shows that a server lives without a serial, unless it takes its partner for down.
#[tactic(auto, using(crate::proofs::Serials::state_uses_none, crate::proofs::Serials::same_uses_none))]
fn show_life<F: Folder + Drop, P: Drop>(running: &mut ServerCore<F, P>, now: &Moment)
where
    F::File: Drop,
    ensures files { HasSameFiles running.old running.new }
    ensures serials { UsesNoSerial running.old running.new }
{
    if running.book().down().is_some() {
        return;
    }
    match running.serve(now.reading, &Order::State(ServerState::Interrupted)) {
        Ok(_receipt) => {}
        Err(_refusal) => {}
    }
}

impl<D: ConnectionSource> PartnerEndpoint<D> {
    /// A partner who comes by a door, and is let in by a keeper. An error where a growth was refused.
    pub fn new(
        alloc: Global,
        door: D,
        keeper: PeerAuthenticator,
    ) -> Result<PartnerEndpoint<D>, AllocError>
        ensures { IfOk result (λ p. p ≡ None) }
    {
        Ok(PartnerEndpoint {
            alloc,
            door,
            buffer: vec![in alloc; 0u8; READ_SIZE]?,
            waiting: PendingPeers::new(alloc, keeper),
            standing: None,
            last: None,
            last_heard: None,
            refusal: None,
        })
    }

    /// Since when there is a connection; none where there is none.
    pub fn connected(&self) -> Option<Reading> {
        Some(self.standing.as_ref()?.begun.reading)
    }

    /// When the partner was heard last, over the connection that stands or one before; none where it never was.
    pub fn heard(&self) -> Option<Reading> {
        match &self.standing {
            Some(standing) => standing.heard.or(self.last_heard),
            None => self.last_heard,
        }
    }

    /// Why the partner was refused last, if it was and no connection with it has stood for a while since.
    pub fn refusal(&self) -> Option<LastRefusal> {
        self.refusal
    }

    /// Gives connections that have come a seat, as far as there is room. Where there is none the next is closed, and
    /// that is told: returns whether one was.
    fn accept_connections<L: Print>(&mut self, now: &Moment, log: &mut Log<'_, L>) -> bool
        ensures { self.new ≡ self.old }
    {
        let stands = self.standing.is_some();
        if !self.waiting.has_room(stands) {
            return self.turn_away(now, log);
        }
        for _place in 0..self.waiting.places() {
            if !self.waiting.has_room(stands) {
                return false;
            }
            match self.door.next_connection(now.instant) {
                Some(arrival) => self.waiting.seat(arrival, now.instant),
                None => return false,
            }
        }
        false
    }

    /// Closes a connection that has come, and tells it. Returns whether one had.
    fn turn_away<L: Print>(&mut self, now: &Moment, log: &mut Log<'_, L>) -> bool
        ensures { self.new ≡ self.old }
    {
        let has_other = self.door.reject_next();
        if has_other {
            log.log_limited(&LogEvent::Rejected, now.reading);
        }
        has_other
    }

    /// Goes on with those that wait, and tells why others left. Gives the one that is let in now.
    fn authenticate_pending<L: Print>(
        &mut self,
        now: &Moment,
        log: &mut Log<'_, L>,
    ) -> Option<Connection<D::Stream>>
        ensures same { self.new ≡ self.old }
        ensures unused { IfSome result (λ c. IsUnused c.sent.passage) }
    {
        let entered = self.waiting.go_on(&mut self.buffer, now.instant);
        for leaving in self.waiting.left().as_slice() {
            log.log_limited(&event_of(leaving), now.reading);
            self.door.back_off(Pause::Long, now.instant);
        }
        entered
    }

    /// Parts with the connection that stands, where there is one: the partner has another.
    fn replace<L: Print>(&mut self, now: &Moment, log: &mut Log<'_, L>)
        ensures none { self.new ≡ None }
    {
        if let Some(standing) = self.standing.take() {
            standing.log_disconnect(DisconnectReason::Replaced, now, log);
            self.keep_traces(standing);
        }
    }

    /// Keeps of a connection that is over when the partner was heard last, and what the two told each other.
    fn keep_traces(&mut self, standing: PeerConnection<D>)
        ensures { self.new ≡ self.old }
    {
        self.last_heard = standing.heard.or(self.last_heard);
        self.keep_talk(standing.into_talk());
    }

    /// Keeps what the two told each other over a connection that is over, where the partner said anything of itself.
    fn keep_talk(&mut self, talk: Option<NoticeTalk>)
        ensures { self.new ≡ self.old }
    {
        match &talk {
            Some(told) if told.settings().is_none() => {}
            _ => self.last = talk,
        }
    }

    /// Ends a connection that stood: tells why, and waits before the next is called.
    fn end<L: Print>(
        &mut self,
        standing: PeerConnection<D>,
        parting: DisconnectReason,
        now: &Moment,
        log: &mut Log<'_, L>,
    )
        ensures { self.new ≡ self.old }
    {
        standing.log_disconnect(parting, now, log);
        if let Some(why) = parting.refusal() {
            self.refusal = Some(LastRefusal {
                why,
                at: now.reading,
            });
        }
        self.door
            .back_off(standing.pause(&parting, now), now.instant);
        self.keep_traces(standing);
    }

    /// Begins the session over the connection of who was let in, or its talk of notices.
    fn begin_session<F: Folder + Drop, P: Drop>(
        &mut self,
        running: &mut ServerCore<F, P>,
        settings: &Settings,
        connection: Connection<D::Stream>,
        now: &Moment,
    )
    where
        F::File: Drop,
        ensures files { HasSameFiles running.old running.new }
        ensures stands { self.new ≡ Some connection.sent }
    {
        let mut standing = PeerConnection::new(self.alloc, connection, settings, now);
        standing.go_on(running, settings, &Heard::nothing(now));
        self.standing = Some(standing);
    }

    /// Hears the partner over the connection that stands, where there is one. Returns what came.
    fn receive_over_connection<F: Folder + Drop, P: Drop, C: Clocks, L: Print>(
        &mut self,
        running: &mut ServerCore<F, P>,
        settings: &Settings,
        has_other: bool,
        now: &Moment,
        clocks: &C,
        log: &mut Log<'_, L>,
    ) -> Result<PartnerArrival, ReceiveError>
    where
        F::File: Drop,
        ensures files { HasSameFiles running.old running.new }
        ensures stands { MayStand self.old self.new }
    {
        let Some(mut standing) = self.standing.take() else {
            return Ok(PartnerArrival::Nothing);
        };
        let arrival = standing.receive(running, settings, &mut self.buffer, now.instant, clocks)?;
        standing.log_joined(running.stage(), self.refusal.is_some(), now, log);
        if standing.has_joined {
            self.refusal = None;
        }
        standing.log_settings(now, log);
        standing.log_silence(now, log);
        standing.close_if_stale(has_other, now);
        self.standing = Some(standing);
        Ok(arrival)
    }

    /// Hears the partner: over the connection that stands, or by one that waited and is let in. Returns what came.
    pub fn receive<F: Folder + Drop, P: Drop, C: Clocks, L: Print>(
        &mut self,
        running: &mut ServerCore<F, P>,
        settings: &Settings,
        now: &Moment,
        clocks: &C,
        log: &mut Log<'_, L>,
    ) -> Result<PartnerArrival, ReceiveError>
    where
        F::File: Drop,
        ensures files { HasSameFiles running.old running.new }
        ensures stands { MayStand self.old self.new }
    {
        if let Some(connection) = self.authenticate_pending(now, log) {
            self.replace(now, log);
            running.disconnect_partner();
            self.begin_session(running, settings, connection, now);
            return Ok(PartnerArrival::Entered);
        }
        let has_other = self.accept_connections(now, log);
        match self.receive_over_connection(running, settings, has_other, now, clocks, log) {
            Ok(arrival) => Ok(arrival.or_waiting(self.waiting.has_come())),
            Err(error) => Err(error),
        }
    }

    /// How long the connection has stood by the monotonic clock; none where there is none.
    pub fn connected_for(&self, now: Instant) -> Option<Duration> {
        Some(now.duration_since(self.standing.as_ref()?.begun.instant))
    }

    /// Shows that this server lives: by a contact, where the two have joined over the connection. Else no serial is used,
    /// since the partner couldn't take it: what shows it then is a line `state interrupted`, unless the partner is taken
    /// for down, which that line would end. Where the book refuses it now, nothing is done.
    #[tactic(auto, using(crate::proofs::Serials::joined_is))]
    pub fn contact<F: Folder + Drop, P: Drop>(
        &mut self,
        running: &mut ServerCore<F, P>,
        settings: &Settings,
        now: &Moment,
    )
    where
        F::File: Drop,
        ensures files { HasSameFiles running.old running.new }
        ensures same { self.new ≡ self.old }
        ensures serials { UsesNoSerialApart running.old running.new }
    {
        match running.stage() {
            Some(SessionStage::Joined { .. }) => self.send_heartbeat(running, settings, now),
            _ => show_life(running, now),
        }
    }

    /// Sends a contact over the connection.
    fn send_heartbeat<F: Folder + Drop, P: Drop>(
        &mut self,
        running: &mut ServerCore<F, P>,
        settings: &Settings,
        now: &Moment,
    )
    where
        F::File: Drop,
        ensures files { HasSameFiles running.old running.new }
        ensures same { self.new ≡ self.old }
    {
        if let Some(standing) = &mut self.standing {
            standing.send_heartbeat(running, settings, now);
        }
    }

    /// Hears the partner's notices over the connection that stands, where there is one that isn't over.
    fn meet_over_connection<C: Clocks, L: Print>(
        &mut self,
        has_other: bool,
        now: &Moment,
        clocks: &C,
        log: &mut Log<'_, L>,
    ) -> Result<PartnerArrival, ReceiveError>
        ensures stands { MayStand self.old self.new }
    {
        let Some(mut standing) = self.standing.take() else {
            return Ok(PartnerArrival::Nothing);
        };
        let arrival = standing.meet(&mut self.buffer, now.instant, clocks)?;
        standing.log_silence(now, log);
        standing.close_if_stale(has_other, now);
        self.standing = Some(standing);
        Ok(arrival)
    }

    /// Hears the partner's notices alone: over the connection that stands, or by one that waited and is let in. What is
    /// the session's waits. Whoever calls it has ended the session of the connection that stood. Returns what came.
    pub fn meet<C: Clocks, L: Print>(
        &mut self,
        settings: &Settings,
        now: &Moment,
        clocks: &C,
        log: &mut Log<'_, L>,
    ) -> Result<PartnerArrival, ReceiveError>
        ensures stands { MayStand self.old self.new }
    {
        if let Some(connection) = self.authenticate_pending(now, log) {
            self.replace(now, log);
            self.standing = Some(PeerConnection::new(self.alloc, connection, settings, now));
            return Ok(PartnerArrival::Entered);
        }
        let has_other = self.accept_connections(now, log);
        match self.meet_over_connection(has_other, now, clocks, log) {
            Ok(arrival) => Ok(arrival.or_waiting(self.waiting.has_come())),
            Err(error) => Err(error),
        }
    }

    /// Says the notices that are due, and ends the connection where it is over: no session may go over it.
    #[tactic(auto, using(crate::proofs::Given::noticed_to))]
    pub fn say_notices<L: Print>(&mut self, now: &Moment, log: &mut Log<'_, L>)
        ensures said { SaysOver [] self.old self.new }
    {
        let Some(mut standing) = self.standing.take() else {
            return;
        };
        standing.say_notices(now);
        let parting = standing.parting;
        match parting {
            Some(parting) => self.end(standing, parting, now, log),
            None => self.standing = Some(standing),
        }
    }

    /// Says the notices that are due and the frames that were held back, and ends the connection where it is over.
    pub fn send_frames<F: Folder + Drop, P: Drop, L: Print>(
        &mut self,
        running: &mut ServerCore<F, P>,
        frames: &[OutboundFrame],
        now: &Moment,
        log: &mut Log<'_, L>,
    )
    where
        F::File: Drop,
        ensures files { HasSameFiles running.old running.new }
        ensures said { SaysOver (frames_of frames.now) self.old self.new }
    {
        let Some(mut standing) = self.standing.take() else {
            return;
        };
        standing.send_all(frames, now);
        match standing.disconnect_reason(running.stage()) {
            Some(parting) => {
                running.disconnect_partner();
                self.end(standing, parting, now, log);
            }
            None => self.standing = Some(standing),
        }
    }

    /// Ends the connection behind this turn, where there is one: in the next one the partner names what it has taken,
    /// and receipts of older volumes are forgotten.
    pub fn reconnect(&mut self)
        ensures { self.new ≡ self.old }
    {
        self.part(DisconnectReason::Rolled);
    }

    /// Ends the connection behind this turn for a reason, where there is one that isn't over already.
    pub fn part(&mut self, why: DisconnectReason)
        ensures { self.new ≡ self.old }
    {
        if let Some(standing) = &mut self.standing {
            standing.end(why);
        }
    }

    /// Says DISCONNECT, where there is a connection.
    pub fn send_disconnect(&mut self)
        ensures { SaysOver [] self.old self.new }
    {
        if let Some(standing) = &mut self.standing {
            standing.send_disconnect();
        }
    }

    /// Reads on behind DISCONNECT, and passes it over: a connection that is closed with octets unread may lose what was
    /// written last. Returns whether the other end goes on.
    pub fn drain(&mut self, now: &Moment) -> bool
        ensures { StandsOn self.old self.new }
    {
        let Some(standing) = &mut self.standing else {
            return false;
        };
        standing.drain(&mut self.buffer, now.instant)
    }
}
