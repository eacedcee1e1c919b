//! A connection with the partner that stands, turn by turn.

ghost use Rattle.std.specs.Prelude.{◌≡◌, ◌≤◌, ℕ, List, [], None, Some, length};
ghost use Rattle.daemon_io.specs.ConnectionWrites.{IsGiven, OnlyHears};
ghost use Rattle.failover_message.specs.Frames.{frame_octets};
ghost use Rattle.daemon_endpoints.specs.Hearing.{arrival_of, CameBy};
ghost use Rattle.daemon_endpoints.specs.Joining.{OpensBy};
ghost use Rattle.daemon_endpoints.specs.Receiving.{HasSameFiles};
ghost use Rattle.daemon_endpoints.specs.Saying.{frames_of, AreGiven, AreFirstGiven, Says, IsLastWord};
ghost use Rattle.failover_message.specs.declared.frame.Frame.{Frame as FrameValue};
ghost use Rattle.server_log.specs.declared.disconnect_reason.DisconnectReason.TheVariants.{Lost as HasLost};

use crate::handing::{Arrived, hand_on};
use crate::parting::{
    can_resend, parting_at, parting_by, parting_of, parting_with, parting_without,
};
use crate::partner_arrival::PartnerArrival;
use crate::peer_notices::{opening, take_octets};
use crate::receiving::ReceiveError;
use binding_rules::Counter;
use daemon_io::{Connection, ConnectionLost, ConnectionSource, IdleSecond, Pause, ReadOutcome};
use disk_model::Folder;
use failover_message::{Frame, FrameKind, encode};
use failover_session::{LinkInput, OutboundFrame, SessionStage};
use lead_time::Reading;
use notice_exchange::{LinkEvent, NoticeTalk};
use server_clocks::{Clocks, Moment};
use server_core::ServerCore;
use server_log::{DisconnectReason, Log, LogEvent};
use server_settings::Settings;
use std::alloc::Global;
use std::mem;
use std::time::Instant;

/// How many seconds a connection stands that has stood for a while.
const A_WHILE: u64 = 10;

/// After how many seconds without an octet a person is told of it: twice what a server lets pass without a line, where
/// its settings don't say it.
const LONG_SILENCE: u64 = 120;

/// How many events may wait for a session, before no more is read.
const MOST_EVENTS: usize = 16;

/// A connection that stands.
#[derive(Drop)]
pub(crate) struct PeerConnection<D: ConnectionSource> {
    pub(crate) alloc: Global,
    pub(crate) connection: Connection<D::Stream>,
    /// What the two tell each other by notices, where both understand them.
    pub(crate) notices: Option<NoticeTalk>,
    /// What came and wasn't handed on to the session yet.
    events: Vec<LinkEvent>,
    quiet: IdleSecond,
    pub(crate) begun: Moment,
    /// When the partner was heard last.
    pub(crate) heard: Option<Reading>,
    /// When octets came last, or it was told that none did; before, when it began.
    listened: Instant,
    /// Whether it was told that the two have joined: each has named what it took last.
    pub(crate) has_joined: bool,
    /// Why it is over once all that is held back has gone out.
    pub(crate) parting: Option<DisconnectReason>,
}

/// What was heard over a connection, and when.
#[derive(Clone, Copy)]
pub(crate) struct Heard {
    at: Moment,
    arrived: Arrived,
}

impl Heard {
    /// Nothing yet, of a connection that begins.
    pub(crate) fn nothing(now: &Moment) -> Heard {
        Heard {
            at: *now,
            arrived: Arrived::Nothing,
        }
    }

    /// What came of the partner by it: octets, when it was heard; or the end.
    fn arrival(&self) -> PartnerArrival
        ensures { result ≡ arrival_of self.now.at.instant self.now.arrived }
    {
        match self.arrived {
            Arrived::Octets => PartnerArrival::Octets(self.at.instant),
            Arrived::End => PartnerArrival::Event,
            Arrived::Nothing | Arrived::IdleSecond => PartnerArrival::Nothing,
        }
    }
}

/// What a server says last.
const DISCONNECT: Frame = Frame {
    term: 0,
    serial: Counter::ZERO,
    kind: FrameKind::Disconnect,
};

impl<D: ConnectionSource> PeerConnection<D> {
    /// A connection that begins now, of a server of these settings.
    pub(crate) fn new(
        alloc: Global,
        connection: Connection<D::Stream>,
        settings: &Settings,
        now: &Moment,
    ) -> PeerConnection<D>
        ensures same { result.connection ≡ connection }
        ensures opens { result.parting ≡ None → OpensBy connection.notices result.notices result.events.items }
    {
        let (notices, events, parting) = match opening(alloc, connection.notices(), settings) {
            Ok((notices, events)) => (notices, events, None),
            Err(_) => (None, Vec::new(alloc), Some(DisconnectReason::Memory)),
        };
        PeerConnection {
            alloc,
            connection,
            notices,
            events,
            quiet: IdleSecond::new(now.instant),
            begun: *now,
            heard: None,
            listened: now.instant,
            has_joined: false,
            parting,
        }
    }

    /// Notes why it is over, where it isn't over already.
    pub(crate) fn end(&mut self, why: DisconnectReason)
        ensures { self.new.connection ≡ self.old.connection }
    {
        if self.parting.is_none() {
            self.parting = Some(why);
        }
    }

    /// Takes octets that came: what they lead to waits for the session.
    fn lead(&mut self, octets: &[u8], now: Reading)
        ensures { self.new.connection ≡ self.old.connection }
    {
        let taken = take_octets(self.alloc, &mut self.notices, octets, now, &mut self.events);
        if let Err(end) = taken {
            self.end(parting_with(end));
        }
    }

    /// Takes what a read gave.
    fn take(&mut self, got: ReadOutcome, buffer: &[u8], now: &Moment) -> Arrived
        requires { (count : ℕ) → got ≡ ReadOutcome.Octets count → count ≤ length buffer.now }
        ensures connection { self.new.connection ≡ self.old.connection }
        ensures came { CameBy got result }
    {
        match got {
            ReadOutcome::Octets(count) => {
                self.quiet.begin(now.instant);
                self.heard = Some(now.reading);
                self.listened = now.instant;
                self.lead(&buffer[..count], now.reading);
                Arrived::Octets
            }
            ReadOutcome::Nothing if self.quiet.is_full(now.instant) => Arrived::IdleSecond,
            ReadOutcome::Nothing => Arrived::Nothing,
            ReadOutcome::End => {
                self.end(DisconnectReason::Lost);
                Arrived::End
            }
            ReadOutcome::Forged => {
                self.end(DisconnectReason::Forged);
                Arrived::End
            }
        }
    }

    /// Reads what has come; what is the session's waits. The clock is read after that: a line that takes a message
    /// mustn't be older than the message. `Clock` where it tells no time.
    fn hear<C: Clocks>(
        &mut self,
        buffer: &mut [u8],
        begun: Instant,
        clocks: &C,
    ) -> Result<Heard, ReceiveError>
        ensures { OnlyHears self.old.connection.sent self.new.connection.sent }
    {
        let got = self.connection.read(buffer, begun);
        let Some(now) = clocks.now() else {
            return Err(ReceiveError::Clock);
        };
        let arrived = self.take(got, buffer, &now);
        Ok(Heard { at: now, arrived })
    }

    /// Hands on to the session what was heard, and all that waited for it.
    pub(crate) fn go_on<F: Folder + Drop, P: Drop>(
        &mut self,
        running: &mut ServerCore<F, P>,
        settings: &Settings,
        heard: &Heard,
    )
    where
        F::File: Drop,
        ensures files { HasSameFiles running.old running.new }
        ensures connection { self.new.connection ≡ self.old.connection }
    {
        running.see_clock(heard.at.instant);
        let events = mem::replace(&mut self.events, Vec::new(self.alloc));
        match hand_on(
            running,
            settings,
            heard.at.reading,
            events.as_slice(),
            heard.arrived,
        ) {
            Ok(()) => self.look_at_stage(running),
            Err(error) => self.end(parting_by(running.stage(), error)),
        }
    }

    /// Reads what has come, and does what follows from it. Returns what came.
    pub(crate) fn receive<F: Folder + Drop, P: Drop, C: Clocks>(
        &mut self,
        running: &mut ServerCore<F, P>,
        settings: &Settings,
        buffer: &mut [u8],
        begun: Instant,
        clocks: &C,
    ) -> Result<PartnerArrival, ReceiveError>
    where
        F::File: Drop,
        ensures files { HasSameFiles running.old running.new }
        ensures hears { OnlyHears self.old.connection.sent self.new.connection.sent }
    {
        let heard = self.hear(buffer, begun, clocks)?;
        self.go_on(running, settings, &heard);
        Ok(heard.arrival())
    }

    /// Reads what has come, and takes its notices alone: what is the session's waits, and no more is read while much of
    /// it does. Returns what came.
    pub(crate) fn meet<C: Clocks>(
        &mut self,
        buffer: &mut [u8],
        begun: Instant,
        clocks: &C,
    ) -> Result<PartnerArrival, ReceiveError>
        ensures { OnlyHears self.old.connection.sent self.new.connection.sent }
    {
        if self.events.len() >= MOST_EVENTS {
            return Ok(PartnerArrival::Nothing);
        }
        let heard = self.hear(buffer, begun, clocks)?;
        Ok(heard.arrival())
    }

    /// Sends a contact, where the two have joined (`failover_session::LinkInput::HeartbeatDue`).
    pub(crate) fn send_heartbeat<F: Folder + Drop, P: Drop>(
        &mut self,
        running: &mut ServerCore<F, P>,
        settings: &Settings,
        now: &Moment,
    )
    where
        F::File: Drop,
        ensures files { HasSameFiles running.old running.new }
        ensures connection { self.new.connection ≡ self.old.connection }
    {
        match running.handle_input(settings, now.reading, &LinkInput::HeartbeatDue) {
            Ok(()) => {}
            Err(error) => self.end(parting_of(error)),
        }
    }

    /// Parts with a partner that lacks messages which this server can't tell again: nothing is said to it.
    fn look_at_stage<F: Folder + Drop, P: Drop>(&mut self, running: &mut ServerCore<F, P>)
    where
        F::File: Drop,
        ensures files { HasSameFiles running.old running.new }
        ensures connection { self.new.connection ≡ self.old.connection }
    {
        let stage = running.stage();
        if let Some(stage) = &stage {
            if !can_resend(running, stage) {
                running.disconnect_partner();
                self.end(DisconnectReason::Lacks);
            }
        }
    }

    /// Gives the connection frames, in their order: all of them, or it is over.
    fn write(&mut self, frames: &[OutboundFrame])
        ensures { AreFirstGiven (frames_of frames.now) self.old.connection.sent
            self.new.connection.sent (self.new.parting ≡ Some HasLost) }
    {
        for handed in frames {
            match self.write_frame(&handed.frame) {
                Ok(()) => {}
                Err(_) => {
                    self.parting = Some(DisconnectReason::Lost);
                    return;
                }
            }
        }
        if self.connection.flush().is_err() {
            self.parting = Some(DisconnectReason::Lost);
        }
    }

    /// Gives the connection a frame.
    fn write_frame(&mut self, frame: &Frame) -> Result<(), ConnectionLost>
        ensures given { IsGiven (frame_octets frame.now) self.old.connection.sent self.new.connection.sent result }
    {
        match encode(self.alloc, frame) {
            Ok(octets) => self.connection.write(octets.as_slice()),
            Err(_) => Err(ConnectionLost::Memory),
        }
    }

    /// Tells that the two have joined, once they have. Of a partner that was refused it is told once the connection has
    /// stood for a while: else the line would cover the refusal, which may follow again.
    pub(crate) fn log_joined<L: Print>(
        &mut self,
        stage: Option<SessionStage>,
        was_refused: bool,
        now: &Moment,
        log: &Log<'_, L>,
    )
        ensures { self.new.connection ≡ self.old.connection }
    {
        let may_last = !was_refused || self.has_stood(now);
        if !self.has_joined && may_last && matches!(stage, Some(SessionStage::Joined { .. })) {
            self.has_joined = true;
            log.log(&LogEvent::Connected);
        }
    }

    /// Tells why it is over: each time of one that had joined, once an hour where the two stay apart, and of others as
    /// of what may happen often.
    pub(crate) fn log_disconnect<L: Print>(
        &self,
        parting: DisconnectReason,
        now: &Moment,
        log: &mut Log<'_, L>,
    ) {
        let happening = LogEvent::Disconnected(parting);
        match &parting {
            DisconnectReason::ClocksDiffer(_) | DisconnectReason::SettingsDiffer(_) => {
                log.log_hourly(&happening, now.reading);
            }
            _ if self.has_joined => log.log(&happening),
            _ => log.log_limited(&happening, now.reading),
        }
    }

    /// Tells that nothing came over it for long, once for each time that it is so long.
    pub(crate) fn log_silence<L: Print>(&mut self, now: &Moment, log: &mut Log<'_, L>)
        ensures { self.new.connection ≡ self.old.connection }
    {
        if now.instant.duration_since(self.listened).as_secs() >= LONG_SILENCE {
            self.listened = now.instant;
            log.log_limited(&LogEvent::PartnerSilent, now.reading);
        }
    }

    /// Says the frames that were held back, and DISCONNECT where this server begins its next volume.
    fn send_frames(&mut self, frames: &[OutboundFrame])
        ensures { Says (frames_of frames.now) self.old.connection.sent self.new.connection.sent }
    {
        self.write(frames);
        if matches!(self.parting, Some(DisconnectReason::Rolled)) {
            self.send_disconnect();
        }
    }

    /// Says the notices that are due, and then the frames that were held back.
    #[tactic(auto, using(crate::proofs::Given::says_behind))]
    pub(crate) fn send_all(&mut self, frames: &[OutboundFrame], now: &Moment)
        ensures { Says (frames_of frames.now) self.old.connection.sent self.new.connection.sent }
    {
        self.say_notices(now);
        self.send_frames(frames);
    }

    /// Says DISCONNECT.
    pub(crate) fn send_disconnect(&mut self)
        ensures { (words : List FrameValue) × IsLastWord words
            × AreGiven self.old.connection.sent words self.new.connection.sent }
    {
        let _ = self.write_frame(&DISCONNECT);
        let _ = self.connection.flush();
    }

    /// Reads on behind DISCONNECT, and passes it over. Returns whether the other end goes on.
    pub(crate) fn drain(&mut self, buffer: &mut [u8], now: Instant) -> bool
        ensures { AreGiven self.old.connection.sent [] self.new.connection.sent }
    {
        let _ = self.connection.flush();
        let got = self.connection.read(buffer, now);
        !matches!(got, ReadOutcome::End | ReadOutcome::Forged)
    }

    /// Gives it up where the partner didn't say in time what lets the two join, or where nothing came over it for too
    /// long, the shorter where another has come.
    pub(crate) fn close_if_stale(&mut self, has_other: bool, now: &Moment)
        ensures { self.new.connection ≡ self.old.connection }
    {
        if let Some(missing) = self.overdue(now.instant) {
            self.end(parting_without(missing));
        } else if self.connection.is_timed_out(now.instant, has_other) {
            self.end(DisconnectReason::Silent);
        }
    }

    /// Why it is over, if it is, by the stage of its talk too.
    pub(crate) fn disconnect_reason(
        &self,
        stage: Option<SessionStage>,
    ) -> Option<DisconnectReason> {
        match self.parting {
            Some(parting) => Some(parting),
            None => parting_at(stage?),
        }
    }

    /// How long the next one is waited for: briefly where one of the two began its next volume or stopped, or where this
    /// one stood for a while; and long where the two stay apart.
    pub(crate) fn pause(&self, parting: &DisconnectReason, now: &Moment) -> Pause {
        match parting {
            DisconnectReason::Rolled | DisconnectReason::PartnerLeft => Pause::Short,
            DisconnectReason::ClocksDiffer(_) | DisconnectReason::SettingsDiffer(_) => Pause::Apart,
            _ if self.has_stood(now) => Pause::Short,
            _ => Pause::Long,
        }
    }

    /// Returns whether it stood for a while.
    fn has_stood(&self, now: &Moment) -> bool {
        self.connection.has_heard()
            && now.instant.duration_since(self.begun.instant).as_secs() >= A_WHILE
    }
}
