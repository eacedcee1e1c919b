//! A start waits until its clock lets it begin: until then it writes no line, and hears its partner's notices alone.

ghost use Rattle.std.specs.Prelude.{◌≡◌, OnOk};
ghost use Rattle.clock_watch.specs.Starts.{IsNext};
ghost use Rattle.clock_watch.specs.declared.record.RecordVerdict.{RecordVerdict as VerdictValue};
ghost use Rattle.clock_watch.specs.declared.start.PartnerSight.{PartnerSight as SightValue};
ghost use Rattle.daemon_endpoints.specs.Receiving.{MayReceive};
ghost use Rattle.node_daemon.specs.Beginning.{Meets};

use crate::daemon::Daemon;
use crate::error::DaemonError;
use clock_watch::{ClockStore, PartnerLink, PartnerSight, RecordVerdict, StartClock};
use daemon_io::{ConnectionSource, Control, Datagrams, Poller};
use disk_files::{AccessRecordStore, VolumeWatch};
use link_notices::ClockVerdict;
use order_book::Book;
use server_clocks::{Clocks, Moment};
use server_log::{LogEvent, SeenClock};
use server_status::{ControlRequest, ShutdownMode, StatusFormat};
use service_state::RequestRefusal;
use std::sync::Wait;

/// How a start's wait for its clock ends.
#[derive(Clone, Copy, Debug, PartialEq, Eq)]
pub(crate) enum WaitEnd {
    /// The server begins.
    Begins,
    /// It was told to stop.
    Stops,
}

/// Why a request is refused that a server does only once it has begun.
fn refusal_by(clock: &StartClock) -> RequestRefusal {
    match clock {
        StartClock::Set { .. } => RequestRefusal::ClockSet,
        StartClock::Asks { .. } | StartClock::Differs | StartClock::Begins => {
            RequestRefusal::AsksPartnerClock
        }
    }
}

impl<
    G: Datagrams,
    D: ConnectionSource,
    K: Control,
    C: Clocks,
    T: Poller,
    A: AccessRecordStore + ClockStore + VolumeWatch,
    L: Print,
> Daemon<'_, G, D, K, C, T, A, L> {
    /// What the kept record says of the clock now: nothing where there is none, or the system doesn't say enough.
    fn kept_verdict(&self, now: &Moment) -> RecordVerdict {
        match (self.keeper.recorded(), self.keeper.present(now.reading)) {
            (Some(kept), Some(present)) => kept.compare(&present, self.settings.skew()),
            (None, _) | (_, None) => RecordVerdict::Unknown,
        }
    }

    /// Tells why a start waits.
    fn tell_wait(&mut self, clock: &StartClock, now: &Moment)
        ensures clients { self.new.clients ≡ self.old.clients }
        ensures link { self.new.partner ≡ self.old.partner }
    {
        match clock {
            StartClock::Begins | StartClock::Differs => {}
            StartClock::Asks { .. } => self.log.log(&LogEvent::AsksPartnerClock),
            StartClock::Set { expected } => {
                let seen = SeenClock::Set {
                    shows: now.reading,
                    expected: *expected,
                };
                self.watch.see_clock(&seen, &self.log);
            }
        }
    }

    /// Tells that a start asked in vain, where it begins without an answer.
    fn tell_end(&self, before: &StartClock, clock: &StartClock, sight: PartnerSight) {
        if let (
            StartClock::Asks { .. },
            StartClock::Begins,
            PartnerSight::Unseen | PartnerSight::Told(ClockVerdict::Unknown),
        ) = (before, clock, sight)
        {
            self.log.log(&LogEvent::BeginsWithoutPartnerClock);
        }
    }

    /// Tells how the server is, which has yet to begin.
    fn tell_status(&mut self, form: StatusFormat, book: Option<&Book>, now: &Moment)
        ensures clients { self.new.clients ≡ self.old.clients }
        ensures link { self.new.partner ≡ self.old.partner }
    {
        match self.status_before(form, book, now) {
            Ok(text) => self.desk.accept_request(text.as_str()),
            Err(_) => self.refuse(&RequestRefusal::Memory),
        }
    }

    /// Hears one request, if one has come. Returns whether a person takes the clock for right.
    fn hear_request(&mut self, book: Option<&Book>, clock: &StartClock, now: &Moment) -> bool
        ensures clients { self.new.clients ≡ self.old.clients }
        ensures link { self.new.partner ≡ self.old.partner }
    {
        let Some(request) = self.desk.next_request(now.instant) else {
            return false;
        };
        match request {
            ControlRequest::Status(form) => self.tell_status(form, book, now),
            ControlRequest::Stop(ShutdownMode::Open) => {
                self.leave(ShutdownMode::Open);
                self.desk.accept_request("");
            }
            ControlRequest::AcceptClock => {
                self.log.log(&LogEvent::ClockAccepted);
                self.desk.accept_request("");
                return true;
            }
            ControlRequest::Stop(ShutdownMode::Closed)
            | ControlRequest::Roll
            | ControlRequest::PartnerDown
            | ControlRequest::PartnerNormal => self.refuse(&refusal_by(clock)),
        }
        false
    }

    /// Whether the server begins behind a turn, by what its partner's clock and the kept record say.
    fn next_clock(&self, clock: &StartClock, now: &Moment) -> StartClock
        ensures { (sight : SightValue) × (kept : VerdictValue) × IsNext clock.now sight kept now.now.instant result }
    {
        let sight = self.partner.sight();
        let next = clock.next(sight, self.kept_verdict(now), now.instant);
        self.tell_end(clock, &next, sight);
        next
    }

    /// One turn of a start that waits: it passes clients over, meets its partner by notices alone, and hears a person.
    fn wait_turn(
        &mut self,
        book: Option<&Book>,
        clock: &StartClock,
    ) -> Result<StartClock, DaemonError>
        ensures hears { OnOk result (MayReceive G.listens self.old.clients.datagrams self.new.clients.datagrams) }
        ensures meets { OnOk result (Meets self.old.partner self.new.partner) }
        ensures transit { self.new.clients.transit ≡ self.old.clients.transit }
    {
        let now = self.wait_for_input()?;
        self.log.log_due(now.reading);
        let count = self.clients.discard()?;
        let arrival = self
            .partner
            .meet(self.settings, &now, &self.clocks, &mut self.log)?;
        self.contact.note(arrival);
        let is_accepted = self.hear_request(book, clock, &now);
        self.partner.say_notices(&now, &mut self.log);
        self.desk.send_replies(now.instant);
        self.is_idle = count == 0 && !arrival.is_something();
        let next = if is_accepted {
            StartClock::Begins
        } else {
            self.next_clock(clock, &now)
        };
        if let StartClock::Begins = next {
            self.accept_clock(&now);
        }
        Ok(next)
    }

    /// Waits until the clock lets a server begin with this book, or a person tells it to stop. No line is written
    /// meanwhile, and nothing but notices is said.
    pub(crate) fn await_clock<R: Wait>(
        &mut self,
        rt: &R,
        book: Option<&Book>,
        link: PartnerLink,
    ) -> Result<WaitEnd, DaemonError>
        ensures hears { OnOk result (MayReceive G.listens self.old.clients.datagrams self.new.clients.datagrams) }
        ensures meets { OnOk result (Meets self.old.partner self.new.partner) }
        ensures transit { self.new.clients.transit ≡ self.old.clients.transit }
    {
        let now = self.now()?;
        let mut clock = StartClock::first(self.kept_verdict(&now), link, now.instant);
        self.tell_wait(&clock, &now);
        for _turn in rt.forever() {
            if self.leave.is_some() {
                return Ok(WaitEnd::Stops);
            }
            if let StartClock::Begins = clock {
                return Ok(WaitEnd::Begins);
            }
            match self.wait_turn(book, &clock) {
                Ok(next) => clock = next,
                Err(error) => return Err(error),
            }
        }
        unreachable!()
    }
}
