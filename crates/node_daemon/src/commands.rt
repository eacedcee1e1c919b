//! What a running server does as a person tells it.

ghost use Rattle.std.specs.Prelude.{◌≡◌, ◌↔◌, false, None, IsOk};
ghost use Rattle.order_book.specs.Replayed.{state_of};
ghost use Rattle.daemon_endpoints.specs.Receiving.{HasSameFiles};

use crate::daemon::Daemon;
use binding_rules::ServerState;
use clock_watch::ClockStore;
use daemon_endpoints::Arrival;
use daemon_io::{ConnectionSource, Control, Datagrams, Poller};
use disk_files::{AccessRecordStore, VolumeWatch};
use disk_model::Folder;
use order_book::{Book, Order};
use server_clocks::{Clocks, Moment};
use server_core::ServerCore;
use server_log::LogEvent;
use server_status::{ClockState, ControlRequest, ShutdownMode};
use server_timers::{OperatorRequest, RollBlocked};
use service_state::RequestRefusal;

impl<
    G: Datagrams,
    D: ConnectionSource,
    K: Control,
    C: Clocks,
    T: Poller,
    A: AccessRecordStore + ClockStore + VolumeWatch,
    L: Print,
> Daemon<'_, G, D, K, C, T, A, L> {
    /// Hears one request, if one has come, and does it; its answer is held back. Returns whether one had come.
    pub(crate) fn handle_request<F: Folder + Drop>(
        &mut self,
        running: &mut ServerCore<F, Arrival<G::Peer>>,
        now: &Moment,
    ) -> bool
    where
        F::File: Drop,
        ensures clients { self.new.clients ≡ self.old.clients }
        ensures link { self.new.partner ≡ self.old.partner }
        ensures files { HasSameFiles running.old running.new }
    {
        let Some(request) = self.desk.next_request(now.instant) else {
            return false;
        };
        match self.done(request, running, now) {
            Ok(text) => self.desk.accept_request(text.as_str()),
            Err(refusal) => self.refuse(&refusal),
        }
        true
    }

    /// Refuses a request.
    pub(crate) fn refuse(&mut self, refusal: &RequestRefusal)
        ensures clients { self.new.clients ≡ self.old.clients }
        ensures link { self.new.partner ≡ self.old.partner }
    {
        match format!(in self.alloc; "{refusal}") {
            Ok(words) => self.desk.refuse(words.as_str()),
            Err(_) => self.desk.refuse("out of memory"),
        }
    }

    /// Does what is asked, and gives the text to tell.
    fn done<F: Folder + Drop>(
        &mut self,
        request: ControlRequest,
        running: &mut ServerCore<F, Arrival<G::Peer>>,
        now: &Moment,
    ) -> Result<String, RequestRefusal>
    where
        F::File: Drop,
        ensures clients { self.new.clients ≡ self.old.clients }
        ensures link { self.new.partner ≡ self.old.partner }
        ensures files { HasSameFiles running.old running.new }
    {
        if let ControlRequest::Status(form) = request {
            return Ok(self.status(form, running, now)?);
        }
        if may_write_line(request) {
            self.may_write()?;
        }
        match request {
            ControlRequest::Status(_) => {}
            ControlRequest::AcceptClock => self.take_clock(now)?,
            ControlRequest::Stop(ShutdownMode::Open) => self.leave(ShutdownMode::Open),
            ControlRequest::Stop(ShutdownMode::Closed) => return self.close(running, now),
            ControlRequest::Roll => self.ask_roll(running)?,
            ControlRequest::PartnerDown => self.take_for_down(running, now)?,
            ControlRequest::PartnerNormal => self.take_for_up(running, now)?,
        }
        Ok(String::new(self.alloc))
    }

    /// Refuses what would write a line that the journal mustn't have now.
    fn may_write(&self) -> Result<(), RequestRefusal> {
        match self.watch.clock() {
            ClockState::Behind => Err(RequestRefusal::ClockBehind),
            ClockState::Set => Err(RequestRefusal::ClockSet),
            ClockState::Right if self.service.is_shut() => Err(RequestRefusal::JournalOlder),
            ClockState::Right => Ok(()),
        }
    }

    /// Takes a clock that was set for right, as a person says.
    fn take_clock(&mut self, now: &Moment) -> Result<(), RequestRefusal>
        ensures clients { self.new.clients ≡ self.old.clients }
        ensures link { self.new.partner ≡ self.old.partner }
    {
        if !self.clock.is_set() {
            return Err(RequestRefusal::ClockNotSet);
        }
        self.accept_clock(now);
        self.log.log(&LogEvent::ClockAccepted);
        Ok(())
    }

    /// Stops behind this turn.
    pub(crate) fn leave(&mut self, leave: ShutdownMode)
        ensures clients { self.new.clients ≡ self.old.clients }
        ensures link { self.new.partner ≡ self.old.partner }
    {
        self.leave = Some(leave);
        self.log.log(&LogEvent::Stops);
    }

    /// Closes the volume and stops behind this turn, where a volume may follow: else the next start would be refused.
    /// Of a server that is alone it says which volume that begins.
    fn close<F: Folder + Drop>(
        &mut self,
        running: &mut ServerCore<F, Arrival<G::Peer>>,
        now: &Moment,
    ) -> Result<String, RequestRefusal>
    where
        F::File: Drop,
        ensures clients { self.new.clients ≡ self.old.clients }
        ensures link { self.new.partner ≡ self.old.partner }
        ensures files { HasSameFiles running.old running.new }
    {
        match running.roll_blocked() {
            Some(RollBlocked::PartnerDown) => return Err(RequestRefusal::CloseWhileDown),
            Some(RollBlocked::UnitMarked) => return Err(RequestRefusal::CloseWhileMarked),
            None => {}
        }
        order(running, now, &Order::Close)?;
        self.leave(ShutdownMode::Closed);
        if !self.is_alone {
            return Ok(String::new(self.alloc));
        }
        let next = running.book().head().volume().saturating_add(1);
        Ok(format!(in self.alloc; "closed: the next start begins volume {next}\n")?)
    }

    /// Begins the next volume in this turn, where the rules let.
    fn ask_roll<F: Folder + Drop>(
        &mut self,
        running: &ServerCore<F, Arrival<G::Peer>>,
    ) -> Result<(), RequestRefusal>
    where
        F::File: Drop,
        ensures clients { self.new.clients ≡ self.old.clients }
        ensures link { self.new.partner ≡ self.old.partner }
    {
        match running.roll_blocked() {
            Some(bar) => Err(RequestRefusal::from(bar)),
            None => {
                self.told = OperatorRequest::Roll;
                Ok(())
            }
        }
    }

    /// Takes the partner for down, unless there is a connection with it.
    fn take_for_down<F: Folder + Drop>(
        &mut self,
        running: &mut ServerCore<F, Arrival<G::Peer>>,
        now: &Moment,
    ) -> Result<(), RequestRefusal>
    where
        F::File: Drop,
        ensures clients { self.new.clients ≡ self.old.clients }
        ensures link { self.new.partner ≡ self.old.partner }
        ensures files { HasSameFiles running.old running.new }
    {
        if self.partner.connected().is_some() {
            return Err(RequestRefusal::PartnerConnected);
        }
        may_take_for_down(running.book())?;
        order(running, now, &Order::State(ServerState::Down))?;
        self.log.log(&LogEvent::PartnerDown);
        Ok(())
    }

    /// Takes the partner for up again, where it is taken for down.
    fn take_for_up<F: Folder + Drop>(
        &mut self,
        running: &mut ServerCore<F, Arrival<G::Peer>>,
        now: &Moment,
    ) -> Result<(), RequestRefusal>
    where
        F::File: Drop,
        ensures clients { self.new.clients ≡ self.old.clients }
        ensures link { self.new.partner ≡ self.old.partner }
        ensures files { HasSameFiles running.old running.new }
        // Where there is nothing to end, no line is written.
        ensures none { (state_of running.old.volume.served.journal).down ≡ None → running.new ≡ running.old }
    {
        if running.book().down().is_none() {
            return Err(RequestRefusal::IsNotDown);
        }
        order(running, now, &Order::State(ServerState::Normal))?;
        self.log.log(&LogEvent::PartnerNormal);
        Ok(())
    }
}

/// Refuses to take the partner for down where it is already, and where a server doesn't know what its partner did since
/// it went itself.
fn may_take_for_down(book: &Book) -> Result<(), RequestRefusal>
    ensures { IsOk result ↔ (((state_of book.now).waiting ≡ false) × ((state_of book.now).down ≡ None)) }
{
    if book.down().is_some() {
        return Err(RequestRefusal::IsDown);
    }
    if book.waiting() {
        return Err(RequestRefusal::WaitsForPartner);
    }
    Ok(())
}

/// Returns whether a line may be written as a request asks.
fn may_write_line(request: ControlRequest) -> bool {
    !matches!(
        request,
        ControlRequest::Status(_)
            | ControlRequest::Stop(ShutdownMode::Open)
            | ControlRequest::AcceptClock
    )
}

/// Gives the server an order.
fn order<F: Folder + Drop, P: Drop>(
    running: &mut ServerCore<F, P>,
    now: &Moment,
    order: &Order,
) -> Result<(), RequestRefusal>
where
    F::File: Drop,
    ensures files { HasSameFiles running.old running.new }
{
    match running.serve(now.reading, order) {
        Ok(_) => Ok(()),
        Err(refusal) => Err(RequestRefusal::Book(refusal)),
    }
}
