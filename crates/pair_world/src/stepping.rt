//! What an event does to a world.

ghost use Rattle.std.specs.Prelude.{◌≡◌, ◌++◌, ◌∷◌, ◌↔◌, [], IsTrue, IfOk, IfErr};
ghost use Rattle.journal_lines.specs.declared.line.Line.{Line as LineValue};
ghost use Rattle.order_book.specs.Replayed.{state_of, with_line};
ghost use Rattle.order_book.specs.Answer.{IsAnswer};
ghost use Rattle.pair_world.specs.declared.event.Event.TheVariants.{Serve, Deliver, Stop as StopEvent, Restart, Pass};
ghost use Rattle.pair_world.specs.PairWorld.{journal, book, is_stopped, with_stop, written, IsFedBy, IsDownAllowed};
ghost use Rattle.pair_world.specs.PairWorld.{IsBookRefusal, IsDone, IsRefused, AreDone, StopsAt};

use crate::error::WorldError;
use crate::event::Event;
use crate::messages::{message_at, was_sent};
use crate::run_step::Step;
use crate::world::World;
use binding_rules::{Role, ServerState};
use journal_lines::Line;
use lead_time::Reading;
use order_book::{Book, BookError, Order, Reply};

/// Why an order isn't done where there is no room for its line: the book's refusal comes first.
fn lacks_room(book: &Book, clock: Reading, order: &Order) -> WorldError
    ensures { IsBookRefusal (state_of book.now) clock order.now result }
{
    match book.answer(clock, order) {
        Ok(_) => WorldError::Memory,
        Err(error) => WorldError::Book(error),
    }
}

/// Does what is ordered in a book, and adds the line to the run.
fn write(
    run: &mut Vec<Step>,
    book: &mut Book,
    side: Role,
    moment: Reading,
    clock: Reading,
    order: &Order,
) -> Result<Reply, WorldError>
    ensures given { IfOk result (λ reply. (l : LineValue) × IsAnswer (state_of book.old) clock order.now l reply
        × (book.new ≡ with_line book.old l)
        × (run.new.items ≡ run.old.items ++ record { side = side; moment = moment; line = l } ∷ [])) }
    ensures refused { IfErr result (λ e. IsBookRefusal (state_of book.old) clock order.now e
        × (book.new ≡ book.old) × (run.new.items ≡ run.old.items)) }
{
    if run.reserve(1).is_err() {
        return Err(lacks_room(book, clock, order));
    }
    match book.apply(clock, order) {
        Ok(reply) => {
            let Some(line) = book.journal().last() else {
                unreachable!()
            };
            let step = Step {
                side,
                moment,
                line: *line,
            };
            match run.extend_from_slice(&[step]) {
                Ok(()) => Ok(reply),
                Err(_) => unreachable!(),
            }
        }
        Err(BookError::Memory) => Err(WorldError::Memory),
        Err(error) => Err(WorldError::Book(error)),
    }
}

/// Returns whether an order takes only what the partner sent.
fn is_fed(lines: &[Line], order: &Order) -> bool
    ensures { IsTrue result ↔ IsFedBy lines.now order.now }
{
    match order {
        Order::Take(message) => was_sent(lines, message),
        _ => true,
    }
}

/// Returns whether the order may be given, where the partner is stopped or not: only a stopped one is taken for down.
fn may_be_ordered(stopped: bool, order: &Order) -> bool
    ensures { IsTrue result ↔ IsDownAllowed stopped order.now }
{
    match order {
        Order::State(ServerState::Down) => stopped,
        _ => true,
    }
}

impl World {
    /// Orders something of a server whose clock shows a reading.
    fn answer(&mut self, side: Role, clock: Reading, order: &Order) -> Result<Reply, WorldError>
        ensures given { IfOk result (λ reply. (l : LineValue) × IsAnswer (book side self.old) clock order.now l reply
            × (self.new ≡ written side self.old l)) }
        ensures refused { IfErr result (λ e. IsBookRefusal (book side self.old) clock order.now e
            × (self.new ≡ self.old)) }
    {
        match side {
            Role::Primary => write(&mut self.run, &mut self.a, side, self.moment, clock, order),
            Role::Secondary => write(&mut self.run, &mut self.b, side, self.moment, clock, order),
        }
    }

    /// Stops a server, or ends its stop.
    fn set_stopped(&mut self, side: Role, stopped: bool)
        ensures { self.new ≡ with_stop side stopped self.old }
    {
        match side {
            Role::Primary => self.stopped_a = stopped,
            Role::Secondary => self.stopped_b = stopped,
        }
    }

    fn serve(&mut self, side: Role, clock: Reading, order: &Order) -> Result<Reply, WorldError>
        ensures done { IfOk result (λ reply. IsDone self.old (Serve side clock order.now) reply self.new) }
        ensures refused { IfErr result (λ e. IsRefused self.old (Serve side clock order.now) e
            × (self.new ≡ self.old)) }
    {
        if !self.is_near(clock) {
            return Err(WorldError::ClockOff);
        }
        if self.is_stopped(side) {
            return Err(WorldError::Stopped);
        }
        if !is_fed(self.lines(side.partner()), order) {
            return Err(WorldError::NoMessage);
        }
        if !may_be_ordered(self.is_stopped(side.partner()), order) {
            return Err(WorldError::PartnerRuns);
        }
        self.answer(side, clock, order)
    }

    fn deliver(&mut self, side: Role, sent: u64, clock: Reading) -> Result<Reply, WorldError>
        ensures done { IfOk result (λ reply. IsDone self.old (Deliver side sent clock) reply self.new) }
        ensures refused { IfErr result (λ e. IsRefused self.old (Deliver side sent clock) e × (self.new ≡ self.old)) }
    {
        if !self.is_near(clock) {
            return Err(WorldError::ClockOff);
        }
        if self.is_stopped(side) {
            return Err(WorldError::Stopped);
        }
        match message_at(self.lines(side.partner()), sent) {
            Some(message) => self.answer(side, clock, &Order::Take(message)),
            None => Err(WorldError::NoMessage),
        }
    }

    fn stop(&mut self, side: Role) -> Result<Reply, WorldError>
        ensures done { IfOk result (λ reply. IsDone self.old (StopEvent side) reply self.new) }
        ensures refused { IfErr result (λ e. IsRefused self.old (StopEvent side) e × (self.new ≡ self.old)) }
    {
        if self.is_stopped(side) {
            return Err(WorldError::Stopped);
        }
        self.set_stopped(side, true);
        Ok(Reply::Done)
    }

    fn restart(&mut self, side: Role, clock: Reading) -> Result<Reply, WorldError>
        ensures done { IfOk result (λ reply. IsDone self.old (Restart side clock) reply self.new) }
        ensures refused { IfErr result (λ e. IsRefused self.old (Restart side clock) e × (self.new ≡ self.old)) }
    {
        if !self.is_near(clock) {
            return Err(WorldError::ClockOff);
        }
        if !self.is_stopped(side) {
            return Err(WorldError::Running);
        }
        match self.answer(side, clock, &Order::Restart) {
            Ok(reply) => {
                self.set_stopped(side, false);
                Ok(reply)
            }
            Err(error) => Err(error),
        }
    }

    fn pass(&mut self, milliseconds: u64) -> Result<Reply, WorldError>
        ensures done { IfOk result (λ reply. IsDone self.old (Pass milliseconds) reply self.new) }
        ensures refused { IfErr result (λ e. IsRefused self.old (Pass milliseconds) e × (self.new ≡ self.old)) }
    {
        let Some(later) = self.moment.milliseconds().checked_add(milliseconds) else {
            return Err(WorldError::ClockOff);
        };
        match Reading::new(later) {
            Ok(moment) => {
                self.moment = moment;
                Ok(Reply::Done)
            }
            Err(_) => Err(WorldError::ClockOff),
        }
    }

    /// Lets an event happen: an accepted Serve, Deliver or Restart adds the one line that the server's book answers,
    /// Pass adds its time, Stop stops the server, Restart also ends the stop, and nothing else changes. Or refuses, and
    /// leaves the world as it was.
    ///
    /// The refusals, in their order: `ClockOff` (the clock is further from the moment than the skew; the moment would
    /// pass 2^48), `Stopped`, `Running`, `NoMessage` (the partner never sent it), `PartnerRuns`, `Book`, `Memory`.
    pub fn step(&mut self, event: &Event) -> Result<Reply, WorldError>
        ensures done { IfOk result (λ reply. IsDone self.old event.now reply self.new) }
        ensures refused { IfErr result (λ e. IsRefused self.old event.now e × (self.new ≡ self.old)) }
    {
        match event {
            Event::Serve { side, clock, order } => self.serve(*side, *clock, order),
            Event::Deliver { side, sent, clock } => self.deliver(*side, *sent, *clock),
            Event::Stop(side) => self.stop(*side),
            Event::Restart { side, clock } => self.restart(*side, *clock),
            Event::Pass(milliseconds) => self.pass(*milliseconds),
        }
    }

    /// Lets events happen one behind the other, up to the first that is refused, as `step` refuses it: the world is
    /// then as the events before it left it.
    pub fn run(&mut self, events: &[Event]) -> Result<(), WorldError>
        ensures done { IfOk result (λ _. AreDone self.old events.now self.new) }
        ensures refused { IfErr result (λ e. StopsAt self.old events.now e self.new) }
    {
        for event in events {
            match self.step(event) {
                Ok(_) => {}
                Err(error) => return Err(error),
            }
        }
        Ok(())
    }
}
