//! What a turn of a server makes of its clock, and what it keeps of both clocks.

ghost use Rattle.std.specs.Prelude.{◌≡◌, IsTrue};
ghost use Rattle.clock_watch.specs.Watching.{begun_at, seen};
ghost use Rattle.server_log.specs.Watches.{clock_seen};
ghost use Rattle.server_status.specs.declared.status.ClockState.TheVariants.{Right};

use crate::daemon::Daemon;
use clock_watch::ClockStore;
use daemon_io::{ConnectionSource, Control, Datagrams, Poller};
use disk_files::{AccessRecordStore, VolumeWatch};
use order_book::Book;
use server_clocks::{Clocks, Moment};
use server_log::{DisconnectReason, SeenClock};
use server_start::is_behind;
use server_status::ClockState;
use server_timers::{Growth, OperatorRequest};

impl<
    G: Datagrams,
    D: ConnectionSource,
    K: Control,
    C: Clocks,
    T: Poller,
    A: AccessRecordStore + ClockStore + VolumeWatch,
    L: Print,
> Daemon<'_, G, D, K, C, T, A, L> {
    /// Looks whether the clock may go on with the journal, and whether it was set: then the connection ends. A clock that
    /// is right is kept each heartbeat. Returns how it is.
    pub(crate) fn check_clock(&mut self, book: &Book, now: &Moment) -> ClockState
        ensures clients { self.new.clients ≡ self.old.clients }
        ensures link { self.new.partner ≡ self.old.partner }
        ensures service { self.new.service ≡ self.old.service }
        ensures set { IsTrue (seen self.old.clock now.now self.old.settings.now.skew).is_set → result ≡ Right → ⊥ }
    {
        let was_set = self.clock.is_set();
        self.clock.see(now, self.settings.skew());
        let is_set = self.clock.is_set();
        if is_set && !was_set {
            self.partner.part(DisconnectReason::ClockSet);
        }
        let shown = self.shown_clock(book, now);
        self.watch.see_clock(&shown, &self.log);
        if let SeenClock::Right = shown {
            self.beat(now);
        }
        shown.state()
    }

    /// How the clock is. One that is behind the journal is told as that, also where it was set.
    fn shown_clock(&self, book: &Book, now: &Moment) -> SeenClock
        ensures { clock_seen result ≡ Right → IsTrue self.now.clock.is_set → ⊥ }
    {
        let is_behind = match book.journal().last() {
            Some(line) => is_behind(now.reading, line.reading, self.settings.skew()),
            None => false,
        };
        match (is_behind, self.clock.is_set()) {
            (true, _) => SeenClock::Behind,
            (false, false) => SeenClock::Right,
            (false, true) => SeenClock::Set {
                shows: now.reading,
                expected: self.clock.expected(now),
            },
        }
    }

    /// Takes what the clock shows for right.
    pub(crate) fn accept_clock(&mut self, now: &Moment)
        ensures clock { self.new.clock ≡ begun_at now.now }
        ensures clients { self.new.clients ≡ self.old.clients }
        ensures link { self.new.partner ≡ self.old.partner }
        ensures service { self.new.service ≡ self.old.service }
    {
        self.clock.accept(now);
        self.beaten = None;
    }

    /// Returns whether a heartbeat is over since the clocks were kept last.
    fn is_beat_due(&self, now: &Moment) -> bool {
        let Some(beaten) = self.beaten else {
            return true;
        };
        let growth = Growth {
            lines: 0,
            head_lines: 0,
            opened: now.reading,
            spoken: beaten,
        };
        self.upkeep
            .due_actions(&growth, now.reading, None, OperatorRequest::Nothing)
            .contact
    }

    /// Keeps what both clocks show and asks the partner's clock again, where a heartbeat is over. For want of an answer of
    /// the system nothing is kept.
    fn beat(&mut self, now: &Moment)
        ensures clients { self.new.clients ≡ self.old.clients }
        ensures link { self.new.partner ≡ self.old.partner }
        ensures service { self.new.service ≡ self.old.service }
    {
        if !self.is_beat_due(now) {
            return;
        }
        self.beaten = Some(now.reading);
        self.partner.ask_again();
        if let Some(record) = self.keeper.present(now.reading) {
            self.keeper.keep(&record);
        }
    }
}
