//! How a server is, as a status says it.

ghost use Rattle.std.specs.Prelude.{◌≡◌, ◌↔◌, false, None};
ghost use Rattle.order_book.specs.Replayed.{state_of};
ghost use Rattle.service_state.specs.Service.{IsShut};
ghost use Rattle.service_state.specs.Statuses.{IsHoldingOff, IsStanding};

use crate::daemon::Daemon;
use clock_watch::ClockStore;
use daemon_endpoints::Arrival;
use daemon_io::{ConnectionSource, Control, Datagrams, Poller};
use disk_files::{AccessRecordStore, VolumeWatch};
use disk_model::Folder;
use order_book::Book;
use server_clocks::{Clocks, Moment};
use server_core::ServerCore;
use server_status::{
    JournalState, LinkState, PartnerState, ServerStatus, ServingInput, StatusFormat, UnitCounts,
    VolumeStatus, serving_of,
};
use server_timers::{OperatorRequest, Room};
use service_state::{
    first_volume, growth_of, head_lines_of, journal_of, notices_of, standing_of, units_of,
    volume_of,
};
use std::alloc::AllocError;

impl<
    G: Datagrams,
    D: ConnectionSource,
    K: Control,
    C: Clocks,
    T: Poller,
    A: AccessRecordStore + ClockStore + VolumeWatch,
    L: Print,
> Daemon<'_, G, D, K, C, T, A, L> {
    /// How the server is linked to its partner.
    fn link(&self) -> LinkState {
        match self.partner.connected() {
            Some(since) => LinkState::Connected { since },
            None if self.is_alone => LinkState::Alone,
            None => LinkState::Apart,
        }
    }

    /// The text of how the server is, by what decides whether it serves, and by its volume.
    fn status_text(
        &self,
        form: StatusFormat,
        input: &ServingInput,
        volume: VolumeStatus,
        units: UnitCounts,
        now: &Moment,
    ) -> Result<String, AllocError> {
        let syncs = self.syncs.summary(self.alloc, now.reading)?;
        let status = ServerStatus {
            serving: serving_of(input),
            role: self.settings.role(),
            reading: now.reading,
            clock: input.clock,
            journal: input.journal,
            volume,
            units,
            standing: input.standing,
            link: self.link(),
            heard: self.partner.heard(),
            refusal: self.partner.refusal(),
            traffic: self.clients.traffic(),
            syncs,
            notices: notices_of(&self.partner),
        };
        status.text(self.alloc, form)
    }

    /// What decides whether a server that runs serves clients ([`serving_of`]).
    fn serving_input<F: Folder + Drop>(
        &self,
        running: &ServerCore<F, Arrival<G::Peer>>,
        room: Room,
        now: &Moment,
    ) -> ServingInput
    where
        F::File: Drop,
        ensures journal { result.journal ≡ JournalState.Whole ↔ (IsShut self.now.service → ⊥) }
        ensures clock { result.clock ≡ self.now.watch.clock }
        ensures asks { result.asks_clock ≡ false }
        ensures holds_off { result.goes_on_in ≡ None ↔ (IsHoldingOff self.now.service → ⊥) }
        ensures standing { IsStanding (state_of running.now.volume.served.journal).down
            (state_of running.now.volume.served.journal).waiting result.standing }
        ensures room { result.room ≡ room }
    {
        ServingInput {
            journal: journal_of(&self.service),
            clock: self.watch.clock(),
            asks_clock: false,
            goes_on_in: self.service.seconds_left(now.instant),
            standing: standing_of(running.book(), now.reading),
            partner_clock: self.partner.verdict(),
            room,
        }
    }

    /// The text of how the server is while it runs.
    pub(crate) fn status<F: Folder + Drop>(
        &self,
        form: StatusFormat,
        running: &ServerCore<F, Arrival<G::Peer>>,
        now: &Moment,
    ) -> Result<String, AllocError>
    where
        F::File: Drop,
    {
        let book = running.book();
        let growth = self.growth(book, now);
        let owed = self.owed(running, now);
        let input = self.serving_input(running, owed.room, now);
        let volume = volume_of(book, running.kept(), &growth, &owed);
        self.status_text(
            form,
            &input,
            volume,
            units_of(book, self.settings.pools()),
            now,
        )
    }

    /// The text of how the server is before it has begun: its clock keeps it from that.
    pub(crate) fn status_before(
        &self,
        form: StatusFormat,
        book: Option<&Book>,
        now: &Moment,
    ) -> Result<String, AllocError> {
        let (volume, units, standing) = match book {
            Some(book) => (
                self.last_volume(book, now),
                units_of(book, self.settings.pools()),
                standing_of(book, now.reading),
            ),
            None => (
                first_volume(now.reading),
                UnitCounts::NONE,
                PartnerState::Normal,
            ),
        };
        let input = ServingInput {
            journal: JournalState::Whole,
            clock: self.watch.clock(),
            asks_clock: true,
            goes_on_in: None,
            standing,
            partner_clock: self.partner.verdict(),
            room: volume.room,
        };
        self.status_text(form, &input, volume, units, now)
    }

    /// The volume of a book that the server has yet to go on with.
    fn last_volume(&self, book: &Book, now: &Moment) -> VolumeStatus {
        let growth = growth_of(book, head_lines_of(book), now.reading);
        let owed = self
            .upkeep
            .due_actions(&growth, now.reading, None, OperatorRequest::Nothing);
        volume_of(book, growth.lines, &growth, &owed)
    }
}
