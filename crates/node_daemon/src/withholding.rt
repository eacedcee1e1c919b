//! What a daemon does while it may not serve.

ghost use Rattle.std.specs.Prelude.{◌≡◌};
ghost use Rattle.server_core.specs.Saying.{stage_of};
ghost use Rattle.daemon_endpoints.specs.Receiving.{MayReceive, HasSameFiles};
ghost use Rattle.daemon_endpoints.specs.Saying.{MayStand};
ghost use Rattle.service_state.specs.Service.{IsShort, IsShut};

use crate::daemon::Daemon;
use crate::error::DaemonError;
use client_limits::PartnerReach;
use clock_watch::ClockStore;
use daemon_endpoints::Arrival;
use daemon_io::{ConnectionSource, Control, Datagrams, Poller};
use disk_files::{AccessRecordStore, VolumeWatch};
use disk_model::Folder;
use failover_session::SessionStage;
use order_book::Book;
use server_clocks::{Clocks, Moment};
use server_core::ServerCore;
use server_log::DisconnectReason;
use service_state::{PartnerView, ServiceState, going_on, journal_of};

impl<
    G: Datagrams,
    D: ConnectionSource,
    K: Control,
    C: Clocks,
    T: Poller,
    A: AccessRecordStore + ClockStore + VolumeWatch,
    L: Print,
> Daemon<'_, G, D, K, C, T, A, L> {
    /// How far the partner is: a server that is alone has none.
    pub(crate) fn partner_reach(&self, now: &Moment) -> PartnerReach {
        if self.is_alone {
            PartnerReach::Apart
        } else {
            self.contact.reach(now.instant)
        }
    }

    /// Sees whether the two are joined, and what the partner shows of this journal over the connection, and tells a
    /// person where that changes whether the server may serve.
    #[tactic(auto, using(crate::proofs::Shutting::shut_stays, crate::proofs::Shutting::short_shuts))]
    pub(crate) fn see_partner<F: Folder + Drop>(
        &mut self,
        running: &ServerCore<F, Arrival<G::Peer>>,
        now: &Moment,
    )
    where
        F::File: Drop,
        ensures clients { self.new.clients ≡ self.old.clients }
        ensures link { self.new.partner ≡ self.old.partner }
        ensures shut { IsShut self.old.service → self.new.service ≡ self.old.service }
        ensures short { IsShort (stage_of running.now.talk) → IsShut self.new.service }
    {
        let partner = PartnerView {
            stage: running.stage(),
            waits: running.partner_waits(),
            connected_for: self.partner.connected_for(now.instant),
        };
        let is_joined = matches!(running.stage(), Some(SessionStage::Joined { .. }));
        self.contact.see(is_joined, now.instant);
        let before = self.service;
        self.service = before.next(&partner, now.instant);
        if before != self.service {
            self.tell_service(running.book());
        }
    }

    /// Tells that a server goes on, or serves nobody any more; then its connection ends.
    fn tell_service(&mut self, book: &Book)
        ensures clients { self.new.clients ≡ self.old.clients }
        ensures link { self.new.partner ≡ self.old.partner }
        ensures service { self.new.service ≡ self.old.service }
    {
        match self.service {
            ServiceState::Open => {
                if let Some(event) = going_on(book) {
                    self.log.log(&event);
                }
            }
            ServiceState::HoldsOff { .. } => {}
            ServiceState::Shut(_) => {
                self.watch
                    .see_journal(&journal_of(&self.service), &self.log);
                self.partner.part(DisconnectReason::OldCopy);
            }
        }
    }

    /// Passes clients over, and hears no partner: does what is asked alone. Returns whether anything came.
    #[tactic(auto, using(crate::proofs::Turned::nobody_came, crate::proofs::Turned::none_same, crate::proofs::Turned::none_then))]
    pub(crate) fn pass_over<F: Folder + Drop>(
        &mut self,
        running: &mut ServerCore<F, Arrival<G::Peer>>,
        now: &Moment,
    ) -> Result<bool, DaemonError>
    where
        F::File: Drop,
        ensures hears { MayReceive G.listens self.old.clients.datagrams self.new.clients.datagrams }
        ensures stands { MayStand self.old.partner self.new.partner }
        ensures transit { self.new.clients.transit ≡ self.old.clients.transit }
        ensures files { HasSameFiles running.old running.new }
    {
        let count = self.clients.discard()?;
        let was_asked = self.handle_request(running, now);
        Ok(count > 0 || was_asked)
    }

    /// Passes clients over, hears the partner, and does what is asked. Returns whether anything came.
    #[tactic(auto, using(crate::proofs::Turned::nobody_came, crate::proofs::Turned::none_same, crate::proofs::Turned::none_then))]
    pub(crate) fn hold_off<F: Folder + Drop>(
        &mut self,
        running: &mut ServerCore<F, Arrival<G::Peer>>,
        now: &Moment,
    ) -> Result<bool, DaemonError>
    where
        F::File: Drop,
        ensures hears { MayReceive G.listens self.old.clients.datagrams self.new.clients.datagrams }
        ensures stands { MayStand self.old.partner self.new.partner }
        ensures transit { self.new.clients.transit ≡ self.old.clients.transit }
        ensures files { HasSameFiles running.old running.new }
    {
        let count = self.clients.discard()?;
        let arrival = self
            .partner
            .receive(running, self.settings, now, &self.clocks, &mut self.log)?;
        self.contact.note(arrival);
        self.see_partner(running, now);
        let was_asked = self.handle_request(running, now);
        Ok(count > 0 || arrival.is_something() || was_asked)
    }

    /// Passes clients over, and does what is asked, while its clock was set: it ends its session with the partner, hears
    /// notices alone, and takes its clock for right where the two agree. Returns whether anything came.
    #[tactic(auto, using(crate::proofs::Turned::nobody_came, crate::proofs::Turned::none_same, crate::proofs::Turned::none_then))]
    pub(crate) fn compare_clocks<F: Folder + Drop>(
        &mut self,
        running: &mut ServerCore<F, Arrival<G::Peer>>,
        now: &Moment,
    ) -> Result<bool, DaemonError>
    where
        F::File: Drop,
        ensures hears { MayReceive G.listens self.old.clients.datagrams self.new.clients.datagrams }
        ensures stands { MayStand self.old.partner self.new.partner }
        ensures transit { self.new.clients.transit ≡ self.old.clients.transit }
        ensures files { HasSameFiles running.old running.new }
    {
        running.disconnect_partner();
        let count = self.clients.discard()?;
        let arrival = self
            .partner
            .meet(self.settings, now, &self.clocks, &mut self.log)?;
        self.contact.note(arrival);
        if self.partner.agrees() {
            self.accept_clock(now);
        }
        let was_asked = self.handle_request(running, now);
        Ok(count > 0 || arrival.is_something() || was_asked)
    }
}
