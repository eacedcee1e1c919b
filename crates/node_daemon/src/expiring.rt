//! When leases are ended that have ended.

ghost use Rattle.daemon_endpoints.specs.Receiving.{HasSameFiles};
ghost use Rattle.node_daemon.specs.Ending.{EndsLeases};

use crate::daemon::Daemon;
use clock_watch::ClockStore;
use daemon_endpoints::Arrival;
use daemon_io::{ConnectionSource, Control, Datagrams, Poller};
use disk_files::{AccessRecordStore, VolumeWatch};
use disk_model::Folder;
use lease_expiry::{end_leases, renewal_view};
use server_clocks::{Clocks, Moment};
use server_core::ServerCore;

impl<
    G: Datagrams,
    D: ConnectionSource,
    K: Control,
    C: Clocks,
    T: Poller,
    A: AccessRecordStore + ClockStore + VolumeWatch,
    L: Print,
> Daemon<'_, G, D, K, C, T, A, L> {
    /// Ends leases that have ended, 64 at most: none that the partner may have renewed.
    pub(crate) fn end_leases<F: Folder + Drop>(
        &self,
        running: &mut ServerCore<F, Arrival<G::Peer>>,
        now: &Moment,
    )
    where
        F::File: Drop,
        ensures files { HasSameFiles running.old running.new }
        ensures ended { EndsLeases self.now.is_alone self.now.contact self.now.upkeep.heartbeat self.now.settings.now
            now.now running.old running.new }
    {
        let two_heartbeats = 2 * u64::from(self.upkeep.heartbeat());
        let is_heard = self.contact.is_heard_within(two_heartbeats, now.instant);
        let view = renewal_view(running, self.is_alone, is_heard);
        end_leases(running, self.settings, &view, now.reading);
    }
}
