//! Whether the file of the volume that a server writes is in its directory still.

ghost use Rattle.std.specs.Prelude.{◌≡◌};

use crate::daemon::Daemon;
use crate::error::DaemonError;
use clock_watch::ClockStore;
use daemon_io::{ConnectionSource, Control, Datagrams, Poller};
use disk_files::{AccessRecordStore, VolumeWatch};
use order_book::Book;
use server_clocks::{Clocks, Moment};
use std::time::{Duration, Instant};

/// After how many seconds it is seen again, at most: a heartbeat, where settings say nothing.
const LONGEST_UNSEEN: u64 = 60;

impl<
    G: Datagrams,
    D: ConnectionSource,
    K: Control,
    C: Clocks,
    T: Poller,
    A: AccessRecordStore + ClockStore + VolumeWatch,
    L: Print,
> Daemon<'_, G, D, K, C, T, A, L> {
    /// Returns whether a heartbeat is over by the monotonic clock since the file was seen last, or a minute.
    fn is_sight_due(&self, now: Instant) -> bool {
        let heartbeat = u64::from(self.upkeep.heartbeat());
        match self.seen_linked {
            Some(seen) => {
                now.duration_since(seen) >= Duration::from_secs(heartbeat.min(LONGEST_UNSEEN))
            }
            None => true,
        }
    }

    /// Sees, once each heartbeat, whether the file of the open volume is linked. `VolumeUnlinked` where it isn't: what
    /// is written to it goes with its last handle, so that nothing may be told any more.
    pub(crate) fn check_volume(&mut self, book: &Book, now: &Moment) -> Result<(), DaemonError>
        ensures clients { self.new.clients ≡ self.old.clients }
        ensures link { self.new.partner ≡ self.old.partner }
        ensures service { self.new.service ≡ self.old.service }
    {
        if !self.is_sight_due(now.instant) {
            return Ok(());
        }
        self.seen_linked = Some(now.instant);
        let volume = book.head().volume();
        if self.keeper.is_unlinked(volume) {
            return Err(DaemonError::VolumeUnlinked { volume });
        }
        Ok(())
    }
}
