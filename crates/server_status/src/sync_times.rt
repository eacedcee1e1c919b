//! How long syncs take.

ghost use Rattle.std.specs.Prelude.{◌≡◌, ◌++◌, ◌∷◌, [], ◌≤◌, length, IfOk, OnOk, OnErr, MatchOption};
ghost use Rattle.server_status.specs.Syncs.{last_of, is_recent, recent_times, IsSummaryOf, IsSummary};

use lead_time::Reading;
use std::alloc::{AllocError, Global};
use std::collections::VecDeque;
use std::marker::Model;

/// The most syncs that are looked at.
const MOST: usize = 1024;

/// A minute, in milliseconds.
const MINUTE: u64 = 60_000;

/// A sync: when it ended, and how long it took, in microseconds.
#[derive(Clone, Copy, Debug, PartialEq, Eq)]
pub struct SyncTime {
    pub ended: Reading,
    pub microseconds: u64,
}

/// How long syncs took.
#[derive(Clone, Copy, Debug, PartialEq, Eq)]
pub struct SyncSummary {
    /// How many there were.
    pub count: usize,
    /// In microseconds, the one in the middle of all in their order, of two in the middle the longer one.
    pub median: u64,
    /// The longest, in microseconds.
    pub worst: u64,
}

/// A server's last syncs, 1,024 at most. Contracts see the list of them.
#[derive(Debug, Drop)]
pub struct SyncTimes {
    times: VecDeque<SyncTime>,
}

impl Model for SyncTimes {
    ghost use Rattle.std.specs.Prelude.{List, ◌≤◌, length};
    ghost use Rattle.server_status.specs.declared.sync_times.SyncTime.{SyncTime as SyncTimeValue};

    ghost Value = { List SyncTimeValue };

    ghost view = { λ s. s.times.items };

    ghost invariant = { λ s. length s.times.items ≤ 1024 };
}

/// Returns whether a sync ended a minute before a reading or later.
fn is_recent(time: &SyncTime, now: Reading) -> bool
    ensures { result ≡ is_recent now time.now }
{
    now.milliseconds() <= time.ended.milliseconds() + MINUTE
}

/// What is to be said of times in their order.
fn summary_of(sorted: &[u64]) -> Option<SyncSummary>
    ensures { MatchOption result (sorted.now ≡ []) (IsSummaryOf sorted.now) }
{
    let worst = *sorted.last()?;
    Some(SyncSummary {
        count: sorted.len(),
        median: sorted[sorted.len() / 2],
        worst,
    })
}

impl SyncTimes {
    /// None was yet.
    pub fn new(alloc: Global) -> SyncTimes
        ensures { result ≡ [] }
    {
        SyncTimes {
            times: VecDeque::new(alloc),
        }
    }

    /// Adds a sync; of more than 1,024 the first is forgotten. `AllocError` where a growth was refused: nothing is
    /// changed then.
    pub fn add(&mut self, time: SyncTime) -> Result<(), AllocError>
        ensures added { OnOk result (self.new ≡ last_of (self.old ++ time ∷ [])) }
        ensures refused { OnErr result (self.new ≡ self.old) }
    {
        self.times.push_back(time)?;
        if self.times.len() > MOST {
            self.times.pop_front();
        }
        Ok(())
    }

    /// How long each sync took that ended a minute before a reading or later, in microseconds.
    fn recent(&self, alloc: Global, now: Reading) -> Result<Vec<u64>, AllocError>
        ensures { IfOk result (λ v. v.items ≡ recent_times now self.now) }
    {
        let mut times = Vec::new(alloc);
        for time in &self.times {
            if is_recent(time, now) {
                times.push(time.microseconds)?;
            }
        }
        Ok(times)
    }

    /// How long the syncs took that ended a minute before a reading or later; none where none did. `AllocError` where a
    /// growth was refused.
    pub fn summary(&self, alloc: Global, now: Reading) -> Result<Option<SyncSummary>, AllocError>
        ensures { IfOk result (IsSummary (recent_times now self.now)) }
    {
        let mut times = self.recent(alloc, now)?;
        times.sort()?;
        Ok(summary_of(&times))
    }
}
