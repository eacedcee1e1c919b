//! How a server is.

ghost use Rattle.std.specs.Prelude.{◌≡◌, pos, ◌-ℤ◌};

use crate::control_request::StatusFormat;
use crate::json::json_of;
use crate::lines::lines_of;
use crate::metrics::metrics_of;
use crate::notices::PartnerNotices;
use crate::partner_refusal::LastRefusal;
use crate::serving::{JournalState, ServingState};
use crate::sync_times::SyncSummary;
use crate::traffic::Traffic;
use crate::units::UnitCounts;
use binding_rules::Role;
use lead_time::Reading;
use server_timers::{RollState, Room};
use std::alloc::{AllocError, Global};

/// How a server is, when its clock reads `reading`.
#[derive(Clone, Copy)]
pub struct ServerStatus<'a> {
    pub role: Role,
    pub reading: Reading,
    pub clock: ClockState,
    pub volume: VolumeStatus,
    pub units: UnitCounts,
    pub standing: PartnerState,
    pub link: LinkState,
    /// When the partner's last message was taken, if one was since the server began.
    pub heard: Option<Reading>,
    pub traffic: Traffic,
    /// Of the last minute; none where nothing was synced.
    pub syncs: Option<SyncSummary>,
    /// Whether clients are served, and why not ([`serving_of`](crate::serving_of)).
    pub serving: ServingState,
    /// Whether it has all that its partner took of it.
    pub journal: JournalState,
    /// Why it refused its partner last, if it did and no connection has stood for a while since.
    pub refusal: Option<LastRefusal>,
    /// What its partner told beside the frames.
    pub notices: PartnerNotices<'a>,
}

/// Whether the clock may go on with the journal.
#[derive(Clone, Copy, Debug, PartialEq, Eq)]
pub enum ClockState {
    Right,
    /// It reads more than twice the skew below the journal's last line: nothing is served.
    Behind,
    /// Somebody set it, and nobody said yet that it is right: nothing is served.
    Set,
}

/// The volume that a server writes.
#[derive(Clone, Copy, Debug, PartialEq, Eq)]
pub struct VolumeStatus {
    pub number: u32,
    /// How many lines it has.
    pub lines: usize,
    /// How many of them are on the disk.
    pub synced: usize,
    /// The reading of its first line.
    pub opened: Reading,
    /// The reading of its last line.
    pub written: Reading,
    pub roll: RollState,
    pub room: Room,
}

/// What a server takes its partner for.
#[derive(Clone, Copy, Debug, PartialEq, Eq)]
pub enum PartnerState {
    /// Both serve.
    Normal,
    /// It began again, and serves nobody until its partner answers.
    Waiting { since: Reading },
    /// It takes its partner for down.
    Down { since: Reading },
}

/// How a server is linked to its partner.
#[derive(Clone, Copy, Debug, PartialEq, Eq)]
pub enum LinkState {
    /// It is alone: its settings name no partner.
    Alone,
    /// There is no connection.
    Apart,
    Connected { since: Reading },
}

impl ServerStatus<'_> {
    /// By how many milliseconds the clock is ahead of the last line; below 0 where it is behind.
    pub fn ahead(&self) -> i64
        ensures { result ≡ pos self.now.reading -ℤ pos self.now.volume.written }
    {
        self.reading.milliseconds() as i64 - self.volume.written.milliseconds() as i64
    }

    /// Writes the status. `AllocError` where a growth was refused.
    pub fn text(&self, alloc: Global, form: StatusFormat) -> Result<String, AllocError> {
        match form {
            StatusFormat::Lines => lines_of(alloc, self),
            StatusFormat::Json => json_of(alloc, self),
            StatusFormat::Metrics => metrics_of(alloc, self),
        }
    }
}

impl ClockState {
    /// The name of each state.
    pub(crate) const NAMES: [&'static str; 3] = ["right", "behind", "set"];

    pub(crate) fn name(&self) -> &'static str {
        match self {
            ClockState::Right => "right",
            ClockState::Behind => "behind",
            ClockState::Set => "set",
        }
    }
}

impl PartnerState {
    pub(crate) fn name(&self) -> &'static str {
        match self {
            PartnerState::Normal => "normal",
            PartnerState::Waiting { .. } => "waiting",
            PartnerState::Down { .. } => "down",
        }
    }

    /// Since when the server doesn't take its partner for up, if it doesn't.
    pub(crate) fn since(&self) -> Option<Reading> {
        match self {
            PartnerState::Normal => None,
            PartnerState::Waiting { since } => Some(*since),
            PartnerState::Down { since } => Some(*since),
        }
    }
}

impl LinkState {
    pub(crate) fn name(&self) -> &'static str {
        match self {
            LinkState::Alone => "alone",
            LinkState::Apart => "apart",
            LinkState::Connected { .. } => "connected",
        }
    }

    /// Since when there is a connection, if there is one.
    pub(crate) fn since(&self) -> Option<Reading> {
        match self {
            LinkState::Alone | LinkState::Apart => None,
            LinkState::Connected { since } => Some(*since),
        }
    }
}
