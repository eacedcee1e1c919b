//! Whether a server serves clients, and what of its journal is known to lack.

ghost use Rattle.std.specs.Prelude.{◌≡◌};
ghost use Rattle.server_status.specs.Serving.{serving_of, by_hold_off, partner_reason};

use crate::status::{ClockState, PartnerState};
use binding_rules::Counter;
use link_notices::ClockVerdict;
use prefix_range::Prefix;
use server_timers::Room;
use std::fmt;
use std::fmt::Write;
use std::net::Ipv6Addr;

/// Whether a server serves clients.
#[derive(Clone, Copy, Debug, PartialEq, Eq)]
pub enum ServingState {
    Yes,
    /// It serves nobody, and why.
    No(NotServing),
}

/// Why a server serves nobody.
#[derive(Clone, Copy, Debug, PartialEq, Eq)]
pub enum NotServing {
    /// Its partner has yet to answer it.
    WaitsForPartner,
    /// It waits for its partner, whose clock and this one can't both be right.
    PartnerClockDiffers,
    /// Its clock is too far behind its journal.
    ClockBehind,
    /// Its clock was set.
    ClockSet,
    /// It asks its partner's clock before it begins.
    AsksPartnerClock,
    /// Its journal lacks what its partner took of it.
    JournalOlder,
    /// Its volume has room for a close line alone.
    VolumeFull,
    /// Its disk failed: it ends, and is to be started again.
    DiskFailed,
    /// It began again while its partner was taken for down or units were marked, and goes on in so many seconds.
    GoesOnIn { seconds: u64 },
}

/// Whether a server's journal has all that its partner took of it.
#[derive(Clone, Copy, Debug, PartialEq, Eq)]
pub enum JournalState {
    /// As far as this server was told.
    Whole,
    /// It is older than what the partner took: it was put back from a copy, or is another's.
    Older(JournalShortage),
}

/// What a journal lacks, as its server was told.
#[derive(Clone, Copy, Debug, PartialEq, Eq)]
pub enum JournalShortage {
    /// The partner took message `taken`, and this journal sent `sent` at most.
    Messages {
        taken: Counter,
        sent: Counter,
    },
    /// The partner speaks of change `taken` of a unit of which this journal made `made`.
    Change {
        prefix: Prefix,
        taken: Counter,
        made: Counter,
    },
    /// This server's book isn't calm, and yet its partner doesn't wait for it.
    PartnerServes,
}

/// What decides whether a server serves clients.
#[derive(Clone, Copy, Debug, PartialEq, Eq)]
pub struct ServingInput {
    pub journal: JournalState,
    pub clock: ClockState,
    /// Whether it asks its partner's clock before it begins.
    pub asks_clock: bool,
    /// In how many seconds it goes on, where it holds off.
    pub goes_on_in: Option<u64>,
    pub standing: PartnerState,
    /// What is known of its partner's clock, if anything is.
    pub partner_clock: Option<ClockVerdict>,
    pub room: Room,
}

/// Why a server that waits for its partner does.
fn partner_reason(verdict: Option<ClockVerdict>) -> NotServing
    ensures { result ≡ partner_reason verdict }
{
    match verdict {
        Some(ClockVerdict::TooFarOff) => NotServing::PartnerClockDiffers,
        Some(ClockVerdict::Agrees | ClockVerdict::Unknown) | None => NotServing::WaitsForPartner,
    }
}

/// Whether a server whose journal is whole, whose clock is right, and which has begun serves clients.
fn by_hold_off(input: &ServingInput) -> ServingState
    ensures { result ≡ by_hold_off input.now.goes_on_in input.now.standing input.now.partner_clock input.now.room }
{
    match (input.goes_on_in, input.standing, input.room) {
        (Some(seconds), _, _) => ServingState::No(NotServing::GoesOnIn { seconds }),
        (None, PartnerState::Waiting { .. }, _) => {
            ServingState::No(partner_reason(input.partner_clock))
        }
        (None, PartnerState::Normal | PartnerState::Down { .. }, Room::Full) => {
            ServingState::No(NotServing::VolumeFull)
        }
        (None, PartnerState::Normal | PartnerState::Down { .. }, _) => ServingState::Yes,
    }
}

/// Whether a server serves clients, and else the first reason that it has: its journal is older; its clock is behind,
/// or was set; it asks its partner's clock before it begins; it goes on in so many seconds; it waits, and its partner's
/// clock differs; it waits for its partner's answer; its volume is full.
pub fn serving_of(input: &ServingInput) -> ServingState
    ensures { result ≡ serving_of input.now }
{
    match (input.journal, input.clock, input.asks_clock) {
        (JournalState::Older(_), _, _) => ServingState::No(NotServing::JournalOlder),
        (JournalState::Whole, ClockState::Behind, _) => ServingState::No(NotServing::ClockBehind),
        (JournalState::Whole, ClockState::Set, _) => ServingState::No(NotServing::ClockSet),
        (JournalState::Whole, ClockState::Right, true) => {
            ServingState::No(NotServing::AsksPartnerClock)
        }
        (JournalState::Whole, ClockState::Right, false) => by_hold_off(input),
    }
}

impl NotServing {
    /// The name of each reason.
    pub(crate) const NAMES: [&'static str; 9] = [
        "waits_for_partner",
        "clock_behind",
        "journal_older",
        "volume_full",
        "goes_on_after_restart",
        "clock_set",
        "asks_partner_clock",
        "partner_clock_differs",
        "disk_failed",
    ];

    /// The name of the reason, as programs read it.
    pub(crate) fn name(&self) -> &'static str {
        match self {
            NotServing::WaitsForPartner => "waits_for_partner",
            NotServing::ClockBehind => "clock_behind",
            NotServing::JournalOlder => "journal_older",
            NotServing::VolumeFull => "volume_full",
            NotServing::GoesOnIn { .. } => "goes_on_after_restart",
            NotServing::ClockSet => "clock_set",
            NotServing::AsksPartnerClock => "asks_partner_clock",
            NotServing::PartnerClockDiffers => "partner_clock_differs",
            NotServing::DiskFailed => "disk_failed",
        }
    }
}

impl ServingState {
    /// The name of the reason why nobody is served, if nobody is.
    pub(crate) fn why_not(&self) -> Option<&'static str> {
        match self {
            ServingState::Yes => None,
            ServingState::No(why) => Some(why.name()),
        }
    }
}

impl JournalState {
    pub(crate) fn name(&self) -> &'static str {
        match self {
            JournalState::Whole => "whole",
            JournalState::Older(_) => "older",
        }
    }
}

impl fmt::Display for NotServing {
    fn fmt<W: Write>(&self, f: &mut fmt::Formatter<W>) -> fmt::Result {
        match self {
            NotServing::WaitsForPartner => f.write_str("waits for its partner's answer"),
            NotServing::PartnerClockDiffers => f.write_str("its partner's clock differs"),
            NotServing::ClockBehind => f.write_str("clock behind"),
            NotServing::ClockSet => f.write_str("clock set"),
            NotServing::AsksPartnerClock => f.write_str("asks its partner's clock"),
            NotServing::JournalOlder => f.write_str("journal older than what its partner took"),
            NotServing::VolumeFull => f.write_str("volume full"),
            NotServing::DiskFailed => f.write_str("disk failed"),
            NotServing::GoesOnIn { seconds } => {
                write!(f, "goes on after its restart in {seconds} s")
            }
        }
    }
}

impl fmt::Display for ServingState {
    /// As a status begins with it.
    fn fmt<W: Write>(&self, f: &mut fmt::Formatter<W>) -> fmt::Result {
        match self {
            ServingState::Yes => f.write_str("yes"),
            ServingState::No(why) => write!(f, "no, {why}"),
        }
    }
}

impl fmt::Display for JournalShortage {
    fn fmt<W: Write>(&self, f: &mut fmt::Formatter<W>) -> fmt::Result {
        match self {
            JournalShortage::Messages { taken, sent } => {
                let (taken, sent) = (taken.number(), sent.number());
                write!(f, "it took message {taken}, this journal sent {sent}")
            }
            JournalShortage::PartnerServes => f.write_str(
                "its partner serves, and doesn't wait for it",
            ),
            JournalShortage::Change {
                prefix,
                taken,
                made,
            } => {
                let (taken, made) = (taken.number(), made.number());
                let (address, length) = (Ipv6Addr::from_bits(prefix.first()), prefix.len());
                write!(
                    f,
                    "it speaks of change {taken} of {address}/{length}, this journal made {made}"
                )
            }
        }
    }
}

impl fmt::Display for JournalState {
    fn fmt<W: Write>(&self, f: &mut fmt::Formatter<W>) -> fmt::Result {
        match self {
            JournalState::Whole => f.write_str("whole"),
            JournalState::Older(shortage) => {
                write!(f, "older than what its partner took ({shortage})")
            }
        }
    }
}
