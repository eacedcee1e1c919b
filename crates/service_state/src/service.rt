//! Whether a server may serve, beside what its book and its clock say.

ghost use Rattle.std.specs.Prelude.{◌≡◌, ◌↔◌, IsTrue, IfSome, None};
ghost use Rattle.service_state.specs.Service.{IsOpen, IsShort, IsShut, IsHeldOff, IsNextService};
ghost use Rattle.service_state.specs.Service.{IsAfterStart};
ghost use Rattle.service_state.specs.Statuses.{IsHoldingOff};

use failover_session::{JournalShortage, SessionStage};
use folder_start::is_survivor;
use order_book::Book;
use std::time::{Duration, Instant};

/// How many milliseconds a server that goes on without `restart` waits for its partner before it serves.
const HOLD_OFF: u64 = 30_000;

/// How many milliseconds a connection stands, at most, until a partner that waits has said so.
const LONGEST_SILENCE: u64 = 10_000;

/// Whether a server may serve.
#[derive(Clone, Copy, Debug, PartialEq, Eq)]
pub enum ServiceState {
    /// It serves, as its book lets it.
    Open,
    /// It began again with a book that isn't calm, and waits for its partner since then.
    HoldsOff { since: Instant },
    /// It serves nobody any more: what its partner says shows that its journal is short.
    Shut(ShutReason),
}

/// What shows that a journal is short.
#[derive(Clone, Copy, Debug, PartialEq, Eq)]
pub enum ShutReason {
    /// The partner knows more of it.
    Journal(JournalShortage),
    /// The book isn't calm, and yet the partner doesn't wait: so the two had come together again behind it.
    PartnerServes,
}

/// What a server sees of its partner in a turn.
#[derive(Clone, Copy, Debug)]
pub struct PartnerView {
    /// How far the two have come over the connection; none where there is none.
    pub stage: Option<SessionStage>,
    /// Whether it said over the connection that it waits for an answer.
    pub waits: bool,
    /// How long the connection has stood.
    pub connected_for: Option<Duration>,
}

/// What shows that the journal is short, where the two have come so far that the session says so.
fn shortage_in(stage: &Option<SessionStage>) -> Option<JournalShortage>
    ensures some { IfSome result (λ _. IsShort stage.now) }
    ensures none { result ≡ None → IsShort stage.now → ⊥ }
{
    match stage {
        Some(SessionStage::Short { shortage, .. }) => Some(*shortage),
        _ => None,
    }
}

impl ServiceState {
    /// Whether a server may serve behind a turn, by what it saw of its partner in it.
    pub fn next(&self, partner: &PartnerView, now: Instant) -> ServiceState
        ensures { IsNextService self.now result partner.now now }
    {
        match self {
            ServiceState::Shut(why) => ServiceState::Shut(*why),
            ServiceState::Open => match shortage_in(&partner.stage) {
                Some(shortage) => ServiceState::Shut(ShutReason::Journal(shortage)),
                None => ServiceState::Open,
            },
            ServiceState::HoldsOff { since } => match shortage_in(&partner.stage) {
                Some(shortage) => ServiceState::Shut(ShutReason::Journal(shortage)),
                None => held_off(*since, partner, now),
            },
        }
    }

    /// How many seconds a server holds off still, rounded up; none where it doesn't.
    pub fn seconds_left(&self, now: Instant) -> Option<u64>
        ensures { result ≡ None ↔ (IsHoldingOff self.now → ⊥) }
    {
        match self {
            ServiceState::HoldsOff { since } => {
                let waited = now.duration_since(*since).as_secs();
                Some((HOLD_OFF / 1000).saturating_sub(waited))
            }
            ServiceState::Open | ServiceState::Shut(_) => None,
        }
    }

    /// Returns whether a server serves nobody any more.
    pub fn is_shut(&self) -> bool
        ensures { IsTrue result ↔ IsShut self.now }
    {
        matches!(self, ServiceState::Shut(_))
    }

    /// Returns whether a server may serve, as far as this says.
    pub fn is_open(&self) -> bool
        ensures { IsTrue result ↔ IsOpen self.now }
    {
        matches!(self, ServiceState::Open)
    }
}

/// Whether a server that has held off since a moment may serve now: where its partner waits, or where the time is over.
/// A partner that is met then has so long to say that it waits; one that doesn't serves.
fn held_off(since: Instant, partner: &PartnerView, now: Instant) -> ServiceState
    ensures { IsHeldOff since partner.now now result }
{
    if partner.waits {
        return ServiceState::Open;
    }
    if now.duration_since(since) <= Duration::from_millis(HOLD_OFF) {
        return ServiceState::HoldsOff { since };
    }
    match (partner.stage, partner.connected_for) {
        (Some(SessionStage::Joined { .. }), Some(stood)) => {
            if stood < Duration::from_millis(LONGEST_SILENCE) {
                ServiceState::HoldsOff { since }
            } else {
                ServiceState::Shut(ShutReason::PartnerServes)
            }
        }
        _ => ServiceState::Open,
    }
}

/// Whether a server of a book may serve when it has started: a survivor that has a partner holds off.
pub fn service_of(book: &Book, is_alone: bool, now: Instant) -> ServiceState
    ensures { IsAfterStart book.now is_alone now result }
{
    if is_alone {
        return ServiceState::Open;
    }
    if is_survivor(book) {
        ServiceState::HoldsOff { since: now }
    } else {
        ServiceState::Open
    }
}
