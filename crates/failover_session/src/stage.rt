//! How far the two ends of a connection have come.

ghost use Rattle.std.specs.Prelude.{◌≡◌, ◌↔◌, IsTrue, List};
ghost use Rattle.locked_book.specs.declared.receipt.Receipt.{Receipt};
ghost use Rattle.failover_session.specs.declared.policy.SessionPolicy.{SessionPolicy};
ghost use Rattle.failover_session.specs.Sessions.{met_at, IsGoing};
ghost use Rattle.failover_session.specs.Shortage.{SaysWhyShort};

use crate::shortage::JournalShortage;
use binding_rules::Counter;

/// How far the two ends have come.
#[derive(Clone, Copy, Debug, PartialEq, Eq)]
pub enum SessionStage {
    /// The other end hasn't said yet what it took.
    Greeting,
    /// It said what can't be: it has lost its journal.
    Refused,
    /// Both have: the serial of the last message that the other end took.
    Joined {
        last: Counter,
    },
    /// The other end goes; what it had named before.
    Ended {
        named: Option<Counter>,
    },
    /// It knows what this server's journal doesn't have: a part of that was lost. What it had named before.
    Short {
        named: Option<Counter>,
        shortage: JournalShortage,
    },
}

impl SessionStage {
    /// Returns whether the talk is at its end: the other end goes, or was refused, or this journal is short.
    pub fn has_ended(&self) -> bool
        ensures { IsTrue result ↔ ¬ (IsGoing self.now) }
    {
        matches!(
            self,
            SessionStage::Refused | SessionStage::Ended { .. } | SessionStage::Short { .. }
        )
    }

    /// Returns the stage in which the other end goes.
    pub(crate) fn ended(&self) -> SessionStage
        ensures met { met_at result ≡ met_at self.now }
        ensures why { (p : SessionPolicy) → (has : List Receipt) → IsGoing self.now → SaysWhyShort p has result }
    {
        match self {
            SessionStage::Greeting => SessionStage::Ended { named: None },
            SessionStage::Joined { last } => SessionStage::Ended { named: Some(*last) },
            SessionStage::Refused | SessionStage::Ended { .. } | SessionStage::Short { .. } =>
                *self,
        }
    }
}
