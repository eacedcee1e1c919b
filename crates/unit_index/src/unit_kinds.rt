//! What a search needs to know of units.

ghost use Rattle.std.specs.Prelude.{◌≡◌, IsTrue};
ghost use Rattle.unit_index.specs.Kinds.{ends_by, kinds_of, nothing, earlier, joined, may_be};

use crate::searching::UnitQuery;
use binding_rules::{Role, Unit, UnitStatus, grantable};
use lead_time::{End, is_past};

/// The kinds of a unit, or of some units at once: what one of them may be.
#[derive(Clone, Copy)]
pub(crate) struct UnitKinds {
    /// One is the server's to give.
    pub(crate) usable: bool,
    /// One isn't.
    pub(crate) taken: bool,
    /// One has a pending reply.
    pub(crate) pending: bool,
    /// One has a change that the partner has yet to acknowledge.
    pub(crate) due: bool,
    /// One was seized, which the partner has yet to acknowledge.
    pub(crate) marked: bool,
    /// From here on one may be expired.
    pub(crate) ends: Option<End>,
}

/// From when on a unit may be expired.
fn ends_of(unit: &Unit) -> Option<End>
    ensures { result ≡ ends_by unit.now.status unit.now }
{
    match &unit.status {
        UnitStatus::Active(_) => Some(unit.own_end.max(unit.told)),
        _ => None,
    }
}

/// The earlier of two ends.
pub(crate) fn earlier(one: Option<End>, other: Option<End>) -> Option<End>
    ensures { result ≡ earlier one other }
{
    match (one, other) {
        (None, _) => other,
        (_, None) => one,
        (Some(end), Some(next)) => Some(end.min(next)),
    }
}

impl UnitKinds {
    /// Of a unit, as a server in this role sees it.
    pub(crate) fn of(role: Role, unit: &Unit) -> UnitKinds
        ensures { result ≡ kinds_of role unit.now }
    {
        let usable = grantable(role, unit);
        UnitKinds {
            usable,
            taken: !usable,
            pending: unit.pending.is_some(),
            due: unit.due.is_some(),
            marked: unit.marked,
            ends: ends_of(unit),
        }
    }

    /// Of no unit.
    pub(crate) fn nothing() -> UnitKinds
        ensures { result ≡ nothing }
    {
        UnitKinds {
            usable: false,
            taken: false,
            pending: false,
            due: false,
            marked: false,
            ends: None,
        }
    }

    /// Of the units of both.
    pub(crate) fn joined(&self, other: &UnitKinds) -> UnitKinds
        ensures { result ≡ joined self.now other.now }
    {
        UnitKinds {
            usable: self.usable || other.usable,
            taken: self.taken || other.taken,
            pending: self.pending || other.pending,
            due: self.due || other.due,
            marked: self.marked || other.marked,
            ends: earlier(self.ends, other.ends),
        }
    }

    /// Returns whether one of the units may be what is wanted.
    pub(crate) fn may_be(&self, wanted: &UnitQuery) -> bool
        ensures { result ≡ may_be wanted.now self.now }
    {
        match wanted {
            UnitQuery::Usable => self.usable,
            UnitQuery::Expirable(now) => match self.ends {
                Some(end) => is_past(*now, end),
                None => false,
            },
            UnitQuery::Seizable(_) => self.taken,
            UnitQuery::Pending => self.pending,
            UnitQuery::Due => self.due,
            UnitQuery::Marked => self.marked,
            UnitQuery::Overcounted => true,
        }
    }
}
