//! How many units are what.

ghost use Rattle.std.specs.Prelude.{◌≡◌};
ghost use Rattle.server_status.specs.Counts.{one_more, with_status, with_unit};

use binding_rules::{Role, Unit, UnitStatus};

/// How many units a server knows of, by what they are.
#[derive(Clone, Copy, Debug, PartialEq, Eq)]
pub struct UnitCounts {
    /// The server's to give.
    pub own: u64,
    /// Its partner's to give.
    pub partners: u64,
    pub delegated: u64,
    /// The lease has ended, and the unit isn't free yet.
    pub expired: u64,
    /// The client gave it back, and the unit isn't free yet.
    pub released: u64,
    /// The partner has yet to acknowledge what became of the unit.
    pub due: u64,
    /// The server seized the unit, and the partner has yet to acknowledge it.
    pub marked: u64,
}

/// One more, as far as numbers go.
pub(crate) fn one_more(count: u64) -> u64
    ensures { result ≡ one_more count }
{
    count.saturating_add(1)
}

impl UnitCounts {
    /// No unit is counted yet.
    pub const NONE: UnitCounts = UnitCounts {
        own: 0,
        partners: 0,
        delegated: 0,
        expired: 0,
        released: 0,
        due: 0,
        marked: 0,
    };

    /// Counts a unit of this status at a server in this role.
    fn add_status(&mut self, role: Role, status: &UnitStatus)
        ensures { self.new ≡ with_status role status.now self.old }
    {
        match (role, status) {
            (Role::Primary, UnitStatus::Free) => self.own = one_more(self.own),
            (Role::Primary, UnitStatus::FreeBackup) => self.partners = one_more(self.partners),
            (Role::Secondary, UnitStatus::Free) => self.partners = one_more(self.partners),
            (Role::Secondary, UnitStatus::FreeBackup) => self.own = one_more(self.own),
            (_, UnitStatus::Active(_)) => self.delegated = one_more(self.delegated),
            (_, UnitStatus::Expired(_)) => self.expired = one_more(self.expired),
            (_, UnitStatus::Released(_)) => self.released = one_more(self.released),
        }
    }

    /// Counts a unit of a server in this role.
    pub fn add(&mut self, role: Role, unit: &Unit)
        ensures { self.new ≡ with_unit role unit.now self.old }
    {
        self.add_status(role, &unit.status);
        if unit.due.is_some() {
            self.due = one_more(self.due);
        }
        if unit.marked {
            self.marked = one_more(self.marked);
        }
    }

    /// The counts of what units are, with their names.
    pub(crate) fn named(&self) -> [(&'static str, u64); 5] {
        [
            ("own", self.own),
            ("partners", self.partners),
            ("delegated", self.delegated),
            ("expired", self.expired),
            ("released", self.released),
        ]
    }
}
