//! Rules of what a server makes of a unit, 4 to 11 and 20, and of its own state, 16 and 17.

ghost use Rattle.std.specs.Prelude.{◌≡◌, ◌↔◌, IsTrue, true, false};
ghost use Rattle.book_rules.specs.State.{state};
ghost use Rattle.book_rules.specs.UnitRules.{NamesUnit, KeepsUnit, KeepsWaiting, KeepsGrant, KeepsLifetime};
ghost use Rattle.book_rules.specs.UnitRules.{KeepsRelease, KeepsExpiry, KeepsBackup, KeepsReclaim, KeepsDown};
ghost use Rattle.book_rules.specs.UnitRules.{KeepsRestart, IsSeizable, KeepsSeize};

use crate::table::Table;
use binding_rules::{Body, Role, ServerState, Status, Unit, UnitStatus, grantable, renewable};
use journal_lines::Event;
use lead_time::{Reading, allowed_valid, is_past, takeover};

impl Table {
    fn names_unit(&self, body: &Body) -> bool
        ensures { IsTrue result ↔ NamesUnit (state self.now) body.now }
    {
        match body {
            Body::Update(update) => self.units.has(&update.prefix),
            Body::Reply(reply) => self.units.has(&reply.prefix),
            Body::Contact { .. } => true,
        }
    }

    /// 4: what is granted, ended, moved or told of is a unit.
    pub(crate) fn keeps_unit(&self, event: &Event) -> bool
        ensures { IsTrue result ↔ KeepsUnit (state self.now) event.now }
    {
        match event {
            Event::Grant(lease) => self.units.has(&lease.prefix),
            Event::Release { prefix, .. } => self.units.has(prefix),
            Event::Expire(prefix) => self.units.has(prefix),
            Event::Backup(prefix) => self.units.has(prefix),
            Event::Reclaim(prefix) => self.units.has(prefix),
            Event::Send(message) => self.names_unit(&message.body),
            _ => true,
        }
    }

    /// 5: a server that waits for its partner grants nothing.
    pub(crate) fn keeps_waiting(&self, event: &Event) -> bool
        ensures { IsTrue result ↔ KeepsWaiting (state self.now) event.now }
    {
        match event {
            Event::Grant(_) => !self.numbers.waiting,
            _ => true,
        }
    }

    /// 6: what is granted is the server's to give, or is this client's already.
    pub(crate) fn keeps_grant(&self, event: &Event) -> bool
        ensures { IsTrue result ↔ KeepsGrant (state self.now) event.now }
    {
        match event {
            Event::Grant(lease) => {
                let unit = self.units.unit(&lease.prefix);
                grantable(self.numbers.role, unit) || renewable(unit, &lease.client, lease.iaid)
            }
            _ => true,
        }
    }

    /// 7: the lifetime is what the maximum client lead time allows.
    pub(crate) fn keeps_lifetime(&self, now: Reading, event: &Event) -> bool
        ensures { IsTrue result ↔ KeepsLifetime (state self.now) now event.now }
    {
        match event {
            Event::Grant(lease) => {
                let acked = self.units.unit(&lease.prefix).acked;
                lease.valid == allowed_valid(self.numbers.life, self.numbers.mclt, acked, now)
            }
            _ => true,
        }
    }

    /// 8: only the client whose the unit is gives it back.
    pub(crate) fn keeps_release(&self, event: &Event) -> bool
        ensures { IsTrue result ↔ KeepsRelease (state self.now) event.now }
    {
        match event {
            Event::Release {
                client,
                iaid,
                prefix,
            } => renewable(self.units.unit(prefix), client, *iaid),
            _ => true,
        }
    }

    /// 9: a unit expires once no grant that the server knows of lasts.
    pub(crate) fn keeps_expiry(&self, now: Reading, event: &Event) -> bool
        ensures { IsTrue result ↔ KeepsExpiry (state self.now) now event.now }
    {
        match event {
            Event::Expire(prefix) => {
                let unit = self.units.unit(prefix);
                unit.status.status() == Status::Active
                    && is_past(now, unit.own_end)
                    && is_past(now, unit.told)
            }
            _ => true,
        }
    }

    /// 10: the primary moves free units to the secondary's pool.
    pub(crate) fn keeps_backup(&self, event: &Event) -> bool
        ensures { IsTrue result ↔ KeepsBackup (state self.now) event.now }
    {
        match event {
            Event::Backup(prefix) => {
                let unit = self.units.unit(prefix);
                self.numbers.role == Role::Primary && is_free(unit)
            }
            _ => true,
        }
    }

    /// 11: the primary asks for such units back.
    pub(crate) fn keeps_reclaim(&self, event: &Event) -> bool
        ensures { IsTrue result ↔ KeepsReclaim (state self.now) event.now }
    {
        match event {
            Event::Reclaim(prefix) => {
                let unit = self.units.unit(prefix);
                self.numbers.role == Role::Primary && is_free_backup(unit)
            }
            _ => true,
        }
    }

    /// 16: a partner is taken for down once, in a new term, by a server that doesn't wait for it.
    pub(crate) fn keeps_down(&self, event: &Event) -> bool
        ensures { IsTrue result ↔ KeepsDown (state self.now) event.now }
    {
        match event {
            Event::State(ServerState::Down) => {
                !self.numbers.waiting && self.numbers.down.is_none() && self.numbers.term < u32::MAX
            }
            _ => true,
        }
    }

    /// 17: restarts are numbered on.
    pub(crate) fn keeps_restart(&self, event: &Event) -> bool
        ensures { IsTrue result ↔ KeepsRestart (state self.now) event.now }
    {
        match event {
            Event::Restart(number) => number.number() == self.numbers.restart.number() + 1,
            _ => true,
        }
    }

    /// Returns whether a unit of a partner that is down may be seized at a reading.
    pub fn is_seizable(&self, now: Reading, unit: &Unit) -> bool
        ensures { IsTrue result ↔ IsSeizable (state self.now) now unit.now (state self.now).down }
    {
        let numbers = &self.numbers;
        match numbers.down {
            Some(down) => {
                let until = takeover(unit.told, down, numbers.mclt, numbers.skew, numbers.transit);
                !grantable(numbers.role, unit)
                    && is_past(now, unit.own_end)
                    && until <= now.milliseconds()
            }
            None => false,
        }
    }

    /// 20: a unit of a partner that is down is seized once no lease of it can last.
    pub(crate) fn keeps_seize(&self, now: Reading, event: &Event) -> bool
        ensures { IsTrue result ↔ KeepsSeize (state self.now) now event.now }
    {
        match event {
            Event::Seize(prefix) => {
                self.units.has(prefix) && self.is_seizable(now, self.units.unit(prefix))
            }
            _ => true,
        }
    }
}

/// Returns whether the unit is the primary's to give.
fn is_free(unit: &Unit) -> bool
    ensures { IsTrue result ↔ (unit.now.status ≡ UnitStatus.Free) }
{
    matches!(&unit.status, UnitStatus::Free)
}

/// Returns whether the unit is the secondary's to give.
fn is_free_backup(unit: &Unit) -> bool
    ensures { IsTrue result ↔ (unit.now.status ≡ UnitStatus.FreeBackup) }
{
    matches!(&unit.status, UnitStatus::FreeBackup)
}
