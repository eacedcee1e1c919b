//! The binding table: which updates a server accepts, and what they make of its unit.

ghost use Rattle.std.specs.Prelude.{◌≡◌};
ghost use Rattle.binding_rules.specs.Table.{said, accepts, is_accepted};

use crate::role::Role;
use crate::unit::{Binding, Unit, UnitStatus};
use crate::update::{Status, Update};
use lead_time::Reading;

/// Returns what an update says that the unit is: `None` where it should name a client and doesn't, and where the unit
/// was seized.
pub(crate) fn said(update: &Update) -> Option<UnitStatus>
    ensures { result ≡ said update.now }
{
    match &update.client {
        Some(client) => {
            let binding = Binding {
                client: *client,
                iaid: update.iaid,
            };
            match update.status {
                Status::Active => Some(UnitStatus::Active(binding)),
                Status::Expired => Some(UnitStatus::Expired(binding)),
                Status::Released => Some(UnitStatus::Released(binding)),
                Status::Backup => Some(UnitStatus::FreeBackup),
                Status::Free => Some(UnitStatus::Free),
                Status::Seized => None,
            }
        }
        None => match update.status {
            Status::Backup => Some(UnitStatus::FreeBackup),
            Status::Free => Some(UnitStatus::Free),
            _ => None,
        },
    }
}

/// Returns whether a server in this role accepts at this reading what an update says of its unit.
fn accepts(role: Role, unit: &Unit, now: Reading, update: &Update, said: &UnitStatus) -> bool
    ensures { result ≡ accepts role unit.now now update.now said.now unit.now.status }
{
    let is_past = unit.own_end.milliseconds() <= now.milliseconds();
    let is_of_the_last_change = update.seen == unit.mine;
    match (said, &unit.status) {
        (UnitStatus::Active(told), UnitStatus::Active(held)) => held == told,
        (UnitStatus::Expired(told), UnitStatus::Active(held)) => held == told && is_past,
        (UnitStatus::Released(told), UnitStatus::Active(held)) => {
            held == told && (is_past || is_of_the_last_change)
        }
        (UnitStatus::Expired(_), UnitStatus::Expired(_)) => true,
        (UnitStatus::Expired(_), UnitStatus::Released(_)) => true,
        (UnitStatus::Released(_), UnitStatus::Expired(_)) => true,
        (UnitStatus::Released(_), UnitStatus::Released(_)) => true,
        (UnitStatus::FreeBackup, UnitStatus::Free) => role == Role::Secondary
            && is_of_the_last_change,
        (UnitStatus::Free, UnitStatus::FreeBackup) => role == Role::Secondary,
        (UnitStatus::FreeBackup, UnitStatus::FreeBackup) => false,
        (_, UnitStatus::Free) => role == Role::Secondary,
        (_, UnitStatus::FreeBackup) => role == Role::Primary,
        _ => false,
    }
}

/// Returns whether a server in this role, which waits or doesn't, accepts the update of its unit at this reading.
pub(crate) fn is_accepted(
    role: Role,
    unit: &Unit,
    now: Reading,
    waiting: bool,
    update: &Update,
) -> bool
    ensures { result ≡ is_accepted role unit.now now waiting update.now }
{
    if unit.marked {
        return false;
    }
    if update.status == Status::Seized {
        return waiting;
    }
    match said(update) {
        Some(status) => accepts(role, unit, now, update, &status),
        None => false,
    }
}
