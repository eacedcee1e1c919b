//! What a server's own lines make of a unit.

ghost use Rattle.std.specs.Prelude.{◌≡◌, ◌^◌, ◌<◌, option_map};
ghost use Rattle.book_state.specs.Effects.{changed, expired, own_pool, seized, pending_of, unit_of};

use binding_rules::{BindReply, Role, Status, Unit, UnitStatus};
use journal_lines::KeptUnit;

/// The unit after a change of the server's own, which the partner has yet to acknowledge.
pub fn changed(unit: &Unit, status: UnitStatus, due: Status) -> Unit
    requires { unit.now.mine < 2 ^ 49 }
    ensures { result ≡ changed status due unit.now }
{
    Unit {
        status,
        mine: unit.mine.next(),
        due: Some(due),
        ..*unit
    }
}

/// The status of a unit whose lease ended.
pub fn expired(status: &UnitStatus) -> UnitStatus
    ensures { result ≡ expired status.now }
{
    match status {
        UnitStatus::Active(binding) => UnitStatus::Expired(*binding),
        _ => *status,
    }
}

/// Returns what a server in this role may give.
fn own_pool(role: Role) -> UnitStatus
    ensures { result ≡ own_pool role }
{
    match role {
        Role::Primary => UnitStatus::Free,
        Role::Secondary => UnitStatus::FreeBackup,
    }
}

/// The unit once it is seized.
pub fn seized(role: Role, unit: &Unit) -> Unit
    requires { unit.now.mine < 2 ^ 49 }
    ensures { result ≡ seized role unit.now }
{
    Unit {
        status: own_pool(role),
        mine: unit.mine.next(),
        marked: true,
        ..unit.freed()
    }
}

/// The pending reply of a kept unit, of the unit's own prefix.
fn pending_of(kept: &KeptUnit) -> Option<BindReply>
    ensures { result ≡ option_map (pending_of kept.now.prefix) kept.now.pending }
{
    match &kept.pending {
        Some(pending) => Some(BindReply {
            acknowledgement: pending.acknowledgement,
            prefix: kept.prefix,
            of: pending.of,
            mine: pending.mine,
            seen: pending.seen,
        }),
        None => None,
    }
}

/// A unit as an earlier volume left it.
pub fn unit_of(kept: &KeptUnit) -> Unit
    ensures { result ≡ unit_of kept.now }
{
    Unit {
        status: kept.status,
        mine: kept.mine,
        seen: kept.seen,
        own_end: kept.own_end,
        out_end: kept.out_end,
        acked: kept.acked,
        told: kept.told,
        due: kept.due,
        pending: pending_of(kept),
        marked: false,
    }
}
