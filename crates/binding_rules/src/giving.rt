//! Which units a server may give.

ghost use Rattle.std.specs.Prelude.{◌≡◌, ◌↔◌, IsTrue};
ghost use Rattle.binding_rules.specs.Giving.{is_own, is_active_for};

use crate::role::Role;
use crate::unit::{Binding, Unit, UnitStatus};
use client_id::{Duid, Iaid};

/// Returns whether a server in this role may give the unit to any client: a free one at the primary, a free backup at
/// the secondary.
pub fn grantable(role: Role, unit: &Unit) -> bool
    ensures { result ≡ is_own role unit.now.status }
{
    match role {
        Role::Primary => matches!(&unit.status, UnitStatus::Free),
        Role::Secondary => matches!(&unit.status, UnitStatus::FreeBackup),
    }
}

/// Returns whether the unit is delegated to this client under this identity association, so that either server may
/// renew it.
pub fn renewable(unit: &Unit, client: &Duid, iaid: Iaid) -> bool
    ensures test { result ≡ is_active_for unit.now client.now iaid }
    ensures same { IsTrue result ↔ (unit.now.status ≡ UnitStatus.Active (record { client = client.now; iaid = iaid })) }
{
    let asking = Binding {
        client: *client,
        iaid,
    };
    unit.status == UnitStatus::Active(asking)
}
