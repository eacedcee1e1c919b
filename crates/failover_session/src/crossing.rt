//! What is told, and when, of renewals that cross.

ghost use Rattle.std.specs.Prelude.{◌≡◌, ◌↔◌, IsTrue};
ghost use Rattle.failover_session.specs.Crossing.{IsHeldBack, IsToldFirst};

use crate::policy::SessionPolicy;
use crate::raising::LastRaise;
use binding_rules::{Role, Status, Unit, Update};

/// Returns whether a change of a unit isn't told until the next connection: of a daemon's secondary a change to active
/// whose number a take raised last. Its partner tells its own change again, and settles by the reply to that.
pub(crate) fn is_held_back(
    policy: SessionPolicy,
    role: Role,
    status: Status,
    raise: LastRaise,
) -> bool
    ensures { IsTrue result ↔ IsHeldBack policy role status raise }
{
    policy == SessionPolicy::Serve
        && role == Role::Secondary
        && status == Status::Active
        && raise == LastRaise::TakenHere
}

/// Returns whether a server that takes an update of a unit, which was this before, tells its own change of it before the
/// reply. In the other order the partner would drop that change as seen.
pub(crate) fn is_told_first(
    policy: SessionPolicy,
    was: &Unit,
    raise: LastRaise,
    update: &Update,
) -> bool
    ensures { IsTrue result ↔ IsToldFirst policy was.now raise update.now }
{
    policy == SessionPolicy::Serve
        && update.status == Status::Active
        && was.due == Some(Status::Active)
        && raise != LastRaise::Own
        && update.seen == was.mine
}
