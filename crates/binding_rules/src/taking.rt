//! What a server makes of its partner's messages.

ghost use Rattle.std.specs.Prelude.{◌≡◌, ◌+◌, ◌^◌, ◌<◌, IfSome, true, false};
ghost use Rattle.binding_rules.specs.Unit.{freed};
ghost use Rattle.binding_rules.specs.Table.{kept_due, becomes, partners_pool, taken_by, counted, answered, accepted};
ghost use Rattle.binding_rules.specs.Table.{after_update, outcome_of};
ghost use Rattle.binding_rules.specs.Reply.{counts, settled, count_unmarked, unmarked, after_reply};

use crate::role::Role;
use crate::table::{is_accepted, said};
use crate::unit::{Unit, UnitStatus};
use crate::update::{Acknowledgement, BindReply, Status, Update};
use lead_time::Reading;

/// What is made of an update.
#[derive(Clone, Copy, Debug, PartialEq, Eq)]
pub enum Outcome {
    Accept,
    Reject,
    /// It isn't newer than what was taken before.
    Drop,
}

fn kept_due(due: Option<Status>) -> Option<Status>
    ensures { result ≡ kept_due due }
{
    match due {
        Some(Status::Active) => Some(Status::Active),
        _ => None,
    }
}

/// Returns what the unit becomes by what an accepted update says, its counters and its reply apart.
fn becomes(unit: &Unit, update: &Update, said: &UnitStatus) -> Unit
    ensures { result ≡ becomes unit.now update.now said.now }
{
    match said {
        UnitStatus::Active(binding) => Unit {
            status: UnitStatus::Active(*binding),
            told: unit.told.max(update.end),
            due: kept_due(unit.due),
            ..*unit
        },
        UnitStatus::FreeBackup => Unit {
            status: UnitStatus::FreeBackup,
            ..*unit
        },
        _ => unit.freed(),
    }
}

/// Free for the other server to give.
fn partners_pool(role: Role) -> UnitStatus
    ensures { result ≡ partners_pool role }
{
    match role {
        Role::Primary => UnitStatus::FreeBackup,
        Role::Secondary => UnitStatus::Free,
    }
}

/// The unit after an accepted update, its counters and its reply apart.
fn taken(role: Role, unit: &Unit, update: &Update) -> Unit
    ensures unit { result ≡ taken_by update.now.status role unit.now update.now }
    ensures mine { result.mine ≡ unit.now.mine }
{
    if update.status == Status::Seized {
        return Unit {
            status: partners_pool(role),
            ..unit.freed()
        };
    }
    match said(update) {
        Some(status) => becomes(unit, update, &status),
        None => *unit,
    }
}

/// The unit with the reply to an update.
fn answered(unit: &Unit, update: &Update, acknowledgement: Acknowledgement) -> Unit
    ensures { result ≡ answered unit.now update.now acknowledgement }
{
    let reply = BindReply {
        acknowledgement,
        prefix: update.prefix,
        of: update.mine,
        mine: unit.mine,
        seen: unit.seen,
    };
    Unit {
        pending: Some(reply),
        ..*unit
    }
}

/// The unit after an update that is accepted.
fn accepted(role: Role, unit: &Unit, update: &Update) -> Unit
    requires { unit.now.mine < 2 ^ 49 }
    ensures unit { result ≡ accepted role unit.now update.now }
    ensures counted { (result.seen ≡ update.now.mine) × (result.mine ≡ unit.now.mine + 1) }
{
    let unit = taken(role, unit, update);
    let counted = Unit {
        mine: unit.mine.next(),
        seen: update.mine,
        ..unit
    };
    answered(&counted, update, Acknowledgement::Accept)
}

/// Returns what a server in this role makes at this reading of an update of its unit, and the unit afterwards.
/// `waiting` says whether the server waits for its partner since a restart. The update's term is the server's, and its
/// prefix the unit's.
pub fn take_update(
    role: Role,
    unit: &Unit,
    now: Reading,
    waiting: bool,
    update: &Update,
) -> (Outcome, Unit)
    requires { unit.now.mine < 2 ^ 49 }
    ensures outcome { result.0 ≡ outcome_of role unit.now now waiting update.now }
    ensures unit { result.1 ≡ after_update role unit.now now waiting update.now }
    // What is dropped changes nothing, what is rejected the reply alone, and what is accepted counts and is seen.
    ensures dropped { result.0 ≡ Outcome.Drop → result.1 ≡ unit.now }
    ensures rejected { result.0 ≡ Outcome.Reject → record result.1 { pending = unit.now.pending } ≡ unit.now }
    ensures counted { result.0 ≡ Outcome.Accept → (unit.now.seen < update.now.mine) × (result.1.seen ≡ update.now.mine)
        × (result.1.mine ≡ unit.now.mine + 1) }
{
    if update.mine <= unit.seen {
        return (Outcome::Drop, *unit);
    }
    if is_accepted(role, unit, now, waiting, update) {
        (Outcome::Accept, accepted(role, unit, update))
    } else {
        (
            Outcome::Reject,
            answered(unit, update, Acknowledgement::Reject),
        )
    }
}

/// Returns whether the reply accepts the unit's last change, and is newer than what was taken before.
fn counts(unit: &Unit, reply: &BindReply) -> bool
    ensures { result ≡ counts unit.now reply.now }
{
    reply.acknowledgement == Acknowledgement::Accept
        && (reply.of == unit.mine && unit.seen < reply.mine)
}

/// Returns what the unit becomes once the due change is acknowledged.
fn settled(unit: &Unit, due: Status) -> Unit
    ensures { result ≡ settled unit.now due }
{
    match due {
        Status::Active => Unit {
            acked: unit.acked.max(unit.out_end),
            due: None,
            ..*unit
        },
        Status::Backup | Status::Seized => Unit { due: None, ..*unit },
        _ => unit.freed(),
    }
}

/// The unit once the partner acknowledged that it was seized.
fn unmarked(unit: &Unit, reply: &BindReply) -> Unit
    requires { unit.now.mine < 2 ^ 49 }
    ensures { result ≡ unmarked unit.now reply.now }
{
    Unit {
        mine: match unit.due {
            Some(_) => unit.mine.next(),
            None => unit.mine,
        },
        seen: reply.mine,
        marked: false,
        ..*unit
    }
}

/// The unit after a reply; `None` where the reply is dropped: no change is due and the unit isn't marked, or it
/// rejects, answers another change than the last, or isn't newer than what was taken before. The reply's term is the
/// server's, and its prefix the unit's.
pub fn take_reply(unit: &Unit, reply: &BindReply) -> Option<Unit>
    requires { unit.now.marked ≡ true → unit.now.mine < 2 ^ 49 }
    ensures unit { result ≡ after_reply unit.now reply.now }
    // What is taken is newer. It removes the mark, or else settles the due change.
    ensures seen { IfSome result (λ u. (unit.now.seen < reply.now.mine) × (u.seen ≡ reply.now.mine)) }
    ensures unmarked { unit.now.marked ≡ true → IfSome result (λ u. record u {
      mine = unit.now.mine;
      seen = unit.now.seen;
      marked = true;
    } ≡ unit.now) }
    ensures settled { unit.now.marked ≡ false → IfSome result (λ u. (u.mine ≡ unit.now.mine) × (u.due ≡ None)) }
{
    if !unit.marked {
        let due = unit.due?;
        if !counts(unit, reply) {
            return None;
        }
        return Some(Unit {
            seen: reply.mine,
            ..settled(unit, due)
        });
    }
    if !counts(unit, reply) {
        return None;
    }
    Some(unmarked(unit, reply))
}
