//! One delegable prefix of a pool, as one server sees it.

ghost use Rattle.std.specs.Prelude.{◌≡◌};
ghost use Rattle.binding_rules.specs.Unit.{status_of, fresh, freed};

use crate::counter::Counter;
use crate::update::{BindReply, Status};
use client_id::{Duid, Iaid};
use lead_time::End;

/// Whose a delegation is: a client's identity association (RFC 8415, section 6.3).
#[derive(Clone, Copy, Debug, PartialEq, Eq)]
pub struct Binding {
    pub client: Duid,
    pub iaid: Iaid,
}

/// What a unit is, and whose (RFC 8156, section 7.2, whose names these are).
#[derive(Clone, Copy, Debug, PartialEq, Eq)]
pub enum UnitStatus {
    /// The primary's to give.
    Free,
    /// The secondary's to give.
    FreeBackup,
    /// Delegated to a client.
    Active(Binding),
    /// This client's lease ended.
    Expired(Binding),
    /// This client gave it back.
    Released(Binding),
}

impl UnitStatus {
    /// The status without the client.
    pub fn status(&self) -> Status
        ensures { result ≡ status_of self.now }
    {
        match self {
            UnitStatus::Free => Status::Free,
            UnitStatus::FreeBackup => Status::Backup,
            UnitStatus::Active(_) => Status::Active,
            UnitStatus::Expired(_) => Status::Expired,
            UnitStatus::Released(_) => Status::Released,
        }
    }
}

/// What a server knows of a unit.
#[derive(Clone, Copy, Debug, PartialEq, Eq)]
pub struct Unit {
    pub status: UnitStatus,
    /// This server's changes of the unit, counted.
    pub mine: Counter,
    /// The partner's count, as far as this server has taken it.
    pub seen: Counter,
    /// When the last of this server's own grants ends by its clock.
    pub own_end: End,
    /// The end that the partner is told of an active unit.
    pub out_end: End,
    /// The end that the partner has acknowledged.
    pub acked: End,
    /// The end that the partner told.
    pub told: End,
    /// The change that the partner has yet to acknowledge.
    pub due: Option<Status>,
    /// The reply that is yet to be sent.
    pub pending: Option<BindReply>,
    /// Whether this server seized the unit, and the partner has yet to acknowledge it.
    pub marked: bool,
}

impl Unit {
    /// A unit as it is when the journal begins: the primary's to give, and never changed.
    pub fn fresh() -> Unit
        ensures { result ≡ fresh }
    {
        let zero = Counter::ZERO;
        let never = End::ZERO;
        Unit {
            status: UnitStatus::Free,
            mine: zero,
            seen: zero,
            own_end: never,
            out_end: never,
            acked: never,
            told: never,
            due: None,
            pending: None,
            marked: false,
        }
    }

    /// The unit once it is free again: no client, no ends, no due change. Its counters, its pending reply and its
    /// mark stay.
    pub fn freed(&self) -> Unit
        ensures { result ≡ freed self.now }
    {
        Unit {
            mine: self.mine,
            seen: self.seen,
            pending: self.pending,
            marked: self.marked,
            ..Unit::fresh()
        }
    }
}
