//! What the partners tell each other of a unit.

ghost use Rattle.std.specs.Prelude.{◌≡◌};
ghost use Rattle.binding_rules.specs.Messages.{has_client, latest_end};

use crate::counter::Counter;
use client_id::{Duid, Iaid};
use lead_time::End;
use prefix_range::Prefix;

/// What a unit is (RFC 8156, section 7.2, whose names these are).
#[derive(Clone, Copy, Debug, PartialEq, Eq)]
pub enum Status {
    /// Delegated to a client.
    Active,
    /// Its lease ended.
    Expired,
    /// Its client gave it back.
    Released,
    /// The secondary's to give.
    Backup,
    /// The primary's to give.
    Free,
    /// The sender's to give: it took the unit over while its partner was down.
    Seized,
}

impl Status {
    /// Returns whether a unit of this status is, or was, a client's.
    pub fn has_client(self) -> bool
        ensures { result ≡ has_client self }
    {
        match self {
            Status::Active | Status::Expired | Status::Released => true,
            Status::Backup | Status::Free | Status::Seized => false,
        }
    }

    /// The latest end that an update of this status tells, in milliseconds: 0, which is none, unless the unit is
    /// active.
    pub fn latest_end(self) -> u64
        ensures { result ≡ latest_end self }
    {
        match self {
            Status::Active => End::MAX,
            _ => 0,
        }
    }
}

/// A binding update (RFC 8156, section 5: BNDUPD): what a unit became at the sender.
#[derive(Clone, Copy, Debug, PartialEq, Eq)]
pub struct Update {
    pub status: Status,
    pub prefix: Prefix,
    /// The sender's counter of changes.
    pub mine: Counter,
    /// The partner's counter, as far as the sender has seen it.
    pub seen: Counter,
    /// When the lease ends, as told to the partner: 0 unless active.
    pub end: End,
    /// The client's identity association: 0 where there is no client.
    pub iaid: Iaid,
    /// The client of an active, expired or released unit.
    pub client: Option<Duid>,
}

/// What a partner makes of an update.
#[derive(Clone, Copy, Debug, PartialEq, Eq)]
pub enum Acknowledgement {
    Accept,
    Reject,
}

/// A binding reply (RFC 8156, section 5: BNDREPLY).
#[derive(Clone, Copy, Debug, PartialEq, Eq)]
pub struct BindReply {
    pub acknowledgement: Acknowledgement,
    pub prefix: Prefix,
    /// The counter of the update that is answered.
    pub of: Counter,
    /// The sender's counter of changes.
    pub mine: Counter,
    /// The partner's counter, as far as the sender has seen it.
    pub seen: Counter,
}
