//! What a book is ordered to do.

pub(crate) mod answering;
mod naming;

use binding_rules::{PartnerMessage, ServerState};
use client_id::{Duid, Iaid};
use prefix_range::Prefix;

/// A client's question: its identity association, and the prefix that it names, if any (RFC 8415, section 21.22).
#[derive(Clone, Copy, Debug, PartialEq, Eq)]
pub struct LeaseRequest {
    pub client: Duid,
    pub iaid: Iaid,
    pub hint: Option<Prefix>,
}

/// An order to a book. An order is answered by one line and a reply, or refused.
#[derive(Clone, Copy, Debug, PartialEq, Eq)]
pub enum Order {
    /// Delegate a prefix to a client, or renew what it has.
    Request(LeaseRequest),
    /// Renew what a client has.
    Renew(LeaseRequest),
    /// Take back what a client gives up.
    Release(LeaseRequest),
    /// End the lease of a unit.
    Expire(Prefix),
    /// Move a free unit to the secondary's pool.
    Backup(Prefix),
    /// Ask for a unit of the secondary's pool.
    Reclaim(Prefix),
    /// Take over a unit of a partner that is down.
    Seize(Prefix),
    /// Tell the partner what became of a unit.
    SendUpdate(Prefix),
    /// Answer the partner's last update of a unit.
    SendReply(Prefix),
    /// Ask the partner to answer a restart, and answer its own.
    SendContact,
    /// Take a message of the partner's.
    Take(PartnerMessage),
    /// Take the partner for what is said.
    State(ServerState),
    /// Begin again, as after a stop.
    Restart,
    /// Close the journal.
    Close,
}
