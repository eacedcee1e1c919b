//! The lists in messages.

ghost use Rattle.std.specs.Prelude.{◌≡◌, ◌∷◌, [], OnOk, IfOk};

use crate::message::{IaPd, IaReply, Relay};
use client_id::Iaid;
use std::alloc::{AllocError, Global};
use std::marker::Model;
use text_fields::Listed;

/// Relays, from the server to the client.
pub type RelayList = Listed<Relay>;

/// The IA_PDs of a client's message, in its order.
pub type IaPdList = Listed<IaPd>;

/// The codes of the options that a client asks for, in its order.
pub type RequestList = Listed<u16>;

/// Identity associations, by their identifiers alone.
pub type IaidList = Listed<Iaid>;

/// The IA_PDs of an answer, in its order.
pub type IaReplyList = Listed<IaReply>;

/// The identifier by which a relay agent knows the interface to a client (RFC 8415, section 21.18).
pub type InterfaceId = RelayId;

/// The identifier by which a relay agent knows who is at the far end of a line (RFC 4649, section 3).
pub type RemoteId = RelayId;

/// An identifier that a relay agent gives: any octets, into which nobody looks. Contracts see the list of them.
#[derive(Debug, Drop)]
pub struct RelayId {
    octets: Vec<u8>,
}

impl Model for RelayId {
    ghost use Rattle.std.specs.Prelude.{List, ℕ};

    ghost Value = { List ℕ };

    ghost view = { λ i. i.octets.items };
}

impl RelayId {
    /// The identifier of these octets, in memory of its own.
    pub fn from_bytes(alloc: Global, octets: &[u8]) -> Result<RelayId, AllocError>
        ensures { IfOk result (λ i. i ≡ octets.now) }
    {
        let octets = octets.to_vec(alloc)?;
        Ok(RelayId { octets })
    }

    pub fn as_bytes(&self) -> &[u8]
        ensures { result.now ≡ self.now }
    {
        &self.octets
    }
}

/// Relays as they are parsed, the nearest to the client first. Contracts see them from the server to the client.
#[derive(Drop)]
pub struct RelayStack {
    from_client: Vec<Relay>,
}

impl Model for RelayStack {
    ghost use Rattle.std.specs.Prelude.{List, reverse};
    ghost use Rattle.dhcp6_pd.specs.declared.message.Relay.{Relay as RelayValue};

    ghost Value = { List RelayValue };

    ghost view = { λ s. reverse s.from_client.items };
}

impl RelayStack {
    /// None yet, with room for so many.
    pub fn with_room(alloc: Global, relays: usize) -> Result<RelayStack, AllocError>
        ensures { IfOk result (λ s. s ≡ []) }
    {
        let from_client = Vec::with_capacity(alloc, relays)?;
        Ok(RelayStack { from_client })
    }

    /// Puts a relay before all others.
    pub fn push(&mut self, relay: Relay) -> Result<(), AllocError>
        ensures { OnOk result (self.new ≡ relay ∷ self.old) }
    {
        self.from_client.push(relay)?;
        Ok(())
    }

    pub fn into_list(self) -> RelayList
        ensures { result ≡ self }
    {
        let mut relays = self.from_client;
        relays.reverse();
        Listed::new(relays)
    }
}
