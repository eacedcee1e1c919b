//! Parsing a message, whatever its identifiers are.

ghost use Rattle.std.specs.Prelude.{◌≡◌, ◌≤◌, Some, None};
ghost use Rattle.dhcp6_pd.specs.Answers.{Gives};
ghost use Rattle.dhcp6_pd.specs.Faults.{client_in, message_in};

use crate::client_options::ClientOptions;
use crate::error::{PdError, PdFault};
use crate::keeping::store_options;
use crate::message_class::{MessageClass, MessageKind, kind_of};
use crate::message_lists::{IaPdList, IaidList, RelayStack, RequestList};
use crate::numbers::{MAX_RELAYS, RELAY_FORWARD};
use crate::options::Options;
use crate::relay_options::RelayOptions;
use crate::requested_items::{RequestedItems, or_none};
use client_id::Duid;
use std::alloc::Global;

/// A client's message and its relays, whatever its identifiers are: it may name no client, or a server where it
/// should not, or none, or another one.
#[derive(Drop)]
pub struct UnvalidatedMessage {
    pub relays: RelayStack,
    pub kind: MessageKind,
    pub xid: [u8; 3],
    pub client: Option<Duid>,
    pub server: Option<Duid>,
    pub ias: IaPdList,
    pub prefixes: IaPdList,
    pub requested: RequestList,
    pub addresses: IaidList,
    pub temporaries: IaidList,
}

/// The message of a client (RFC 8415, section 8), with room for so many relays.
#[tactic(auto, unfolding(crate::specs::Faults::client_in))]
fn client_in(
    alloc: Global,
    kind: MessageKind,
    octets: &[u8],
    relays: usize,
) -> Result<UnvalidatedMessage, PdError>
    ensures { Gives (λ u. u) result (client_in kind octets.now) }
{
    if octets.len() < 4 {
        return Err(PdError::Fault(PdFault::Short));
    }
    let ClientOptions {
        client,
        server,
        relayed: _,
        interface: _,
        ias,
    } = ClientOptions::of(alloc, &octets[4..])?;
    let RequestedItems {
        requested,
        addresses,
        temporaries,
        prefixes,
    } = RequestedItems::of(alloc, &octets[4..])?;
    let mut xid = [0u8; 3];
    xid.copy_from_slice(&octets[1..4]);
    Ok(UnvalidatedMessage {
        relays: RelayStack::with_room(alloc, relays)?,
        kind,
        xid,
        client,
        server,
        ias,
        prefixes,
        requested: or_none(alloc, requested),
        addresses,
        temporaries,
    })
}

/// The message in these octets, of a type that is read, which at most `left` relays hold (RFC 8415, section 9).
#[tactic(auto, unfolding(crate::specs::Faults::message_in, crate::specs::Faults::relay_in))]
pub fn message_in(
    alloc: Global,
    reads: MessageClass,
    octets: &[u8],
    left: usize,
) -> Result<UnvalidatedMessage, PdError>
    requires { left ≤ MAX_RELAYS }
    ensures { Gives (λ u. u) result (message_in reads left octets.now) }
{
    let Some(first) = octets.first() else {
        return Err(PdError::Fault(PdFault::Short));
    };
    if *first != RELAY_FORWARD {
        return match kind_of(reads, *first) {
            Some(kind) => client_in(alloc, kind, octets, MAX_RELAYS - left),
            None => Err(PdError::Fault(PdFault::Ignored)),
        };
    }
    if left == 0 {
        return Err(PdError::Fault(PdFault::TooDeep));
    }
    if octets.len() < 34 {
        return Err(PdError::Fault(PdFault::Short));
    }
    let mut options = Options::new(&octets[34..]);
    let mut kept = RelayOptions::none();
    let Some(inner) = kept.to_message(alloc, &mut options)? else {
        return Err(PdError::Fault(PdFault::Short));
    };
    let mut message = message_in(alloc, reads, inner, left - 1)?;
    store_options(&mut kept, alloc, options)?;
    message.relays.push(kept.into_relay(octets))?;
    Ok(message)
}
