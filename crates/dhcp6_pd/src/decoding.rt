//! What octets are as a client's message to a server.

ghost use Rattle.std.specs.Prelude.{◌≡◌, IfOk, IsErrOf, Ok};
ghost use Rattle.dhcp6_pd.specs.Answers.{Gives};
ghost use Rattle.dhcp6_pd.specs.Faults.{for_server, identified, message_of};
ghost use Rattle.dhcp6_pd.specs.Grammar.{Spells};
ghost use Rattle.dhcp6_pd.specs.Refusals.{Refuses, IsOfForm, IsMalformed, IsOfOtherType, IsDeeper, SpellsOne};
ghost use Rattle.dhcp6_pd.specs.Refusals.{NamesNoClient};
ghost use Rattle.dhcp6_pd.specs.Refusals.{NamesServerOfAny, NamesNoServer, NamesAnother};
ghost use Rattle.dhcp6_pd.specs.declared.error.PdFault.{PdFault as PdFaultValue};
ghost use Rattle.dhcp6_pd.specs.declared.message.ClientMessage.{ClientMessage as ClientMessageValue};

use crate::error::{PdError, PdFault};
use crate::message::{ClientKind, ClientMessage};
use crate::message_class::{MessageClass, MessageKind};
use crate::numbers::MAX_RELAYS;
use crate::unvalidated::{UnvalidatedMessage, message_in};
use client_id::Duid;
use std::alloc::Global;

/// Returns whether a server identifier stands there as the message's type asks for (RFC 8415, section 16).
#[tactic(auto, unfolding(crate::specs::Faults::for_server))]
fn for_server(own: &Duid, kind: ClientKind, server: &Option<Duid>) -> Result<(), PdFault>
    ensures { result ≡ for_server own.now kind server.now }
{
    match (kind, server) {
        (ClientKind::Solicit | ClientKind::Rebind, None) => Ok(()),
        (ClientKind::Solicit | ClientKind::Rebind, Some(_)) => Err(PdFault::ServerIdPresent),
        (_, None) => Err(PdFault::ServerIdMissing),
        (_, Some(server)) => {
            if server == own {
                Ok(())
            } else {
                Err(PdFault::NotOurs)
            }
        }
    }
}

/// A message about prefixes whose identifiers are as its type asks for.
#[tactic(auto, unfolding(crate::specs::Faults::identified))]
fn identified(message: UnvalidatedMessage, own: &Duid) -> Result<ClientMessage, PdFault>
    ensures { result ≡ identified own.now message }
{
    let UnvalidatedMessage {
        relays,
        kind,
        xid,
        client,
        server,
        ias,
        prefixes,
        requested,
        addresses,
        temporaries,
    } = message;
    let MessageKind::Lease(kind) = kind else {
        return Err(PdFault::Ignored);
    };
    let client = client.ok_or(PdFault::NoClientId)?;
    for_server(own, kind, &server)?;
    Ok(ClientMessage {
        relays: relays.into_list(),
        kind,
        xid,
        client,
        ias,
        prefixes,
        requested,
        addresses,
        temporaries,
    })
}

fn decoded(alloc: Global, octets: &[u8], own: &Duid) -> Result<ClientMessage, PdError>
    ensures { Gives (λ m. m) result (message_of own.now octets.now) }
{
    let untested = message_in(alloc, MessageClass::Leases, octets, MAX_RELAYS)?;
    let message = identified(untested, own)?;
    Ok(message)
}

/// The client's message to the server `own` that octets spell, all of them; else the first fault from the front,
/// those of the identifiers after all others, or `Memory` where a growth was refused.
pub fn decode(alloc: Global, octets: &[u8], own: &Duid) -> Result<ClientMessage, PdError>
    // What is read is spelled so.
    ensures found { IfOk result (λ m. Spells own.now octets.now m) }
    // What is spelled so is read, unless memory runs out.
    ensures only { (m : ClientMessageValue) → Spells own.now octets.now m → Gives (λ x. x) result (Ok m) }
    // What is cut, does not fit or stands too often makes no message.
    ensures malformed { (fault : PdFaultValue) → IsOfForm fault → IsErrOf result (PdError.Fault fault)
        → IsMalformed octets.now }
    // The innermost message is of a type that is not read, or one relay too deep.
    ensures ignored { Refuses result PdFault.Ignored (IsOfOtherType MAX_RELAYS octets.now) }
    ensures too_deep { Refuses result PdFault.TooDeep (IsDeeper MAX_RELAYS octets.now) }
    // All else of the message is as it should be, and its identifiers are not.
    ensures no_client { Refuses result PdFault.NoClientId (SpellsOne octets.now NamesNoClient) }
    ensures present { Refuses result PdFault.ServerIdPresent (SpellsOne octets.now NamesServerOfAny) }
    ensures missing { Refuses result PdFault.ServerIdMissing (SpellsOne octets.now NamesNoServer) }
    ensures not_ours { Refuses result PdFault.NotOurs (SpellsOne octets.now (NamesAnother own.now)) }
    // Which fault it is: the first from the front.
    ensures exact { Gives (λ m. m) result (message_of own.now octets.now) }
{
    decoded(alloc, octets, own)
}
