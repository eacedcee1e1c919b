//! What octets are as a client's request for options alone.

ghost use Rattle.std.specs.Prelude.{◌≡◌, IfOk, Ok};
ghost use Rattle.dhcp6_pd.specs.Answers.{Gives};
ghost use Rattle.dhcp6_pd.specs.Faults.{for_any, is_none, has_no_ia, inquired, information_of};
ghost use Rattle.dhcp6_pd.specs.Grammar.{SpellsInformation};
ghost use Rattle.dhcp6_pd.specs.declared.message.InformationRequest.{InformationRequest as InformationRequestValue};

use crate::error::{PdError, PdFault};
use crate::message::InformationRequest;
use crate::message_class::MessageClass;
use crate::numbers::MAX_RELAYS;
use crate::unvalidated::{UnvalidatedMessage, message_in};
use client_id::Duid;
use std::alloc::Global;

/// Returns whether a server identifier, where one stands, is this server's (RFC 8415, section 16.12).
#[tactic(auto, unfolding(crate::specs::Faults::for_any))]
fn for_any(own: &Duid, server: &Option<Duid>) -> Result<(), PdFault>
    ensures { result ≡ for_any own.now server.now }
{
    match server {
        None => Ok(()),
        Some(server) => {
            if server == own {
                Ok(())
            } else {
                Err(PdFault::NotOurs)
            }
        }
    }
}

fn is_none<T>(items: &[T]) -> bool
    ensures { result ≡ is_none items.now }
{
    match items {
        [] => true,
        _ => false,
    }
}

/// Returns whether no identity association stands there.
fn has_no_ia(message: &UnvalidatedMessage) -> bool
    ensures { result ≡ has_no_ia message.now }
{
    is_none(message.ias.as_slice())
        && is_none(message.prefixes.as_slice())
        && is_none(message.addresses.as_slice())
        && is_none(message.temporaries.as_slice())
}

/// A request that names no other server and has no identity association.
#[tactic(auto, unfolding(crate::specs::Faults::inquired))]
fn inquired(message: UnvalidatedMessage, own: &Duid) -> Result<InformationRequest, PdFault>
    ensures { result ≡ inquired own.now message }
{
    for_any(own, &message.server)?;
    if !has_no_ia(&message) {
        return Err(PdFault::Ignored);
    }
    let UnvalidatedMessage {
        relays,
        xid,
        client,
        requested,
        ..
    } = message;
    Ok(InformationRequest {
        relays: relays.into_list(),
        xid,
        client,
        requested,
    })
}

fn asked(alloc: Global, octets: &[u8], own: &Duid) -> Result<InformationRequest, PdError>
    ensures { Gives (λ i. i) result (information_of own.now octets.now) }
{
    let untested = message_in(alloc, MessageClass::Information, octets, MAX_RELAYS)?;
    let request = inquired(untested, own)?;
    Ok(request)
}

/// The INFORMATION-REQUEST to the server `own`, or to any, that octets spell, all of them (RFC 8415, sections 16.12
/// and 18.2.6); else the first fault, or `Memory` where a growth was refused. `Ignored` are messages of all other
/// types, and requests with an identity association; `NotOurs` those to another server.
pub fn decode_information(
    alloc: Global,
    octets: &[u8],
    own: &Duid,
) -> Result<InformationRequest, PdError>
    // What is read is spelled so.
    ensures found { IfOk result (λ i. SpellsInformation own.now octets.now i) }
    // What is spelled so is read, unless memory runs out.
    ensures only { (i : InformationRequestValue) → SpellsInformation own.now octets.now i
        → Gives (λ x. x) result (Ok i) }
    // Which fault it is.
    ensures exact { Gives (λ i. i) result (information_of own.now octets.now) }
{
    asked(alloc, octets, own)
}
