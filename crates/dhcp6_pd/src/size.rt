//! How many octets an answer has.

ghost use Rattle.std.specs.Prelude.{◌≡◌, ◌+◌, ◌≤◌, length, sum_by};
ghost use Rattle.std.specs.List.{flat_map};
ghost use Rattle.dhcp6_pd.specs.Layout.{ia_octets, head_octets, success_octets, ready_octets, no_address_octets};
ghost use Rattle.dhcp6_pd.specs.Layout.{server_octets, message_octets};
ghost use Rattle.dhcp6_pd.specs.Size.{fitting, relay_size};

use crate::error::PdError;
use crate::message::{IaReply, IaReplyAnswer, Relay, ServerMessage};
use crate::numbers::{MAX_OCTETS, NO_ADDRESS_SIZE, OPTION_HEAD};
use client_id::Iaid;
use router_options::ReadyOption;

/// A size so far and some octets more, where a datagram can have as many.
fn with_octets(size: usize, more: usize) -> Result<usize, PdError>
    requires { size ≤ MAX_OCTETS }
    ensures { result ≡ fitting (size + more) }
{
    if more > MAX_OCTETS - size {
        return Err(PdError::TooLong);
    }
    Ok(size + more)
}

/// Returns how many octets the option of an IA_PD has.
pub fn ia_size(reply: &IaReply) -> usize
    ensures { result ≡ length (ia_octets reply.now) }
{
    match reply.answer {
        IaReplyAnswer::Given { .. } => 45,
        IaReplyAnswer::NoPrefix | IaReplyAnswer::NoBinding => 22,
    }
}

fn ias_size(before: usize, ias: &[IaReply]) -> Result<usize, PdError>
    requires { before ≤ MAX_OCTETS }
    ensures { result ≡ fitting (before + length (flat_map ia_octets ias.now)) }
{
    let mut size = before;
    for reply in ias {
        size = with_octets(size, ia_size(reply))?;
    }
    Ok(size)
}

fn head_size(message: &ServerMessage) -> usize
    ensures value { result ≡ length (head_octets message.now) + length (success_octets message.now.success) }
    ensures most { result ≤ MAX_OCTETS }
{
    let client = match &message.client {
        None => 0,
        Some(client) => OPTION_HEAD + client.as_bytes().len(),
    };
    let identifiers = 4 + client + OPTION_HEAD + message.server.as_bytes().len();
    if message.success {
        identifiers + 6
    } else {
        identifiers
    }
}

fn options_size(before: usize, options: &[ReadyOption]) -> Result<usize, PdError>
    requires { before ≤ MAX_OCTETS }
    ensures { result ≡ fitting (before + length (flat_map ready_octets options.now)) }
{
    let mut size = before;
    for option in options {
        size = with_octets(size, OPTION_HEAD + option.as_bytes().len())?;
    }
    Ok(size)
}

fn no_addresses_size(before: usize, iaids: &[Iaid]) -> Result<usize, PdError>
    requires { before ≤ MAX_OCTETS }
    ensures { result ≡ fitting (before + length (flat_map no_address_octets iaids.now)) }
{
    let mut size = before;
    for _iaid in iaids {
        size = with_octets(size, NO_ADDRESS_SIZE)?;
    }
    Ok(size)
}

/// The octets of an answer without its relays.
fn server_size(message: &ServerMessage) -> Result<usize, PdError>
    ensures { result ≡ fitting (length (server_octets message.now)) }
{
    let optioned = options_size(head_size(message), message.options.as_slice())?;
    let refused = no_addresses_size(optioned, message.no_addresses.as_slice())?;
    ias_size(refused, message.ias.as_slice())
}

fn relays_size(before: usize, relays: &[Relay]) -> Result<usize, PdError>
    requires { before ≤ MAX_OCTETS }
    ensures { result ≡ fitting (before + sum_by relay_size relays.now) }
{
    let mut size = before;
    for relay in relays {
        size = with_relay(size, relay)?;
    }
    Ok(size)
}

fn with_relay(before: usize, relay: &Relay) -> Result<usize, PdError>
    requires { before ≤ MAX_OCTETS }
    ensures { result ≡ fitting (before + relay_size relay.now) }
{
    let size = with_octets(before, 34 + OPTION_HEAD)?;
    match &relay.interface {
        None => Ok(size),
        Some(interface) => {
            let size = with_octets(size, OPTION_HEAD)?;
            with_octets(size, interface.as_bytes().len())
        }
    }
}

/// Returns how many octets an answer has, or `TooLong` where they are more than a datagram can have.
pub fn size_of(message: &ServerMessage) -> Result<usize, PdError>
    ensures { result ≡ fitting (length (message_octets message.now)) }
{
    let size = server_size(message)?;
    relays_size(size, message.relays.as_slice())
}
