//! Writing an answer.

ghost use Rattle.std.specs.Prelude.{◌≡◌, ◌++◌, ◌∷◌, ◌+◌, ◌-◌, ◌≤◌, ◌<◌, ◌⊎◌, ◌↔◌, ℕ, List, length};
ghost use Rattle.std.specs.Prelude.{sum_by, OnOk, IfOk, IfErr, IsErrOf};
ghost use Rattle.byteorder.specs.Endian.{big_bytes};
ghost use Rattle.dhcp6_pd.specs.Layout.{option_octets, status_octets, prefix_octets, times_octets, answer_octets};
ghost use Rattle.dhcp6_pd.specs.Layout.{ia_octets};
ghost use Rattle.dhcp6_pd.specs.Layout.{head_octets, interface_octets, relay_head, relayed, server_octets};
ghost use Rattle.dhcp6_pd.specs.Layout.{client_octets, ready_octets, no_address_octets};
ghost use Rattle.std.specs.List.{flat_map};
ghost use Rattle.dhcp6_pd.specs.Layout.{message_octets};
ghost use Rattle.dhcp6_pd.specs.Size.{relay_size, relay_front};

use crate::error::PdError;
use crate::message::{IaReply, IaReplyAnswer, Relay, ServerKind, ServerMessage};
use crate::message_lists::InterfaceId;
use crate::numbers::{
    ADVERTISE, CLIENT_ID, IA_NA, IA_PD, IA_PREFIX, INTERFACE_ID, MAX_OCTETS, NO_ADDRESS_SIZE,
    NO_ADDRESSES, NO_BINDING, NO_PREFIX_AVAILABLE, OPTION_HEAD, RELAY_MESSAGE, RELAY_REPLY, REPLY,
    SERVER_ID, STATUS_CODE, SUCCESS,
};
use crate::size::{ia_size, size_of};
use byteorder::{BigEndian, ByteOrder};
use client_id::{Duid, Iaid};
use prefix_range::Prefix;
use router_options::ReadyOption;
use std::alloc::{AllocError, Global};

fn push_u16(out: &mut Vec<u8>, number: u16) -> Result<(), AllocError>
    ensures { OnOk result (out.new.items ≡ out.old.items ++ big_bytes 2 number) }
{
    let mut octets = [0u8; 2];
    BigEndian::write_u16(&mut octets, number);
    out.extend_from_slice(&octets)
}

fn push_u32(out: &mut Vec<u8>, number: u32) -> Result<(), AllocError>
    ensures { OnOk result (out.new.items ≡ out.old.items ++ big_bytes 4 number) }
{
    let mut octets = [0u8; 4];
    BigEndian::write_u32(&mut octets, number);
    out.extend_from_slice(&octets)
}

fn push_address(out: &mut Vec<u8>, address: u128) -> Result<(), AllocError>
    ensures { OnOk result (out.new.items ≡ out.old.items ++ big_bytes 16 address) }
{
    let mut octets = [0u8; 16];
    BigEndian::write_u128(&mut octets, address);
    out.extend_from_slice(&octets)
}

/// Appends an option's code and the length of its data.
fn push_option_head(out: &mut Vec<u8>, code: u16, length: u16) -> Result<(), AllocError>
    ensures { OnOk result (out.new.items ≡ out.old.items ++ (big_bytes 2 code ++ big_bytes 2 length)) }
{
    push_u16(out, code)?;
    push_u16(out, length)
}

fn push_option(out: &mut Vec<u8>, code: u16, octets: &[u8]) -> Result<(), AllocError>
    requires { length octets.now ≤ MAX_OCTETS }
    ensures { OnOk result (out.new.items ≡ out.old.items ++ option_octets code octets.now) }
{
    push_option_head(out, code, octets.len() as u16)?;
    out.extend_from_slice(octets)
}

/// Appends a status option with an empty text.
fn push_status(out: &mut Vec<u8>, code: u16) -> Result<(), AllocError>
    ensures { OnOk result (out.new.items ≡ out.old.items ++ status_octets code) }
{
    push_option_head(out, STATUS_CODE, 2)?;
    push_u16(out, code)
}

/// Appends a preferred and a valid lifetime in seconds, which are equal.
fn push_lifetimes(out: &mut Vec<u8>, valid: u32) -> Result<(), AllocError>
    ensures { OnOk result (out.new.items ≡ out.old.items ++ (big_bytes 4 valid ++ big_bytes 4 valid)) }
{
    push_u32(out, valid)?;
    push_u32(out, valid)
}

/// Appends a prefix's length and its address.
fn push_length_and_address(out: &mut Vec<u8>, prefix: &Prefix) -> Result<(), AllocError>
    ensures { OnOk result (out.new.items ≡ out.old.items ++ prefix.now.length ∷ big_bytes 16 prefix.now.address) }
{
    out.push(prefix.len())?;
    push_address(out, prefix.first())
}

/// Appends an IAPREFIX option whose lifetimes are equal.
fn push_prefix(out: &mut Vec<u8>, prefix: &Prefix, valid: u32) -> Result<(), AllocError>
    ensures { OnOk result (out.new.items ≡ out.old.items ++ prefix_octets prefix.now valid) }
{
    push_option_head(out, IA_PREFIX, 25)?;
    push_lifetimes(out, valid)?;
    push_length_and_address(out, prefix)
}

/// Appends T1 and T2 for a valid lifetime: a half and four fifths of it, rounded down.
fn push_times(out: &mut Vec<u8>, valid: u32) -> Result<(), AllocError>
    ensures { OnOk result (out.new.items ≡ out.old.items ++ times_octets valid) }
{
    push_u32(out, valid / 2)?;
    push_u32(out, (4 * u64::from(valid) / 5) as u32)
}

fn push_answer(out: &mut Vec<u8>, answer: &IaReplyAnswer) -> Result<(), AllocError>
    ensures { OnOk result (out.new.items ≡ out.old.items ++ answer_octets answer.now) }
{
    match answer {
        IaReplyAnswer::Given { prefix, valid } => {
            push_times(out, *valid)?;
            push_prefix(out, prefix, *valid)
        }
        IaReplyAnswer::NoPrefix => {
            push_times(out, 0)?;
            push_status(out, NO_PREFIX_AVAILABLE)
        }
        IaReplyAnswer::NoBinding => {
            push_times(out, 0)?;
            push_status(out, NO_BINDING)
        }
    }
}

fn push_ia(out: &mut Vec<u8>, reply: &IaReply) -> Result<(), AllocError>
    ensures { OnOk result (out.new.items ≡ out.old.items ++ ia_octets reply.now) }
{
    push_option_head(out, IA_PD, (ia_size(reply) - OPTION_HEAD) as u16)?;
    push_u32(out, reply.iaid.0)?;
    push_answer(out, &reply.answer)
}

fn push_client(out: &mut Vec<u8>, client: &Option<Duid>) -> Result<(), AllocError>
    ensures { OnOk result (out.new.items ≡ out.old.items ++ client_octets client.now) }
{
    match client {
        None => Ok(()),
        Some(client) => push_option(out, CLIENT_ID, client.as_bytes()),
    }
}

/// Appends the type, the transaction identifier and the identifiers of an answer.
fn push_head(out: &mut Vec<u8>, message: &ServerMessage) -> Result<(), AllocError>
    ensures { OnOk result (out.new.items ≡ out.old.items ++ head_octets message.now) }
{
    let kind = match message.kind {
        ServerKind::Advertise => ADVERTISE,
        ServerKind::Reply => REPLY,
    };
    out.push(kind)?;
    out.extend_from_slice(&message.xid)?;
    push_client(out, &message.client)?;
    push_option(out, SERVER_ID, message.server.as_bytes())
}

/// Appends options that are handed out beside prefixes.
fn push_options(out: &mut Vec<u8>, options: &[ReadyOption]) -> Result<(), AllocError>
    ensures { OnOk result (out.new.items ≡ out.old.items ++ flat_map ready_octets options.now) }
{
    for option in options {
        push_option(out, option.code(), option.as_bytes())?;
    }
    Ok(())
}

/// Appends an IA_NA that is told NoAddrsAvail.
fn push_no_address(out: &mut Vec<u8>, iaid: Iaid) -> Result<(), AllocError>
    ensures { OnOk result (out.new.items ≡ out.old.items ++ no_address_octets iaid) }
{
    push_option_head(out, IA_NA, (NO_ADDRESS_SIZE - OPTION_HEAD) as u16)?;
    push_u32(out, iaid.0)?;
    push_times(out, 0)?;
    push_status(out, NO_ADDRESSES)
}

fn push_no_addresses(out: &mut Vec<u8>, iaids: &[Iaid]) -> Result<(), AllocError>
    ensures { OnOk result (out.new.items ≡ out.old.items ++ flat_map no_address_octets iaids.now) }
{
    for iaid in iaids {
        push_no_address(out, *iaid)?;
    }
    Ok(())
}

fn push_ias(out: &mut Vec<u8>, ias: &[IaReply]) -> Result<(), AllocError>
    ensures { OnOk result (out.new.items ≡ out.old.items ++ flat_map ia_octets ias.now) }
{
    for reply in ias {
        push_ia(out, reply)?;
    }
    Ok(())
}

/// Appends an answer without its relays.
fn push_server(out: &mut Vec<u8>, message: &ServerMessage) -> Result<(), AllocError>
    ensures { OnOk result (out.new.items ≡ out.old.items ++ server_octets message.now) }
{
    push_head(out, message)?;
    push_options(out, message.options.as_slice())?;
    if message.success {
        push_status(out, SUCCESS)?;
    }
    push_no_addresses(out, message.no_addresses.as_slice())?;
    push_ias(out, message.ias.as_slice())
}

fn push_interface(out: &mut Vec<u8>, interface: &Option<InterfaceId>) -> Result<(), AllocError>
    requires { length (interface_octets interface.now) ≤ MAX_OCTETS + OPTION_HEAD }
    ensures { OnOk result (out.new.items ≡ out.old.items ++ interface_octets interface.now) }
{
    match interface {
        None => Ok(()),
        Some(interface) => push_option(out, INTERFACE_ID, interface.as_bytes()),
    }
}

/// Appends what a relay puts before its relay message option.
fn push_relay_head(out: &mut Vec<u8>, relay: &Relay) -> Result<(), AllocError>
    requires { relay_size relay.now ≤ MAX_OCTETS }
    ensures { OnOk result (out.new.items ≡ out.old.items ++ relay_head relay.now) }
{
    out.push(RELAY_REPLY)?;
    out.push(relay.hops)?;
    out.extend_from_slice(&relay.link)?;
    out.extend_from_slice(&relay.peer)?;
    push_interface(out, &relay.interface)
}

/// Appends what a relay puts before the message that it holds, which ends where the whole datagram does.
fn push_relay(out: &mut Vec<u8>, relay: &Relay, size: usize) -> Result<(), AllocError>
    requires fits { size ≤ MAX_OCTETS }
    requires room { length out.old.items + relay_size relay.now ≤ size }
    ensures { let left = size - (length out.old.items + relay_size relay.now) in
        OnOk result (out.new.items ≡ out.old.items ++ relay_front relay.now left) }
{
    push_relay_head(out, relay)?;
    let left = size - out.len() - OPTION_HEAD;
    push_option_head(out, RELAY_MESSAGE, left as u16)
}

/// Appends what relays put before the message that they hold, where all of it makes `size` octets.
fn push_relays(out: &mut Vec<u8>, relays: &[Relay], size: usize) -> Result<(), AllocError>
    requires fits { size ≤ MAX_OCTETS }
    requires room { length out.old.items + sum_by relay_size relays.now ≤ size }
    ensures { (message : List ℕ) → length out.old.items + (sum_by relay_size relays.now + length message) ≡ size
        → OnOk result (out.new.items ++ message ≡ out.old.items ++ relayed relays.now message) }
{
    for relay in relays {
        push_relay(out, relay, size)?;
    }
    Ok(())
}

/// The octets of an answer: within its relays, the first of them outermost. `TooLong` where they are more than
/// 65,535, `Memory` where a growth was refused.
pub fn encode(alloc: Global, message: &ServerMessage) -> Result<Vec<u8>, PdError>
    ensures written { IfOk result (λ v. v.items ≡ message_octets message.now) }
    ensures too_long { IsErrOf result PdError.TooLong ↔ (MAX_OCTETS < length (message_octets message.now)) }
    ensures refused { IfErr result (λ e. (e ≡ PdError.TooLong) ⊎ (e ≡ PdError.Memory)) }
{
    let size = size_of(message)?;
    let mut out = Vec::with_capacity(alloc, size)?;
    push_relays(&mut out, message.relays.as_slice(), size)?;
    push_server(&mut out, message)?;
    Ok(out)
}
