//! Datagrams of clients and relays, and the answers to them.

ghost use Rattle.std.specs.Prelude.{◌≤◌, ◌<◌};

use client_id::Duid;
use dhcp6_pd::{
    ClientKind, ClientMessage, IaReply, IaReplyAnswer, IaReplyList, PdError, PdFault, Relay,
    RelayId, ServerKind, ServerMessage, decode, encode,
};
use line_words::{add_duid, add_number, add_word};
use prefix_range::{Prefix, push_prefix};
use probe_lines::Arguments;
use std::alloc::{AllocError, Global};
use text_fields::{Listed, push_number, push_octets};

/// What a datagram may be, by name.
const NAMES: [&[u8]; 14] = [
    b"read",
    b"Short",
    b"OptionLength",
    b"DuplicateId",
    b"NoClientId",
    b"ServerIdPresent",
    b"ServerIdMissing",
    b"NotOurs",
    b"TooDeep",
    b"TooManyIas",
    b"Ignored",
    b"BadPrefixLength",
    b"TooLong",
    b"Memory",
];

/// Where that name stands.
fn place(error: &PdError) -> usize
    ensures { result < 14 }
{
    match error {
        PdError::Fault(PdFault::Short) => 1,
        PdError::Fault(PdFault::OptionLength) => 2,
        PdError::Fault(PdFault::DuplicateId) => 3,
        PdError::Fault(PdFault::NoClientId) => 4,
        PdError::Fault(PdFault::ServerIdPresent) => 5,
        PdError::Fault(PdFault::ServerIdMissing) => 6,
        PdError::Fault(PdFault::NotOurs) => 7,
        PdError::Fault(PdFault::TooDeep) => 8,
        PdError::Fault(PdFault::TooManyIas) => 9,
        PdError::Fault(PdFault::Ignored) => 10,
        PdError::Fault(PdFault::BadPrefixLength) => 11,
        PdError::TooLong => 12,
        PdError::Memory => 13,
    }
}

pub fn add_fault(out: &mut Vec<u8>, error: &PdError) -> Result<(), AllocError> {
    add_word(out, NAMES[place(error)])
}

fn kind_name(kind: ClientKind) -> &'static [u8] {
    match kind {
        ClientKind::Solicit => b"SOLICIT",
        ClientKind::Request => b"REQUEST",
        ClientKind::Renew => b"RENEW",
        ClientKind::Rebind => b"REBIND",
        ClientKind::Release => b"RELEASE",
    }
}

/// An identifier that a relay gives: its digits behind an `x`.
fn push_relay_id(out: &mut Vec<u8>, id: &RelayId) -> Result<(), AllocError> {
    out.push(b'x')?;
    push_octets(out, id.as_bytes())
}

/// `relay(HOPS,LINK,PEER,INTERFACE)`, with `-` for no interface identifier, and `,REMOTE` before the end where there
/// is a remote identifier.
pub fn add_relay(out: &mut Vec<u8>, relay: &Relay) -> Result<(), AllocError> {
    add_word(out, b"relay(")?;
    push_number(out, u64::from(relay.hops))?;
    out.push(b',')?;
    push_octets(out, &relay.link)?;
    out.push(b',')?;
    push_octets(out, &relay.peer)?;
    out.push(b',')?;
    match &relay.interface {
        None => out.push(b'-')?,
        Some(interface) => push_relay_id(out, interface)?,
    }
    if let Some(remote) = &relay.remote {
        out.push(b',')?;
        push_relay_id(out, remote)?;
    }
    out.push(b')')?;
    Ok(())
}

fn push_hint(out: &mut Vec<u8>, hint: &Option<Prefix>) -> Result<(), AllocError> {
    match hint {
        None => out.extend_from_slice(b"-"),
        Some(prefix) => push_prefix(out, prefix),
    }
}

fn add_message(out: &mut Vec<u8>, message: &ClientMessage) -> Result<(), AllocError> {
    add_word(out, b"ok")?;
    add_word(out, kind_name(message.kind))?;
    out.push(b' ')?;
    push_octets(out, &message.xid)?;
    add_duid(out, &message.client)?;
    for relay in message.relays.as_slice() {
        add_relay(out, relay)?;
    }
    for ia in message.ias.as_slice() {
        add_word(out, b"ia(")?;
        push_octets(out, &ia.iaid.0.to_be_bytes())?;
        out.push(b',')?;
        push_hint(out, &ia.hint)?;
        out.push(b')')?;
    }
    Ok(())
}

/// `datagram OWN OCTETS`: the message for the server whose DUID is OWN, or the first fault.
pub fn datagram(
    alloc: Global,
    arguments: &mut Arguments<'_>,
    out: &mut Vec<u8>,
) -> Result<(), AllocError> {
    let own = arguments.duid();
    let octets = arguments.octets(alloc)?;
    let Some(own) = own else {
        return Ok(());
    };
    match decode(alloc, &octets, &own) {
        Ok(message) => add_message(out, &message),
        Err(error) => add_fault(out, &error),
    }
}

/// `given PREFIX VALID`, `no-prefix` or `no-binding`.
fn ia_answer(arguments: &mut Arguments<'_>) -> IaReplyAnswer {
    match arguments.word() {
        b"given" => IaReplyAnswer::Given {
            prefix: arguments.prefix(),
            valid: arguments.number_of_32_bits(),
        },
        b"no-prefix" => IaReplyAnswer::NoPrefix,
        word => {
            arguments.note(word == b"no-binding".as_slice());
            IaReplyAnswer::NoBinding
        }
    }
}

fn ia_replies(alloc: Global, arguments: &mut Arguments<'_>) -> Result<IaReplyList, AllocError> {
    let mut replies = Vec::new(alloc);
    for _ in 0..u16::MAX {
        if arguments.is_done() {
            break;
        }
        let iaid = arguments.iaid();
        let answer = ia_answer(arguments);
        replies.extend_from_slice(&[IaReply { iaid, answer }])?;
    }
    Ok(IaReplyList::new(replies))
}

/// The digits of octets; how many they are, where they are more than five thousand.
fn add_octets(out: &mut Vec<u8>, octets: &[u8]) -> Result<(), AllocError> {
    if octets.len() <= 5000 {
        out.push(b' ')?;
        push_octets(out, octets)
    } else {
        add_number(out, octets.len() as u64)?;
        add_word(out, b"octets")
    }
}

/// An answer to a message, of this server.
fn answer_to(
    alloc: Global,
    message: ClientMessage,
    own: Duid,
    arguments: &mut Arguments<'_>,
) -> Result<ServerMessage, AllocError> {
    let (xid, client) = (message.xid, message.client);
    let kind = if arguments.is(b"advertise", b"reply") {
        ServerKind::Advertise
    } else {
        ServerKind::Reply
    };
    let success = arguments.is(b"success", b"-");
    let ias = ia_replies(alloc, arguments)?;
    Ok(ServerMessage {
        relays: message.relays,
        kind,
        xid,
        client: Some(client),
        server: own,
        options: Listed::new(Vec::new(alloc)),
        success,
        no_addresses: Listed::new(Vec::new(alloc)),
        ias,
    })
}

/// `answer OWN OCTETS KIND SUCCESS (IAID ANSWER)..`: the octets of an answer to a message, KIND being `advertise` or
/// `reply`, SUCCESS `success` or `-`.
pub fn answer(
    alloc: Global,
    arguments: &mut Arguments<'_>,
    out: &mut Vec<u8>,
) -> Result<(), AllocError> {
    let own = arguments.duid();
    let octets = arguments.octets(alloc)?;
    let Some(own) = own else {
        return Ok(());
    };
    let message = match decode(alloc, &octets, &own) {
        Ok(message) => message,
        Err(error) => return add_fault(out, &error),
    };
    let answer = answer_to(alloc, message, own, arguments)?;
    match encode(alloc, &answer) {
        Ok(octets) => add_octets(out, &octets),
        Err(error) => add_fault(out, &error),
    }
}

/// How many datagrams were each.
#[derive(Drop)]
struct Counts {
    own: Duid,
    counts: [u64; 14],
}

impl Counts {
    fn add(&mut self, alloc: Global, octets: &[u8]) {
        let place = match decode(alloc, octets, &self.own) {
            Ok(_) => 0,
            Err(error) => place(&error),
        };
        self.counts[place] = self.counts[place].saturating_add(1);
    }

    fn write(&self, out: &mut Vec<u8>) -> Result<(), AllocError> {
        for (name, count) in NAMES.iter().zip(&self.counts) {
            if *count > 0 {
                add_word(out, name)?;
                add_number(out, *count)?;
            }
        }
        Ok(())
    }
}

/// `fronts OWN OCTETS OCTETS ..`: how many of the datagrams' proper fronts are each.
pub fn fronts(
    alloc: Global,
    arguments: &mut Arguments<'_>,
    out: &mut Vec<u8>,
) -> Result<(), AllocError> {
    let Some(own) = arguments.duid() else {
        return Ok(());
    };
    let mut counts = Counts {
        own,
        counts: [0; 14],
    };
    for _ in 0..u16::MAX {
        if arguments.is_done() {
            break;
        }
        let octets = arguments.octets(alloc)?;
        for length in 0..octets.len() {
            counts.add(alloc, &octets[..length]);
        }
    }
    counts.write(out)
}

/// `altered OWN OCTETS OCTETS ..`: the same of the datagrams with one of their octets raised by one.
pub fn altered(
    alloc: Global,
    arguments: &mut Arguments<'_>,
    out: &mut Vec<u8>,
) -> Result<(), AllocError> {
    let Some(own) = arguments.duid() else {
        return Ok(());
    };
    let mut counts = Counts {
        own,
        counts: [0; 14],
    };
    for _ in 0..u16::MAX {
        if arguments.is_done() {
            break;
        }
        let mut octets = arguments.octets(alloc)?;
        for place in 0..octets.len() {
            octets[place] = octets[place].wrapping_add(1);
            counts.add(alloc, &octets);
            octets[place] = octets[place].wrapping_sub(1);
        }
    }
    counts.write(out)
}
