//! What clients ask for beside prefixes, and what they are told of it.

use crate::messages::{add_fault, add_relay};
use client_id::Iaid;
use dhcp6_pd::{InformationRequest, ServerKind, ServerMessage, decode, decode_information, encode};
use line_words::{add_duid, add_number, add_word};
use probe_lines::Arguments;
use router_options::{DomainName, Occasion, OptionList, OptionsError, RouterOptions, chosen};
use std::alloc::{AllocError, Global};
use text_fields::{Listed, push_octets};

/// Appends codes that are asked for.
fn add_codes(out: &mut Vec<u8>, codes: &[u16]) -> Result<(), AllocError> {
    for code in codes {
        add_number(out, u64::from(*code))?;
    }
    Ok(())
}

/// Appends a name, and in brackets an identifier, for each of these.
fn add_iaids(out: &mut Vec<u8>, name: &[u8], iaids: &[Iaid]) -> Result<(), AllocError> {
    for iaid in iaids {
        add_word(out, name)?;
        out.push(b'(')?;
        push_octets(out, &iaid.0.to_be_bytes())?;
        out.push(b')')?;
    }
    Ok(())
}

/// `wishes OWN OCTETS`: the codes that a message asks for, its IA_NAs and its IA_TAs, or the first fault.
pub fn wishes(
    alloc: Global,
    arguments: &mut Arguments<'_>,
    out: &mut Vec<u8>,
) -> Result<(), AllocError> {
    let own = arguments.duid();
    let octets = arguments.octets(alloc)?;
    let Some(own) = own else {
        return Ok(());
    };
    match decode(alloc, &octets, &own) {
        Ok(message) => {
            add_word(out, b"ok")?;
            add_codes(out, message.requested.as_slice())?;
            add_iaids(out, b"na", message.addresses.as_slice())?;
            add_iaids(out, b"ta", message.temporaries.as_slice())
        }
        Err(error) => add_fault(out, &error),
    }
}

fn add_request(out: &mut Vec<u8>, request: &InformationRequest) -> Result<(), AllocError> {
    add_word(out, b"ok ")?;
    push_octets(out, &request.xid)?;
    match &request.client {
        Some(client) => add_duid(out, client)?,
        None => add_word(out, b"-")?,
    }
    for relay in request.relays.as_slice() {
        add_relay(out, relay)?;
    }
    add_codes(out, request.requested.as_slice())
}

/// `information OWN OCTETS`: the request for options alone to the server whose DUID is OWN, or why it is none.
pub fn information(
    alloc: Global,
    arguments: &mut Arguments<'_>,
    out: &mut Vec<u8>,
) -> Result<(), AllocError> {
    let own = arguments.duid();
    let octets = arguments.octets(alloc)?;
    let Some(own) = own else {
        return Ok(());
    };
    match decode_information(alloc, &octets, &own) {
        Ok(request) => add_request(out, &request),
        Err(error) => add_fault(out, &error),
    }
}

/// The options of a server whose DNS and SNTP server stands at an address, with one domain to search, a time until
/// clients ask anew, and a preference.
fn options_of(
    alloc: Global,
    arguments: &mut Arguments<'_>,
) -> Result<Option<OptionList>, AllocError> {
    let address = arguments.prefix().first();
    let name = DomainName::of_text(alloc, arguments.word());
    let refresh = arguments.number_of_32_bits();
    let preference = arguments.number_of_8_bits();
    arguments.note(name.is_ok());
    let Ok(name) = name else {
        return Ok(None);
    };
    let mut search = Vec::new(alloc);
    search.push(name)?;
    let given = RouterOptions {
        preference: Some(preference),
        unicast: Some(address),
        dns: [address].as_slice().to_vec(alloc)?,
        search,
        sntp: [address].as_slice().to_vec(alloc)?,
        information_refresh: Some(refresh),
    };
    match given.ready(alloc) {
        Ok(options) => Ok(Some(options)),
        Err(OptionsError::TooLong | OptionsError::Memory) => Ok(None),
    }
}

/// `informed OWN OCTETS ADDRESS DOMAIN REFRESH PREFERENCE`: the octets of the REPLY to a request for options alone,
/// ADDRESS being a prefix of 128 bits.
pub fn informed(
    alloc: Global,
    arguments: &mut Arguments<'_>,
    out: &mut Vec<u8>,
) -> Result<(), AllocError> {
    let own = arguments.duid();
    let octets = arguments.octets(alloc)?;
    let options = options_of(alloc, arguments)?;
    let (Some(own), Some(options)) = (own, options) else {
        return Ok(());
    };
    let request = match decode_information(alloc, &octets, &own) {
        Ok(request) => request,
        Err(error) => return add_fault(out, &error),
    };
    let asked = request.requested.as_slice();
    let answer = ServerMessage {
        options: chosen(alloc, options.as_slice(), Occasion::Information, asked)?,
        relays: request.relays,
        kind: ServerKind::Reply,
        xid: request.xid,
        client: request.client,
        server: own,
        success: false,
        no_addresses: Listed::new(Vec::new(alloc)),
        ias: Listed::new(Vec::new(alloc)),
    };
    add_encoded(alloc, out, &answer)
}

fn add_encoded(alloc: Global, out: &mut Vec<u8>, answer: &ServerMessage) -> Result<(), AllocError> {
    match encode(alloc, answer) {
        Ok(octets) => {
            add_word(out, b"")?;
            push_octets(out, &octets)
        }
        Err(error) => add_fault(out, &error),
    }
}

/// `advertised OWN OCTETS ADDRESS DOMAIN REFRESH PREFERENCE`: the octets of an ADVERTISE to a message, with no IA_PD,
/// and each IA_NA told NoAddrsAvail.
pub fn advertised(
    alloc: Global,
    arguments: &mut Arguments<'_>,
    out: &mut Vec<u8>,
) -> Result<(), AllocError> {
    let own = arguments.duid();
    let octets = arguments.octets(alloc)?;
    let options = options_of(alloc, arguments)?;
    let (Some(own), Some(options)) = (own, options) else {
        return Ok(());
    };
    let message = match decode(alloc, &octets, &own) {
        Ok(message) => message,
        Err(error) => return add_fault(out, &error),
    };
    let asked = message.requested.as_slice();
    let answer = ServerMessage {
        options: chosen(alloc, options.as_slice(), Occasion::Advertise, asked)?,
        relays: message.relays,
        kind: ServerKind::Advertise,
        xid: message.xid,
        client: Some(message.client),
        server: own,
        success: false,
        no_addresses: message.addresses,
        ias: Listed::new(Vec::new(alloc)),
    };
    add_encoded(alloc, out, &answer)
}
