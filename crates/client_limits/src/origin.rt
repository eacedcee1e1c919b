//! Where a message came from: the relay port of its client, and what names it.

ghost use Rattle.std.specs.Prelude.{◌≡◌, ℕ, IfOk, Some, option_map};
ghost use Rattle.std.specs.declared.alloc.Global.{Global};
ghost use Rattle.std.specs.declared.vec.Vec.{Vec as VecValue};
ghost use Rattle.client_limits.specs.Origins.{port_by, port_of, name_of, name_by};

use access_records::{AccessRecord, Address, PortName, RelayPort, push_record, record_of};
use dhcp6_pd::{ClientMessage, Relay, RelayId};
use std::alloc::{AllocError, Global};

/// What a relay gives, in memory of its own.
fn given(alloc: Global, id: &Option<RelayId>) -> Result<Option<PortName>, AllocError>
    ensures { IfOk result (λ name. name ≡ id.now) }
{
    match id {
        Some(id) => Ok(Some(PortName::from_bytes(alloc, id.as_bytes())?)),
        None => Ok(None),
    }
}

/// The port that a relay forwarded a message from.
fn port_by(alloc: Global, relay: &Relay) -> Result<RelayPort, AllocError>
    ensures { IfOk result (λ port. port ≡ port_by relay.now) }
{
    Ok(RelayPort {
        link: Address(u128::from_be_bytes(relay.link)),
        interface: given(alloc, &relay.interface)?,
        remote: given(alloc, &relay.remote)?,
    })
}

/// The relay port of a message's client: that of the relay nearest to it. None where no relay is between.
pub(crate) fn port_of(
    alloc: Global,
    message: &ClientMessage,
) -> Result<Option<RelayPort>, AllocError>
    ensures { IfOk result (λ port. port ≡ port_of message.now.relays) }
{
    match message.relays.as_slice().last() {
        Some(relay) => Ok(Some(port_by(alloc, relay)?)),
        None => Ok(None),
    }
}

/// The octets that name a port: the line of a record of it.
pub(crate) fn name_of(alloc: Global, port: RelayPort) -> Result<Vec<u8>, AllocError>
    ensures { IfOk result (λ name. name.items ≡ name_of port) }
{
    let mut name = Vec::new(alloc);
    let record = AccessRecord {
        number: 1,
        port: Some(port),
        source: None,
    };
    push_record(&mut name, &record)?;
    Ok(name)
}

/// The octets that name a port, where its relay tells its clients apart.
pub(crate) fn name_by(alloc: Global, port: &RelayPort) -> Result<Option<Vec<u8>>, AllocError>
    ensures { IfOk result (λ n. option_map (λ (v : VecValue ℕ Global). v.items) n ≡ name_by (Some port.now)) }
{
    if port.interface.is_none() && port.remote.is_none() {
        return Ok(None);
    }
    Ok(Some(name_of(alloc, port.clone()?)?))
}

/// The words of a port in the octets that name it: without the number in front, and without the source behind.
pub(crate) fn port_words(name: &[u8]) -> &[u8] {
    let Some(behind) = name.strip_prefix(b"1 ") else {
        return name;
    };
    match behind.strip_suffix(b" -\n") {
        Some(words) => words,
        None => behind,
    }
}

/// The port that these octets name.
pub(crate) fn port_named(alloc: Global, name: &[u8]) -> Option<RelayPort> {
    let line = name.strip_suffix(b"\n")?;
    match record_of(alloc, line) {
        Ok(record) => record.port,
        Err(_) => None,
    }
}
