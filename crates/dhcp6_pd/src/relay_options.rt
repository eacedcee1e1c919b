//! The options of a relay's message.

ghost use Rattle.std.specs.Prelude.{◌≡◌, ◌≤◌, Option, Some, None, length};
ghost use Rattle.dhcp6_pd.specs.Rows.{row_of};
ghost use Rattle.dhcp6_pd.specs.Parsing.{found_in};
ghost use Rattle.dhcp6_pd.specs.Answers.{Gives};
ghost use Rattle.dhcp6_pd.specs.Faults.{relay_id_once, relay_option, no_relay_options, to_message, relay_of};

use crate::client_options::see_once;
use crate::error::{PdError, PdFault};
use crate::keeping::OptionSink;
use crate::message::Relay;
use crate::message_lists::{InterfaceId, RelayId, RemoteId};
use crate::numbers::RELAY_MESSAGE;
use crate::option_code::OptionCode;
use crate::options::{Options, RawOption};
use std::alloc::Global;

/// What the options of a relay's message say, as far as they were parsed.
#[derive(Drop)]
pub struct RelayOptions {
    /// Whether a client identifier stands there.
    pub client: bool,
    /// Whether a server identifier stands there.
    pub server: bool,
    /// Whether the relay message stands there.
    pub relayed: bool,
    pub interface: Option<InterfaceId>,
    pub remote: Option<RemoteId>,
}

/// Keeps an identifier that the relay gives, which may stand once.
fn keep_id(alloc: Global, slot: &mut Option<RelayId>, octets: &[u8]) -> Result<(), PdError>
    ensures { Gives (λ _. slot.new) result (relay_id_once slot.old octets.now) }
{
    if slot.is_some() {
        return Err(PdError::Fault(PdFault::DuplicateId));
    }
    *slot = Some(RelayId::from_bytes(alloc, octets)?);
    Ok(())
}

/// The sixteen octets of an address.
fn address(octets: &[u8]) -> [u8; 16]
    requires { length octets.now ≡ 16 }
    ensures { result ≡ octets.now }
{
    let mut address = [0u8; 16];
    address.copy_from_slice(octets);
    address
}

impl RelayOptions {
    pub fn none() -> RelayOptions
        ensures { result ≡ no_relay_options }
    {
        RelayOptions {
            client: false,
            server: false,
            relayed: false,
            interface: None,
            remote: None,
        }
    }

    /// The data of the relay message, or `None` where there is none. What the options up to it, or all, say is kept.
    pub fn to_message<'a>(
        &mut self,
        alloc: Global,
        options: &mut Options<'a>,
    ) -> Result<Option<&'a [u8]>, PdError>
        ensures { let left = row_of options.new.rest.now in
            Gives (λ found. (self.new, found_in left found)) result
            (to_message self.old (row_of options.old.rest.now)) }
    {
        while let Some(option) = options.next_option()? {
            self.store_option(alloc, &option)?;
            if option.code == RELAY_MESSAGE {
                return Ok(Some(option.octets));
            }
        }
        Ok(None)
    }

    /// The relay whose message these octets are.
    #[tactic(auto, unfolding(crate::specs::Faults::relay_of))]
    pub fn into_relay(self, octets: &[u8]) -> Relay
        requires { 34 ≤ length octets.now }
        ensures { result ≡ relay_of octets.now self }
    {
        Relay {
            hops: octets[1],
            link: address(&octets[2..18]),
            peer: address(&octets[18..34]),
            interface: self.interface,
            remote: self.remote,
        }
    }
}

impl OptionSink for RelayOptions {
    ghost step = { relay_option };

    #[tactic(auto, unfolding(crate::specs::Faults::relay_option))]
    fn store_option(&mut self, alloc: Global, option: &RawOption<'_>) -> Result<(), PdError> {
        match OptionCode::of(option.code) {
            OptionCode::ClientId => see_once(&mut self.client)?,
            OptionCode::ServerId => see_once(&mut self.server)?,
            OptionCode::RelayMessage => see_once(&mut self.relayed)?,
            OptionCode::InterfaceId => keep_id(alloc, &mut self.interface, option.octets)?,
            OptionCode::RemoteId => keep_id(alloc, &mut self.remote, option.octets)?,
            OptionCode::IaPd | OptionCode::IaPrefix | OptionCode::Other => {}
        }
        Ok(())
    }
}
