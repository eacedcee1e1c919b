//! What the options of a client's message say.

ghost use Rattle.std.specs.Prelude.{◌≡◌, false, None};
ghost use Rattle.text_fields.specs.Parsing.{FindsOr};
ghost use Rattle.dhcp6_pd.specs.Answers.{Gives};
ghost use Rattle.dhcp6_pd.specs.Faults.{once, seen_once, with_ia, client_option, client_options_in, no_client_options};

use crate::error::{PdError, PdFault};
use crate::ia::ia_in;
use crate::keeping::{OptionSink, store_options};
use crate::message_lists::IaPdList;
use crate::numbers::MAX_IAS;
use crate::option_code::OptionCode;
use crate::options::{Options, RawOption};
use client_id::Duid;
use std::alloc::Global;
use text_fields::Listed;

/// What the options of a client's message say, as far as they were parsed.
#[derive(Drop)]
pub struct ClientOptions {
    pub client: Option<Duid>,
    pub server: Option<Duid>,
    /// Whether a relay message option stands there.
    pub relayed: bool,
    /// Whether an interface identifier stands there.
    pub interface: bool,
    pub ias: IaPdList,
}

/// Keeps an identifier that may stand once.
#[tactic(auto, unfolding(crate::specs::Faults::once))]
fn keep_once(slot: &mut Option<Duid>, octets: &[u8]) -> Result<(), PdFault>
    ensures { FindsOr (λ _. slot.new) result (once slot.old octets.now) }
{
    if slot.is_some() {
        return Err(PdFault::DuplicateId);
    }
    match Duid::from_bytes(octets) {
        Ok(duid) => {
            *slot = Some(duid);
            Ok(())
        }
        Err(_) => Err(PdFault::OptionLength),
    }
}

/// Notes that an option which may stand once was seen.
#[tactic(auto, unfolding(crate::specs::Faults::seen_once))]
pub fn see_once(met: &mut bool) -> Result<(), PdFault>
    ensures { FindsOr (λ _. met.new) result (seen_once met.old) }
{
    if *met {
        return Err(PdFault::DuplicateId);
    }
    *met = true;
    Ok(())
}

/// Appends what the data of an IA_PD says; the first makes room for as many as a message may have.
#[tactic(auto, unfolding(crate::specs::Faults::with_ia))]
fn add_ia(alloc: Global, ias: &mut IaPdList, octets: &[u8]) -> Result<(), PdError>
    ensures { Gives (λ _. ias.new) result (with_ia ias.old octets.now) }
{
    if ias.as_slice().len() >= MAX_IAS {
        return Err(PdError::Fault(PdFault::TooManyIas));
    }
    let ia = ia_in(octets)?;
    if ias.as_slice().is_empty() {
        *ias = Listed::new(Vec::with_capacity(alloc, MAX_IAS)?);
    }
    ias.push(ia)?;
    Ok(())
}

impl ClientOptions {
    fn none(alloc: Global) -> ClientOptions
        ensures { result ≡ no_client_options }
    {
        ClientOptions {
            client: None,
            server: None,
            relayed: false,
            interface: false,
            ias: Listed::new(Vec::new(alloc)),
        }
    }

    /// Returns what the options in these octets say, or their first fault.
    pub fn of(alloc: Global, octets: &[u8]) -> Result<ClientOptions, PdError>
        ensures { Gives (λ s. s) result (client_options_in octets.now) }
    {
        let mut kept = ClientOptions::none(alloc);
        store_options(&mut kept, alloc, Options::new(octets))?;
        Ok(kept)
    }
}

impl OptionSink for ClientOptions {
    ghost step = { client_option };

    #[tactic(auto, unfolding(crate::specs::Faults::client_option))]
    fn store_option(&mut self, alloc: Global, option: &RawOption<'_>) -> Result<(), PdError> {
        match OptionCode::of(option.code) {
            OptionCode::ClientId => keep_once(&mut self.client, option.octets)?,
            OptionCode::ServerId => keep_once(&mut self.server, option.octets)?,
            OptionCode::RelayMessage => see_once(&mut self.relayed)?,
            OptionCode::InterfaceId => see_once(&mut self.interface)?,
            OptionCode::IaPd => add_ia(alloc, &mut self.ias, option.octets)?,
            OptionCode::RemoteId | OptionCode::IaPrefix | OptionCode::Other => {}
        }
        Ok(())
    }
}
