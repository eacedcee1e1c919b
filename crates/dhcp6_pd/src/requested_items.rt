//! What a client asks for beside the first prefix of each IA_PD.

ghost use Rattle.std.specs.Prelude.{◌≡◌, ◌≤◌, None, IfOk, Ok};
ghost use Rattle.dhcp6_pd.specs.Answers.{Gives};
ghost use Rattle.dhcp6_pd.specs.RequestedItems.{codes_of, request_in, request_once, with_iaid, wish_option, wishes_in};
ghost use Rattle.dhcp6_pd.specs.RequestedItems.{no_wishes, or_none};

use crate::error::{PdError, PdFault};
use crate::ia::add_prefixes;
use crate::keeping::{OptionSink, store_options};
use crate::message_lists::{IaPdList, IaidList, RequestList};
use crate::numbers::{IA_NA, IA_PD, IA_TA, OPTION_REQUEST};
use crate::options::{Options, RawOption};
use byteorder::{BigEndian, ByteOrder};
use client_id::Iaid;
use std::alloc::{AllocError, Global};
use text_fields::Listed;

/// What the options of a client's message ask for beside the first prefix of each IA_PD, as far as they were parsed.
#[derive(Drop)]
pub struct RequestedItems {
    pub requested: Option<RequestList>,
    pub addresses: IaidList,
    pub temporaries: IaidList,
    /// The IA_PDs once for each of their prefixes.
    pub prefixes: IaPdList,
}

/// The codes that octets spell, two each; a last odd one is left.
fn codes_of(alloc: Global, octets: &[u8]) -> Result<RequestList, AllocError>
    ensures { IfOk result (λ codes. codes ≡ codes_of octets.now) }
{
    let mut codes = Vec::with_capacity(alloc, octets.len() / 2)?;
    let mut rest = octets;
    while rest.len() >= 2 {
        codes.push(BigEndian::read_u16(rest))?;
        rest = &rest[2..];
    }
    Ok(Listed::new(codes))
}

/// The codes of an option request (RFC 8415, section 21.7).
#[tactic(auto, unfolding(crate::specs::RequestedItems::request_in))]
fn request_in(alloc: Global, octets: &[u8]) -> Result<RequestList, PdError>
    ensures { Gives (λ codes. codes) result (request_in octets.now) }
{
    if octets.len() % 2 != 0 {
        return Err(PdError::Fault(PdFault::OptionLength));
    }
    let codes = codes_of(alloc, octets)?;
    Ok(codes)
}

/// Keeps an option request, which may stand once.
#[tactic(auto, unfolding(crate::specs::RequestedItems::request_once))]
fn keep_request(alloc: Global, slot: &mut Option<RequestList>, octets: &[u8]) -> Result<(), PdError>
    ensures { Gives (λ _. slot.new) result (request_once slot.old octets.now) }
{
    if slot.is_some() {
        return Err(PdError::Fault(PdFault::DuplicateId));
    }
    *slot = Some(request_in(alloc, octets)?);
    Ok(())
}

/// Appends the identifier of an identity association whose fixed part has so many octets; one that is shorter is
/// passed over.
#[tactic(auto, unfolding(crate::specs::RequestedItems::with_iaid))]
fn add_iaid(ias: &mut IaidList, least: usize, octets: &[u8]) -> Result<(), PdError>
    requires { 4 ≤ least }
    ensures { Gives (λ _. ias.new) result (Ok (with_iaid least ias.old octets.now)) }
{
    if octets.len() < least {
        return Ok(());
    }
    ias.push(Iaid(BigEndian::read_u32(octets)))?;
    Ok(())
}

impl RequestedItems {
    fn none(alloc: Global) -> RequestedItems
        ensures { result ≡ no_wishes }
    {
        RequestedItems {
            requested: None,
            addresses: Listed::new(Vec::new(alloc)),
            temporaries: Listed::new(Vec::new(alloc)),
            prefixes: Listed::new(Vec::new(alloc)),
        }
    }

    /// Returns what the options in these octets ask for, or their first fault.
    pub fn of(alloc: Global, octets: &[u8]) -> Result<RequestedItems, PdError>
        ensures { Gives (λ w. w) result (wishes_in octets.now) }
    {
        let mut wishes = RequestedItems::none(alloc);
        store_options(&mut wishes, alloc, Options::new(octets))?;
        Ok(wishes)
    }
}

impl OptionSink for RequestedItems {
    ghost step = { wish_option };

    #[tactic(auto, unfolding(crate::specs::RequestedItems::wish_option))]
    fn store_option(&mut self, alloc: Global, option: &RawOption<'_>) -> Result<(), PdError> {
        if option.code == OPTION_REQUEST {
            keep_request(alloc, &mut self.requested, option.octets)?;
        } else if option.code == IA_NA {
            add_iaid(&mut self.addresses, 12, option.octets)?;
        } else if option.code == IA_TA {
            add_iaid(&mut self.temporaries, 4, option.octets)?;
        } else if option.code == IA_PD {
            add_prefixes(&mut self.prefixes, option.octets)?;
        }
        Ok(())
    }
}

/// The codes of an option request, none where there is none.
pub fn or_none(alloc: Global, requested: Option<RequestList>) -> RequestList
    ensures { result ≡ or_none requested }
{
    match requested {
        Some(requested) => requested,
        None => Listed::new(Vec::new(alloc)),
    }
}
