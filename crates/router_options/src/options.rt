//! The options that a server was given.

ghost use Rattle.std.specs.Prelude.{◌≡◌, ◌++◌, ◌*◌, ◌+◌, ◌≤◌, ◌∷◌, [], length, IfOk, IfErr, OnOk};
ghost use Rattle.std.specs.List.{flat_map};
ghost use Rattle.byteorder.specs.Endian.{big_bytes};
ghost use Rattle.router_options.specs.Given.{option_of, addresses_octets, names_octets, listed, addresses_option};
ghost use Rattle.router_options.specs.Given.{search_option, number_option, options_of};

use crate::error::OptionsError;
use crate::name::DomainName;
use crate::ready::{OptionList, ReadyOption};
use byteorder::{BigEndian, ByteOrder};
use std::alloc::{AllocError, Global};
use text_fields::Listed;

/// The option codes (RFC 8415, sections 21.8, 21.12 and 21.23; RFC 3646; RFC 4075).
pub(crate) const PREFERENCE: u16 = 7;

pub(crate) const UNICAST: u16 = 12;

const DNS_SERVERS: u16 = 23;

const DOMAIN_LIST: u16 = 24;

const SNTP_SERVERS: u16 = 31;

pub(crate) const INFORMATION_REFRESH: u16 = 32;

/// What a server hands out beside prefixes.
#[derive(Debug, Drop)]
pub struct RouterOptions {
    /// How much clients should prefer this server, in an ADVERTISE (RFC 8415, section 21.8).
    pub preference: Option<u8>,
    /// The address at which clients may ask the server alone (RFC 8415, section 21.12).
    pub unicast: Option<u128>,
    /// The addresses of DNS servers (RFC 3646, section 3).
    pub dns: Vec<u128>,
    /// The domains of a search list (RFC 3646, section 4).
    pub search: Vec<DomainName>,
    /// The addresses of SNTP servers (RFC 4075, section 4).
    pub sntp: Vec<u128>,
    /// Seconds until a client asks anew (RFC 8415, section 21.23).
    pub information_refresh: Option<u32>,
}

fn push_address(out: &mut Vec<u8>, address: u128) -> Result<(), AllocError>
    ensures { OnOk result (out.new.items ≡ out.old.items ++ big_bytes 16 address) }
{
    let mut octets = [0u8; 16];
    BigEndian::write_u128(&mut octets, address);
    out.extend_from_slice(&octets)
}

fn addresses_octets(alloc: Global, addresses: &[u128]) -> Result<Vec<u8>, AllocError>
    ensures { IfOk result (λ v. v.items ≡ addresses_octets addresses.now) }
{
    let mut octets = Vec::new(alloc);
    for address in addresses {
        push_address(&mut octets, *address)?;
    }
    Ok(octets)
}

fn names_octets(alloc: Global, names: &[DomainName]) -> Result<Vec<u8>, AllocError>
    ensures { IfOk result (λ v. v.items ≡ names_octets names.now) }
{
    let mut octets = Vec::new(alloc);
    for name in names {
        octets.extend_from_slice(name.as_bytes())?;
    }
    Ok(octets)
}

/// Appends an option with this code and data.
fn push_option(out: &mut Vec<ReadyOption>, code: u16, octets: Vec<u8>) -> Result<(), OptionsError>
    ensures { OnOk result (out.new.items ≡ out.old.items ++ option_of code octets.items ∷ []) }
{
    match ReadyOption::new(code, octets) {
        Some(option) => {
            out.push(option)?;
            Ok(())
        }
        None => Err(OptionsError::TooLong),
    }
}

/// Appends an option with these addresses, if there are any.
fn push_addresses(
    out: &mut Vec<ReadyOption>,
    alloc: Global,
    code: u16,
    addresses: &[u128],
) -> Result<(), OptionsError>
    ensures { OnOk result (out.new.items ≡ out.old.items ++ addresses_option code addresses.now) }
{
    if addresses.is_empty() {
        return Ok(());
    }
    let octets = addresses_octets(alloc, addresses)?;
    push_option(out, code, octets)
}

/// Appends the search list, if there is one.
fn push_search(
    out: &mut Vec<ReadyOption>,
    alloc: Global,
    names: &[DomainName],
) -> Result<(), OptionsError>
    ensures { OnOk result (out.new.items ≡ out.old.items ++ search_option names.now) }
{
    if names.is_empty() {
        return Ok(());
    }
    let octets = names_octets(alloc, names)?;
    push_option(out, DOMAIN_LIST, octets)
}

/// Appends an option of one octet, if there is one.
fn push_preference(
    out: &mut Vec<ReadyOption>,
    alloc: Global,
    preference: Option<u8>,
) -> Result<(), OptionsError>
    ensures { OnOk result (out.new.items ≡ out.old.items ++ number_option 1 PREFERENCE preference) }
{
    let Some(preference) = preference else {
        return Ok(());
    };
    let mut octets = Vec::new(alloc);
    octets.push(preference)?;
    push_option(out, PREFERENCE, octets)
}

fn push_unicast(
    out: &mut Vec<ReadyOption>,
    alloc: Global,
    unicast: Option<u128>,
) -> Result<(), OptionsError>
    ensures { OnOk result (out.new.items ≡ out.old.items ++ addresses_option UNICAST (listed unicast)) }
{
    match unicast {
        Some(address) => push_addresses(out, alloc, UNICAST, &[address]),
        None => Ok(()),
    }
}

fn push_refresh(
    out: &mut Vec<ReadyOption>,
    alloc: Global,
    refresh: Option<u32>,
) -> Result<(), OptionsError>
    ensures { OnOk result (out.new.items ≡ out.old.items ++ number_option 4 INFORMATION_REFRESH refresh) }
{
    let Some(seconds) = refresh else {
        return Ok(());
    };
    let mut octets = [0u8; 4];
    BigEndian::write_u32(&mut octets, seconds);
    push_option(out, INFORMATION_REFRESH, octets.as_slice().to_vec(alloc)?)
}

impl RouterOptions {
    /// None at all.
    pub fn none(alloc: Global) -> RouterOptions
        ensures { options_of result ≡ [] }
    {
        RouterOptions {
            preference: None,
            unicast: None,
            dns: Vec::new(alloc),
            search: Vec::new(alloc),
            sntp: Vec::new(alloc),
            information_refresh: None,
        }
    }

    /// The options, ready to be written, in ascending order of their codes: each that was given, and no empty list.
    /// `TooLong` where one of them has more than 65,535 octets, `Memory` where a growth was refused.
    pub fn ready(&self, alloc: Global) -> Result<OptionList, OptionsError>
        ensures { IfOk result (λ options. options ≡ options_of self.now) }
    {
        let mut options = Vec::new(alloc);
        push_preference(&mut options, alloc, self.preference)?;
        push_unicast(&mut options, alloc, self.unicast)?;
        push_addresses(&mut options, alloc, DNS_SERVERS, &self.dns)?;
        push_search(&mut options, alloc, &self.search)?;
        push_addresses(&mut options, alloc, SNTP_SERVERS, &self.sntp)?;
        push_refresh(&mut options, alloc, self.information_refresh)?;
        Ok(Listed::new(options))
    }
}
