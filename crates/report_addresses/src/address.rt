//! One address.

ghost use Rattle.std.specs.Prelude.{◌≡◌, IfOk, is_some, option_map};
ghost use Rattle.text_fields.specs.Cuts.{Lacks};
ghost use Rattle.text_fields.specs.Parsing.{Gives};
ghost use Rattle.prefix_range.specs.Parsing.{text_address};
ghost use Rattle.report_addresses.specs.ReportAddresses.{has, alone, is_mapped, unmapped, dotless, address_spelled};
ghost use Rattle.report_addresses.specs.ReportAddresses.{looks_mapped, fault_of};

use crate::error::ReportAddressError;
use prefix_range::{Prefix, read_text};
use std::alloc::{AllocError, Global};
use text_fields::Cuts;

/// The address that a text without a slash spells, as the prefix of it alone.
fn alone(alloc: Global, text: &[u8]) -> Result<Option<Prefix>, AllocError>
    requires { Lacks 47 text.now }
    ensures { IfOk result (λ found. found ≡ option_map alone (text_address text.now)) }
{
    let mut whole = Vec::new(alloc);
    whole.extend_from_slice(text)?;
    whole.extend_from_slice(b"/128")?;
    match read_text(&whole) {
        Ok(prefix) => Ok(Some(prefix)),
        Err(_) => Ok(None),
    }
}

/// Returns whether an address is an IPv4 address, mapped.
fn is_mapped(address: &Prefix) -> bool
    ensures { result ≡ is_mapped address.now }
{
    address.first() / (1 << 32) == 0xffff
}

fn unmapped(found: Option<Prefix>) -> Result<Prefix, ReportAddressError>
    ensures { result ≡ unmapped found }
{
    match found {
        None => Err(ReportAddressError::NoAddress),
        Some(address) if is_mapped(&address) => Err(ReportAddressError::Ipv4Mapped),
        Some(address) => Ok(address),
    }
}

/// Returns whether a text begins as mapped addresses do.
fn looks_mapped(text: &[u8]) -> bool
    ensures { result ≡ looks_mapped text.now }
{
    match text.split_at_checked(7) {
        Some((front, _)) => front.eq_ignore_ascii_case(b"::ffff:"),
        None => false,
    }
}

fn has_dot(text: &[u8]) -> bool
    ensures { result ≡ has 46 text.now }
{
    text.contains(&b'.')
}

/// The address that a text without a slash spells, if it has no dot.
fn dotless(alloc: Global, text: &[u8]) -> Result<Prefix, ReportAddressError>
    requires { Lacks 47 text.now }
    ensures { Gives fault_of (λ p. p) result (dotless text.now) }
{
    if !has_dot(text) {
        return unmapped(alone(alloc, text)?);
    }
    if looks_mapped(text) {
        Err(ReportAddressError::Ipv4Mapped)
    } else {
        Err(ReportAddressError::Dotted)
    }
}

/// Returns whether a text without a slash spells an address.
fn is_address(alloc: Global, text: &[u8]) -> Result<bool, AllocError>
    requires { Lacks 47 text.now }
    ensures { IfOk result (λ is. is ≡ is_some (text_address text.now)) }
{
    match alone(alloc, text)? {
        Some(_) => Ok(true),
        None => Ok(false),
    }
}

/// The address that a text without a slash spells: `Ipv4Mapped`, `Dotted` or `ZoneIndex` where it's one that isn't asked
/// of, `NoAddress` where it's none, `Memory` where a growth was refused.
#[tactic(auto, using(crate::proofs::CutLacks::first_cut_lacks))]
pub(crate) fn address_in(alloc: Global, text: &[u8]) -> Result<Prefix, ReportAddressError>
    requires { Lacks 47 text.now }
    ensures { Gives fault_of (λ p. p) result (address_spelled text.now) }
{
    let mut cuts = Cuts::new(text, b'%');
    let Some(address) = cuts.next_cut() else {
        return Err(ReportAddressError::NoAddress);
    };
    if cuts.is_done() {
        return dotless(alloc, address);
    }
    if is_address(alloc, address)? {
        Err(ReportAddressError::ZoneIndex)
    } else {
        Err(ReportAddressError::NoAddress)
    }
}
