//! What a report's text asks of.

ghost use Rattle.std.specs.Prelude.{◌≡◌};
ghost use Rattle.text_fields.specs.Cuts.{split};
ghost use Rattle.text_fields.specs.Parsing.{Gives};
ghost use Rattle.text_fields.specs.Number.{number_of};
ghost use Rattle.prefix_range.specs.Parsing.{spelled, prefix_spelled};
ghost use Rattle.report_addresses.specs.ReportAddresses.{asked_whole, with_length, with_slash, with_port, slashless};
ghost use Rattle.report_addresses.specs.ReportAddresses.{is_port, bracketed, report_address, fault_of};

use crate::address::address_in;
use crate::error::ReportAddressError;
use prefix_range::{Prefix, PrefixError, read_text};
use std::alloc::Global;
use text_fields::{Cuts, number_of};

/// What of an address's text was passed over.
#[derive(Clone, Copy, Debug, PartialEq, Eq)]
pub enum AddressNote {
    Nothing,
    /// A port.
    PortPassedOver,
    /// A length past which the address has bits.
    LengthPassedOver,
}

/// What a report's text asks of.
#[derive(Clone, Copy, Debug, PartialEq, Eq)]
pub struct ReportAddress {
    /// The prefix, or an address as the prefix of it alone.
    pub prefix: Prefix,
    pub note: AddressNote,
}

fn asked_whole(prefix: Prefix) -> ReportAddress
    ensures { result ≡ asked_whole prefix }
{
    ReportAddress {
        prefix,
        note: AddressNote::Nothing,
    }
}

/// A prefix, or the address where it has bits past the length of the text.
fn with_length(address: Prefix, text: &[u8]) -> Result<ReportAddress, ReportAddressError>
    ensures { result ≡ with_length address (prefix_spelled (spelled text.now)) }
{
    match read_text(text) {
        Ok(prefix) => Ok(asked_whole(prefix)),
        Err(PrefixError::HostBits) => Ok(ReportAddress {
            prefix: address,
            note: AddressNote::LengthPassedOver,
        }),
        Err(_) => Err(ReportAddressError::Length),
    }
}

/// A prefix, an address, or one with a length.
#[tactic(auto, using(crate::proofs::CutLacks::first_lacks))]
fn with_slash(alloc: Global, text: &[u8]) -> Result<ReportAddress, ReportAddressError>
    ensures { Gives fault_of (λ r. r) result (with_slash text.now (split 47 text.now)) }
{
    let mut cuts = Cuts::new(text, b'/');
    let Some(front) = cuts.next_cut() else {
        return Err(ReportAddressError::NoAddress);
    };
    let Some(_length) = cuts.next_cut() else {
        return Ok(asked_whole(address_in(alloc, front)?));
    };
    if !cuts.is_done() {
        return Err(ReportAddressError::NoAddress);
    }
    let address = address_in(alloc, front)?;
    with_length(address, text)
}

/// The address of a text without a slash.
#[tactic(auto, using(crate::proofs::CutLacks::first_lacks))]
fn slashless(alloc: Global, text: &[u8]) -> Result<Prefix, ReportAddressError>
    ensures { Gives fault_of (λ p. p) result (slashless (split 47 text.now)) }
{
    let mut cuts = Cuts::new(text, b'/');
    let Some(address) = cuts.next_cut() else {
        return Err(ReportAddressError::NoAddress);
    };
    if !cuts.is_done() {
        return Err(ReportAddressError::NoAddress);
    }
    address_in(alloc, address)
}

/// Returns whether a text is a port's number.
fn is_port(text: &[u8]) -> bool
    ensures { result ≡ is_port (number_of text.now) }
{
    match number_of(text) {
        Some(number) => number < 65536,
        None => false,
    }
}

/// An address behind whose brackets nothing stands, or a colon and a port.
fn with_port(address: Prefix, behind: &[u8]) -> Result<ReportAddress, ReportAddressError>
    ensures { result ≡ with_port address behind.now }
{
    match behind {
        [] => Ok(asked_whole(address)),
        [b':', port @ ..] if is_port(port) => Ok(ReportAddress {
            prefix: address,
            note: AddressNote::PortPassedOver,
        }),
        _ => Err(ReportAddressError::Port),
    }
}

/// An address in brackets, by what stands behind the opening one.
fn bracketed(alloc: Global, text: &[u8]) -> Result<ReportAddress, ReportAddressError>
    ensures { Gives fault_of (λ r. r) result (bracketed (split 93 text.now)) }
{
    let mut cuts = Cuts::new(text, b']');
    let Some(inside) = cuts.next_cut() else {
        return Err(ReportAddressError::NoAddress);
    };
    let Some(behind) = cuts.next_cut() else {
        return Err(ReportAddressError::NoAddress);
    };
    if !cuts.is_done() {
        return Err(ReportAddressError::NoAddress);
    }
    let address = slashless(alloc, inside)?;
    with_port(address, behind)
}

/// What a report's text asks of: a prefix, or an address, which may stand in brackets, with a port behind them, or have
/// a length past which it has bits. Each refusal says why; `Memory` where a growth was refused.
pub fn read_report_address(alloc: Global, text: &[u8]) -> Result<ReportAddress, ReportAddressError>
    ensures { Gives fault_of (λ r. r) result (report_address text.now) }
{
    match text {
        [b'[', behind @ ..] => bracketed(alloc, behind),
        _ => with_slash(alloc, text),
    }
}
