//! Parsing an IA_PD: with its first prefix, and once for each.

ghost use Rattle.std.specs.Prelude.{◌≡◌, ◌≤◌, ◌++◌, None, length, OnOk};
ghost use Rattle.text_fields.specs.Parsing.{FindsOr};
ghost use Rattle.dhcp6_pd.specs.Rows.{row_of, folded};
ghost use Rattle.dhcp6_pd.specs.Parsing.{plain};
ghost use Rattle.dhcp6_pd.specs.Associations.{cleared, address_of, prefix_in, with_hint, ia_in};
ghost use Rattle.dhcp6_pd.specs.Associations.{read_of, prefixes_in};

use crate::error::PdFault;
use crate::message::{IaPart, IaPd};
use crate::message_lists::IaPdList;
use crate::numbers::IA_PREFIX;
use crate::options::{Options, RawOption};
use byteorder::{BigEndian, ByteOrder};
use client_id::Iaid;
use prefix_range::Prefix;
use std::alloc::AllocError;

/// An address whose bits past a length are cleared.
fn cleared(length: u8, address: u128) -> u128
    requires { length ≤ 128 }
    ensures { result ≡ cleared length address }
{
    if length == 0 {
        0
    } else {
        address - address % (1u128 << (128 - length))
    }
}

/// The address of an IAPREFIX option, in the sixteen octets behind two lifetimes and a length.
#[tactic(auto, unfolding(crate::specs::Associations::address_of))]
fn address_of(octets: &[u8]) -> u128
    requires { 25 ≤ length octets.now }
    ensures { result ≡ address_of octets.now }
{
    BigEndian::read_u128(&octets[9..])
}

/// The prefix of an IAPREFIX option (RFC 8415, section 21.22).
#[tactic(auto, using(crate::proofs::Cleared::cleared_host), unfolding(crate::specs::Associations::prefix_in))]
fn prefix_in(octets: &[u8]) -> Result<Prefix, PdFault>
    ensures { result ≡ prefix_in octets.now }
{
    if octets.len() < 25 {
        return Err(PdFault::OptionLength);
    }
    let length = octets[8];
    if length > 128 {
        return Err(PdFault::BadPrefixLength);
    }
    match Prefix::new(cleared(length, address_of(octets)), length) {
        Ok(prefix) => Ok(prefix),
        Err(_) => Err(PdFault::BadPrefixLength),
    }
}

/// Keeps the prefix of the first IAPREFIX.
#[tactic(auto, unfolding(crate::specs::Associations::with_hint))]
fn keep_hint(hint: &mut Option<Prefix>, option: &RawOption<'_>) -> Result<(), PdFault>
    ensures { FindsOr (λ _. hint.new) result (with_hint hint.old (plain option.now)) }
{
    if hint.is_none() && option.code == IA_PREFIX {
        *hint = Some(prefix_in(option.octets)?);
    }
    Ok(())
}

fn hint_in(octets: &[u8]) -> Result<Option<Prefix>, PdFault>
    ensures { result ≡ folded with_hint None (row_of octets.now) }
{
    let mut options = Options::new(octets);
    let mut hint = None;
    while let Some(option) = options.next_option()? {
        keep_hint(&mut hint, &option)?;
    }
    Ok(hint)
}

/// The identity association that the data of an IA_PD option is (RFC 8415, section 21.21). T1, T2 and lifetimes
/// are not looked at.
#[tactic(auto, unfolding(crate::specs::Associations::ia_in))]
pub fn ia_in(octets: &[u8]) -> Result<IaPd, PdFault>
    ensures { result ≡ ia_in octets.now }
{
    if octets.len() < 12 {
        return Err(PdFault::OptionLength);
    }
    let iaid = Iaid(BigEndian::read_u32(octets));
    let hint = hint_in(&octets[12..])?;
    Ok(IaPd {
        iaid,
        hint,
        part: IaPart::First,
    })
}

/// The prefix of an option that is an IAPREFIX which can be read.
fn read_of(option: &RawOption<'_>) -> Option<Prefix>
    ensures { result ≡ read_of (plain option.now) }
{
    if option.code == IA_PREFIX {
        prefix_in(option.octets).ok()
    } else {
        None
    }
}

/// Appends the identity association that the data of an IA_PD option is, once for each of its prefixes that can be
/// read. Data that are too short are passed over.
#[tactic(auto, unfolding(crate::specs::Associations::prefixes_in))]
pub fn add_prefixes(ias: &mut IaPdList, octets: &[u8]) -> Result<(), AllocError>
    ensures { OnOk result (ias.new ≡ ias.old ++ prefixes_in octets.now) }
{
    if octets.len() < 12 {
        return Ok(());
    }
    let iaid = Iaid(BigEndian::read_u32(octets));
    let mut part = IaPart::First;
    let mut options = Options::new(&octets[12..]);
    while let Ok(Some(option)) = options.next_option() {
        if let Some(prefix) = read_of(&option) {
            ias.push(IaPd {
                iaid,
                hint: Some(prefix),
                part,
            })?;
            part = IaPart::Further;
        }
    }
    if part == IaPart::First {
        ias.push(IaPd {
            iaid,
            hint: None,
            part,
        })?;
    }
    Ok(())
}
