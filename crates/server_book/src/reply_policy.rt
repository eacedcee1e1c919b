//! How a server answers beside what its book says.

ghost use Rattle.std.specs.Prelude.{◌≡◌, [], IfOk};
ghost use Rattle.server_book.specs.ReplyPolicy.{plain, has_options, omits_unbound, occasion_of, refused_addresses};

use dhcp6_pd::{ClientKind, ClientMessage, IaidList};
use router_options::{Occasion, OptionList};
use std::alloc::{AllocError, Global};
use text_fields::Listed;

/// What a server says of an IA_PD of a REBIND that it has no binding for.
#[derive(Clone, Copy, Debug, PartialEq, Eq)]
pub enum RebindUnknown {
    /// Nothing: another server may have it (RFC 8415, section 18.3.5).
    Silent,
    /// NoBinding.
    NoBinding,
}

/// What a server says of an IA_NA, by which a client asks for an address.
#[derive(Clone, Copy, Debug, PartialEq, Eq)]
pub enum AddressRule {
    /// Nothing.
    Ignore,
    /// NoAddrsAvail (RFC 8415, section 18.3.2).
    Refuse,
}

/// How a server answers beside what its book says.
#[derive(Debug, Drop)]
pub struct ReplyPolicy {
    /// What it hands out beside prefixes, in the order in which that is written.
    pub options: OptionList,
    pub rebind_unknown: RebindUnknown,
    pub addresses: AddressRule,
}

impl ReplyPolicy {
    /// Nothing beside prefixes is handed out, NoBinding is said of all that has no binding, and nothing of an IA_NA.
    pub fn plain(alloc: Global) -> ReplyPolicy
        ensures { result ≡ plain }
    {
        ReplyPolicy {
            options: Listed::new(Vec::new(alloc)),
            rebind_unknown: RebindUnknown::NoBinding,
            addresses: AddressRule::Ignore,
        }
    }

    /// Returns whether anything is handed out beside prefixes.
    pub fn has_options(&self) -> bool
        ensures { result ≡ has_options self.now.options }
    {
        !matches!(self.options.as_slice(), [])
    }

    /// Returns whether nothing is said of an IA_PD of a message of this type that has no binding.
    pub fn omits_unbound(&self, kind: ClientKind) -> bool
        ensures { result ≡ omits_unbound self.now kind }
    {
        match (kind, self.rebind_unknown) {
            (ClientKind::Rebind, RebindUnknown::Silent) => true,
            _ => false,
        }
    }
}

/// What the answer to a message of this type is, to those who choose options.
pub(crate) fn occasion_of(kind: ClientKind) -> Occasion
    ensures { result ≡ occasion_of kind }
{
    match kind {
        ClientKind::Solicit => Occasion::Advertise,
        _ => Occasion::Reply,
    }
}

fn copy_of_iaids(alloc: Global, iaids: &IaidList) -> Result<IaidList, AllocError>
    ensures { IfOk result (λ l. l ≡ iaids.now) }
{
    let copy = iaids.as_slice().to_vec(alloc)?;
    Ok(Listed::new(copy))
}

/// The IA_NAs of a message that are told NoAddrsAvail: those of a RELEASE aren't.
pub(crate) fn refused_addresses(
    alloc: Global,
    manner: &ReplyPolicy,
    message: &ClientMessage,
) -> Result<IaidList, AllocError>
    ensures { IfOk result (λ l. l ≡ refused_addresses manner.now message.now) }
{
    match (manner.addresses, message.kind) {
        (AddressRule::Ignore, _) | (_, ClientKind::Release) => Ok(Listed::new(Vec::new(alloc))),
        _ => copy_of_iaids(alloc, &message.addresses),
    }
}
