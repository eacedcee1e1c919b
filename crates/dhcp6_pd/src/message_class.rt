//! Which messages are read.

ghost use Rattle.std.specs.Prelude.{◌≡◌};
ghost use Rattle.dhcp6_pd.specs.Faults.{lease_kind, kind_of};

use crate::message::ClientKind;
use crate::numbers::{INFORMATION_REQUEST, REBIND, RELEASE, RENEW, REQUEST, SOLICIT};

/// The types of messages that are read together; all others are ignored.
#[derive(Clone, Copy)]
pub enum MessageClass {
    /// Those about prefixes.
    Leases,
    /// INFORMATION-REQUEST.
    Information,
}

/// The type of a client's message.
#[derive(Clone, Copy)]
pub enum MessageKind {
    Lease(ClientKind),
    Information,
}

/// The type of a client's message about prefixes (RFC 8415, section 7.3).
#[tactic(auto, unfolding(crate::specs::Faults::lease_kind))]
fn lease_kind(octet: u8) -> Option<ClientKind>
    ensures { result ≡ lease_kind octet }
{
    match octet {
        SOLICIT => Some(ClientKind::Solicit),
        REQUEST => Some(ClientKind::Request),
        RENEW => Some(ClientKind::Renew),
        REBIND => Some(ClientKind::Rebind),
        RELEASE => Some(ClientKind::Release),
        _ => None,
    }
}

/// The type of a client's message, if it is read.
#[tactic(auto, unfolding(crate::specs::Faults::kind_of))]
pub fn kind_of(reads: MessageClass, octet: u8) -> Option<MessageKind>
    ensures { result ≡ kind_of reads octet }
{
    match reads {
        MessageClass::Leases => Some(MessageKind::Lease(lease_kind(octet)?)),
        MessageClass::Information => {
            if octet == INFORMATION_REQUEST {
                Some(MessageKind::Information)
            } else {
                None
            }
        }
    }
}
