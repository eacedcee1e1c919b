//! Which options are read.

ghost use Rattle.std.specs.Prelude.{◌≡◌};
ghost use Rattle.dhcp6_pd.specs.Rows.{code_of};

use crate::numbers::{
    CLIENT_ID, IA_PD, IA_PREFIX, INTERFACE_ID, RELAY_MESSAGE, REMOTE_ID, SERVER_ID,
};

/// The options that are read (RFC 8415, section 21, and RFC 4649); all others are skipped.
#[derive(Clone, Copy, Debug, PartialEq, Eq)]
pub enum OptionCode {
    ClientId,
    ServerId,
    RelayMessage,
    InterfaceId,
    RemoteId,
    IaPd,
    IaPrefix,
    Other,
}

impl OptionCode {
    /// The option with this code.
    #[tactic(auto, unfolding(crate::specs::Rows::code_of))]
    pub fn of(code: u16) -> OptionCode
        ensures { result ≡ code_of code }
    {
        if code == CLIENT_ID {
            OptionCode::ClientId
        } else if code == SERVER_ID {
            OptionCode::ServerId
        } else if code == RELAY_MESSAGE {
            OptionCode::RelayMessage
        } else if code == INTERFACE_ID {
            OptionCode::InterfaceId
        } else if code == REMOTE_ID {
            OptionCode::RemoteId
        } else if code == IA_PD {
            OptionCode::IaPd
        } else if code == IA_PREFIX {
            OptionCode::IaPrefix
        } else {
            OptionCode::Other
        }
    }
}
