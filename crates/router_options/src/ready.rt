//! An option as it is written.

ghost use Rattle.std.specs.Prelude.{◌≡◌, ◌≤◌, length, IfOk, IfSome, None, ◌↔◌, ◌<◌};

use std::alloc::{AllocError, Global};
use std::marker::Model;
use text_fields::Listed;

/// The most octets of an option's data (RFC 8415, section 21.1).
const MAX_DATA: usize = 65_535;

/// Options of an answer, in the order in which they are written.
pub type OptionList = Listed<ReadyOption>;

/// An option, ready to be written: its code and its data, of at most 65,535 octets (RFC 8415, section 21.1).
#[derive(Debug, Drop)]
pub struct ReadyOption {
    code: u16,
    octets: Vec<u8>,
}

impl Model for ReadyOption {
    ghost use Rattle.std.specs.Prelude.{length, ◌≤◌};
    ghost use Rattle.router_options.specs.Ready.{Ready};

    ghost Value = { Ready };

    ghost view = { λ o. record { code = o.code; octets = o.octets.items } };

    ghost invariant = { λ o. length o.octets.items ≤ 65535 };
}

impl ReadyOption {
    /// The option with this code and data; none where the data has more than 65,535 octets.
    pub fn new(code: u16, octets: Vec<u8>) -> Option<ReadyOption>
        ensures made { IfSome result (λ o. o ≡ record { code = code; octets = octets.items }) }
        ensures long { (result ≡ None) ↔ (65535 < length octets.items) }
    {
        if octets.len() > MAX_DATA {
            return None;
        }
        Some(ReadyOption { code, octets })
    }

    pub fn code(&self) -> u16
        ensures { result ≡ self.now.code }
    {
        self.code
    }

    /// The data: at most 65,535 octets.
    pub fn as_bytes(&self) -> &[u8]
        ensures octets { result.now ≡ self.now.octets }
        ensures most { length result.now ≤ 65535 }
    {
        &self.octets
    }

    /// The same in memory of its own.
    pub fn copy(&self, alloc: Global) -> Result<ReadyOption, AllocError>
        ensures { IfOk result (λ o. o ≡ self.now) }
    {
        let octets = self.octets.as_slice().to_vec(alloc)?;
        Ok(ReadyOption {
            code: self.code,
            octets,
        })
    }
}
