//! The options of a message, of a relay's message or of an IA_PD, one after the other.

ghost use Rattle.std.specs.Prelude.{◌≡◌};
ghost use Rattle.dhcp6_pd.specs.Rows.{row_of};
ghost use Rattle.dhcp6_pd.specs.Parsing.{Steps};

use crate::error::PdFault;
use crate::numbers::OPTION_HEAD;
use byteorder::{BigEndian, ByteOrder};

/// An option: its code and its data (RFC 8415, section 21.1).
#[derive(Clone, Copy)]
pub struct RawOption<'a> {
    pub code: u16,
    pub octets: &'a [u8],
}

/// The options that are left, from the front.
#[derive(Drop)]
pub struct Options<'a> {
    /// Their octets.
    pub rest: &'a [u8],
}

impl<'a> Options<'a> {
    pub fn new(octets: &'a [u8]) -> Options<'a>
        ensures { result.rest.now ≡ octets.now }
    {
        Options { rest: octets }
    }

    /// The next option, or `None` at the end: `Short` where fewer than four octets are left, `OptionLength`
    /// where fewer than the option's length says.
    #[tactic(auto, using(crate::proofs::Rows::row_done, crate::proofs::Rows::row_short))]
    pub fn next_option(&mut self) -> Result<Option<RawOption<'a>>, PdFault>
        ensures { Steps result (row_of self.new.rest.now) (row_of self.old.rest.now) }
    {
        let rest = self.rest;
        if rest.is_empty() {
            return Ok(None);
        }
        if rest.len() < OPTION_HEAD {
            return Err(PdFault::Short);
        }
        let code = BigEndian::read_u16(rest);
        let length = BigEndian::read_u16(&rest[2..]) as usize;
        let rest = &rest[OPTION_HEAD..];
        if rest.len() < length {
            return Err(PdFault::OptionLength);
        }
        self.rest = &rest[length..];
        Ok(Some(RawOption {
            code,
            octets: &rest[..length],
        }))
    }
}
