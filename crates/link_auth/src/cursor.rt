//! The records in front of a stream, one after another.

ghost use Rattle.std.specs.Prelude.{◌≡◌, length};
ghost use Rattle.std.specs.Int.{w16, to_be_bytes, from_be_bytes};
ghost use Rattle.link_auth.specs.Parsing.{Goes};

use crate::code::{CODE, MOST, record_mac};
use crate::compare::equal_in_constant_time;
use crate::fault::LinkFault;
use std::marker::Model;

/// The octets of a stream that are still to be parsed, and the number of the next record. Contracts see both.
#[derive(Drop)]
pub(crate) struct Cursor<'a> {
    number: u64,
    rest: &'a [u8],
}

impl<'a> Model for Cursor<'a> {
    ghost use Rattle.link_auth.specs.Parsing.{Ahead};

    ghost Value = { Ahead };

    ghost view = { λ c. record { number = c.number; rest = c.rest.now } };
}

/// The length that two octets spell, the higher one first.
fn length_in(head: &[u8; 2]) -> usize
    ensures value { result ≡ from_be_bytes w16 head.now }
    ensures spelled { to_be_bytes w16 result ≡ head.now }
{
    usize::from(u16::from_be_bytes(*head))
}

impl<'a> Cursor<'a> {
    /// The records of this stream, of which the first has this number.
    pub(crate) fn new(number: u64, stream: &'a [u8]) -> Cursor<'a>
        ensures { result ≡ record { number = number; rest = stream.now } }
    {
        Cursor {
            number,
            rest: stream,
        }
    }

    /// The number of the next record.
    pub(crate) fn number(&self) -> u64
        ensures { result ≡ self.now.number }
    {
        self.number
    }

    /// Returns how many octets are left.
    pub(crate) fn len(&self) -> usize
        ensures { result ≡ length self.now.rest }
    {
        self.rest.len()
    }

    /// The piece of the next record; `None` where that isn't whole yet.
    pub(crate) fn next_piece(&mut self, key: &[u8; 32]) -> Result<Option<&'a [u8]>, LinkFault>
        ensures { Goes key.now self.old result self.new }
    {
        let Some((head, behind)) = self.rest.split_first_chunk::<2>() else {
            return Ok(None);
        };
        let length = length_in(head);
        if length > MOST {
            return Err(LinkFault::TooLong);
        }
        if behind.len() < length {
            return Ok(None);
        }
        let (piece, behind) = behind.split_at(length);
        let Some((code, behind)) = behind.split_first_chunk::<CODE>() else {
            return Ok(None);
        };
        if !equal_in_constant_time(code, &record_mac(key, self.number, piece)) {
            return Err(LinkFault::Forged);
        }
        let Some(next) = self.number.checked_add(1) else {
            return Err(LinkFault::Spent);
        };
        self.number = next;
        self.rest = behind;
        Ok(Some(piece))
    }
}
