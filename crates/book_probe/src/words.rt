//! The words of a line, read.

use crate::fault::Fault;
use client_id::{Duid, Iaid};
use lead_time::Reading;
use prefix_range::{Prefix, read_canonical};
use std::alloc::Global;
use text_fields::{is_hex, number_of, octets_of};

/// What is left of a line.
#[derive(Drop)]
pub struct Words<'a> {
    rest: &'a str,
}

impl<'a> Words<'a> {
    pub fn new(line: &'a str) -> Words<'a> {
        Words { rest: line }
    }

    /// All that is left, as it stands.
    pub fn rest(&self) -> &'a str {
        self.rest
    }

    /// The next word; empty where none is left.
    pub fn next(&mut self) -> &'a str {
        match self.rest.split_once(' ') {
            Some((word, rest)) => {
                self.rest = rest;
                word
            }
            None => {
                let word = self.rest;
                self.rest = "";
                word
            }
        }
    }

    pub fn number(&mut self) -> Result<u64, Fault> {
        number_of(self.next().as_bytes()).ok_or(Fault::Words)
    }

    /// A number of seconds.
    pub fn seconds(&mut self) -> Result<u32, Fault> {
        match self.number()?.try_into() {
            Ok(seconds) => Ok(seconds),
            Err(_) => Err(Fault::Words),
        }
    }

    /// A number that an octet holds.
    pub fn octet(&mut self) -> Result<u8, Fault> {
        match self.number()?.try_into() {
            Ok(octet) => Ok(octet),
            Err(_) => Err(Fault::Words),
        }
    }

    pub fn reading(&mut self) -> Result<Reading, Fault> {
        Reading::new(self.number()?).map_err(|_| Fault::Words)
    }

    pub fn client(&mut self) -> Result<Duid, Fault> {
        Duid::from_word(self.next().as_bytes()).ok_or(Fault::Words)
    }

    pub fn iaid(&mut self) -> Result<Iaid, Fault> {
        Iaid::from_hex(self.next().as_bytes()).map_err(|_| Fault::Words)
    }

    pub fn prefix(&mut self) -> Result<Prefix, Fault> {
        read_canonical(self.next().as_bytes()).map_err(|_| Fault::Words)
    }

    /// The letter that names a book.
    pub fn letter(&mut self) -> Result<u8, Fault> {
        match self.next().as_bytes() {
            [letter] => Ok(*letter),
            _ => Err(Fault::Words),
        }
    }

    /// Octets in hexadecimal digits.
    pub fn octets(&mut self, alloc: Global) -> Result<Vec<u8>, Fault> {
        let digits = self.next().as_bytes();
        if !is_hex(digits) {
            return Err(Fault::Words);
        }
        let mut octets = vec![in alloc; 0u8; digits.len() / 2]?;
        octets_of(digits, &mut octets).ok_or(Fault::Words)?;
        Ok(octets)
    }
}
