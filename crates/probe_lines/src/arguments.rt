//! The arguments of a call, one after another.

ghost use Rattle.std.specs.Prelude.{◌≤◌, ◌<◌};

use binding_rules::{Counter, Role};
use client_id::{Duid, Iaid};
use lead_time::{End, Reading, Skew, Transit};
use line_words::{SPACE, Words};
use prefix_range::Prefix;
use std::alloc::{AllocError, Global};

/// What stands behind a call's name. A word that is missing, or spells no such value, is noted, and any value is
/// answered in its place.
#[derive(Drop)]
pub struct Arguments<'a> {
    text: &'a [u8],
    words: Words<'a>,
    /// Whether each so far spelled its value.
    are_spelled: bool,
    /// Whether all of them were taken as one text.
    is_text: bool,
}

/// All addresses.
fn everything() -> Prefix {
    match Prefix::new(0, 0) {
        Ok(prefix) => prefix,
        Err(_) => unreachable!(),
    }
}

impl<'a> Arguments<'a> {
    /// A line's call and its arguments.
    pub fn of(line: &'a [u8]) -> (&'a [u8], Arguments<'a>) {
        let call = Words::new(line).next_word().unwrap_or(line);
        let text = match line.get(call.len()..) {
            Some([SPACE, text @ ..]) => text,
            _ => b"",
        };
        let arguments = Arguments {
            text,
            words: Words::new(text),
            are_spelled: true,
            is_text: false,
        };
        (call, arguments)
    }

    /// Returns whether each spelled its value, and none is left.
    pub fn are_taken(&self) -> bool {
        self.are_spelled && (self.is_text || self.words.is_done())
    }

    pub fn is_done(&self) -> bool {
        self.words.is_done()
    }

    /// Notes whether an argument spelled its value.
    pub fn note(&mut self, is_spelled: bool) {
        self.are_spelled = self.are_spelled && is_spelled;
    }

    /// All of them as one text, spaces and all.
    pub fn text(&mut self) -> &'a [u8] {
        self.is_text = true;
        self.text
    }

    pub fn word(&mut self) -> &'a [u8] {
        let word = self.words.next_word();
        self.note(word.is_some());
        word.unwrap_or(b"")
    }

    /// Returns whether the next word is the first of these; else it is the second.
    pub fn is(&mut self, one: &[u8], other: &[u8]) -> bool {
        let word = self.word();
        let is_one = word == one;
        self.note(is_one || word == other);
        is_one
    }

    pub fn number(&mut self, limit: u64) -> u64
        ensures { result ≤ limit }
    {
        let number = self.words.number(limit);
        self.note(number.is_some());
        match number {
            Some(number) => number,
            None => 0,
        }
    }

    pub fn number_of_32_bits(&mut self) -> u32 {
        self.number(u64::from(u32::MAX)) as u32
    }

    pub fn number_of_8_bits(&mut self) -> u8 {
        self.number(u64::from(u8::MAX)) as u8
    }

    pub fn counter(&mut self) -> Counter {
        Counter::new(self.number(Counter::MAX)).unwrap_or(Counter::ZERO)
    }

    pub fn end(&mut self) -> End {
        End::new(self.number(End::MAX)).unwrap_or(End::ZERO)
    }

    pub fn transit(&mut self) -> Transit {
        Transit::new(self.number(Transit::MAX)).unwrap_or(Transit::ZERO)
    }

    pub fn reading(&mut self) -> Reading {
        match Reading::new(self.number(Reading::MAX)) {
            Ok(reading) => reading,
            Err(_) => unreachable!(),
        }
    }

    pub fn skew(&mut self) -> Skew {
        match Skew::new(self.number(Skew::MAX)) {
            Ok(skew) => skew,
            Err(_) => unreachable!(),
        }
    }

    pub fn prefix(&mut self) -> Prefix {
        let prefix = self.words.prefix();
        self.note(prefix.is_some());
        match prefix {
            Some(prefix) => prefix,
            None => everything(),
        }
    }

    pub fn iaid(&mut self) -> Iaid {
        let iaid = self.words.iaid();
        self.note(iaid.is_some());
        iaid.unwrap_or(Iaid(0))
    }

    pub fn duid(&mut self) -> Option<Duid> {
        let duid = self.words.duid();
        self.note(duid.is_some());
        duid
    }

    /// A DUID, or `-`.
    pub fn client(&mut self) -> Option<Duid> {
        let word = self.word();
        let client = Duid::from_word(word);
        self.note(client.is_some() || word == b"-".as_slice());
        client
    }

    /// `A`, the primary, or `B`.
    pub fn role(&mut self) -> Role {
        if self.is(b"A", b"B") {
            Role::Primary
        } else {
            Role::Secondary
        }
    }

    pub fn octets(&mut self, alloc: Global) -> Result<Vec<u8>, AllocError> {
        let octets = crate::octets::spelled(alloc, self.word())?;
        self.note(octets.is_some());
        match octets {
            Some(octets) => Ok(octets),
            None => Ok(Vec::new(alloc)),
        }
    }
}
