//! A text as its cuts between stops.

ghost use Rattle.std.specs.Prelude.{◌≡◌, ◌+◌, ◌≤◌, ◌∷◌, ◌↔◌, [], length, IsTrue, MatchOption};
ghost use Rattle.memchr.specs.Find.{IsFirst, IsFirstByte, Passes, is_byte};
ghost use Rattle.text_fields.specs.Cuts.{split};
ghost use Rattle.text_fields.specs.Number.{number_of};
ghost use Rattle.text_fields.specs.Parsing.{Moves, first_word};

use crate::number::{number_ahead, number_of};
use memchr::memchr;
use std::marker::Model;
use std::simd::prelude::*;

/// The cuts of a text between stops, from the front: words between spaces, lines between line feeds.
///
/// A text has one cut more than it has stops, and a cut may be empty. Contracts see the list of the
/// cuts that are left.
#[derive(Drop)]
pub struct Cuts<'a> {
    rest: Option<&'a [u8]>,
    stop: u8,
}

impl<'a> Model for Cuts<'a> {
    ghost use Rattle.std.specs.Prelude.{List, ℕ};
    ghost use Rattle.text_fields.specs.Cuts.{cuts_left};

    ghost Value = { List (List ℕ) };

    ghost view = { λ p. cuts_left p.stop p.rest };
}

/// How many octets are looked at together.
const LANES: usize = 16;

/// The first stop among the `LANES` octets from `from` on.
fn stop_among(text: &[u8], from: usize, stop: u8) -> Option<usize>
    requires { from + LANES ≤ length text.now }
    ensures { IsFirst (Passes (is_byte stop) text.now) from (from + LANES) result }
{
    let marks = u8x16::from_slice(&text[from..])
        .simd_eq(u8x16::splat(stop))
        .to_bitmask();
    if marks == 0 {
        None
    } else {
        Some(from + marks.trailing_zeros() as usize)
    }
}

/// The first stop of a text. The last look may take in octets of the look before it, where no stop was.
fn first_stop(text: &[u8], stop: u8) -> Option<usize>
    ensures { IsFirstByte (is_byte stop) text.now result }
{
    if text.len() < LANES {
        return memchr(stop, text);
    }
    let last = text.len() - LANES;
    let mut from = 0;
    while from < last {
        if let Some(at) = stop_among(text, from, stop) {
            return Some(at);
        }
        from += LANES;
    }
    stop_among(text, last, stop)
}

/// The cut before the first stop and what stands behind it, or `None` where no stop is left.
fn first_cut(text: &[u8], stop: u8) -> Option<(&[u8], &[u8])>
    ensures { MatchOption result (split stop text.now ≡ text.now ∷ [])
        (λ x. split stop text.now ≡ x.0.now ∷ split stop x.1.now) }
{
    match first_stop(text, stop) {
        Some(at) => Some((&text[..at], &text[at + 1..])),
        None => None,
    }
}

impl<'a> Cuts<'a> {
    /// The cuts of `text` between the octets `stop`.
    pub fn new(text: &'a [u8], stop: u8) -> Cuts<'a>
        ensures { result ≡ split stop text.now }
    {
        Cuts {
            rest: Some(text),
            stop,
        }
    }

    /// The next cut, or `None` where none is left.
    pub fn next_cut(&mut self) -> Option<&'a [u8]>
        ensures { MatchOption result ((self.old ≡ []) × (self.new ≡ [])) (λ cut. self.old ≡ cut.now ∷ self.new) }
    {
        let rest = self.rest?;
        match first_cut(rest, self.stop) {
            Some((cut, more)) => {
                self.rest = Some(more);
                Some(cut)
            }
            None => {
                self.rest = None;
                Some(rest)
            }
        }
    }

    /// The number that the next cut spells, as `number_of` of `next_cut` finds it.
    #[tactic(auto, unfolding(crate::specs::Parsing::first_word))]
    pub fn next_number(&mut self) -> Option<u64>
        ensures { Moves (λ n. n) result self.new (first_word number_of self.old) }
    {
        let rest = self.rest?;
        match number_ahead(rest, self.stop) {
            Some((number, behind)) => {
                self.rest = behind;
                Some(number)
            }
            None => number_of(self.next_cut()?),
        }
    }

    /// Returns whether no cut is left.
    pub fn is_done(&self) -> bool
        ensures { IsTrue result ↔ (self.now ≡ []) }
    {
        self.rest.is_none()
    }
}
