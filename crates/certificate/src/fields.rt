//! The fields of a certificate, by the words of its lines.

ghost use Rattle.std.specs.Prelude.{◌≡◌};
ghost use Rattle.text_fields.specs.Parsing.{Finds, Moves};
ghost use Rattle.certificate.specs.Lines.{keyword_at, side_of, ref_of, ref_at, chain_of, chain_at};
ghost use Rattle.certificate.specs.Parsing.{Fills, Takes, error_at};
ghost use Rattle.certificate.specs.declared.fields.LineError.TheVariants.{Memory};

use crate::error::CertificateError;
use crate::stops::LINK;
use binding_rules::Role;
use causal_order::{CertificateFault, Chain, Ref};
use line_words::Words;
use std::alloc::{AllocError, AllocFailed, Global};
use text_fields::{Cuts, number_of};

/// Why a line gives nothing.
#[derive(Clone, Copy, Debug, PartialEq, Eq)]
pub enum LineError {
    /// Its words have no form of a line that may stand there.
    Form,
    /// A growth was refused.
    Memory,
}

impl LineError {
    /// The error of the line with this number.
    pub fn at(self, number: u32) -> CertificateError
        ensures { result ≡ error_at number self }
    {
        match self {
            LineError::Form => CertificateError::Fault(CertificateFault::Form { line: number }),
            LineError::Memory => CertificateError::Memory,
        }
    }
}

impl From<AllocError> for LineError {
    ghost from_gives = { λ _ e. e ≡ Memory };

    fn from(_e: AllocError) -> LineError {
        LineError::Memory
    }
}

impl<T: Drop> From<AllocFailed<T>> for LineError {
    ghost from_gives = { λ _ e. e ≡ Memory };

    fn from(_e: AllocFailed<T>) -> LineError {
        LineError::Memory
    }
}

/// The greatest number of a line in a journal.
const MAX_LINE_NUMBER: u64 = 1_048_576;

/// The most references of a chain.
const MAX_CHAIN_LEN: usize = 1_024;

/// Goes past the word `text`, or answers `None` where another stands there.
#[tactic(auto, unfolding(crate::specs::Lines::keyword, text_fields::specs::Parsing::first_word))]
pub fn keyword(words: &mut Words<'_>, text: &[u8]) -> Option<()>
    ensures { Moves (λ _. text.now) result words.new (keyword_at text.now words.old) }
{
    if words.next_word()? == text {
        Some(())
    } else {
        None
    }
}

/// The side with this letter.
#[tactic(auto, unfolding(crate::specs::Lines::side_of))]
fn side_of(letter: u8) -> Option<Role>
    ensures { Finds (λ r. r) result (side_of letter) }
{
    match letter {
        b'A' => Some(Role::Primary),
        b'B' => Some(Role::Secondary),
        _ => None,
    }
}

/// The reference that a word spells.
#[tactic(auto, unfolding(crate::specs::Lines::ref_of, line_words::specs::Words::number_within))]
fn ref_of(word: &[u8]) -> Option<Ref>
    ensures { Finds (λ r. r) result (ref_of word.now) }
{
    let (letter, digits) = word.split_first()?;
    let side = side_of(*letter)?;
    let number = number_of(digits)?;
    if number == 0 || number > MAX_LINE_NUMBER {
        return None;
    }
    Some(Ref {
        side,
        number: number as u32,
    })
}

/// The next word as a reference to a journal's line.
#[tactic(auto, unfolding(text_fields::specs::Parsing::first_word))]
pub fn reference(words: &mut Words<'_>) -> Option<Ref>
    ensures { Moves (λ r. r) result words.new (ref_at words.old) }
{
    ref_of(words.next_word()?)
}

/// The references that a word spells, in order.
#[tactic(auto, using(crate::proofs::Chains::next_word))]
fn chain_of(alloc: Global, word: &[u8]) -> Result<Chain, LineError>
    ensures { Fills (λ c. c) result (chain_of word.now) }
{
    let mut words = Cuts::new(word, LINK);
    let mut refs = Vec::new(alloc);
    while let Some(word) = words.next_cut() {
        if refs.len() == MAX_CHAIN_LEN {
            return Err(LineError::Form);
        }
        refs.push(ref_of(word).ok_or(LineError::Form)?)?;
    }
    Ok(Chain::new(refs))
}

/// The next word as a chain.
#[tactic(auto, unfolding(text_fields::specs::Parsing::first_word))]
pub fn chain(alloc: Global, words: &mut Words<'_>) -> Result<Chain, LineError>
    ensures { Takes (λ c. c) result words.new (chain_at words.old) }
{
    chain_of(alloc, words.next_word().ok_or(LineError::Form)?)
}
