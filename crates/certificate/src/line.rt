//! The lines of a certificate.

ghost use Rattle.std.specs.Prelude.{◌≡◌, [], OnOk};
ghost use Rattle.text_fields.specs.Parsing.{Finds};
ghost use Rattle.text_fields.specs.Cuts.{split};
ghost use Rattle.certificate.specs.Lines.{holder_in, prefix_in, interval_in, piece_in, clear_in, foreign_in};
ghost use Rattle.certificate.specs.Lines.{with_piece, with_clear, with_foreign, with_line};
ghost use Rattle.certificate.specs.Parsing.{Fills};
ghost use Rattle.line_words.specs.declared.words.TheConstants.{SPACE};

use crate::draft::Draft;
use crate::fields::{LineError, chain, keyword, reference};
use crate::reasons::{reason, why};
use causal_order::{Clear, ClearList, Foreign, Piece};
use client_id::Duid;
use lead_time::Reading;
use line_words::Words;
use prefix_range::Prefix;
use std::alloc::Global;

/// The client that the line `holder DUID` names.
#[tactic(auto, unfolding(crate::specs::Lines::holder_in))]
pub fn holder(line: &[u8]) -> Option<Duid>
    ensures { Finds (λ d. d) result (holder_in (split SPACE line.now)) }
{
    let mut words = Words::new(line);
    keyword(&mut words, b"holder")?;
    let holder = words.duid()?;
    if words.is_done() { Some(holder) } else { None }
}

/// The prefix that the line `prefix PREFIX` names.
#[tactic(auto, unfolding(crate::specs::Lines::prefix_in))]
pub fn prefix(line: &[u8]) -> Option<Prefix>
    ensures { Finds (λ p. p) result (prefix_in (split SPACE line.now)) }
{
    let mut words = Words::new(line);
    keyword(&mut words, b"prefix")?;
    let prefix = words.prefix()?;
    if words.is_done() { Some(prefix) } else { None }
}

/// The moments of the line `interval FROM TO`.
#[tactic(auto, unfolding(crate::specs::Lines::interval_in))]
pub fn interval(line: &[u8]) -> Option<(Reading, Reading)>
    ensures { Finds (λ x. x) result (interval_in (split SPACE line.now)) }
{
    let mut words = Words::new(line);
    keyword(&mut words, b"interval")?;
    let from = words.reading()?;
    let to = words.reading()?;
    if words.is_done() {
        Some((from, to))
    } else {
        None
    }
}

/// The piece that the words behind `piece` spell.
#[tactic(auto, unfolding(crate::specs::Lines::piece_in))]
fn piece(alloc: Global, mut words: Words<'_>) -> Result<Piece, LineError>
    ensures { Fills (λ p. p) result (piece_in words.entry) }
{
    let grant = reference(&mut words).ok_or(LineError::Form)?;
    let from = words.reading().ok_or(LineError::Form)?;
    let to = words.reading().ok_or(LineError::Form)?;
    keyword(&mut words, b"latest").ok_or(LineError::Form)?;
    let latest = chain(alloc, &mut words)?;
    keyword(&mut words, b"earliest").ok_or(LineError::Form)?;
    let earliest = chain(alloc, &mut words)?;
    if !words.is_done() {
        return Err(LineError::Form);
    }
    Ok(Piece {
        grant,
        from,
        to,
        latest,
        earliest,
        clear: ClearList::new(alloc),
    })
}

/// The release that does not cut a piece short, as the words behind `clear` spell it.
#[tactic(auto, unfolding(crate::specs::Lines::clear_in))]
fn clear(alloc: Global, mut words: Words<'_>) -> Result<Clear, LineError>
    ensures { Fills (λ c. c) result (clear_in words.entry) }
{
    let release = reference(&mut words).ok_or(LineError::Form)?;
    let why = why(alloc, &mut words)?;
    if !words.is_done() {
        return Err(LineError::Form);
    }
    Ok(Clear { release, why })
}

/// The other client's grant that the words behind `foreign` spell.
#[tactic(auto, unfolding(crate::specs::Lines::foreign_in))]
fn foreign(alloc: Global, mut words: Words<'_>) -> Result<Foreign, LineError>
    ensures { Fills (λ f. f) result (foreign_in words.entry) }
{
    let grant = reference(&mut words).ok_or(LineError::Form)?;
    let reason = reason(alloc, &mut words)?;
    if !words.is_done() {
        return Err(LineError::Form);
    }
    Ok(Foreign { grant, reason })
}

#[tactic(auto, unfolding(crate::specs::Lines::with_piece))]
fn add_piece(alloc: Global, draft: &mut Draft, words: Words<'_>) -> Result<(), LineError>
    ensures { Fills (λ _. draft.new) result (with_piece draft.old words.entry) }
{
    if !draft.takes_pieces() {
        return Err(LineError::Form);
    }
    draft.push_piece(piece(alloc, words)?)?;
    Ok(())
}

#[tactic(auto, unfolding(crate::specs::Lines::with_clear))]
fn add_clear(alloc: Global, draft: &mut Draft, words: Words<'_>) -> Result<(), LineError>
    ensures { Fills (λ _. draft.new) result (with_clear draft.old words.entry) }
{
    if !draft.takes_pieces() {
        return Err(LineError::Form);
    }
    draft.push_clear(clear(alloc, words)?)
}

#[tactic(auto, unfolding(crate::specs::Lines::with_foreign))]
fn add_foreign(alloc: Global, draft: &mut Draft, words: Words<'_>) -> Result<(), LineError>
    ensures { Fills (λ _. draft.new) result (with_foreign draft.old words.entry) }
{
    draft.push_foreign(foreign(alloc, words)?)?;
    Ok(())
}

/// Adds what a line says to a certificate: a piece, a release behind its piece, or another client's grant.
#[tactic(auto, unfolding(crate::specs::Lines::with_words))]
pub fn add_line(alloc: Global, draft: &mut Draft, line: &[u8]) -> Result<(), LineError>
    ensures { Fills (λ _. draft.new) result (with_line draft.old (split SPACE line.now)) }
{
    let mut words = Words::new(line);
    match words.next_word().ok_or(LineError::Form)? {
        b"piece" => add_piece(alloc, draft, words),
        b"clear" => add_clear(alloc, draft, words),
        b"foreign" => add_foreign(alloc, draft, words),
        _ => Err(LineError::Form),
    }
}
