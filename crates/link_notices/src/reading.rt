//! Texts of notices, read.

ghost use Rattle.std.specs.Prelude.{◌≡◌, ◌⊎◌, ◌∷◌, IfOk, IfErr, IfSome, Ok, Err, None, Some};
ghost use Rattle.text_fields.specs.Parsing.{Finds, Moves, Gives, first_word};
ghost use Rattle.link_notices.specs.declared.error.NoticeError.{NoticeError as ErrorValue};
ghost use Rattle.link_notices.specs.declared.error.NoticeError.TheVariants.{Memory};
ghost use Rattle.link_notices.specs.declared.notice.Notice.{Notice as NoticeValue};
ghost use Rattle.link_notices.specs.Spelling.{notice_text, IsNotice};
ghost use Rattle.link_notices.specs.Refusals.{IsUnknown, IsMisspelled, fault_of};
ghost use Rattle.link_notices.specs.Parsing.{program_word, names_at, program_of, clock_of, reply_of, pool_of};
ghost use Rattle.link_notices.specs.Parsing.{pool_at, pools_of, spans_at, settings_of, known, notice_at};
ghost use Rattle.link_notices.specs.Parsing.{notice_of};

use crate::error::NoticeError;
use crate::notice::{MOST_POOLS, Notice, PairSettings, ProgramWord, UnitPool, is_program_word};
use crate::words::{SPACE, next_number, next_reading, number_within};
use lead_time::{Skew, Transit};
use prefix_range::read_canonical;
use std::alloc::{AllocError, Global};
use text_fields::{Cuts, Listed};

#[tactic(auto, unfolding(crate::specs::Parsing::program_word))]
fn program_word(word: &[u8]) -> Option<&[u8]>
    ensures { Finds (λ w. w.now) result (program_word word.now) }
{
    if is_program_word(word) {
        Some(word)
    } else {
        None
    }
}

#[tactic(auto, unfolding(text_fields::specs::Parsing::first_word))]
fn next_program_word<'a>(words: &mut Cuts<'a>) -> Option<&'a [u8]>
    ensures { Moves (λ w. w.now) result words.new (first_word program_word words.old) }
{
    program_word(words.next_cut()?)
}

/// A program's name and version.
#[tactic(auto, unfolding(crate::specs::Parsing::names_at))]
fn names<'a>(words: &mut Cuts<'a>) -> Option<(&'a [u8], &'a [u8])>
    ensures { Moves (λ n. (n.0.now, n.1.now)) result words.new (names_at words.old) }
{
    let name = next_program_word(words)?;
    let version = next_program_word(words)?;
    Some((name, version))
}

#[tactic(auto, unfolding(crate::specs::Parsing::program_of))]
fn program(alloc: Global, words: &mut Cuts<'_>) -> Result<Option<Notice>, AllocError>
    ensures { IfOk result (λ found. Finds (λ n. n) found (program_of words.old)) }
{
    let Some((name, version)) = names(words) else {
        return Ok(None);
    };
    if !words.is_done() {
        return Ok(None);
    }
    let name = ProgramWord::copied(alloc, name)?;
    let version = ProgramWord::copied(alloc, version)?;
    Ok(Some(Notice::Program { name, version }))
}

#[tactic(auto, unfolding(crate::specs::Parsing::clock_of))]
fn clock(words: &mut Cuts<'_>) -> Option<Notice>
    ensures { Finds (λ n. n) result (clock_of words.old) }
{
    let number = next_number(words, u64::MAX)?;
    let asked = next_reading(words)?;
    if !words.is_done() {
        return None;
    }
    Some(Notice::Clock { number, asked })
}

#[tactic(auto, unfolding(crate::specs::Parsing::reply_of))]
fn clock_reply(words: &mut Cuts<'_>) -> Option<Notice>
    ensures { Finds (λ n. n) result (reply_of words.old) }
{
    let number = next_number(words, u64::MAX)?;
    let asked = next_reading(words)?;
    let answered = next_reading(words)?;
    if !words.is_done() {
        return None;
    }
    Some(Notice::ClockReply {
        number,
        asked,
        answered,
    })
}

#[tactic(auto, unfolding(crate::specs::Parsing::pool_of))]
fn pool_of(prefix: &[u8], unit: &[u8]) -> Option<UnitPool>
    ensures { Finds (λ p. p) result (pool_of prefix.now unit.now) }
{
    let prefix = read_canonical(prefix).ok()?;
    let unit_length = number_within(unit, 128)? as u8;
    if prefix.len() > unit_length {
        return None;
    }
    Some(UnitPool {
        prefix,
        unit_length,
    })
}

#[tactic(auto, unfolding(crate::specs::Parsing::pool_at))]
fn next_pool(words: &mut Cuts<'_>) -> Option<UnitPool>
    ensures { Moves (λ p. p) result words.new (pool_at words.old) }
{
    let prefix = words.next_cut()?;
    let unit = words.next_cut()?;
    pool_of(prefix, unit)
}

/// The pools that all words left spell.
#[tactic(auto, using(crate::proofs::PoolLaws::pools_left))]
fn pools(alloc: Global, words: &mut Cuts<'_>) -> Result<Option<Vec<UnitPool>>, AllocError>
    ensures { IfOk result (λ found. Finds (λ v. v.items) found (pools_of words.old)) }
{
    let mut pools = Vec::new(alloc);
    while !words.is_done() {
        let Some(pool) = next_pool(words) else {
            return Ok(None);
        };
        pools.push(pool)?;
    }
    Ok(Some(pools))
}

/// The settings in front of the pools.
#[derive(Clone, Copy)]
struct Spans {
    skew: Skew,
    mclt: u32,
    life: u32,
    transit: Transit,
}

#[tactic(auto, unfolding(crate::specs::Parsing::spans_at))]
fn next_spans(words: &mut Cuts<'_>) -> Option<Spans>
    ensures { Moves (λ s. s) result words.new (spans_at words.old) }
{
    let skew = Skew::new(next_number(words, Skew::MAX)?).ok()?;
    let mclt = next_number(words, u64::from(u32::MAX))? as u32;
    let life = next_number(words, u64::from(u32::MAX))? as u32;
    let transit = Transit::new(next_number(words, Transit::MAX)?).ok()?;
    Some(Spans {
        skew,
        mclt,
        life,
        transit,
    })
}

#[tactic(auto, unfolding(crate::specs::Parsing::settings_of))]
fn settings(alloc: Global, words: &mut Cuts<'_>) -> Result<Option<Notice>, AllocError>
    ensures { IfOk result (λ found. Finds (λ n. n) found (settings_of words.old)) }
{
    let Some(spans) = next_spans(words) else {
        return Ok(None);
    };
    let Some(pools) = pools(alloc, words)? else {
        return Ok(None);
    };
    if pools.is_empty() || pools.len() > MOST_POOLS {
        return Ok(None);
    }
    Ok(Some(Notice::Settings(PairSettings {
        skew: spans.skew,
        mclt: spans.mclt,
        life: spans.life,
        transit: spans.transit,
        pools: Listed::new(pools),
    })))
}

/// The notice that was found behind a known name, or this fault.
fn known(found: Option<Notice>, fault: NoticeError) -> Result<Option<Notice>, NoticeError>
    ensures { result ≡ known fault found }
{
    match found {
        Some(notice) => Ok(Some(notice)),
        None => Err(fault),
    }
}

/// The notice behind this first word.
#[tactic(auto, unfolding(crate::specs::Parsing::notice_at))]
fn notice_behind(
    alloc: Global,
    name: &[u8],
    words: &mut Cuts<'_>,
) -> Result<Option<Notice>, NoticeError>
    ensures { Gives fault_of (λ n. n) result (notice_at (name.now ∷ words.old)) }
{
    if name == b"program".as_slice() {
        known(program(alloc, words)?, NoticeError::Program)
    } else if name == b"settings".as_slice() {
        known(settings(alloc, words)?, NoticeError::Settings)
    } else if name == b"clock".as_slice() {
        known(clock(words), NoticeError::Clock)
    } else if name == b"clock-reply".as_slice() {
        known(clock_reply(words), NoticeError::ClockReply)
    } else {
        Ok(None)
    }
}

#[tactic(auto, unfolding(crate::specs::Parsing::notice_of, crate::specs::Parsing::notice_at))]
fn notice(alloc: Global, text: &[u8]) -> Result<Option<Notice>, NoticeError>
    ensures { Gives fault_of (λ n. n) result (notice_of text.now) }
{
    let mut words = Cuts::new(text, SPACE);
    let Some(name) = words.next_cut() else {
        return Ok(None);
    };
    notice_behind(alloc, name, &mut words)
}

/// The notice that a text spells, or `None` where its first word isn't known: then it is passed over. A known first
/// word with other words than a notice has behind it is refused with the error of that word.
pub fn read_notice(alloc: Global, text: &[u8]) -> Result<Option<Notice>, NoticeError>
    // What is read is spelled so.
    ensures found { IfOk result (λ o. IfSome o (λ n. (text.now ≡ notice_text n) × IsNotice n)) }
    // What is spelled so is read, unless a growth is refused.
    ensures only { (n : NoticeValue) → IsNotice n → text.now ≡ notice_text n
        → Gives fault_of (λ r. r) result (Ok (Some n)) }
    ensures passed { IfOk result (λ o. o ≡ None → IsUnknown text.now) }
    ensures unknown { IsUnknown text.now → Gives fault_of (λ r. r) result (Ok None) }
    ensures refused { IfErr result (λ e. (e ≡ Memory) ⊎ IsMisspelled text.now e) }
    ensures misspelled { (e : ErrorValue) → IsMisspelled text.now e → Gives fault_of (λ r. r) result (Err e) }
    ensures exact { Gives fault_of (λ r. r) result (notice_of text.now) }
{
    notice(alloc, text)
}
