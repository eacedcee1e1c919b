//! The text of a record.

ghost use Rattle.std.specs.Prelude.{◌≡◌, ◌++◌, Some, IfOk, IfSome};
ghost use Rattle.text_fields.specs.Parsing.{Finds, Moves, first_word};
ghost use Rattle.clock_watch.specs.Boots.{boot_of};
ghost use Rattle.clock_watch.specs.declared.record.ClockRecord.{ClockRecord as RecordValue};
ghost use Rattle.clock_watch.specs.Recording.{record_text, IsRecord};
ghost use Rattle.clock_watch.specs.Parsing.{reading_of, record_at, record_in};

use crate::boot_id::BootId;
use crate::record::ClockRecord;
use lead_time::Reading;
use std::alloc::{AllocError, Global};
use text_fields::{Cuts, number_of, push_number};

/// What stands between two words.
const SPACE: u8 = b' ';

/// What ends the line.
const LINE_FEED: u8 = b'\n';

/// The next word, the name of a boot.
#[tactic(auto, unfolding(text_fields::specs::Parsing::first_word))]
fn next_boot(words: &mut Cuts<'_>) -> Option<BootId>
    ensures { Moves (λ b. b) result words.new (first_word boot_of words.old) }
{
    BootId::of_word(words.next_cut()?)
}

#[tactic(auto, unfolding(crate::specs::Parsing::reading_of))]
fn reading_of(word: &[u8]) -> Option<Reading>
    ensures { Finds (λ r. r) result (reading_of word.now) }
{
    let number = number_of(word)?;
    if number > Reading::MAX {
        return None;
    }
    Reading::new(number).ok()
}

/// The next word, a reading of a clock.
#[tactic(auto, unfolding(text_fields::specs::Parsing::first_word))]
fn next_reading(words: &mut Cuts<'_>) -> Option<Reading>
    ensures { Moves (λ r. r) result words.new (first_word reading_of words.old) }
{
    reading_of(words.next_cut()?)
}

/// The record that all words of a line spell.
#[tactic(auto, unfolding(crate::specs::Parsing::record_at))]
fn record_at(words: &mut Cuts<'_>) -> Option<ClockRecord>
    ensures { Finds (λ r. r) result (record_at words.old) }
{
    let boot = next_boot(words)?;
    let wall = next_reading(words)?;
    let uptime = words.next_number()?;
    if !words.is_done() {
        return None;
    }
    Some(ClockRecord { boot, wall, uptime })
}

/// The record of a text's lines: of one, behind whose line feed nothing stands.
#[tactic(auto, unfolding(crate::specs::Parsing::record_in))]
fn record_in(lines: &mut Cuts<'_>) -> Option<ClockRecord>
    ensures { Finds (λ r. r) result (record_in lines.old) }
{
    let line = lines.next_cut()?;
    let end = lines.next_cut()?;
    if !end.is_empty() || !lines.is_done() {
        return None;
    }
    record_at(&mut Cuts::new(line, SPACE))
}

impl ClockRecord {
    /// The record that a text spells: the boot, the time of day in milliseconds since 1970 and the uptime in
    /// milliseconds, with a space between each two, and a line feed. `None` where it spells none.
    pub fn read(text: &[u8]) -> Option<ClockRecord>
        ensures found { IfSome result (λ r. IsRecord r × (text.now ≡ record_text r)) }
        ensures only { (r : RecordValue) → IsRecord r → text.now ≡ record_text r → result ≡ Some r }
    {
        record_in(&mut Cuts::new(text, LINE_FEED))
    }

    /// The text of the record. `AllocError` where a growth was refused.
    pub fn text(&self, alloc: Global) -> Result<Vec<u8>, AllocError>
        ensures { IfOk result (λ v. v.items ≡ record_text self.now) }
    {
        let mut text = Vec::new(alloc);
        text.extend_from_slice(self.boot.as_bytes())?;
        text.push(SPACE)?;
        push_number(&mut text, self.wall.milliseconds())?;
        text.push(SPACE)?;
        push_number(&mut text, self.uptime)?;
        text.push(LINE_FEED)?;
        Ok(text)
    }
}
