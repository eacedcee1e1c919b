//! Addresses in form 1 or 2 of RFC 4291, section 2.2.

ghost use Rattle.std.specs.Prelude.{◌≡◌};
ghost use Rattle.text_fields.specs.Parsing.{Finds};
ghost use Rattle.prefix_range.specs.Parsing.{words_of, groups_on, with_gap, groups_cut, cut, text_address};

use crate::colons::two_colons;
use crate::numeral::numeral_in;
use crate::row::Row;
use text_fields::Cuts;

/// How many groups of 16 bits an address has.
const GROUPS: usize = 8;

/// The row with the groups of a text of words between colons.
#[tactic(auto, using(crate::proofs::Runs::read_next, crate::proofs::Runs::read_all))]
fn with_words(row: Row, text: &[u8]) -> Option<Row>
    ensures { Finds (λ r. r) result (groups_on row (words_of text.now)) }
{
    if text.is_empty() {
        return Some(row);
    }
    let mut row = row;
    let mut words = Cuts::new(text, b':');
    while let Some(word) = words.next_cut() {
        row = row.with(numeral_in(16, 4, word)?)?;
    }
    Some(row)
}

/// The eight groups that begin with this row, then zeros in the place of the colons, then those of the text behind
/// them.
#[tactic(auto, unfolding(crate::specs::Parsing::with_gap))]
fn with_gap(front: Row, behind: &[u8]) -> Option<Row>
    ensures { Finds (λ r. r) result (with_gap front (words_of behind.now)) }
{
    let back = with_words(Row::none(), behind)?;
    let given = front.len() + back.len();
    if given >= GROUPS {
        return None;
    }
    with_words(front.padded(GROUPS - given)?, behind)
}

fn groups_of(text: &[u8]) -> Option<Row>
    ensures { Finds (λ r. r) result (groups_cut text.now (cut text.now)) }
{
    match two_colons(text) {
        Some(place) => {
            let front = with_words(Row::none(), &text[..place])?;
            with_gap(front, &text[place + 2..])
        }
        None => with_words(Row::none(), text),
    }
}

/// The address that a text spells.
#[tactic(auto, unfolding(crate::specs::Parsing::text_address))]
pub(crate) fn text_address(text: &[u8]) -> Option<u128>
    ensures { Finds (λ a. a) result (text_address text.now) }
{
    groups_of(text)?.whole()
}
