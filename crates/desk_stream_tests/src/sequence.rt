//! Lines that no text gives.

use crate::journals::DELEGATION;
use book_rules::{ReplayError, Rule, Table};
use journal_text::read;
use std::test::Fail;

#[test]
fn names_a_gap_in_the_numbers(rt: HostRuntime) -> Result<(), Fail> {
    let journal = read(rt.alloc(), DELEGATION)?;
    let lines = journal.lines.as_slice();
    assert_eq!(rt; lines.len(), 4);
    let without_first = Table::replay(rt.alloc(), journal.role, journal.head, &lines[1..]).err();
    let broken = ReplayError::Broken {
        line: 1,
        rule: Rule::Sequence,
    };
    assert_eq!(rt; without_first, Some(broken));
    Ok(())
}
