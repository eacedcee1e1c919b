//! Pairs of closed journals from their texts, and what gives their lines.

ghost use Rattle.std.specs.Prelude.{IfOk};
ghost use Rattle.journal_text.specs.Closed.{IsClosed};

use auditor::PlainSource;
use journal_merge::{MergeError, merge};
use journal_text::{Journal, read, written_is_closed};
use line_index::LineIndex;
use std::alloc::{AllocError, Global};
use std::test::Fail;
use std::thread::Threads;

/// The primary's journal and the secondary's.
#[derive(Drop)]
pub struct Pair {
    pub primary: Journal,
    pub secondary: Journal,
}

/// The journal of a text.
fn journal_of(alloc: Global, text: &[u8]) -> Result<Journal, Fail>
    ensures { IfOk result (λ journal. IsClosed journal.lines) }
{
    written_is_closed();
    let journal = read(alloc, text)?;
    Ok(journal)
}

/// The journals of two texts.
pub fn pair_of(alloc: Global, primary: &[u8], secondary: &[u8]) -> Result<Pair, Fail>
    ensures primary_closed { IfOk result (λ pair. IsClosed pair.primary.lines) }
    ensures secondary_closed { IfOk result (λ pair. IsClosed pair.secondary.lines) }
{
    let primary = journal_of(alloc, primary)?;
    let secondary = journal_of(alloc, secondary)?;
    Ok(Pair { primary, secondary })
}

/// What walks over the journals' lines.
pub fn plain_of(pair: &Pair) -> PlainSource<'_>
    requires primary_closed { IsClosed pair.now.primary.lines }
    requires secondary_closed { IsClosed pair.now.secondary.lines }
{
    PlainSource::new(&pair.primary, &pair.secondary)
}

/// The index of the journals' lines; none where their messages don't fit one another.
pub fn index_if_merged<'a>(
    rt: &(impl Threads + Sync),
    alloc: Global,
    pair: &'a Pair,
) -> Result<Option<LineIndex<'a>>, Fail>
    requires primary_closed { IsClosed pair.now.primary.lines }
    requires secondary_closed { IsClosed pair.now.secondary.lines }
{
    match merge(alloc, &pair.primary, &pair.secondary) {
        Ok(merged) => {
            let index = LineIndex::build(rt, alloc, &pair.primary, &pair.secondary, &merged)?;
            Ok(Some(index))
        }
        Err(MergeError::Memory) => Err(AllocError)?,
        Err(_) => Ok(None),
    }
}

/// The index of the journals' lines.
pub fn index_of<'a>(
    rt: &(impl Threads + Sync),
    alloc: Global,
    pair: &'a Pair,
) -> Result<LineIndex<'a>, Fail>
    requires primary_closed { IsClosed pair.now.primary.lines }
    requires secondary_closed { IsClosed pair.now.secondary.lines }
{
    let merged = merge(alloc, &pair.primary, &pair.secondary)?;
    let index = LineIndex::build(rt, alloc, &pair.primary, &pair.secondary, &merged)?;
    Ok(index)
}
