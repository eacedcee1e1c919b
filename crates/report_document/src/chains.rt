//! Chains of lines, told from their first to their last.

ghost use Rattle.std.specs.Prelude.{◌≡◌, ◌++◌, ◌<◌, length, map, OnOk};
ghost use Rattle.report_document.specs.Telling.{values_of, chain_told, AddsBlocks};
ghost use Rattle.report_document.specs.declared.word.ReportWord.TheVariants.{Line as LineWord};

use crate::block::{Block, BlockKind, push_words};
use crate::word::ReportWord;
use causal_order::{Chain, Ref};
use std::alloc::AllocError;

/// What stands before a line of a chain.
fn step(index: usize) -> &'static str {
    if index == 0 { "" } else { ", then " }
}

/// How a line of a chain follows the one before it: later in its journal, or as the take of what that one sent.
fn link(chain: &[Ref], index: usize) -> &'static str
    requires { index < length chain.now }
{
    if index == 0 {
        ""
    } else if chain[index - 1].side == chain[index].side {
        " of the same journal"
    } else {
        " (which took what that line sent)"
    }
}

/// Appends the lines of a chain, in order.
#[tactic(auto, using(crate::proofs::Links::links_more))]
fn push_links(words: &mut Vec<ReportWord>, chain: &[Ref]) -> Result<(), AllocError>
    ensures { OnOk result (values_of words.new.items ≡ values_of words.old.items ++ map LineWord chain.now) }
{
    for index in 0..chain.len() {
        words.extend_from_slice(&[
            ReportWord::Prose(step(index)),
            ReportWord::Line(chain[index]),
            ReportWord::Prose(link(chain, index)),
        ])?;
    }
    Ok(())
}

/// Appends the order of a chain's lines, where it has two or more.
pub(crate) fn push_chain(out: &mut Vec<Block>, chain: &Chain) -> Result<(), AllocError>
    ensures { OnOk result (AddsBlocks (chain_told chain.now) out.old.items out.new.items) }
{
    let chain = chain.as_slice();
    if chain.len() < 2 {
        return Ok(());
    }
    let mut words = Vec::new(*out.allocator());
    words.extend_from_slice(&[ReportWord::Prose("These were written in this order: ")])?;
    push_links(&mut words, chain)?;
    words.extend_from_slice(&[ReportWord::Prose(".")])?;
    push_words(out, BlockKind::Item, words)
}
