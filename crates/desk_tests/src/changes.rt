//! Accepted inputs with one part changed, and what the audit of their lines answers then.

ghost use Rattle.journal_text.specs.Closed.{IsClosed};

use crate::pairs::{Pair, index_if_merged, pair_of, plain_of};
use crate::three_texts::cut;
use attribution::{Verdict, verdict_line};
use auditor::audit;
use causal_order::Certificate;
use certificate::CertificateError;
use lead_time::{Skew, Transit};
use std::alloc::{AllocError, Global};
use std::process::Abort;
use std::test::Fail;
use std::thread::Threads;

pub const SKEW: u64 = 2000;

pub const ACCEPTED: &str = "accepted\n";

/// The first piece leaves a gap before it or behind it.
pub const GAP: &str = "refused C6 PieceGap 1\n";

/// The first piece's line holds no grant that covers it.
pub const GRANT: &str = "refused C7 PieceGrant 1\n";

/// The interval, or a piece's grant, isn't surely behind the earlier volumes.
pub const BEFORE_OPEN: &str = "refused C11 BeforeOpen\n";

/// The reason of line A3's entry does not hold.
pub const REASON: &str = "refused C10 Reason A3\n";

/// A part of an input, what is put in its place, and the answer then.
pub type Change = (&'static str, &'static str, &'static str);

/// An input, several parts of it with what is put in their places one after another, how far the clocks may be from
/// true time in milliseconds, and the answer then.
pub type Several = (
    &'static str,
    &'static [(&'static str, &'static str)],
    u64,
    &'static str,
);

/// The verdict on a certificate over the lines of a pair, whatever rules these break: by a walk over them and, where
/// their messages fit one another, by their index.
fn verdict_over(
    rt: &(impl Abort + Threads + Sync),
    alloc: Global,
    pair: &Pair,
    claim: &Certificate,
    skew: Skew,
) -> Result<Verdict, Fail>
    requires primary_closed { IsClosed pair.now.primary.lines }
    requires secondary_closed { IsClosed pair.now.secondary.lines }
{
    let verdict = audit(&plain_of(pair), claim, skew, Transit::ZERO);
    if let Some(index) = index_if_merged(rt, alloc, pair)? {
        assert_eq!(rt; audit(&index, claim, skew, Transit::ZERO), verdict);
    }
    Ok(verdict)
}

/// The verdict on an input's certificate over its journals.
fn verdict_on(
    rt: &(impl Abort + Threads + Sync),
    alloc: Global,
    input: &str,
    skew: Skew,
) -> Result<Verdict, Fail> {
    let texts = cut(input)?;
    let pair = pair_of(alloc, texts.primary, texts.secondary)?;
    match certificate::read(alloc, texts.certificate) {
        Ok(claim) => verdict_over(rt, alloc, &pair, &claim, skew),
        Err(CertificateError::Fault(fault)) => Ok(Verdict::Certificate(fault)),
        Err(CertificateError::Memory) => Err(AllocError)?,
    }
}

/// That the verdict on an input has this line, with clocks as far from true time as said, in milliseconds.
fn check_answer(
    rt: &(impl Abort + Threads + Sync),
    alloc: Global,
    input: &str,
    skew: u64,
    line: &str,
) -> Result<(), Fail> {
    let verdict = verdict_on(rt, alloc, input, Skew::new(skew)?)?;
    assert_eq!(rt; verdict_line(alloc, &verdict)?.as_slice(), line.as_bytes());
    Ok(())
}

/// The input with one part changed.
fn changed(
    rt: &impl Abort,
    alloc: Global,
    input: &str,
    old: &'static str,
    new: &'static str,
) -> Result<String, Fail> {
    let text = input.replacen(alloc, old, new, 1)?;
    assert_ne!(rt; text.as_str(), input);
    Ok(text)
}

/// That an input is accepted, and each change answered as said.
pub fn check_changes(
    rt: &(impl Abort + Threads + Sync),
    alloc: Global,
    input: &str,
    changes: &[Change],
) -> Result<(), Fail> {
    check_answer(rt, alloc, input, SKEW, ACCEPTED)?;
    for (old, new, line) in changes {
        let text = changed(rt, alloc, input, *old, *new)?;
        check_answer(rt, alloc, text.as_str(), SKEW, line)?;
    }
    Ok(())
}

/// That an input with all of these changes is answered as said.
pub fn check_several(
    rt: &(impl Abort + Threads + Sync),
    alloc: Global,
    several: &Several,
) -> Result<(), Fail> {
    let (input, parts, skew, line) = several;
    let mut text = String::from_str(alloc, *input)?;
    for (old, new) in *parts {
        text = changed(rt, alloc, text.as_str(), *old, *new)?;
    }
    check_answer(rt, alloc, text.as_str(), *skew, line)
}
