//! The answer to an input.

ghost use Rattle.std.specs.Prelude.{◌≡◌, IfOk, IfErr};
ghost use Rattle.pair_judgement.specs.Judgements.{judgement_line as line_of, status_of};
ghost use Rattle.attribution_desk.specs.Timeline.{IsRefusal};

use crate::error::DeskError;
use attribution::{Verdict, verdict_line};
use pair_judgement::{Judgement, judgement_line, status_of};
use std::alloc::Global;

/// The text that is written, and the status that goes with it.
#[derive(Debug, Drop)]
pub struct DeskAnswer {
    /// One line with its line feed, or a timeline.
    pub line: Vec<u8>,
    /// 0 where the verdict is `accepted`, or for a timeline, else 1.
    pub status: u8,
}

impl DeskAnswer {
    /// The answer that says this ruling; `Memory` where a growth was refused.
    pub fn new(alloc: Global, ruling: &Judgement) -> Result<DeskAnswer, DeskError>
        ensures line { IfOk result (λ answer. answer.line.items ≡ line_of ruling.now) }
        ensures status { IfOk result (λ answer. answer.status ≡ status_of ruling.now) }
        ensures refused { IfErr result (λ e. e ≡ DeskError.Memory) }
    {
        let line = judgement_line(alloc, ruling)?;
        Ok(DeskAnswer {
            line,
            status: status_of(ruling),
        })
    }

    /// The answer that says a verdict which refuses; `Memory` where a growth was refused.
    pub(crate) fn refusing(alloc: Global, verdict: &Verdict) -> Result<DeskAnswer, DeskError>
        ensures said { IfOk result (λ answer. IsRefusal verdict.now answer.line.items answer.status) }
        ensures refused { IfErr result (λ e. e ≡ DeskError.Memory) }
    {
        let line = verdict_line(alloc, verdict)?;
        Ok(DeskAnswer { line, status: 1 })
    }
}
