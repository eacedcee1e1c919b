//! Two journals as a case: ruled on and indexed once, whatever is asked over them.

ghost use Rattle.std.specs.Prelude.{IfOk, IfErr, ◌≡◌};
ghost use Rattle.journal_text.specs.Closed.{IsClosed};
ghost use Rattle.attribution_desk.specs.Case.{IsCaseOf};

use crate::error::DeskError;
use journal_lines::Journal;
use journal_merge::placing_holds;
use lead_time::Skew;
use line_index::LineIndex;
use pair_judgement::{Judgement, PairJudgement, judge_pair_by};
use std::alloc::Global;
use std::thread::Threads;

/// What questions over two journals are asked of.
#[derive(Drop)]
pub enum IndexedPair<'a> {
    /// They fit each other and the clocks: an index of their lines.
    Open(LineIndex<'a>),
    /// What stands against them, whatever is asked.
    Refused(Judgement),
}

impl<'a> IndexedPair<'a> {
    /// Rules on the primary's journal and the secondary's, and indexes their lines where nothing stands against them.
    /// `Memory` where a growth was refused.
    pub fn of(
        rt: &(impl Threads + Sync),
        alloc: Global,
        primary: &'a Journal,
        secondary: &'a Journal,
        skew: Skew,
    ) -> Result<IndexedPair<'a>, DeskError>
        requires primary_closed { IsClosed primary.now.lines }
        requires secondary_closed { IsClosed secondary.now.lines }
        ensures case { IfOk result (IsCaseOf primary.now secondary.now skew) }
        ensures refused { IfErr result (λ e. e ≡ DeskError.Memory) }
    {
        placing_holds();
        let merged = match judge_pair_by(rt, alloc, primary, secondary, skew)? {
            PairJudgement::Fit(merged) => merged,
            PairJudgement::Refused(ruling) => return Ok(IndexedPair::Refused(ruling)),
        };
        let index = LineIndex::build(rt, alloc, primary, secondary, &merged)?;
        Ok(IndexedPair::Open(index))
    }
}
