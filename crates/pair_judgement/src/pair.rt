//! Whether two journals fit each other and the clocks.

ghost use Rattle.std.specs.Prelude.{ℕ, ◌^◌, ◌<◌, IfOk, length};
ghost use Rattle.causal_order.specs.Journals.{journals_of};
ghost use Rattle.journal_merge.specs.Placing.{Placed};
ghost use Rattle.auditor.specs.Pair.{IsPairLegal};
ghost use Rattle.pair_judgement.specs.PairJudgements.{IsFirstEarly, IsPairJudgement};

use crate::carrying::first_carrying;
use crate::judging::Judgement;
use attribution::early_by_first_send;
use auditor::{AuditError, Checked, check_pair, unbroken_is_short};
use causal_order::Ref;
use journal_lines::Journal;
use journal_merge::{Merged, first_early};
use lead_time::Skew;
use std::alloc::Global;

/// The finding on two journals, whatever is claimed over them.
#[derive(Debug, Drop)]
pub enum PairJudgement {
    /// Both keep the rules, some run with clocks within the skew leaves them, and no lease that they carry lasts longer
    /// than a legal volume leaves any: their lines in one order.
    Fit(Merged),
    /// The first refusal that applies: L1 of A, L1 of B, X1, X2, X3, K1, K4.
    Refused(Judgement),
}

/// Rules on two journals that keep the rules, by the least take that is early: K1, then K4; else their lines in one
/// order, which are these.
pub(crate) fn ruled_by(
    primary: &Journal,
    secondary: &Journal,
    early: Option<Ref>,
    merged: Merged,
) -> PairJudgement
    requires few_primary { length primary.now.lines < 2 ^ 32 }
    requires few_secondary { length secondary.now.lines < 2 ^ 32 }
    ensures { (skew : ℕ) → IsPairLegal primary.now secondary.now
        → Placed (journals_of primary.now secondary.now) merged.refs
        → IsFirstEarly (journals_of primary.now secondary.now) skew early
        → IsPairJudgement primary.now secondary.now skew result }
{
    if let Some(take) = early {
        return PairJudgement::Refused(Judgement::Clocks(take));
    }
    match first_carrying(primary, secondary) {
        None => PairJudgement::Fit(merged),
        Some(line) => PairJudgement::Refused(Judgement::Carried(line)),
    }
}

/// Rules on the primary's journal and the secondary's: what `check_pair` refuses, then the least take that is early at
/// this skew, then the first line that carries what no legal volume leaves; else their lines in one order. `Memory`
/// where a growth was refused.
pub fn judge_pair(
    alloc: Global,
    primary: &Journal,
    secondary: &Journal,
    skew: Skew,
) -> Result<PairJudgement, AuditError>
    ensures { IfOk result (IsPairJudgement primary.now secondary.now skew) }
{
    unbroken_is_short();
    early_by_first_send();
    let merged = match check_pair(alloc, primary, secondary)? {
        Checked::Legal(merged) => merged,
        Checked::Refused(verdict) => return Ok(PairJudgement::Refused(Judgement::Verdict(verdict))),
    };
    let early = first_early(alloc, primary, secondary, skew)?;
    Ok(ruled_by(primary, secondary, early, merged))
}
