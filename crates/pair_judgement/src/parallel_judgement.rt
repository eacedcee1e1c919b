//! The ruling on two journals, of what threads found.

ghost use Rattle.std.specs.Prelude.{◌^◌, ◌<◌, IfOk, IsTrue, MatchOption, length};
ghost use Rattle.binding_rules.specs.declared.role.Role.TheVariants.{Primary as A, Secondary as B};
ghost use Rattle.causal_order.specs.Journals.{journals_of};
ghost use Rattle.auditor.specs.Pair.{IsBroken, IsUnbroken, IsOrdered, IsChecked};
ghost use Rattle.pair_judgement.specs.PairJudgements.{IsPairJudgement};

use crate::finding::{Broken, find};
use crate::judging::Judgement;
use crate::pair::{PairJudgement, judge_pair, ruled_by};
use attribution::early_by_first_send;
use auditor::{AuditError, Checked};
use journal_lines::Journal;
use lead_time::Skew;
use std::alloc::Global;
use std::thread::Threads;

/// How many lines are too many to be numbered.
const TOO_MANY: usize = 1 << 32;

fn is_short(journal: &Journal) -> bool
    ensures { IsTrue result → length journal.now.lines < 2 ^ 32 }
{
    journal.lines.as_slice().len() < TOO_MANY
}

/// What `check_pair` answers, of which rule each journal breaks and what merging them comes to.
fn checked(
    primary: &Journal,
    secondary: &Journal,
    first: Broken,
    second: Broken,
    order: Result<Checked, AuditError>,
) -> Result<Checked, AuditError>
    requires first { IfOk first (λ refusal. MatchOption refusal (IsUnbroken A primary.now) (IsBroken A primary.now)) }
    requires second { IfOk second
        (λ refusal. MatchOption refusal (IsUnbroken B secondary.now) (IsBroken B secondary.now)) }
    requires order { IfOk order (IsOrdered (journals_of primary.now secondary.now)) }
    ensures { IfOk result (IsChecked primary.now secondary.now) }
{
    if let Some(refusal) = first? {
        return Ok(Checked::Refused(refusal));
    }
    if let Some(refusal) = second? {
        return Ok(Checked::Refused(refusal));
    }
    order
}

/// Rules on the primary's journal and the secondary's as `judge_pair` does, by threads. `Memory` where a growth was
/// refused.
pub fn judge_pair_by<T: Threads + Sync>(
    rt: &T,
    alloc: Global,
    primary: &Journal,
    secondary: &Journal,
    skew: Skew,
) -> Result<PairJudgement, AuditError>
    ensures { IfOk result (IsPairJudgement primary.now secondary.now skew) }
{
    early_by_first_send();
    if !is_short(primary) || !is_short(secondary) {
        return judge_pair(alloc, primary, secondary, skew);
    }
    let found = find(rt, alloc, primary, secondary, skew)?;
    let merged = match checked(
        primary,
        secondary,
        found.primary,
        found.secondary,
        found.order,
    )? {
        Checked::Legal(merged) => merged,
        Checked::Refused(verdict) => return Ok(PairJudgement::Refused(Judgement::Verdict(verdict))),
    };
    let early = found.early?;
    Ok(ruled_by(primary, secondary, early, merged))
}
