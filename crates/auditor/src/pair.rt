//! Whether two journals keep the rules and can both be true.

ghost use Rattle.std.specs.Prelude.{◌^◌, ◌<◌, IfOk, MatchOption, length};
ghost use Rattle.causal_order.specs.Journals.{journals_of};
ghost use Rattle.auditor.specs.Pair.{IsBroken, IsUnbroken, IsOrdered, IsChecked};

use crate::error::AuditError;
use attribution::Verdict;
use binding_rules::Role;
use book_rules::{ReplayError, Table};
use journal_lines::Journal;
use journal_merge::{MergeError, Merged, NotedJournal, merge_noted};
use std::alloc::Global;

/// The finding on two journals, whatever is claimed over them.
#[derive(Debug, Drop)]
pub enum Checked {
    /// Both keep the rules and could both be true: their lines in one order.
    Legal(Merged),
    /// The first refusal that applies: L1 of A, L1 of B, X1, X2, X3.
    Refused(Verdict),
}

/// The refusal of a journal whose lines break a rule of its side, or `None` where they keep them all. `Memory` where a
/// growth was refused.
pub fn broken_rule(
    alloc: Global,
    side: Role,
    journal: &Journal,
) -> Result<Option<Verdict>, AuditError>
    ensures { IfOk result (λ refusal. MatchOption refusal (IsUnbroken side journal.now) (IsBroken side journal.now)) }
{
    match Table::replay(alloc, side, journal.head, journal.lines.as_slice()) {
        Ok(_table) => Ok(None),
        Err(ReplayError::Broken { line, rule }) => Ok(Some(Verdict::Rule(side, line, rule))),
        Err(ReplayError::Memory) => Err(AuditError::Memory),
    }
}

/// Both journals' lines in one order, or what refuses their messages; no rule is asked. `Memory` where a growth was
/// refused.
pub fn ordered(
    alloc: Global,
    primary: &NotedJournal<'_>,
    secondary: &NotedJournal<'_>,
) -> Result<Checked, AuditError>
    requires few_primary { length primary.now.lines < 2 ^ 32 }
    requires few_secondary { length secondary.now.lines < 2 ^ 32 }
    ensures { IfOk result (IsOrdered (journals_of primary.now secondary.now)) }
{
    match merge_noted(alloc, primary, secondary) {
        Ok(merged) => Ok(Checked::Legal(merged)),
        Err(MergeError::Unsent { take }) => Ok(Checked::Refused(Verdict::Unsent(take))),
        Err(MergeError::Differs { take }) => Ok(Checked::Refused(Verdict::Differs(take))),
        Err(MergeError::Circular) => Ok(Checked::Refused(Verdict::Circular)),
        Err(MergeError::Memory) => Err(AuditError::Memory),
    }
}

/// Checks the primary's journal and the secondary's, whatever is claimed over them: the first of the rules that A's
/// breaks and those that B's does, then of a take that was never sent, one that was sent otherwise and a circle of
/// messages; else their lines in one order. `Memory` where a growth was refused.
#[tactic(auto, using(crate::proofs::Pairs::few_lines))]
pub fn check_pair(
    alloc: Global,
    primary: &Journal,
    secondary: &Journal,
) -> Result<Checked, AuditError>
    ensures { IfOk result (IsChecked primary.now secondary.now) }
{
    if let Some(refusal) = broken_rule(alloc, Role::Primary, primary)? {
        return Ok(Checked::Refused(refusal));
    }
    if let Some(refusal) = broken_rule(alloc, Role::Secondary, secondary)? {
        return Ok(Checked::Refused(refusal));
    }
    let primary = NotedJournal::of(alloc, primary)?;
    let secondary = NotedJournal::of(alloc, secondary)?;
    ordered(alloc, &primary, &secondary)
}
