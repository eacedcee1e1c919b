//! What threads find of two journals, each by itself.

ghost use Rattle.std.specs.Prelude.{◌≡◌, ◌^◌, ◌<◌, IfOk, MatchOption, length};
ghost use Rattle.binding_rules.specs.declared.role.Role.TheVariants.{Primary as A, Secondary as B};
ghost use Rattle.causal_order.specs.Journals.{journals_of};
ghost use Rattle.causal_order.specs.LineOrder.{IsLeast};
ghost use Rattle.journal_merge.specs.Early.{IsFarBelowSend, NoneIsFarBelow};
ghost use Rattle.auditor.specs.Pair.{IsBroken, IsUnbroken, IsOrdered};

use attribution::Verdict;
use auditor::{AuditError, Checked, broken_rule, ordered};
use binding_rules::Role;
use causal_order::Ref;
use journal_lines::Journal;
use journal_merge::{NotedJournal, first_early_noted};
use lead_time::Skew;
use std::alloc::{AllocError, Global};
use std::thread::{Threads, join};

/// A refusal by the rules, if there is one.
pub(crate) type Broken = Result<Option<Verdict>, AuditError>;

/// The least take that is early, if there is one.
pub(crate) type Early = Result<Option<Ref>, AllocError>;

/// A journal with its lines noted.
pub(crate) type Noting<'a> = Result<NotedJournal<'a>, AllocError>;

/// What is found of two journals, each by itself.
#[derive(Drop)]
pub(crate) struct PairFindings {
    pub(crate) primary: Broken,
    pub(crate) secondary: Broken,
    pub(crate) order: Result<Checked, AuditError>,
    pub(crate) early: Early,
}

/// Which rule of its side a journal breaks, and then its lines noted, so that the notes don't stand beside the table of
/// the rules.
fn of_one(alloc: Global, side: Role, journal: &Journal) -> (Broken, Noting<'_>)
    ensures broken { IfOk result.0 (λ refusal. MatchOption refusal (IsUnbroken side journal.now)
        (IsBroken side journal.now)) }
    ensures noted { IfOk result.1 (λ noted. noted ≡ journal.now) }
{
    let broken = broken_rule(alloc, side, journal);
    (broken, NotedJournal::of(alloc, journal))
}

/// The same of each of the journals, side by side.
fn of_both<'a, T: Threads + Sync>(
    rt: &T,
    alloc: Global,
    primary: &'a Journal,
    secondary: &'a Journal,
) -> ((Broken, Noting<'a>), (Broken, Noting<'a>))
    ensures primary { IfOk result.0.0 (λ refusal. MatchOption refusal (IsUnbroken A primary.now)
        (IsBroken A primary.now)) }
    ensures secondary { IfOk result.1.0 (λ refusal. MatchOption refusal (IsUnbroken B secondary.now)
        (IsBroken B secondary.now)) }
    ensures noted_primary { IfOk result.0.1 (λ noted. noted ≡ primary.now) }
    ensures noted_secondary { IfOk result.1.1 (λ noted. noted ≡ secondary.now) }
{
    join(
        rt,
        || -> (Broken, Noting<'_>)
            ensures { IfOk result.0 (λ refusal. MatchOption refusal (IsUnbroken A primary.entry.now)
                (IsBroken A primary.entry.now)) × IfOk result.1 (λ noted. noted ≡ primary.entry.now) }
        { of_one(alloc, Role::Primary, primary) },
        || -> (Broken, Noting<'_>)
            ensures { IfOk result.0 (λ refusal. MatchOption refusal (IsUnbroken B secondary.entry.now)
                (IsBroken B secondary.entry.now)) × IfOk result.1 (λ noted. noted ≡ secondary.entry.now) }
        { of_one(alloc, Role::Secondary, secondary) },
    )
}

/// All of that: the rules and the notes of each journal by a thread, and then over the notes the other two, so that the
/// tables of the rules don't stand beside the lists of the merge.
pub(crate) fn find<T: Threads + Sync>(
    rt: &T,
    alloc: Global,
    primary: &Journal,
    secondary: &Journal,
    skew: Skew,
) -> Result<PairFindings, AllocError>
    requires few_primary { length primary.now.lines < 2 ^ 32 }
    requires few_secondary { length secondary.now.lines < 2 ^ 32 }
    ensures primary { IfOk result (λ found. IfOk found.primary
        (λ refusal. MatchOption refusal (IsUnbroken A primary.now) (IsBroken A primary.now))) }
    ensures secondary { IfOk result (λ found. IfOk found.secondary
        (λ refusal. MatchOption refusal (IsUnbroken B secondary.now) (IsBroken B secondary.now))) }
    ensures order { IfOk result (λ found. IfOk found.order (IsOrdered (journals_of primary.now secondary.now))) }
    ensures early { IfOk result (λ found. IfOk found.early (λ take. MatchOption take
        (NoneIsFarBelow (journals_of primary.now secondary.now) skew)
        (IsLeast (IsFarBelowSend (journals_of primary.now secondary.now) skew)))) }
{
    let (first, second) = of_both(rt, alloc, primary, secondary);
    let (primary_broken, primary) = first;
    let (secondary_broken, secondary) = second;
    let primary = primary?;
    let secondary = secondary?;
    Ok(PairFindings {
        primary: primary_broken,
        secondary: secondary_broken,
        order: ordered(alloc, &primary, &secondary),
        early: first_early_noted(alloc, &primary, &secondary, skew),
    })
}
