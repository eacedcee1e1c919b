//! Judging a certificate where it is known what other clients had of its prefix.
//!
//! Of many certificates of one holder and one prefix each asks whether it names what other clients had of that. The
//! lines that tell of it are found once, by a walk over all that concern the prefix, and serve each of them.

ghost use Rattle.std.specs.Prelude.{◌≡◌, IfOk, MatchOption, Option, option_map};
ghost use Rattle.attribution.specs.Acceptance.{IsCovered, IsTrueInEveryRun};
ghost use Rattle.attribution.specs.FirstRefusal.{IsMet, IsUncovered, IsVerdict, Refuses};
ghost use Rattle.causal_order.specs.LineOrder.{IsLeast};
ghost use Rattle.book_rules.specs.NextHead.{AreLegal};
ghost use Rattle.auditor.specs.Known.{is_others, tells_others, AreOthers, IsFewOthers};

use crate::auditing::refusal_by;
use crate::foreign::is_uncovered;
use crate::grants::delegation_at;
use crate::order::comes_first;
use crate::source::LineSource;
use attribution::{CONDITIONS, Condition, Delegation, Verdict};
use causal_order::{Certificate, Lines, Ref};
use client_id::Duid;
use lead_time::{Skew, Transit};
use prefix_range::Prefix;
use std::alloc::{AllocError, Global};

/// Returns whether the delegation is another client's than the holder's, of a prefix that overlaps this one.
fn is_others(delegation: &Delegation, holder: &Duid, prefix: &Prefix) -> bool
    ensures { result ≡ is_others holder.now prefix.now (Some delegation.now) }
{
    delegation.client != *holder && delegation.prefix.overlaps(prefix)
}

/// Returns whether the line tells of such a delegation.
fn tells_others<L: Lines>(lines: &L, holder: &Duid, prefix: &Prefix, at: Ref) -> bool
    ensures { result ≡ tells_others (L.journals lines.now) holder.now prefix.now at }
{
    match delegation_at(lines, at) {
        Some(delegation) => is_others(&delegation, holder, prefix),
        None => false,
    }
}

/// The lines that tell of a delegation of a prefix that overlaps this one to another client than the holder, or `None`
/// where there are more than so many. `AllocError` where a growth was refused.
pub fn others_of<S: LineSource>(
    alloc: Global,
    source: &S,
    holder: &Duid,
    prefix: &Prefix,
    most: usize,
) -> Result<Option<Vec<Ref>>, AllocError>
    ensures { IfOk result (λ found.
        IsFewOthers (S.journals source.now) holder.now prefix.now most (option_map (λ v. v.items) found)) }
{
    let mut others = Vec::new(alloc);
    let mut walk = source.overlaps(prefix);
    while let Some(at) = source.next_overlap(prefix, &mut walk) {
        if tells_others(source, holder, prefix, at) {
            if others.len() >= most {
                return Ok(None);
            }
            others.push(at)?;
        }
    }
    Ok(Some(others))
}

/// The least of the lines that tell of another client's delegation of a prefix that overlaps the one asked of which no
/// foreign entry names.
fn least_uncovered_of<L: Lines>(lines: &L, others: &[Ref], certificate: &Certificate) -> Option<Ref>
    requires { AreOthers (L.journals lines.now) certificate.now.holder certificate.now.prefix others.now }
    ensures { MatchOption result (IsCovered (L.journals lines.now) certificate.now)
        (IsLeast (IsUncovered (L.journals lines.now) certificate.now)) }
{
    let mut least: Option<Ref> = None;
    for at in others {
        if comes_first(*at, least) && is_uncovered(lines, certificate, *at) {
            least = Some(*at);
        }
    }
    least
}

/// The refusal of a condition, or `None` where it is met.
fn refusal_knowing<S: LineSource>(
    source: &S,
    others: &[Ref],
    certificate: &Certificate,
    condition: Condition,
    skew: Skew,
    transit: Transit,
) -> Option<Verdict>
    requires { AreOthers (S.journals source.now) certificate.now.holder certificate.now.prefix others.now }
    ensures { MatchOption result (IsMet (S.journals source.now) skew transit certificate.now condition)
        (Refuses (S.journals source.now) skew transit certificate.now condition) }
{
    match condition {
        Condition::Covered => {
            let uncovered = least_uncovered_of(source, others, certificate)?;
            Some(Verdict::Uncovered(uncovered))
        }
        _ => refusal_by(source, certificate, condition, skew, transit),
    }
}

/// The refusal of the first condition that isn't met, or that the certificate is accepted.
fn judgment_knowing<S: LineSource>(
    source: &S,
    others: &[Ref],
    certificate: &Certificate,
    skew: Skew,
    transit: Transit,
) -> Verdict
    requires { AreOthers (S.journals source.now) certificate.now.holder certificate.now.prefix others.now }
    ensures { IsVerdict (S.journals source.now) skew transit certificate.now result }
{
    for condition in &CONDITIONS {
        if let Some(refusal) = refusal_knowing(
            source,
            others,
            certificate,
            *condition,
            skew,
            transit,
        ) {
            return refusal;
        }
    }
    Verdict::Accepted
}

/// As `audit`, where these are what `others_of` gives of the certificate's holder and prefix: so the lines that concern
/// the prefix aren't gone through again.
pub fn audit_knowing<S: LineSource>(
    source: &S,
    others: &[Ref],
    certificate: &Certificate,
    skew: Skew,
    transit: Transit,
) -> Verdict
    requires { AreOthers (S.journals source.now) certificate.now.holder certificate.now.prefix others.now }
    ensures verdict { IsVerdict (S.journals source.now) skew transit certificate.now result }
    ensures headline { result ≡ Verdict.Accepted
        → IsTrueInEveryRun AreLegal (S.journals source.now) skew transit certificate.now }
{
    judgment_knowing(source, others, certificate, skew, transit)
}
