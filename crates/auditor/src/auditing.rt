//! The verdict on a certificate.

ghost use Rattle.std.specs.Prelude.{◌≡◌, ◌↔◌, IsTrue, MatchOption};
ghost use Rattle.attribution.specs.Acceptance.{IsTrueInEveryRun, Reaches};
ghost use Rattle.attribution.specs.FirstRefusal.{IsMet, Refuses, IsVerdict};
ghost use Rattle.attribution.specs.Snapshot.{snapshots, IsTrueInRunsThatBeginSo};
ghost use Rattle.causal_order.specs.Journals.{Journals};
ghost use Rattle.book_rules.specs.NextHead.{AreLegal};

use crate::foreign::{first_unreasoned, least_uncovered};
use crate::opened::is_past_open;
use crate::pieces::{first_gap, first_ungranted};
use crate::releases::first_cut_short;
use crate::source::LineSource;
use attribution::{CONDITIONS, Condition, Verdict};
use binding_rules::Role;
use causal_order::Certificate;
use lead_time::{Skew, Transit};

/// Returns whether the side's journal was closed late enough to show all of the interval.
#[tactic(auto, using(crate::proofs::Closings::reaches_by_reading))]
fn reaches<S: LineSource>(source: &S, certificate: &Certificate, side: Role, skew: Skew) -> bool
    ensures { IsTrue result ↔ Reaches (S.journals source.now) skew certificate.now side }
{
    certificate.to.milliseconds() + skew.milliseconds() <= source.close_reading(side).milliseconds()
}

/// The refusal, where the condition isn't met.
fn unless(is_met: bool, refusal: Verdict) -> Option<Verdict>
    ensures { MatchOption result (IsTrue is_met) (λ v. (v ≡ refusal) × (IsTrue is_met → ⊥)) }
{
    if is_met { None } else { Some(refusal) }
}

/// The refusal of a condition, or `None` where it is met.
pub fn refusal_by<S: LineSource>(
    source: &S,
    certificate: &Certificate,
    condition: Condition,
    skew: Skew,
    transit: Transit,
) -> Option<Verdict>
    ensures { MatchOption result (IsMet (S.journals source.now) skew transit certificate.now condition)
        (Refuses (S.journals source.now) skew transit certificate.now condition) }
{
    match condition {
        Condition::Moment => unless(certificate.from < certificate.to, Verdict::EmptyInterval),
        Condition::Shown(side) => unless(
            reaches(source, certificate, side, skew),
            Verdict::PastEnd(side),
        ),
        Condition::Tiled => Some(Verdict::PieceGap(first_gap(certificate)?)),
        Condition::Granted => {
            let number = first_ungranted(source, certificate, skew, transit)?;
            Some(Verdict::PieceGrant(number))
        }
        Condition::Opened => unless(
            is_past_open(source, certificate, skew, transit),
            Verdict::BeforeOpen,
        ),
        Condition::Discharged => {
            let (number, release) = first_cut_short(source, certificate, skew)?;
            Some(Verdict::PieceRelease(number, release))
        }
        Condition::Covered => Some(Verdict::Uncovered(least_uncovered(source, certificate)?)),
        Condition::Reasoned => {
            let grant = first_unreasoned(source, certificate, skew, transit)?;
            Some(Verdict::Reason(grant))
        }
    }
}

/// The refusal of the first condition that isn't met, or that the certificate is accepted.
fn judgment<S: LineSource>(
    source: &S,
    certificate: &Certificate,
    skew: Skew,
    transit: Transit,
) -> Verdict
    ensures { IsVerdict (S.journals source.now) skew transit certificate.now result }
{
    for condition in &CONDITIONS {
        if let Some(refusal) = refusal_by(source, certificate, *condition, skew, transit) {
            return refusal;
        }
    }
    Verdict::Accepted
}

/// Judges the certificate: it is accepted, or refused by the first condition that isn't met. The skew is the most by
/// which a reading of either journal and true time differ, the transit the most by which an answer reaches its client
/// after its grant.
pub fn audit<S: LineSource>(
    source: &S,
    certificate: &Certificate,
    skew: Skew,
    transit: Transit,
) -> Verdict
    ensures verdict { IsVerdict (S.journals source.now) skew transit certificate.now result }
    // What is accepted is true in every run of the pair that leaves the source's journals, whatever volumes came
    // before, with each clock within the skew of true time and each answer within the transit.
    ensures headline { result ≡ Verdict.Accepted
        → IsTrueInEveryRun AreLegal (S.journals source.now) skew transit certificate.now }
    // Where they are snapshots of what was read of two journals that may still be written, it's true in every run whose
    // volumes begin with that, whatever follows.
    ensures snapshots { result ≡ Verdict.Accepted → (read : Journals) → S.journals source.now ≡ snapshots read
        → IsTrueInRunsThatBeginSo AreLegal read skew transit certificate.now }
{
    judgment(source, certificate, skew, transit)
}
