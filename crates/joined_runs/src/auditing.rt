//! The verdict on a certificate over joined journals.

ghost use Rattle.std.specs.Prelude.{◌≡◌};
ghost use Rattle.attribution.specs.FirstRefusal.{IsVerdict};
ghost use Rattle.attribution.specs.Snapshot.{snapshots};
ghost use Rattle.joined_runs.specs.Volumes.{PairVolumes, joined_journals, BothHaveRoom};
ghost use Rattle.joined_runs.specs.Laws.{IsTrueOverVolumes, IsTrueOverVolumesSoFar};
ghost use Rattle.book_rules.specs.NextHead.{AreLegal};

use crate::laws::accepted_is_true_over_volumes;
use attribution::{Verdict, verdict_is_one};
use auditor::{LineSource, audit};
use causal_order::Certificate;
use lead_time::{Skew, Transit};

/// Judges the certificate as `auditor::audit` does: accepted, or refused by the first condition that isn't met. The
/// skew is the most by which a reading of either journal and true time differ, the transit the most by which an answer
/// reaches its client after its grant.
pub fn audit_over_volumes<S: LineSource>(
    source: &S,
    certificate: &Certificate,
    skew: Skew,
    transit: Transit,
) -> Verdict
    ensures verdict { IsVerdict (S.journals source.now) skew transit certificate.now result }
    // Where the source's journals are what volumes are together, what is accepted is true in every run of the pair that
    // leaves these volumes, whatever volumes came before, with each clock within the skew of true time and each answer
    // within the transit.
    ensures headline { result ≡ Verdict.Accepted → (vs : PairVolumes) → BothHaveRoom vs
        → S.journals source.now ≡ joined_journals vs
        → IsTrueOverVolumes AreLegal vs skew transit certificate.now }
    // Where they are snapshots of that, and the last volumes may still be written, it's true in every run that began
    // so, whatever follows.
    ensures snapshots { result ≡ Verdict.Accepted → (vs : PairVolumes) → BothHaveRoom vs
        → S.journals source.now ≡ snapshots (joined_journals vs)
        → IsTrueOverVolumesSoFar AreLegal vs skew transit certificate.now }
{
    verdict_is_one();
    accepted_is_true_over_volumes();
    audit(source, certificate, skew, transit)
}
