//! What is found is handed out only as its text is read again.

ghost use Rattle.std.specs.Prelude.{◌≡◌, ◌↔◌, IsTrue, IfOk, IfErr, MatchOption};
ghost use Rattle.attribution.specs.FirstRefusal.{IsVerdict};
ghost use Rattle.attribution_desk.specs.Find.{ClaimSame, IsReadAgain, IsOverLimits};

use crate::error::DeskError;
use attribution::Verdict;
use auditor::{LineSource, audit};
use certificate::{Certificate, CertificateError};
use lead_time::{Skew, Transit};
use std::alloc::Global;

/// Returns whether two certificates claim the same.
fn claim_same(one: &Certificate, other: &Certificate) -> bool
    ensures { IsTrue result ↔ ClaimSame one.now other.now }
{
    one.holder == other.holder
        && one.prefix == other.prefix
        && one.from == other.from
        && one.to == other.to
}

/// Returns whether a verdict accepts.
fn accepts(verdict: &Verdict) -> bool
    ensures { IsTrue result ↔ (verdict.now ≡ Verdict.Accepted) }
{
    matches!(verdict, Verdict::Accepted)
}

/// Returns whether the auditor accepts the certificate.
fn is_accepted<S: LineSource>(
    source: &S,
    certificate: &Certificate,
    skew: Skew,
    transit: Transit,
) -> bool
    ensures { IsTrue result ↔ IsVerdict (S.journals source.now) skew transit certificate.now Verdict.Accepted }
{
    accepts(&audit(source, certificate, skew, transit))
}

/// Returns whether what a text was read as claims the same as what it was written of, and the auditor accepts it.
fn is_again<S: LineSource>(
    source: &S,
    certificate: &Certificate,
    found: &Certificate,
    skew: Skew,
    transit: Transit,
) -> bool
    ensures { IsTrue result ↔ (ClaimSame certificate.now found.now
        × IsVerdict (S.journals source.now) skew transit certificate.now Verdict.Accepted) }
{
    claim_same(certificate, found) && is_accepted(source, certificate, skew, transit)
}

/// Returns what the certificate's text is read as, where that claims the same and the auditor accepts it; none where
/// the text is over the limits of a certificate's text. `Memory` where a growth was refused.
pub(crate) fn read_again<S: LineSource>(
    alloc: Global,
    source: &S,
    found: &Certificate,
    skew: Skew,
    transit: Transit,
) -> Result<Option<Certificate>, DeskError>
    ensures again { IfOk result (λ o. MatchOption o
        (IsOverLimits (S.journals source.now) skew transit found.now)
        (IsReadAgain (S.journals source.now) skew transit found.now)) }
    ensures refused { IfErr result (λ e. e ≡ DeskError.Memory) }
{
    let Ok(text) = certificate::write(alloc, found) else {
        return Err(DeskError::Memory);
    };
    match certificate::read(alloc, &text) {
        Ok(certificate) => {
            if is_again(source, &certificate, found, skew, transit) {
                return Ok(Some(certificate));
            }
            Ok(None)
        }
        Err(CertificateError::Memory) => Err(DeskError::Memory),
        Err(CertificateError::Fault(_)) => Ok(None),
    }
}
