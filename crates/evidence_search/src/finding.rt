//! The search.

ghost use Rattle.std.specs.Prelude.{◌≡◌, ◌↔◌, IsTrue, IfOk, IsErrOf};
ghost use Rattle.attribution.specs.Acceptance.{IsTrueInEveryRun};
ghost use Rattle.book_rules.specs.NextHead.{AreLegal};
ghost use Rattle.evidence_search.specs.Claim.{asked, Claims, IsAuditorAccepted, HasNoPlainEvidence, IsTooLong};

use crate::evidence::{evidence, linked_evidence};
use crate::messages::DeliveredMessages;
use attribution::Verdict;
use auditor::{LineSource, audit};
use causal_order::Certificate;
use client_id::Duid;
use lead_time::{Reading, Skew, Transit};
use plain_search::{FindError, Query};
use prefix_range::Prefix;
use std::alloc::Global;

fn is_accepted(verdict: &Verdict) -> bool
    ensures { IsTrue result ↔ (verdict.now ≡ Verdict.Accepted) }
{
    matches!(verdict, Verdict::Accepted)
}

/// Returns whether the auditor accepts the certificate.
fn is_shown<S: LineSource>(source: &S, query: &Query, certificate: &Certificate) -> bool
    ensures shown { IsTrue result ↔ IsAuditorAccepted (S.journals source.now) query.now certificate.now }
    ensures headline { IsTrue result → IsTrueInEveryRun AreLegal (S.journals source.now) query.now.skew
        query.now.transit certificate.now }
{
    is_accepted(&audit(source, certificate, query.skew, query.transit))
}

/// The certificate that single lines make for the query, where the auditor accepts it. `TooLong` where it would be
/// longer than a text may be.
#[tactic(auto, using(crate::proofs::Complete::none_of_empty))]
fn line_search<S: LineSource>(
    alloc: Global,
    source: &S,
    query: &Query,
) -> Result<Certificate, FindError>
    ensures claims { IfOk result (Claims query.now) }
    ensures shown { IfOk result (IsAuditorAccepted (S.journals source.now) query.now) }
    ensures headline { IfOk result
        (IsTrueInEveryRun AreLegal (S.journals source.now) query.now.skew query.now.transit) }
    ensures none { IsErrOf result FindError.NoneFound → HasNoPlainEvidence (S.journals source.now) query.now }
    ensures long { IsErrOf result FindError.TooLong → IsTooLong (S.journals source.now) query.now }
{
    if query.from >= query.to {
        return Err(FindError::NoneFound);
    }
    let certificate = evidence(alloc, source, query)?;
    if !is_shown(source, query, &certificate) {
        return Err(FindError::NoneFound);
    }
    Ok(certificate)
}

/// The certificate that chains over these messages make for the query, where the auditor accepts it. One that would be
/// longer than a text may be counts as none.
fn linked_search<S: LineSource>(
    alloc: Global,
    source: &S,
    messages: &DeliveredMessages,
    query: &Query,
) -> Result<Certificate, FindError>
    ensures claims { IfOk result (Claims query.now) }
    ensures shown { IfOk result (IsAuditorAccepted (S.journals source.now) query.now) }
    ensures headline { IfOk result
        (IsTrueInEveryRun AreLegal (S.journals source.now) query.now.skew query.now.transit) }
    ensures long { IsErrOf result FindError.TooLong → ⊥ }
{
    let certificate = match linked_evidence(alloc, source, messages, query) {
        Ok(certificate) => certificate,
        Err(FindError::Memory) => return Err(FindError::Memory),
        Err(_) => return Err(FindError::NoneFound),
    };
    if !is_shown(source, query, &certificate) {
        return Err(FindError::NoneFound);
    }
    Ok(certificate)
}

/// Returns what single lines show of the query, or else what chains over these messages do, where there are any.
pub fn search_over<S: LineSource>(
    alloc: Global,
    source: &S,
    messages: Option<&DeliveredMessages>,
    query: &Query,
) -> Result<Certificate, FindError>
    ensures claims { IfOk result (Claims query.now) }
    ensures shown { IfOk result (IsAuditorAccepted (S.journals source.now) query.now) }
    ensures headline { IfOk result
        (IsTrueInEveryRun AreLegal (S.journals source.now) query.now.skew query.now.transit) }
    ensures none { IsErrOf result FindError.NoneFound → HasNoPlainEvidence (S.journals source.now) query.now }
    ensures long { IsErrOf result FindError.TooLong → IsTooLong (S.journals source.now) query.now }
{
    let plain = line_search(alloc, source, query);
    let Some(messages) = messages else {
        return plain;
    };
    match plain {
        Err(FindError::NoneFound) => linked_search(alloc, source, messages, query),
        plain => plain,
    }
}

/// Returns what single lines show of the query, or else what chains do.
fn search<S: LineSource>(alloc: Global, source: &S, query: &Query) -> Result<Certificate, FindError>
    ensures claims { IfOk result (Claims query.now) }
    ensures shown { IfOk result (IsAuditorAccepted (S.journals source.now) query.now) }
    ensures headline { IfOk result
        (IsTrueInEveryRun AreLegal (S.journals source.now) query.now.skew query.now.transit) }
    ensures none { IsErrOf result FindError.NoneFound → HasNoPlainEvidence (S.journals source.now) query.now }
    ensures long { IsErrOf result FindError.TooLong → IsTooLong (S.journals source.now) query.now }
{
    match line_search(alloc, source, query) {
        Err(FindError::NoneFound) => {
            let messages = DeliveredMessages::between(alloc, source)?;
            linked_search(alloc, source, &messages, query)
        }
        plain => plain,
    }
}

/// Searches for a certificate that the client held the whole prefix from the one moment up to the other, in
/// milliseconds of true time, and gives only what `audit` accepts: one of single lines where there is one, and else
/// one of chains through both servers' messages, no longer than a certificate's text may be. `NoneFound` where neither
/// was found, and `audit` accepts no plain one: whose chains are single lines, and which orders two lines by their
/// journal or by their clocks. `TooLong` where single lines show it from the beginning on by more lines than a text may
/// have. `Memory` where a growth was refused.
pub fn find_certificate<S: LineSource>(
    alloc: Global,
    source: &S,
    holder: Duid,
    prefix: Prefix,
    from: Reading,
    to: Reading,
    skew: Skew,
    transit: Transit,
) -> Result<Certificate, FindError>
    ensures claims { IfOk result (Claims (asked holder prefix from to skew transit)) }
    ensures shown { IfOk result (IsAuditorAccepted (S.journals source.now) (asked holder prefix from to skew transit)) }
    // What is found is true in every run of the pair that leaves the source's journals, whatever volumes came before,
    // with each clock within the skew of true time and each answer within the transit.
    ensures headline { IfOk result (IsTrueInEveryRun AreLegal (S.journals source.now) skew transit) }
    ensures none { IsErrOf result FindError.NoneFound
        → HasNoPlainEvidence (S.journals source.now) (asked holder prefix from to skew transit) }
    ensures long { IsErrOf result FindError.TooLong
        → IsTooLong (S.journals source.now) (asked holder prefix from to skew transit) }
{
    let query = Query {
        holder,
        prefix,
        from,
        to,
        skew,
        transit,
    };
    search(alloc, source, &query)
}
