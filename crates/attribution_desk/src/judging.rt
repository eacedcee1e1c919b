//! The ruling on two journals and a certificate.

ghost use Rattle.std.specs.Prelude.{◌≡◌, IfOk, IfErr};
ghost use Rattle.std.specs.Result.{ForOk};
ghost use Rattle.causal_order.specs.Journals.{Journals, journals_of};
ghost use Rattle.attribution.specs.Snapshot.{snapshots, IsTrueInRunsThatBeginSo};
ghost use Rattle.book_rules.specs.NextHead.{AreLegal};
ghost use Rattle.certificate.specs.Faults.{certificate_of};
ghost use Rattle.journal_text.specs.Closed.{IsClosed};
ghost use Rattle.attribution_desk.specs.Judgements.{IsJudgementOfJournals, IsJudgementOfParsed};

use crate::error::DeskError;
use crate::indexed_pair::IndexedPair;
use attribution::Verdict;
use auditor::audit;
use binding_rules::Role;
use causal_order::Certificate;
use certificate::CertificateError;
use journal_lines::{Journal, JournalFault};
use lead_time::{Skew, Transit};
use pair_judgement::Judgement;
use std::alloc::Global;
use std::thread::Threads;

/// Returns what stands against the two journals; else the verdict of `audit`. `Memory` where a growth was refused.
pub fn judge_journals(
    rt: &(impl Threads + Sync),
    alloc: Global,
    primary: &Journal,
    secondary: &Journal,
    claim: &Certificate,
    skew: Skew,
    transit: Transit,
) -> Result<Judgement, DeskError>
    requires primary_closed { IsClosed primary.now.lines }
    requires secondary_closed { IsClosed secondary.now.lines }
    ensures ruling { IfOk result (IsJudgementOfJournals primary.now secondary.now skew transit claim.now) }
    // What is accepted over snapshots is true in every run whose volumes begin with what was read.
    ensures snapshots { IfOk result (λ r. r ≡ Judgement.Verdict Verdict.Accepted → (read : Journals)
        → journals_of primary.now secondary.now ≡ snapshots read
        → IsTrueInRunsThatBeginSo AreLegal read skew transit claim.now) }
    ensures refused { IfErr result (λ e. e ≡ DeskError.Memory) }
{
    let case = IndexedPair::of(rt, alloc, primary, secondary, skew)?;
    match &case {
        IndexedPair::Open(index) => Ok(Judgement::Verdict(audit(index, claim, skew, transit))),
        IndexedPair::Refused(ruling) => Ok(*ruling),
    }
}

/// The ruling on what two texts are as journals and on a certificate's text: the first of the faults of A's journal,
/// of B's and of the certificate's text, then what stands against the two journals, then the verdict of `audit`.
/// `Memory` where a growth was refused.
pub fn judge_parsed(
    rt: &(impl Threads + Sync),
    alloc: Global,
    a: Result<Journal, JournalFault>,
    b: Result<Journal, JournalFault>,
    certificate: &[u8],
    skew: Skew,
    transit: Transit,
) -> Result<Judgement, DeskError>
    requires a_closed { ForOk a (λ journal. IsClosed journal.lines) }
    requires b_closed { ForOk b (λ journal. IsClosed journal.lines) }
    ensures ruling { IfOk result (IsJudgementOfParsed a b skew transit (certificate_of certificate.now)) }
    ensures refused { IfErr result (λ e. e ≡ DeskError.Memory) }
{
    let primary = match a {
        Ok(journal) => journal,
        Err(fault) => return Ok(Judgement::Verdict(Verdict::Journal(Role::Primary, fault))),
    };
    let secondary = match b {
        Ok(journal) => journal,
        Err(fault) => return Ok(Judgement::Verdict(Verdict::Journal(Role::Secondary, fault))),
    };
    let claim = match certificate::read(alloc, certificate) {
        Ok(claim) => claim,
        Err(CertificateError::Fault(fault)) => return Ok(Judgement::Verdict(Verdict::Certificate(
            fault,
        ))),
        Err(CertificateError::Memory) => return Err(DeskError::Memory),
    };
    judge_journals(rt, alloc, &primary, &secondary, &claim, skew, transit)
}
