//! A ruling, with what it rests on.

ghost use Rattle.std.specs.Prelude.{◌≡◌, IfOk, IfErr, None};
ghost use Rattle.std.specs.Result.{ForOk};
ghost use Rattle.journal_text.specs.Closed.{IsClosed};
ghost use Rattle.attribution_desk.specs.Case.{IsCaseOf};
ghost use Rattle.desk_reports.specs.Explaining.{IsFullExplanation, IsExplained, IsExplainedOfRead};

use attribution::Verdict;
use attribution_desk::{DeskError, IndexedPair};
use auditor::audit;
use binding_rules::Role;
use causal_order::Certificate;
use certificate::CertificateError;
use evidence_report::{failure_of, report_on};
use journal_lines::{Journal, JournalFault};
use lead_time::{Skew, Transit};
use line_index::LineIndex;
use pair_judgement::Judgement;
use report_document::Explanation;
use std::alloc::Global;
use std::thread::Threads;

/// A ruling before anything of the certificate is looked at.
pub fn bare<'a>(ruling: Judgement) -> Explanation<'a>
    ensures ruling { result.ruling ≡ ruling }
    ensures report { result.report ≡ None }
    ensures failure { result.failure ≡ None }
{
    Explanation {
        ruling,
        report: None,
        failure: None,
    }
}

/// The verdict on a certificate over indexed journals, and what it rests on.
fn explain_indexed<'a>(
    alloc: Global,
    index: &LineIndex,
    claim: &'a Certificate,
    skew: Skew,
    transit: Transit,
) -> Result<Explanation<'a>, DeskError>
    ensures shown { IfOk result (IsFullExplanation index.now.journals skew transit claim.entry.now) }
    ensures refused { IfErr result (λ e. e ≡ DeskError.Memory) }
{
    let verdict = audit(index, claim, skew, transit);
    let Ok(report) = report_on(alloc, index, claim, skew, transit) else {
        return Err(DeskError::Memory);
    };
    let failure = failure_of(index, &report, &verdict);
    Ok(Explanation {
        ruling: Judgement::Verdict(verdict),
        report: Some(report),
        failure,
    })
}

/// As [`explain_journals`], over a case of the primary's journal and the secondary's that is built already. `Memory`
/// where a growth was refused.
pub fn explain_case<'a>(
    alloc: Global,
    case: &IndexedPair,
    primary: &Journal,
    secondary: &Journal,
    claim: &'a Certificate,
    skew: Skew,
    transit: Transit,
) -> Result<Explanation<'a>, DeskError>
    requires { IsCaseOf primary.now secondary.now skew case.now }
    ensures explained { IfOk result (IsExplained primary.now secondary.now skew transit claim.entry.now) }
    ensures refused { IfErr result (λ e. e ≡ DeskError.Memory) }
{
    match case {
        IndexedPair::Open(index) => explain_indexed(alloc, index, claim, skew, transit),
        IndexedPair::Refused(ruling) => Ok(bare(*ruling)),
    }
}

/// The ruling on a certificate over the primary's journal and the secondary's, and what it rests on: what stands
/// against the two journals; else the verdict, and all that the certificate shows. `Memory` where a growth was refused.
pub fn explain_journals<'a>(
    rt: &(impl Threads + Sync),
    alloc: Global,
    primary: &Journal,
    secondary: &Journal,
    claim: &'a Certificate,
    skew: Skew,
    transit: Transit,
) -> Result<Explanation<'a>, DeskError>
    requires primary_closed { IsClosed primary.now.lines }
    requires secondary_closed { IsClosed secondary.now.lines }
    ensures explained { IfOk result (IsExplained primary.now secondary.now skew transit claim.entry.now) }
    ensures refused { IfErr result (λ e. e ≡ DeskError.Memory) }
{
    let case = IndexedPair::of(rt, alloc, primary, secondary, skew)?;
    explain_case(alloc, &case, primary, secondary, claim, skew, transit)
}

/// The ruling on what two texts are as journals and on what a third was read to, and what it rests on: the first of the
/// faults of A's journal, of B's and of the certificate's text; else that of `explain_journals`. `Memory` where a
/// growth was refused.
pub fn explain_read<'a>(
    rt: &(impl Threads + Sync),
    alloc: Global,
    a: &Result<Journal, JournalFault>,
    b: &Result<Journal, JournalFault>,
    claim: &'a Result<Certificate, CertificateError>,
    skew: Skew,
    transit: Transit,
) -> Result<Explanation<'a>, DeskError>
    requires a_closed { ForOk a.now (λ journal. IsClosed journal.lines) }
    requires b_closed { ForOk b.now (λ journal. IsClosed journal.lines) }
    ensures explained { IfOk result (IsExplainedOfRead a.now b.now skew transit claim.entry.now) }
    ensures refused { IfErr result (λ e. e ≡ DeskError.Memory) }
{
    let primary = match a {
        Ok(journal) => journal,
        Err(fault) => return Ok(bare(Judgement::Verdict(Verdict::Journal(Role::Primary, *fault)))),
    };
    let secondary = match b {
        Ok(journal) => journal,
        Err(fault) => return Ok(bare(Judgement::Verdict(Verdict::Journal(
            Role::Secondary,
            *fault,
        )))),
    };
    match claim {
        Ok(claim) => explain_journals(rt, alloc, primary, secondary, claim, skew, transit),
        Err(CertificateError::Fault(fault)) => {
            Ok(bare(Judgement::Verdict(Verdict::Certificate(*fault))))
        }
        Err(CertificateError::Memory) => Err(DeskError::Memory),
    }
}
