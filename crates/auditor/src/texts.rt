//! The audit of journals that were read and of texts.

ghost use Rattle.std.specs.Prelude.{◌≡◌, IfOk};
ghost use Rattle.std.specs.Result.{ForOk};
ghost use Rattle.journal_text.specs.Faults.{journal_of_side};
ghost use Rattle.certificate.specs.Faults.{certificate_of};
ghost use Rattle.journal_text.specs.Closed.{IsClosed};
ghost use Rattle.auditor.specs.Texts.{IsVerdictOfJournals, IsVerdictOfParsed, IsVerdictOfTexts};
ghost use Rattle.auditor.specs.Texts.{ParsedIsTrueInEveryRun, TextsAreTrueInEveryRun};

use crate::auditing::audit;
use crate::error::AuditError;
use crate::pair::{Checked, check_pair};
use crate::plain::PlainSource;
use attribution::Verdict;
use binding_rules::Role;
use causal_order::Certificate;
use certificate::{CertificateError, certificates_are_spelled};
use journal_lines::{Journal, JournalFault};
use journal_text::{JournalError, read_side, text_gives_what_it_spells, written_is_closed};
use lead_time::{Skew, Transit};
use std::alloc::Global;

/// Returns what refuses the two journals; else the verdict of `audit`.
fn verdict_on_journals(
    alloc: Global,
    primary: &Journal,
    secondary: &Journal,
    claim: &Certificate,
    skew: Skew,
    transit: Transit,
) -> Result<Verdict, AuditError>
    requires primary_closed { IsClosed primary.now.lines }
    requires secondary_closed { IsClosed secondary.now.lines }
    ensures { IfOk result (IsVerdictOfJournals primary.now secondary.now skew transit claim.now) }
{
    if let Checked::Refused(refusal) = check_pair(alloc, primary, secondary)? {
        return Ok(refusal);
    }
    let source = PlainSource::new(primary, secondary);
    Ok(audit(&source, claim, skew, transit))
}

fn verdict_on_parsed(
    alloc: Global,
    a: Result<Journal, JournalFault>,
    b: Result<Journal, JournalFault>,
    certificate: &[u8],
    skew: Skew,
    transit: Transit,
) -> Result<Verdict, AuditError>
    requires a_closed { ForOk a (λ journal. IsClosed journal.lines) }
    requires b_closed { ForOk b (λ journal. IsClosed journal.lines) }
    ensures { IfOk result (IsVerdictOfParsed a b skew transit (certificate_of certificate.now)) }
{
    let primary = match a {
        Ok(journal) => journal,
        Err(fault) => return Ok(Verdict::Journal(Role::Primary, fault)),
    };
    let secondary = match b {
        Ok(journal) => journal,
        Err(fault) => return Ok(Verdict::Journal(Role::Secondary, fault)),
    };
    let claim = match certificate::read(alloc, certificate) {
        Ok(claim) => claim,
        Err(CertificateError::Fault(fault)) => return Ok(Verdict::Certificate(fault)),
        Err(CertificateError::Memory) => return Err(AuditError::Memory),
    };
    verdict_on_journals(alloc, &primary, &secondary, &claim, skew, transit)
}

/// Judges the certificate that a text spells over what reading the journals of side A and of side B gave: the first
/// of the faults of A's journal, of B's and of the certificate's text, then what `check_pair` refuses, then the verdict
/// of `audit`. `Memory` where a growth was refused.
pub fn audit_read(
    alloc: Global,
    a: Result<Journal, JournalFault>,
    b: Result<Journal, JournalFault>,
    certificate: &[u8],
    skew: Skew,
    transit: Transit,
) -> Result<Verdict, AuditError>
    requires a_closed { ForOk a (λ journal. IsClosed journal.lines) }
    requires b_closed { ForOk b (λ journal. IsClosed journal.lines) }
    ensures verdict { IfOk result (IsVerdictOfParsed a b skew transit (certificate_of certificate.now)) }
    // What is accepted is true in every run of the pair that leaves these journals.
    ensures headline { result ≡ Ok Verdict.Accepted → ParsedIsTrueInEveryRun a b certificate.now skew transit }
{
    certificates_are_spelled();
    verdict_on_parsed(alloc, a, b, certificate, skew, transit)
}

/// The journal of this side that a text spells, which is closed, or its first fault.
fn parsed_journal(
    alloc: Global,
    side: Role,
    text: &[u8],
) -> Result<Result<Journal, JournalFault>, AuditError>
    ensures exact { IfOk result (λ parsed. parsed ≡ journal_of_side side text.now) }
    ensures closed { IfOk result (λ parsed. ForOk parsed (λ journal. IsClosed journal.lines)) }
{
    written_is_closed();
    match read_side(alloc, side, text) {
        Ok(journal) => Ok(Ok(journal)),
        Err(JournalError::Fault(fault)) => Ok(Err(fault)),
        Err(JournalError::Memory) => Err(AuditError::Memory),
    }
}

/// Judges the certificate that the third text spells over the journals of side A and side B that the first two
/// spell: the first of the faults of A's text, of B's and of the certificate's, then what `check_pair` refuses, then
/// the verdict of `audit`. The skew is the most by which a reading of either journal and true time differ, the transit
/// the most by which an answer reaches its client after its grant. `Memory` where a growth was refused.
pub fn audit_bytes(
    alloc: Global,
    a: &[u8],
    b: &[u8],
    certificate: &[u8],
    skew: Skew,
    transit: Transit,
) -> Result<Verdict, AuditError>
    ensures verdict { IfOk result (IsVerdictOfTexts a.now b.now certificate.now skew transit) }
    // What is accepted is true in every run of the pair that leaves these journals, with each clock within the skew
    // of true time and each answer within the transit.
    ensures headline { result ≡ Ok Verdict.Accepted
        → TextsAreTrueInEveryRun a.now b.now certificate.now skew transit }
{
    text_gives_what_it_spells();
    let primary = parsed_journal(alloc, Role::Primary, a)?;
    if let Err(fault) = &primary {
        return Ok(Verdict::Journal(Role::Primary, *fault));
    }
    let secondary = parsed_journal(alloc, Role::Secondary, b)?;
    audit_read(alloc, primary, secondary, certificate, skew, transit)
}
