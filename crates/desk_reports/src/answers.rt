//! Answers over files as JSON, each of the value that was answered.

ghost use Rattle.std.specs.Prelude.{◌≡◌, OnOk, IfOk};
ghost use Rattle.std.specs.Option.{option_map};
ghost use Rattle.archive_desk.specs.Certificates.{line_of};
ghost use Rattle.answer_data.specs.Parts.{said, nothing, with_line, with_over};
ghost use Rattle.answer_data.specs.Texts.{without_feed};
ghost use Rattle.desk_reports.specs.Answers.{who_said, stretch_said, spanned_said, evidence_said, all_evidence};
ghost use Rattle.desk_reports.specs.Answers.{evidence_over, ruling_said, all_rulings, all_given, given_said};
ghost use Rattle.desk_reports.specs.Answers.{IsWhoData, IsFindData, IsAuditData, IsGivenData};

use answer_data::AnswerParts;
use archive_desk::{
    ArchiveJudgement, EvidenceReply, HolderReply, WhoAnswer, push_journals, push_volumes,
};
use attribution::Verdict;
use attribution_desk::DeskError;
use joined_evidence::{SpanEvidence, SpannedEvidence, SpannedStretch};
use joined_rulings::{
    CertificateRuling, GivenAudit, GivenReply, SpannedAudit, missing_told, refusal_told,
};
use pair_judgement::Judgement;
use std::alloc::{AllocError, Global};
use std::path::PathBuf;
use volume_spans::SpanPair;

/// Adds what files reply to who held a prefix.
fn add_reply(parts: &mut AnswerParts, alloc: Global, reply: &HolderReply) -> Result<(), DeskError>
    ensures { OnOk result (said parts.new ≡ who_said reply.now (said parts.old)) }
{
    match reply {
        HolderReply::Answered { answer, spans, .. } => {
            parts.set_volumes(spans);
            parts.add_answer(alloc, answer)
        }
        HolderReply::Lacking(_, _) => Ok(parts.add_none(alloc)?),
    }
}

/// Writes what files answer to who held a prefix as one JSON object, with the lines of standard error. `Memory` where a
/// growth was refused.
pub fn who_data(alloc: Global, answer: &WhoAnswer, notes: &[u8]) -> Result<Vec<u8>, DeskError>
    ensures { IfOk result (λ text. IsWhoData answer.now notes.now text.items) }
{
    let mut parts = AnswerParts::new(alloc);
    add_reply(&mut parts, alloc, &answer.reply)?;
    parts.add_access(alloc, &answer.access)?;
    let text = parts.into_line(alloc, "who", answer.reply.status(), notes)?;
    Ok(text)
}

/// Adds what a pair of volumes answers of a stretch, behind the line that names the two files.
fn add_stretch(
    parts: &mut AnswerParts,
    alloc: Global,
    names: &[PathBuf],
    reply: &EvidenceReply,
) -> Result<(), DeskError>
    ensures { OnOk result (said parts.new ≡ stretch_said names.now reply.now (said parts.old)) }
{
    match reply {
        EvidenceReply::Answered { pair, answer, .. } => {
            let mut files = Vec::new(alloc);
            push_journals(&mut files, names, pair)?;
            parts.add_line(alloc, &files)?;
            parts.add_found(alloc, answer)
        }
        EvidenceReply::Lacking(_, _) => Ok(parts.add_none(alloc)?),
    }
}

/// Adds what is found of a stretch over spans, behind the lines that name the two last files and the volumes.
fn add_spanned(
    parts: &mut AnswerParts,
    alloc: Global,
    names: &[PathBuf],
    evidence: &SpanEvidence,
) -> Result<(), DeskError>
    ensures { OnOk result (said parts.new ≡ spanned_said names.now evidence.now (said parts.old)) }
{
    let mut files = Vec::new(alloc);
    push_journals(&mut files, names, &evidence.pair)?;
    parts.add_line(alloc, &files)?;
    let mut volumes = Vec::new(alloc);
    push_volumes(&mut volumes, &evidence.spans)?;
    parts.add_line(alloc, &volumes)?;
    parts.add_certificate(alloc, &evidence.certificate)
}

/// Adds what files answer of a stretch.
fn add_evidence(
    parts: &mut AnswerParts,
    alloc: Global,
    names: &[PathBuf],
    stretch: &SpannedStretch,
) -> Result<(), DeskError>
    ensures { OnOk result (said parts.new ≡ evidence_said names.now stretch.now (said parts.old)) }
{
    match stretch {
        SpannedStretch::Own(found) => add_stretch(parts, alloc, names, &found.reply),
        SpannedStretch::Joined(evidence, _) => add_spanned(parts, alloc, names, evidence),
    }
}

/// Adds what files answer of each stretch.
#[tactic(auto, using(crate::proofs::AnswerSteps::evidence_step))]
fn add_stretches(
    parts: &mut AnswerParts,
    alloc: Global,
    names: &[PathBuf],
    stretches: &[SpannedStretch],
) -> Result<(), DeskError>
    ensures { OnOk result (said parts.new ≡ all_evidence names.now stretches.now (said parts.old)) }
{
    for stretch in stretches {
        add_evidence(parts, alloc, names, stretch)?;
    }
    Ok(())
}

/// Over which volumes an answer is that is one stretch.
fn evidence_over<'a>(stretches: &'a [SpannedStretch]) -> Option<&'a SpanPair>
    ensures { option_map (λ s. s.now) result ≡ evidence_over stretches.now }
{
    match stretches {
        [SpannedStretch::Joined(evidence, _)] => Some(&evidence.spans),
        _ => None,
    }
}

/// The parts of what files answer of the evidence of an interval, before its stretches.
fn begun_over(alloc: Global, stretches: &[SpannedStretch]) -> AnswerParts
    ensures { said result ≡ with_over (evidence_over stretches.now) nothing }
{
    let mut parts = AnswerParts::new(alloc);
    if let Some(spans) = evidence_over(stretches) {
        parts.set_volumes(spans);
    }
    parts
}

/// Writes what files answer of the evidence of an interval as one JSON object, with the status and the lines of
/// standard error. `Memory` where a growth was refused.
pub fn find_data(
    alloc: Global,
    names: &[PathBuf],
    answer: &SpannedEvidence,
    status: u8,
    notes: &[u8],
) -> Result<Vec<u8>, DeskError>
    ensures { IfOk result (λ text. IsFindData names.now answer.now status notes.now text.items) }
{
    let mut parts = begun_over(alloc, &answer.stretches);
    add_stretches(&mut parts, alloc, names, &answer.stretches)?;
    let text = parts.into_line(alloc, "find", status, notes)?;
    Ok(text)
}

fn add_judged(
    parts: &mut AnswerParts,
    alloc: Global,
    judged: &ArchiveJudgement,
) -> Result<(), AllocError>
    ensures { OnOk result (said parts.new ≡ with_line (without_feed (line_of judged.now)) (said parts.old)) }
{
    let mut line = Vec::new(alloc);
    judged.push_line(alloc, &mut line)?;
    parts.add_line(alloc, &line)
}

/// Adds how a certificate was ruled on.
fn add_ruling(
    parts: &mut AnswerParts,
    alloc: Global,
    ruling: &CertificateRuling,
) -> Result<(), AllocError>
    ensures { OnOk result (said parts.new ≡ ruling_said ruling.now (said parts.old)) }
{
    match ruling {
        CertificateRuling::Own(judged) => add_judged(parts, alloc, judged),
        CertificateRuling::Joined(joined) => {
            parts.set_volumes(&joined.spans);
            parts.add_ruling(alloc, &Judgement::Verdict(Verdict::Accepted))
        }
    }
}

/// Adds how each was ruled on.
#[tactic(auto, using(crate::proofs::AnswerSteps::ruling_step))]
fn add_rulings(
    parts: &mut AnswerParts,
    alloc: Global,
    rulings: &[CertificateRuling],
) -> Result<(), AllocError>
    ensures { OnOk result (said parts.new ≡ all_rulings rulings.now (said parts.old)) }
{
    for ruling in rulings {
        add_ruling(parts, alloc, ruling)?;
    }
    Ok(())
}

/// Writes what files answer to a certificate as one JSON object, with the status and the lines of standard error.
/// `AllocError` where a growth was refused.
pub fn audit_data(
    alloc: Global,
    audit: &SpannedAudit,
    status: u8,
    notes: &[u8],
) -> Result<Vec<u8>, AllocError>
    ensures { IfOk result (λ text. IsAuditData audit.now status notes.now text.items) }
{
    let mut parts = AnswerParts::new(alloc);
    add_rulings(&mut parts, alloc, &audit.rulings)?;
    parts.into_line(alloc, "audit", status, notes)
}

/// Adds rulings over given volumes.
#[tactic(auto, using(crate::proofs::AnswerSteps::given_step))]
fn add_given(
    parts: &mut AnswerParts,
    alloc: Global,
    rulings: &[Judgement],
) -> Result<(), AllocError>
    ensures { OnOk result (said parts.new ≡ all_given rulings.now (said parts.old)) }
{
    for ruling in rulings {
        parts.add_ruling(alloc, ruling)?;
    }
    Ok(())
}

/// Adds what given volumes reply to a certificate.
fn add_given_reply(
    parts: &mut AnswerParts,
    alloc: Global,
    names: &[PathBuf],
    reply: &GivenReply,
) -> Result<(), AllocError>
    ensures { OnOk result (said parts.new ≡ given_said names.now reply.now (said parts.old)) }
{
    match reply {
        GivenReply::Ruled(given) => {
            parts.set_volumes(&given.spans);
            add_given(parts, alloc, &given.rulings)
        }
        GivenReply::Missing(side, number) => {
            let told = missing_told(alloc, Vec::new(alloc), *side, *number)?;
            parts.add_line(alloc, &told.text)
        }
        GivenReply::Refused(refusal) => {
            let told = refusal_told(alloc, names, refusal)?;
            parts.add_line(alloc, &told.text)
        }
    }
}

/// Writes what given volumes answer to a certificate as one JSON object, with the status and the lines of standard
/// error. `AllocError` where a growth was refused.
pub fn given_audit_data(
    alloc: Global,
    names: &[PathBuf],
    audit: &GivenAudit,
    status: u8,
    notes: &[u8],
) -> Result<Vec<u8>, AllocError>
    ensures { IfOk result (λ text. IsGivenData names.now audit.now status notes.now text.items) }
{
    let mut parts = AnswerParts::new(alloc);
    add_given_reply(&mut parts, alloc, names, &audit.reply)?;
    parts.into_line(alloc, "audit", status, notes)
}
