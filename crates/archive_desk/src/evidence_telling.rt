//! The evidence of an interval, as it is written.

ghost use Rattle.std.specs.Prelude.{◌≡◌, ◌++◌, IfOk, OnOk};
ghost use Rattle.attribution_desk.specs.Searching.{answer_text};
ghost use Rattle.archive_desk.specs.CommandOutputs.{said_of, nothing};
ghost use Rattle.archive_desk.specs.Telling.{evidence_text, evidence_status, IsEvidenceNoted, IsSaidMore, AreSaid};

use crate::command_output::{CommandOutput, falls_short, reach_line};
use crate::coverage_gaps::{TimingBounds, gap_line};
use crate::names::push_journals;
use crate::stretches::{EvidenceReply, FindAnswer, FoundStretch};
use archive_files::FilesError;
use attribution_desk::SearchAnswer;
use std::alloc::{AllocError, Global};
use std::path::PathBuf;

/// Appends what the desk answers.
fn push_answer(alloc: Global, out: &mut Vec<u8>, answer: &SearchAnswer) -> Result<(), FilesError>
    ensures { OnOk result (out.new.items ≡ out.old.items ++ answer_text answer.now) }
{
    let Ok(text) = answer.evidence_text(alloc) else {
        return Err(FilesError::Memory);
    };
    out.extend_from_slice(&text)?;
    Ok(())
}

impl EvidenceReply {
    /// Appends what the desk answers, behind the line that names the two files; or `none`.
    fn push_text(
        &self,
        alloc: Global,
        out: &mut Vec<u8>,
        names: &[PathBuf],
    ) -> Result<(), FilesError>
        ensures { OnOk result (out.new.items ≡ out.old.items ++ evidence_text names.now self.now) }
    {
        match self {
            EvidenceReply::Answered { pair, answer, .. } => {
                push_journals(out, names, pair)?;
                push_answer(alloc, out, answer)
            }
            EvidenceReply::Lacking(_, _) => {
                out.extend_from_slice(b"none\n")?;
                Ok(())
            }
        }
    }

    /// 0 where what was asked of all before `end` was found, else 1.
    pub fn status_up_to(&self, end: u64) -> u8
        ensures { result ≡ evidence_status end self.now }
    {
        match self {
            EvidenceReply::Answered { answer, until, .. } => {
                if falls_short(until, end) {
                    1
                } else {
                    answer.status()
                }
            }
            EvidenceReply::Lacking(_, _) => 1,
        }
    }

    /// What is noted of the reply to a question that asks of nothing from `end` on: which moments are lacking, and why.
    fn noted(
        &self,
        alloc: Global,
        names: &[PathBuf],
        bounds: &TimingBounds,
        end: u64,
    ) -> Result<Vec<u8>, AllocError>
        ensures { IfOk result (λ notes. IsEvidenceNoted self.now notes.items) }
    {
        match self {
            EvidenceReply::Answered {
                answer,
                warnings,
                until,
                ..
            } => {
                let mut notes = Vec::new(alloc);
                notes.extend_from_slice(warnings)?;
                notes.extend_from_slice(answer.note())?;
                notes.extend_from_slice(&reach_line(alloc, until, end)?)?;
                Ok(notes)
            }
            EvidenceReply::Lacking(side, lack) => gap_line(alloc, names, *side, lack, bounds),
        }
    }
}

impl CommandOutput {
    /// Tells of one stretch more.
    fn tell_found(
        &mut self,
        alloc: Global,
        names: &[PathBuf],
        found: &FoundStretch,
        bounds: &TimingBounds,
    ) -> Result<(), FilesError>
        ensures { OnOk result (IsSaidMore names.now found.now (said_of self.old) (said_of self.new)) }
    {
        found.reply.push_text(alloc, &mut self.text, names)?;
        if found.reply.status_up_to(found.end) != 0 {
            self.status = 1;
        }
        self.notes
            .extend_from_slice(&found.reply.noted(alloc, names, bounds, found.end)?)?;
        Ok(())
    }
}

/// Tells of one stretch behind the other.
fn tell_all(
    alloc: Global,
    names: &[PathBuf],
    stretches: &[FoundStretch],
    bounds: &TimingBounds,
) -> Result<CommandOutput, FilesError>
    ensures { IfOk result (λ told. AreSaid names.now stretches.now nothing (said_of told)) }
{
    let mut told = CommandOutput::noting(alloc, Vec::new(alloc));
    for found in stretches {
        told.tell_found(alloc, names, found, bounds)?;
    }
    Ok(told)
}

impl FindAnswer {
    /// What `find` tells: of one stretch behind the other. `Memory` where a growth was refused.
    pub fn told(&self, alloc: Global, names: &[PathBuf]) -> Result<CommandOutput, FilesError>
        ensures { IfOk result (λ told. AreSaid names.now self.now.stretches.items nothing (said_of told)) }
    {
        let bounds = TimingBounds {
            skew: self.query.skew,
            transit: self.query.transit,
        };
        tell_all(alloc, names, &self.stretches, &bounds)
    }
}
