//! What given volumes answer to certificates, as it is written.

ghost use Rattle.std.specs.Prelude.{◌≡◌, ◌++◌, IfOk, OnOk};
ghost use Rattle.std.specs.List.{flat_map};
ghost use Rattle.pair_judgement.specs.Judgements.{judgement_line};
ghost use Rattle.attribution_desk.specs.Batch.{status_of_all};
ghost use Rattle.archive_desk.specs.Names.{journals_line, volumes_note};
ghost use Rattle.joined_rulings.specs.Telling.{AreRulingsTold, IsReplyTold, IsGivenTold};

use crate::given::{GivenAudit, GivenReply, GivenRulings};
use crate::lacks::{missing_told, refusal_told};
use archive_desk::{CommandOutput, passed_over, push_journals, push_volumes};
use desk_args::NoteDetail;
use pair_judgement::{Judgement, judgement_line, status_of};
use std::alloc::{AllocError, Global};
use std::path::PathBuf;

/// Appends the line of a ruling.
fn push_ruling(alloc: Global, out: &mut Vec<u8>, ruling: &Judgement) -> Result<(), AllocError>
    ensures { OnOk result (out.new.items ≡ out.old.items ++ judgement_line ruling.now) }
{
    let line = judgement_line(alloc, ruling)?;
    out.extend_from_slice(&line)
}

/// Appends the lines of rulings, one behind the other.
fn push_rulings(alloc: Global, out: &mut Vec<u8>, rulings: &[Judgement]) -> Result<(), AllocError>
    ensures { OnOk result (out.new.items ≡ out.old.items ++ flat_map judgement_line rulings.now) }
{
    for ruling in rulings {
        push_ruling(alloc, out, ruling)?;
    }
    Ok(())
}

/// The lines of rulings, one behind the other.
fn lines_of(alloc: Global, rulings: &[Judgement]) -> Result<Vec<u8>, AllocError>
    ensures { IfOk result (λ text. text.items ≡ flat_map judgement_line rulings.now) }
{
    let mut text = Vec::new(alloc);
    push_rulings(alloc, &mut text, rulings)?;
    Ok(text)
}

/// 0 where that is the status of each ruling, else 1.
#[tactic(auto, using(crate::proofs::Statuses::one_more, crate::proofs::Statuses::one_not, crate::proofs::Statuses::no_more))]
fn status_of_all(rulings: &[Judgement]) -> u8
    ensures { result ≡ status_of_all rulings.now }
{
    let mut rest = rulings;
    while let [ruling, later @ ..] = rest {
        if status_of(ruling) != 0 {
            return 1;
        }
        rest = later;
    }
    0
}

impl GivenRulings {
    /// What is noted of them: the last files, the volumes where they are several of a side, and the warnings on the two
    /// journals (K2, K3). `AllocError` where a growth was refused.
    pub fn noted(&self, alloc: Global, names: &[PathBuf]) -> Result<Vec<u8>, AllocError>
        ensures { IfOk result (λ notes. notes.items
            ≡ journals_line names.now self.now.pair ++ (volumes_note self.now.spans ++ self.now.warnings.items)) }
    {
        let mut notes = Vec::new(alloc);
        push_journals(&mut notes, names, &self.pair)?;
        push_volumes(&mut notes, &self.spans)?;
        notes.extend_from_slice(&self.warnings)?;
        Ok(notes)
    }

    /// What is told of them, behind the files that are passed over.
    fn told(
        &self,
        alloc: Global,
        names: &[PathBuf],
        passed: Vec<u8>,
    ) -> Result<CommandOutput, AllocError>
        ensures { IfOk result (AreRulingsTold names.now passed.items self.now) }
    {
        let mut notes = passed;
        notes.extend_from_slice(&self.noted(alloc, names)?)?;
        let text = lines_of(alloc, &self.rulings)?;
        Ok(CommandOutput {
            text,
            status: status_of_all(&self.rulings),
            notes,
        })
    }
}

impl GivenReply {
    /// What is told of it, behind the files that are passed over.
    fn told(
        &self,
        alloc: Global,
        names: &[PathBuf],
        passed: Vec<u8>,
    ) -> Result<CommandOutput, AllocError>
        ensures { IfOk result (IsReplyTold names.now passed.items self.now) }
    {
        match self {
            GivenReply::Ruled(ruled) => ruled.told(alloc, names, passed),
            GivenReply::Missing(side, number) => missing_told(alloc, passed, *side, *number),
            GivenReply::Refused(refusal) => refusal_told(alloc, names, refusal),
        }
    }
}

impl GivenAudit {
    /// What `audit` and `batch` tell over given volumes: the lines of the rulings, and 0 where each accepts; standard
    /// error says which files are passed over, which are the last files, and which the volumes. `none` and which volume
    /// is missing, or why the volumes of a side aren't one journal, and the status 1. `AllocError` where a growth was
    /// refused.
    pub fn told(
        &self,
        alloc: Global,
        names: &[PathBuf],
        detail: NoteDetail,
    ) -> Result<CommandOutput, AllocError>
        ensures { IfOk result (IsGivenTold names.now self.now) }
    {
        let passed = passed_over(alloc, names, &self.passed_over, detail)?;
        self.reply.told(alloc, names, passed)
    }
}
