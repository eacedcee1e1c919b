//! Judged certificates, as they are written.

ghost use Rattle.std.specs.Prelude.{◌≡◌, ◌++◌, IfOk, OnOk};
ghost use Rattle.archive_desk.specs.Certificates.{line_of, status_of, IsNotedOf, IsJudgedMore, AreSaid, IsJudgedTold};
ghost use Rattle.archive_desk.specs.CommandOutputs.{said_of, noted_first};
ghost use Rattle.archive_desk.specs.Warnings.{warned, warned_all};

use crate::certificates::JudgedAnswer;
use crate::command_output::CommandOutput;
use crate::coverage_gaps::{TimingBounds, gap_line, push_gap_name};
use crate::judging::{ArchiveJudgement, PairWarnings};
use crate::names::push_journals;
use archive_files::FilesError;
use pair_judgement::{judgement_line, status_of};
use std::alloc::{AllocError, Global};
use std::path::PathBuf;

impl ArchiveJudgement {
    /// 0 where the certificate is accepted, else 1.
    pub fn status(&self) -> u8
        ensures { result ≡ status_of self.now }
    {
        match self {
            ArchiveJudgement::Ruled(_, ruling) | ArchiveJudgement::Faulty(ruling) => status_of(
                ruling,
            ),
            ArchiveJudgement::Lacking(_, _) => 1,
        }
    }

    /// Appends the line of the ruling, or what is lacking.
    pub fn push_line(&self, alloc: Global, out: &mut Vec<u8>) -> Result<(), AllocError>
        ensures { OnOk result (out.new.items ≡ out.old.items ++ line_of self.now) }
    {
        match self {
            ArchiveJudgement::Ruled(_, ruling) | ArchiveJudgement::Faulty(ruling) => {
                out.extend_from_slice(&judgement_line(alloc, ruling)?)
            }
            ArchiveJudgement::Lacking(side, lack) => {
                push_gap_name(out, *side, lack)?;
                out.push(b'\n')?;
                Ok(())
            }
        }
    }

    /// What is noted of it: the two files, or why a side lacks them.
    pub fn noted(
        &self,
        alloc: Global,
        names: &[PathBuf],
        bounds: &TimingBounds,
    ) -> Result<Vec<u8>, AllocError>
        ensures { IfOk result (λ notes. IsNotedOf names.now self.now notes.items) }
    {
        match self {
            ArchiveJudgement::Ruled(pair, _) => {
                let mut notes = Vec::new(alloc);
                push_journals(&mut notes, names, pair)?;
                Ok(notes)
            }
            ArchiveJudgement::Faulty(_) => Ok(Vec::new(alloc)),
            ArchiveJudgement::Lacking(side, lack) => gap_line(alloc, names, *side, lack, bounds),
        }
    }
}

impl CommandOutput {
    /// Tells of one certificate more.
    fn tell_judged(
        &mut self,
        alloc: Global,
        names: &[PathBuf],
        judged: &ArchiveJudgement,
        bounds: &TimingBounds,
    ) -> Result<(), FilesError>
        ensures { OnOk result (IsJudgedMore names.now judged.now (said_of self.old) (said_of self.new)) }
    {
        judged.push_line(alloc, &mut self.text)?;
        if judged.status() != 0 {
            self.status = 1;
        }
        self.notes
            .extend_from_slice(&judged.noted(alloc, names, bounds)?)?;
        Ok(())
    }
}

/// Appends the warnings on a pair of volumes behind the line that names its files; nothing where there are none.
fn push_warned(
    out: &mut Vec<u8>,
    names: &[PathBuf],
    warnings: &PairWarnings,
) -> Result<(), AllocError>
    ensures { OnOk result (out.new.items ≡ out.old.items ++ warned names.now warnings.now) }
{
    if warnings.text.is_empty() {
        return Ok(());
    }
    push_journals(out, names, &warnings.pair)?;
    out.extend_from_slice(&warnings.text)?;
    Ok(())
}

/// The warnings on pairs of volumes, one behind the other. `AllocError` where a growth was refused.
pub fn warned_all(
    alloc: Global,
    names: &[PathBuf],
    warnings: &[PairWarnings],
) -> Result<Vec<u8>, AllocError>
    ensures { IfOk result (λ text. text.items ≡ warned_all names.now warnings.now) }
{
    let mut out = Vec::new(alloc);
    for each in warnings {
        push_warned(&mut out, names, each)?;
    }
    Ok(out)
}

/// Tells of one certificate behind the other, behind warnings.
fn tell_all(
    alloc: Global,
    names: &[PathBuf],
    warnings: Vec<u8>,
    all: &[ArchiveJudgement],
    bounds: &TimingBounds,
) -> Result<CommandOutput, FilesError>
    ensures { IfOk result (λ told. AreSaid names.now all.now (noted_first warnings.items) (said_of told)) }
{
    let mut told = CommandOutput::noting(alloc, warnings);
    for judged in all {
        told.tell_judged(alloc, names, judged, bounds)?;
    }
    Ok(told)
}

impl JudgedAnswer {
    /// What `audit` and `batch` tell: of one certificate behind the other, behind warnings. `Memory` where a growth was
    /// refused.
    pub fn told(&self, alloc: Global, names: &[PathBuf]) -> Result<CommandOutput, FilesError>
        ensures { IfOk result (IsJudgedTold names.now self.now) }
    {
        let warnings = warned_all(alloc, names, &self.warnings)?;
        tell_all(alloc, names, warnings, &self.judged, &self.bounds)
    }
}
