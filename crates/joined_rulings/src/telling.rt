//! Rulings on certificates, as they are written.

ghost use Rattle.std.specs.Prelude.{◌≡◌, ◌++◌, IfOk, OnOk};
ghost use Rattle.archive_desk.specs.CommandOutputs.{said_of, noted_first};
ghost use Rattle.joined_rulings.specs.Telling.{ruling_line, status_of, joined_notes, IsNotedOf, IsRulingMore};
ghost use Rattle.joined_rulings.specs.Telling.{AreRulingsSaid, IsAuditTold};

use crate::trial::SpanRuling;
use crate::widest::{CertificateRuling, SpannedAudit};
use archive_desk::{
    CommandOutput, TimingBounds, passed_over, push_journals, push_volumes, warned_all,
};
use attribution::Verdict;
use desk_args::NoteDetail;
use pair_judgement::{Judgement, judgement_line};
use std::alloc::{AllocError, Global};
use std::path::PathBuf;

impl SpanRuling {
    /// What is noted of it: the last files, the volumes where they are several of a side, and the warnings on the two
    /// journals (K2, K3). `AllocError` where a growth was refused.
    pub fn noted(&self, alloc: Global, names: &[PathBuf]) -> Result<Vec<u8>, AllocError>
        ensures { IfOk result (λ notes. notes.items ≡ joined_notes names.now self.now) }
    {
        let mut notes = Vec::new(alloc);
        push_journals(&mut notes, names, &self.pair)?;
        push_volumes(&mut notes, &self.spans)?;
        notes.extend_from_slice(&self.warnings)?;
        Ok(notes)
    }
}

impl CertificateRuling {
    /// 0 where the certificate is accepted, else 1.
    pub fn status(&self) -> u8
        ensures { result ≡ status_of self.now }
    {
        match self {
            CertificateRuling::Own(own) => own.status(),
            CertificateRuling::Joined(_) => 0,
        }
    }

    /// Appends the line of the ruling, or what is lacking. `AllocError` where a growth was refused.
    pub fn push_line(&self, alloc: Global, out: &mut Vec<u8>) -> Result<(), AllocError>
        ensures { OnOk result (out.new.items ≡ out.old.items ++ ruling_line self.now) }
    {
        match self {
            CertificateRuling::Own(own) => own.push_line(alloc, out),
            CertificateRuling::Joined(_) => {
                let line = judgement_line(alloc, &Judgement::Verdict(Verdict::Accepted))?;
                out.extend_from_slice(&line)
            }
        }
    }

    /// What is noted of it: of its own pair the two files, or why a side lacks them; of spans their last files and
    /// their volumes. `AllocError` where a growth was refused.
    pub fn noted(
        &self,
        alloc: Global,
        names: &[PathBuf],
        bounds: &TimingBounds,
    ) -> Result<Vec<u8>, AllocError>
        ensures { IfOk result (λ notes. IsNotedOf names.now self.now notes.items) }
    {
        match self {
            CertificateRuling::Own(own) => own.noted(alloc, names, bounds),
            CertificateRuling::Joined(ruling) => ruling.noted(alloc, names),
        }
    }
}

/// What is told so far, and of one certificate more.
fn with_ruling(
    alloc: Global,
    names: &[PathBuf],
    told: CommandOutput,
    ruling: &CertificateRuling,
    bounds: &TimingBounds,
) -> Result<CommandOutput, AllocError>
    ensures { IfOk result (λ more. IsRulingMore names.now ruling.now (said_of told) (said_of more)) }
{
    let CommandOutput {
        text,
        status,
        notes,
    } = told;
    let mut text = text;
    let mut notes = notes;
    ruling.push_line(alloc, &mut text)?;
    notes.extend_from_slice(&ruling.noted(alloc, names, bounds)?)?;
    let status = if ruling.status() == 0 { status } else { 1 };
    Ok(CommandOutput {
        text,
        status,
        notes,
    })
}

/// Tells of one certificate behind the other, behind these notes.
fn tell_all(
    alloc: Global,
    names: &[PathBuf],
    notes: Vec<u8>,
    all: &[CertificateRuling],
    bounds: &TimingBounds,
) -> Result<CommandOutput, AllocError>
    ensures { IfOk result (λ told. AreRulingsSaid names.now all.now (noted_first notes.items) (said_of told)) }
{
    let mut told = CommandOutput::noting(alloc, notes);
    for ruling in all {
        told = with_ruling(alloc, names, told, ruling, bounds)?;
    }
    Ok(told)
}

impl SpannedAudit {
    /// What `audit` and `batch` tell: standard output has the lines of the rulings, one behind the other, and the
    /// status is 0 where each accepts. Standard error says first which files are passed over, then the warnings on the
    /// certificates' own pairs, and then of each ruling its files, and of several volumes of a side which. `AllocError`
    /// where a growth was refused.
    pub fn told(
        &self,
        alloc: Global,
        names: &[PathBuf],
        detail: NoteDetail,
    ) -> Result<CommandOutput, AllocError>
        ensures { IfOk result (IsAuditTold names.now self.now) }
    {
        let mut notes = passed_over(alloc, names, &self.passed_over, detail)?;
        notes.extend_from_slice(&warned_all(alloc, names, &self.warnings)?)?;
        tell_all(alloc, names, notes, &self.rulings, &self.bounds)
    }
}
