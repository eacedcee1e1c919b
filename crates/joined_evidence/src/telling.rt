//! The evidence of an interval, as it is written.

ghost use Rattle.std.specs.Prelude.{◌≡◌, ◌++◌, IfOk, OnOk};
ghost use Rattle.certificate.specs.Spelling.{certificate_text};
ghost use Rattle.attribution_desk.specs.Searching.{answer_text};
ghost use Rattle.archive_desk.specs.CommandOutputs.{said_of, noted_first};
ghost use Rattle.archive_desk.specs.Telling.{falls_short, evidence_text, IsEvidenceNoted};
ghost use Rattle.joined_evidence.specs.Telling.{joined_text, joined_status, IsJoinedNoted, stretch_text};
ghost use Rattle.joined_evidence.specs.Telling.{stretch_status, IsStretchNoted, IsStretchMore, AreStretchesSaid};
ghost use Rattle.joined_evidence.specs.Telling.{IsEvidenceTold};

use crate::span_searching::SpanEvidence;
use crate::stretches::{SpannedEvidence, SpannedStretch};
use archive_desk::{
    CommandOutput, EvidenceReply, TimingBounds, gap_line, passed_over, push_journals, push_volumes,
};
use archive_files::FilesError;
use attribution_desk::SearchAnswer;
use causal_order::Certificate;
use desk_args::NoteDetail;
use lead_time::Reading;
use std::alloc::{AllocError, Global};
use std::path::PathBuf;
use text_fields::push_number;
use time_text::push_time;

/// Returns whether two journals that end there end before this moment.
fn falls_short(until: &Option<u64>, end: u64) -> bool
    ensures { result ≡ falls_short until.now end }
{
    match until {
        Some(until) => *until < end,
        None => false,
    }
}

/// Appends a moment as a time, or one that is none in milliseconds.
fn push_moment(out: &mut Vec<u8>, moment: u64) -> Result<(), AllocError> {
    match Reading::new(moment) {
        Ok(reading) => push_time(out, reading),
        Err(_) => push_number(out, moment),
    }
}

/// The line that says that the two files show less than was asked of, or nothing.
fn reach_line(alloc: Global, until: &Option<u64>, end: u64) -> Result<Vec<u8>, AllocError> {
    let mut line = Vec::new(alloc);
    if let Some(until) = until {
        if *until < end {
            line.extend_from_slice(b"lacking Later: these two files show nothing from ")?;
            push_moment(&mut line, *until)?;
            line.extend_from_slice(b" on\n")?;
        }
    }
    Ok(line)
}

/// Appends what the desk answers.
fn push_answer(alloc: Global, out: &mut Vec<u8>, answer: &SearchAnswer) -> Result<(), FilesError>
    ensures { OnOk result (out.new.items ≡ out.old.items ++ answer_text answer.now) }
{
    let Ok(text) = answer.evidence_text(alloc) else {
        return Err(FilesError::Memory);
    };
    out.extend_from_slice(&text)?;
    Ok(())
}

/// Appends what the desk answers over a pair of volumes, behind the line that names the two files; or `none`.
fn push_own(
    alloc: Global,
    out: &mut Vec<u8>,
    names: &[PathBuf],
    reply: &EvidenceReply,
) -> Result<(), FilesError>
    ensures { OnOk result (out.new.items ≡ out.old.items ++ evidence_text names.now reply.now) }
{
    match reply {
        EvidenceReply::Answered { pair, answer, .. } => {
            push_journals(out, names, pair)?;
            push_answer(alloc, out, answer)
        }
        EvidenceReply::Lacking(_, _) => {
            out.extend_from_slice(b"none\n")?;
            Ok(())
        }
    }
}

/// What is noted of the reply of a pair of volumes to a question that asks of nothing from `end` on: which moments are
/// lacking, and why.
fn own_notes(
    alloc: Global,
    names: &[PathBuf],
    reply: &EvidenceReply,
    bounds: &TimingBounds,
    end: u64,
) -> Result<Vec<u8>, AllocError>
    ensures { IfOk result (λ notes. IsEvidenceNoted reply.now notes.items) }
{
    match reply {
        EvidenceReply::Answered {
            answer,
            warnings,
            until,
            ..
        } => {
            let mut notes = Vec::new(alloc);
            notes.extend_from_slice(warnings)?;
            notes.extend_from_slice(answer.note())?;
            notes.extend_from_slice(&reach_line(alloc, until, end)?)?;
            Ok(notes)
        }
        EvidenceReply::Lacking(side, lack) => gap_line(alloc, names, *side, lack, bounds),
    }
}

/// Appends a certificate's text.
fn push_certificate(
    alloc: Global,
    out: &mut Vec<u8>,
    certificate: &Certificate,
) -> Result<(), FilesError>
    ensures { OnOk result (out.new.items ≡ out.old.items ++ certificate_text certificate.now) }
{
    let Ok(text) = certificate::write(alloc, certificate) else {
        return Err(FilesError::Memory);
    };
    out.extend_from_slice(&text)?;
    Ok(())
}

impl SpanEvidence {
    /// Appends the certificate, behind the line that names the last file of each side.
    fn push_text(
        &self,
        alloc: Global,
        out: &mut Vec<u8>,
        names: &[PathBuf],
    ) -> Result<(), FilesError>
        ensures { OnOk result (out.new.items ≡ out.old.items ++ joined_text names.now self.now) }
    {
        push_journals(out, names, &self.pair)?;
        push_certificate(alloc, out, &self.certificate)
    }

    /// 0 where the volumes show all before `end`, else 1.
    pub fn status_up_to(&self, end: u64) -> u8
        ensures { result ≡ joined_status end self.now }
    {
        if falls_short(&self.until, end) { 1 } else { 0 }
    }

    /// What is noted of it to a question that asks of nothing from `end` on: the volumes where they are several of a
    /// side, the warnings on the two journals (K2, K3), and which moments are lacking.
    fn noted(&self, alloc: Global, end: u64) -> Result<Vec<u8>, AllocError>
        ensures { IfOk result (λ notes. IsJoinedNoted self.now notes.items) }
    {
        let mut notes = Vec::new(alloc);
        push_volumes(&mut notes, &self.spans)?;
        notes.extend_from_slice(&self.warnings)?;
        notes.extend_from_slice(&reach_line(alloc, &self.until, end)?)?;
        Ok(notes)
    }
}

impl SpannedStretch {
    /// Appends the evidence of the stretch, behind the line that names the two files; or `none`.
    fn push_text(
        &self,
        alloc: Global,
        out: &mut Vec<u8>,
        names: &[PathBuf],
    ) -> Result<(), FilesError>
        ensures { OnOk result (out.new.items ≡ out.old.items ++ stretch_text names.now self.now) }
    {
        match self {
            SpannedStretch::Own(found) => push_own(alloc, out, names, &found.reply),
            SpannedStretch::Joined(evidence, _) => evidence.push_text(alloc, out, names),
        }
    }

    /// 0 where evidence of all of the stretch was found, else 1.
    pub fn status(&self) -> u8
        ensures { result ≡ stretch_status self.now }
    {
        match self {
            SpannedStretch::Own(found) => found.reply.status_up_to(found.end),
            SpannedStretch::Joined(evidence, end) => evidence.status_up_to(*end),
        }
    }

    /// What is noted of the stretch: of spans which volumes they are; the warnings, and which moments are lacking.
    fn noted(
        &self,
        alloc: Global,
        names: &[PathBuf],
        bounds: &TimingBounds,
    ) -> Result<Vec<u8>, AllocError>
        ensures { IfOk result (λ notes. IsStretchNoted self.now notes.items) }
    {
        match self {
            SpannedStretch::Own(found) => own_notes(alloc, names, &found.reply, bounds, found.end),
            SpannedStretch::Joined(evidence, end) => evidence.noted(alloc, *end),
        }
    }
}

/// What is told so far, and of one stretch more.
fn with_stretch(
    alloc: Global,
    names: &[PathBuf],
    told: CommandOutput,
    stretch: &SpannedStretch,
    bounds: &TimingBounds,
) -> Result<CommandOutput, FilesError>
    ensures { IfOk result (λ more. IsStretchMore names.now stretch.now (said_of told) (said_of more)) }
{
    let CommandOutput {
        text,
        status,
        notes,
    } = told;
    let mut text = text;
    let mut notes = notes;
    stretch.push_text(alloc, &mut text, names)?;
    notes.extend_from_slice(&stretch.noted(alloc, names, bounds)?)?;
    let status = if stretch.status() == 0 { status } else { 1 };
    Ok(CommandOutput {
        text,
        status,
        notes,
    })
}

/// Tells of one stretch behind the other, behind these notes.
fn tell_all(
    alloc: Global,
    names: &[PathBuf],
    notes: Vec<u8>,
    all: &[SpannedStretch],
    bounds: &TimingBounds,
) -> Result<CommandOutput, FilesError>
    ensures { IfOk result (λ told. AreStretchesSaid names.now all.now (noted_first notes.items) (said_of told)) }
{
    let mut told = CommandOutput::noting(alloc, notes);
    for stretch in all {
        told = with_stretch(alloc, names, told, stretch, bounds)?;
    }
    Ok(told)
}

impl SpannedEvidence {
    /// What `find` tells: of one stretch behind the other. Standard output has the two files of each and the
    /// certificate, or `none`; the status is 0 where evidence of all is found. Standard error says first which files
    /// are passed over, and then of each stretch its volumes where it is over several of a side, the warnings, and what
    /// is lacking. `Memory` where a growth was refused.
    pub fn told(
        &self,
        alloc: Global,
        names: &[PathBuf],
        detail: NoteDetail,
    ) -> Result<CommandOutput, FilesError>
        ensures { IfOk result (IsEvidenceTold names.now self.now) }
    {
        let bounds = TimingBounds {
            skew: self.query.skew,
            transit: self.query.transit,
        };
        let notes = passed_over(alloc, names, &self.passed_over, detail)?;
        tell_all(alloc, names, notes, &self.stretches, &bounds)
    }
}
