//! Certificates, judged over the journals of files.

use crate::fault::DeskFault;
use crate::given_volumes::are_in_order;
use crate::over_files::{FilesAsked, files_asked, object_without, why_not};
use crate::writing::{write_both, write_out};
use archive_desk::{CommandOutput, TimingBounds};
use archive_files::FilesError;
use attribution_desk::{Command, UsageError};
use desk_args::Workers;
use desk_reports::{audit_data, given_audit_data};
use joined_rulings::{
    GivenAudit, SpannedAudit, audit_spans, audit_widest, batch_spans, batch_widest,
};
use journal_paths::JournalPaths;
use std::alloc::AllocError;
use std::net::Net;
use std::sync::Wait;
use std::thread::Threads;
use volume_spans::SpanPair;

/// How certificates are judged.
#[derive(Clone, Copy)]
enum Judging {
    /// One certificate, by one worker.
    Audit(TimingBounds),
    /// Any number of them, by so many workers.
    Batch(TimingBounds, Workers),
}

/// What is judged over files: over given volumes, or over those that show it.
#[derive(Drop)]
enum JudgedFiles {
    Given(GivenAudit),
    Widest(SpannedAudit),
}

/// How a command judges. `Usage` where it doesn't.
fn judging_of(command: &Command) -> Result<Judging, DeskFault> {
    match command {
        Command::Audit { skew, transit } => Ok(Judging::Audit(TimingBounds {
            skew: *skew,
            transit: *transit,
        })),
        Command::Batch {
            skew,
            transit,
            workers,
        } => {
            let bounds = TimingBounds {
                skew: *skew,
                transit: *transit,
            };
            Ok(Judging::Batch(bounds, *workers))
        }
        _ => Err(DeskFault::Usage(UsageError::Usage)),
    }
}

/// Judges over the volumes that are asked for.
fn judged_given(
    rt: &HostRuntime,
    handles: &(impl Threads + Wait + Net + Sync),
    files: &JournalPaths,
    spans: &SpanPair,
    judging: Judging,
    texts: &[u8],
) -> Result<Result<GivenAudit, FilesError>, DeskFault> {
    if !are_in_order(spans) {
        return Err(DeskFault::Usage(UsageError::Usage));
    }
    let (alloc, names) = (rt.alloc(), files.paths());
    let audit = match judging {
        Judging::Audit(bounds) => audit_spans(handles, alloc, files, names, spans, texts, &bounds),
        Judging::Batch(bounds, workers) => {
            batch_spans(handles, alloc, files, names, spans, texts, &bounds, workers)
        }
    };
    Ok(audit)
}

/// Judges over the volumes that show it.
fn judged_widest(
    rt: &HostRuntime,
    handles: &(impl Threads + Wait + Net + Sync),
    files: &JournalPaths,
    judging: Judging,
    texts: &[u8],
) -> Result<SpannedAudit, FilesError> {
    let (alloc, names) = (rt.alloc(), files.paths());
    match judging {
        Judging::Audit(bounds) => audit_widest(handles, alloc, files, names, texts, &bounds),
        Judging::Batch(bounds, workers) => {
            batch_widest(handles, alloc, files, names, texts, &bounds, workers)
        }
    }
}

/// What files answer to certificates, or why they don't.
fn judged_over(
    rt: &HostRuntime,
    handles: &(impl Threads + Wait + Net + Sync),
    files: &JournalPaths,
    command: &Command,
    asked: &FilesAsked,
) -> Result<Result<JudgedFiles, FilesError>, DeskFault> {
    let judging = judging_of(command)?;
    match &asked.volumes {
        Some(spans) => {
            let audit = judged_given(rt, handles, files, spans, judging, asked.certificates)?;
            Ok(audit.map(|audit| JudgedFiles::Given(audit)))
        }
        None => {
            let audit = judged_widest(rt, handles, files, judging, asked.certificates);
            Ok(audit.map(|audit| JudgedFiles::Widest(audit)))
        }
    }
}

impl JudgedFiles {
    /// What is told of it.
    fn told(
        &self,
        rt: &HostRuntime,
        files: &JournalPaths,
        asked: &FilesAsked,
    ) -> Result<CommandOutput, DeskFault> {
        let (alloc, names) = (rt.alloc(), files.paths());
        let told = match self {
            JudgedFiles::Given(audit) => audit.told(alloc, names, asked.detail),
            JudgedFiles::Widest(audit) => audit.told(alloc, names, asked.detail),
        };
        told.map_err(|_| DeskFault::memory())
    }

    /// The same as one JSON object, with the status and the lines of standard error.
    fn data(
        &self,
        rt: &HostRuntime,
        files: &JournalPaths,
        told: &CommandOutput,
    ) -> Result<Vec<u8>, AllocError> {
        let (alloc, notes) = (rt.alloc(), told.notes.as_slice());
        match self {
            JudgedFiles::Given(audit) => {
                given_audit_data(alloc, files.paths(), audit, told.status, notes)
            }
            JudgedFiles::Widest(audit) => audit_data(alloc, audit, told.status, notes),
        }
    }
}

/// Judges certificates.
pub(crate) fn judged(
    rt: &HostRuntime,
    handles: &(impl Threads + Wait + Net + Sync),
    command: &Command,
    asked: &FilesAsked,
) -> Result<u8, DeskFault> {
    let files = files_asked(rt, handles, asked)?;
    match judged_over(rt, handles, &files, command, asked)? {
        Ok(judged) => write_out(rt, &judged.told(rt, &files, asked)?),
        Err(error) => write_out(rt, &why_not(rt, &files, &error)?.told(rt.alloc())),
    }
}

/// Judges certificates, as one JSON object.
pub(crate) fn judged_json(
    rt: &HostRuntime,
    handles: &(impl Threads + Wait + Net + Sync),
    command: &Command,
    asked: &FilesAsked,
) -> Result<u8, DeskFault> {
    let files = files_asked(rt, handles, asked)?;
    let judged = match judged_over(rt, handles, &files, command, asked)? {
        Ok(judged) => judged,
        Err(error) => {
            let failure = why_not(rt, &files, &error)?;
            return write_out(rt, &object_without(rt, command, failure)?);
        }
    };
    let told = judged.told(rt, &files, asked)?;
    let text = judged
        .data(rt, &files, &told)
        .map_err(|_| DeskFault::memory())?;
    write_both(rt, &text, &told.notes)?;
    Ok(told.status)
}
