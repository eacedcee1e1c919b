//! Answering over the journals of files.

use crate::fault::DeskFault;
use crate::finding::{found, found_json};
use crate::given_volumes::are_in_order;
use crate::judging::{judged, judged_json};
use crate::spans::{none_told, shortfall_of};
use crate::writing::{or_fault, write_both, write_out};
use crate::zones::{style_of, zone_named};
use archive_desk::{
    ArchiveAnswer, ArchiveQuestion, CommandOutput, FilesAnswer, FilesFailure, TimingBounds, answer,
    failure,
};
use archive_files::FilesError;
use attribution_desk::{Command, UsageError};
use desk_args::{JoinQuery, MomentSpan, NoteDetail, ReportForm, ReportOptions, SettingsCheck};
use desk_reports::{
    ReportQuestion, ReportStyle, explain_files, explain_spans, failed_told, fault_data,
    holder_in_files, refused_data, who_data,
};
use join_desk::join_files;
use journal_paths::{JournalPaths, PathError};
use lead_time::{Skew, Transit};
use plain_search::HolderQuery;
use std::fs;
use std::net::Net;
use std::path::Path;
use std::sync::Wait;
use std::thread::Threads;
use volume_spans::SpanPair;

/// The files that are asked: the paths of journals, and the text of certificates.
#[derive(Clone, Copy)]
pub(crate) struct FilesAsked<'a> {
    pub(crate) paths: &'a [&'a str],
    pub(crate) certificates: &'a [u8],
    /// For which moments round the one asked of the answer of `who` must hold too.
    pub(crate) span: MomentSpan,
    /// How much is said of files that are passed over.
    pub(crate) detail: NoteDetail,
    /// Over which volumes certificates are judged, where that is asked for.
    pub(crate) volumes: Option<SpanPair>,
}

/// What a command asks over files, but to judge certificates; `None` where it asks nothing of files.
fn question_of<'a>(command: &Command) -> Option<ArchiveQuestion<'a>> {
    match command {
        Command::Who(query, settings) => Some(ArchiveQuestion::Who(*query, *settings)),
        Command::Timeline => Some(ArchiveQuestion::Timeline),
        // (certificates are judged elsewhere, and evidence is found elsewhere)
        Command::Find(_) | Command::Audit { .. } | Command::Batch { .. } | Command::Clocks => None,
    }
}

/// The files that paths name. `Path` where one names nothing or can't be looked at.
pub(crate) fn files_at<'a>(
    rt: &'a HostRuntime,
    net: &impl Net,
    paths: &[&str],
) -> Result<JournalPaths<'a>, DeskFault> {
    match JournalPaths::at(rt, net, paths) {
        Ok(files) => Ok(files),
        Err(PathError { word, .. }) => {
            let path = paths.get(word).copied().unwrap_or("");
            Err(DeskFault::at(rt.alloc(), path))
        }
    }
}

/// Warns of sockets at which no server answered.
fn warn_of_silent(rt: &HostRuntime, files: &JournalPaths) {
    for socket in files.silent() {
        let path = socket.as_path().as_str();
        let _ = eprintln!(rt;
            "warning Control {path}: no server answers; what is read there may not be on the disk yet"
        );
    }
}

/// The files that are asked, with a warning of sockets at which no server answered.
pub(crate) fn files_asked<'a>(
    rt: &'a HostRuntime,
    net: &impl Net,
    asked: &FilesAsked,
) -> Result<JournalPaths<'a>, DeskFault> {
    let files = files_at(rt, net, asked.paths)?;
    warn_of_silent(rt, &files);
    Ok(files)
}

/// Why files answer nothing.
pub(crate) fn why_not(
    rt: &HostRuntime,
    files: &JournalPaths,
    error: &FilesError,
) -> Result<FilesFailure, DeskFault> {
    failure(rt.alloc(), files.paths(), error).map_err(|_| DeskFault::memory())
}

/// What files answer to a command, and the files.
fn asked_of<'a>(
    rt: &'a HostRuntime,
    handles: &(impl Threads + Wait + Net + Sync),
    command: &Command,
    asked: &FilesAsked,
) -> Result<(JournalPaths<'a>, Result<FilesAnswer, FilesError>), DeskFault> {
    let Some(question) = question_of(command) else {
        return Err(DeskFault::Usage(UsageError::Usage));
    };
    let files = files_asked(rt, handles, asked)?;
    let found = answer(handles, rt.alloc(), &files, files.paths(), &question);
    Ok((files, found))
}

/// What is told of an answer.
fn told_of(
    rt: &HostRuntime,
    files: &JournalPaths,
    answer: &FilesAnswer,
    detail: NoteDetail,
) -> Result<CommandOutput, DeskFault> {
    answer
        .told(rt.alloc(), files.paths(), detail)
        .map_err(|_| DeskFault::memory())
}

/// Returns whether a command judges certificates.
fn judges(command: &Command) -> bool {
    matches!(command, Command::Audit { .. } | Command::Batch { .. })
}

/// Answers a command.
pub(crate) fn answered(
    rt: &HostRuntime,
    handles: &(impl Threads + Wait + Net + Sync),
    command: &Command,
    asked: &FilesAsked,
) -> Result<u8, DeskFault> {
    if judges(command) {
        return judged(rt, handles, command, asked);
    }
    if let Command::Find(query) = command {
        return found(rt, handles, query, asked);
    }
    let (files, found) = asked_of(rt, handles, command, asked)?;
    match found {
        Ok(found) => write_out(rt, &told_for_all(rt, &files, &found, asked)?),
        Err(error) => write_out(rt, &why_not(rt, &files, &error)?.told(rt.alloc())),
    }
}

/// What is told of an answer that must hold for all of the moments: `none` where it doesn't.
fn told_for_all(
    rt: &HostRuntime,
    files: &JournalPaths,
    found: &FilesAnswer,
    asked: &FilesAsked,
) -> Result<CommandOutput, DeskFault> {
    let told = told_of(rt, files, found, asked.detail)?;
    match shortfall_of(rt.alloc(), asked.span, &found.answer) {
        Ok(None) => Ok(told),
        Ok(Some(line)) => {
            none_told(rt.alloc(), &told.notes, &line).map_err(|_| DeskFault::memory())
        }
        Err(_) => Err(DeskFault::memory()),
    }
}

/// The object of an answer, with what is told of it.
fn object_of(
    rt: &HostRuntime,
    files: &JournalPaths,
    found: &FilesAnswer,
    told: &CommandOutput,
) -> Result<Vec<u8>, DeskFault> {
    let (alloc, notes) = (rt.alloc(), told.notes.as_slice());
    let data = match &found.answer {
        ArchiveAnswer::Who(answer) => who_data(alloc, answer, notes),
        // (a timeline has no object; those of evidence and of certificates are made elsewhere)
        ArchiveAnswer::Find(_) | ArchiveAnswer::Judged(_) | ArchiveAnswer::Timeline(_) =>
            return Err(DeskFault::Usage(UsageError::Usage)),
    };
    data.map_err(DeskFault::Desk)
}

/// The command's name in an object.
fn name_of(command: &Command) -> &'static str {
    match command {
        Command::Audit { .. } => "audit",
        Command::Batch { .. } => "batch",
        Command::Timeline => "timeline",
        Command::Clocks => "clocks",
        Command::Find(_) => "find",
        Command::Who(_, _) => "who",
    }
}

/// The object of why files answer nothing, or their fault.
pub(crate) fn object_without(
    rt: &HostRuntime,
    command: &Command,
    failure: FilesFailure,
) -> Result<CommandOutput, DeskFault> {
    let alloc = rt.alloc();
    let told = match failure {
        FilesFailure::Refused(line) => refused_data(alloc, name_of(command), &line).map(|text| {
            CommandOutput {
                text,
                status: 1,
                notes: Vec::new(alloc),
            }
        }),
        FilesFailure::Fault(line) => fault_data(alloc, &line).map(|text| CommandOutput {
            text,
            status: 2,
            notes: line,
        }),
    };
    told.map_err(|_| DeskFault::memory())
}

/// Answers a command, as one JSON object.
fn object_written(
    rt: &HostRuntime,
    handles: &(impl Threads + Wait + Net + Sync),
    command: &Command,
    asked: &FilesAsked,
) -> Result<u8, DeskFault> {
    let (files, found) = asked_of(rt, handles, command, asked)?;
    let found = match found {
        Ok(found) => found,
        Err(error) => {
            let failure = why_not(rt, &files, &error)?;
            return write_out(rt, &object_without(rt, command, failure)?);
        }
    };
    let told = told_for_all(rt, &files, &found, asked)?;
    let lack = shortfall_of(rt.alloc(), asked.span, &found.answer).map_err(
        |_| DeskFault::memory(),
    )?;
    let text = match lack {
        None => object_of(rt, &files, &found, &told)?,
        Some(_) => refused_data(rt.alloc(), "who", b"none").map_err(|_| DeskFault::memory())?,
    };
    write_both(rt, &text, &told.notes)?;
    Ok(told.status)
}

/// Answers a command, as one JSON object, whatever keeps it from an answer.
pub(crate) fn answered_json(
    rt: &HostRuntime,
    handles: &(impl Threads + Wait + Net + Sync),
    command: &Command,
    asked: &FilesAsked,
) -> Result<u8, DeskFault> {
    let written = match command {
        Command::Audit { .. } | Command::Batch { .. } => judged_json(rt, handles, command, asked),
        Command::Find(query) => found_json(rt, handles, query, asked),
        _ => object_written(rt, handles, command, asked),
    };
    or_fault(rt, ReportForm::Json, written)
}

/// What is reported on the certificate of a file: over the volumes that are asked for, or over those that show it.
fn explained_over(
    rt: &HostRuntime,
    handles: &(impl Threads + Wait + Net + Sync),
    files: &JournalPaths,
    bounds: &TimingBounds,
    style: &ReportStyle,
    asked: &FilesAsked,
) -> Result<Result<CommandOutput, FilesError>, DeskFault> {
    let (alloc, names, certificate) = (rt.alloc(), files.paths(), asked.certificates);
    match &asked.volumes {
        None => Ok(explain_files(handles, alloc, files, names, certificate, bounds, style)),
        Some(spans) if are_in_order(spans) => Ok(explain_spans(
            handles,
            alloc,
            files,
            names,
            spans,
            certificate,
            bounds,
            style,
        )),
        Some(_) => Err(DeskFault::Usage(UsageError::Usage)),
    }
}

/// A report on the certificate of a file.
fn explain_written(
    rt: &HostRuntime,
    handles: &(impl Threads + Wait + Net + Sync),
    bounds: &TimingBounds,
    telling: &ReportOptions,
    asked: &FilesAsked,
) -> Result<u8, DeskFault> {
    let zone = zone_named(rt, telling.zone)?;
    let files = files_asked(rt, handles, asked)?;
    let style = style_of(telling, &zone, asked.detail);
    let told = match explained_over(rt, handles, &files, bounds, &style, asked)? {
        Ok(told) => told,
        Err(error) => {
            let failure = why_not(rt, &files, &error)?;
            let question = ReportQuestion::Certificate(asked.certificates);
            failed_told(rt.alloc(), question, failure, style.form).map_err(|_| DeskFault::memory())?
        }
    };
    write_out(rt, &told)
}

/// A report on the certificate of a file, in the form that is asked for, whatever keeps it from one.
pub(crate) fn explained(
    rt: &HostRuntime,
    handles: &(impl Threads + Wait + Net + Sync),
    skew: Skew,
    transit: Transit,
    telling: &ReportOptions,
    asked: &FilesAsked,
) -> Result<u8, DeskFault> {
    let bounds = TimingBounds { skew, transit };
    let written = explain_written(rt, handles, &bounds, telling, asked);
    or_fault(rt, telling.form, written)
}

/// Who held a prefix, and a report on that.
fn holder_written(
    rt: &HostRuntime,
    handles: &(impl Threads + Wait + Net + Sync),
    query: &HolderQuery,
    settings: SettingsCheck,
    telling: &ReportOptions,
    asked: &FilesAsked,
) -> Result<u8, DeskFault> {
    let zone = zone_named(rt, telling.zone)?;
    let files = files_asked(rt, handles, asked)?;
    let (alloc, names) = (rt.alloc(), files.paths());
    let style = style_of(telling, &zone, asked.detail);
    let told = match holder_in_files(handles, alloc, &files, names, query, settings, &style) {
        Ok(told) => told,
        Err(error) => {
            let failure = why_not(rt, &files, &error)?;
            let question = ReportQuestion::Holder(query);
            failed_told(alloc, question, failure, style.form).map_err(|_| DeskFault::memory())?
        }
    };
    write_out(rt, &told)
}

/// Who held a prefix, and a report on that, in the form that is asked for, whatever keeps it from one.
pub(crate) fn holder_explained(
    rt: &HostRuntime,
    handles: &(impl Threads + Wait + Net + Sync),
    query: &HolderQuery,
    settings: SettingsCheck,
    telling: &ReportOptions,
    asked: &FilesAsked,
) -> Result<u8, DeskFault> {
    let written = holder_written(rt, handles, query, settings, telling, asked);
    or_fault(rt, telling.form, written)
}

/// Volumes of a side put together as one journal.
pub(crate) fn joined(
    rt: &HostRuntime,
    net: &impl Net,
    query: &JoinQuery,
    asked: &FilesAsked,
) -> Result<u8, DeskFault> {
    let files = files_asked(rt, net, asked)?;
    match join_files(rt.alloc(), &files, files.paths(), query, asked.detail) {
        Ok(told) => write_out(rt, &told),
        Err(error) => write_out(rt, &why_not(rt, &files, &error)?.told(rt.alloc())),
    }
}

/// The octets of a file. `Path` where it can't be read.
pub(crate) fn octets_of(rt: &HostRuntime, path: &str) -> Result<Vec<u8>, DeskFault> {
    match fs::read(rt, Path::new(path)) {
        Ok(octets) => Ok(octets),
        Err(_) => Err(DeskFault::at(rt.alloc(), path)),
    }
}
