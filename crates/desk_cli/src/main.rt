//! The desk as a program: its words are what is asked and where its texts come from, which is standard input or files;
//! standard output gets the answer, standard error the warnings, and the status says whether everything was accepted
//! (0), something was refused (1) or a fault kept the desk from answering (2).
#![tactic(auto)]

mod before;
mod copying;
mod fault;
mod finding;
mod given_facts;
mod given_volumes;
mod judging;
mod listing;
mod over_files;
mod over_input;
mod spans;
mod writing;
mod zones;

use attribution_desk::{Command, DeskRequest, InputSource, Invocation, UsageError};
use before::{form_in, heads_asked, no_order, order_of, say_note};
use desk_args::{AnswerForm, MomentSpan, Surroundings, outline_of};
use fault::DeskFault;
use given_facts::expect_facts;
use given_volumes::volumes_given;
use over_files::{FilesAsked, octets_of};
use std::net::Net;
use std::process::ExitCode;
use std::sync::Wait;
use std::thread::Threads;
use std::{env, io};
use writing::{form_of, or_fault};
use zone_times::ZoneFile;
use zones::zone_named;

/// The words of the command line; `Usage` where one isn't text.
fn words_given(rt: &HostRuntime) -> Result<Vec<String>, UsageError> {
    let words = env::args(rt).map_err(usage_fault)?;
    words.collect(rt.alloc()).map_err(|_| UsageError::Memory)
}

fn usage_fault(error: io::Error) -> UsageError {
    if error.kind() == io::ErrorKind::OutOfMemory {
        UsageError::Memory
    } else {
        UsageError::Usage
    }
}

/// Answers over standard input.
fn answered_input(
    rt: &HostRuntime,
    handles: &(impl Threads + Wait + Sync),
    request: &DeskRequest,
    span: MomentSpan,
) -> Result<u8, DeskFault> {
    match request {
        DeskRequest::Answer(Command::Who(query, settings), form) if span != MomentSpan::Alone => {
            over_input::held_for_all(rt, handles, query, *settings, span, *form)
        }
        DeskRequest::Answer(command, AnswerForm::Plain) => over_input::answered(
            rt, handles, command,
        ),
        DeskRequest::Answer(command, AnswerForm::Json) => over_input::answered_json(
            rt, handles, command,
        ),
        DeskRequest::Explain {
            skew,
            transit,
            telling,
        } => over_input::explained(rt, handles, *skew, *transit, telling),
        DeskRequest::ExplainHolder(query, settings, telling) => {
            over_input::holder_explained(rt, handles, query, *settings, telling)
        }
        // (volumes are put together and listed out of files alone)
        DeskRequest::Join(_) | DeskRequest::Copy(_) | DeskRequest::Volumes => Err(DeskFault::Usage(
            UsageError::Usage,
        )),
    }
}

/// Answers over files.
fn answered_files(
    rt: &HostRuntime,
    handles: &(impl Threads + Wait + Net + Sync),
    request: &DeskRequest,
    asked: &FilesAsked,
) -> Result<u8, DeskFault> {
    match request {
        DeskRequest::Answer(command, AnswerForm::Plain) => {
            over_files::answered(rt, handles, command, asked)
        }
        DeskRequest::Answer(command, AnswerForm::Json) => {
            over_files::answered_json(rt, handles, command, asked)
        }
        DeskRequest::Explain {
            skew,
            transit,
            telling,
        } => over_files::explained(rt, handles, *skew, *transit, telling, asked),
        DeskRequest::ExplainHolder(query, settings, telling) => {
            over_files::holder_explained(rt, handles, query, *settings, telling, asked)
        }
        DeskRequest::Join(query) => over_files::joined(rt, handles, query, asked),
        DeskRequest::Copy(query) => copying::copied(rt, handles, query, asked),
        DeskRequest::Volumes => listing::listed(rt, handles, asked),
    }
}

/// A report is on one moment: `Words` where it is asked of more.
fn expect_one_moment(rt: &HostRuntime, order: &Invocation) -> Result<(), DeskFault> {
    match (&order.request, order.span) {
        (DeskRequest::ExplainHolder(_, _, _), MomentSpan::Within(_) | MomentSpan::Minute) => {
            let said = "error: a report is on one moment: ask without --within and --minute";
            match String::from_str(rt.alloc(), said) {
                Ok(said) => Err(DeskFault::Words(said)),
                Err(_) => Err(DeskFault::memory()),
            }
        }
        _ => Ok(()),
    }
}

/// Answers an order, with the zone that it names.
fn order_answered(
    rt: &HostRuntime,
    handles: &(impl Threads + Wait + Net + Sync),
    order: &Invocation,
    zone: Option<&ZoneFile>,
) -> Result<u8, DeskFault> {
    expect_one_moment(rt, order)?;
    expect_facts(rt.alloc(), &order.request, zone)?;
    let volumes = volumes_given(rt.alloc(), order)?;
    say_note(rt, order.address);
    match &order.source {
        InputSource::Input => answered_input(rt, handles, &order.request, order.span),
        InputSource::Journals(paths) => {
            let asked = FilesAsked {
                paths,
                certificates: b"",
                span: order.span,
                detail: order.detail,
                volumes,
            };
            answered_files(rt, handles, &order.request, &asked)
        }
        InputSource::Certified(paths, file) => {
            let form = form_of(&order.request);
            let certificates = or_fault(rt, form, octets_of(rt, file))?;
            let asked = FilesAsked {
                paths,
                certificates: &certificates,
                span: order.span,
                detail: order.detail,
                volumes,
            };
            answered_files(rt, handles, &order.request, &asked)
        }
    }
}

/// Reads what the words name, judges them, and answers what they order.
fn answered(
    rt: &HostRuntime,
    handles: &(impl Threads + Wait + Net + Sync),
    words: &[String],
) -> Result<u8, DeskFault> {
    let outline = match outline_of(rt.alloc(), words) {
        Ok(outline) => outline,
        Err(UsageError::Memory) => return Err(DeskFault::memory()),
        Err(UsageError::Usage) => {
            let nothing = Surroundings {
                zone: None,
                heads: None,
            };
            return Err(no_order(rt, words, &nothing));
        }
    };
    let form = form_in(words);
    let zone = or_fault(rt, form, zone_named(rt, outline.zone))?;
    let heads = or_fault(rt, form, heads_asked(rt, handles, &outline))?;
    let order = order_of(rt, words, &zone, heads)?;
    order_answered(rt, handles, &order, zone.as_ref())
}

fn main(rt: HostRuntime) -> ExitCode {
    let words = match words_given(&rt) {
        Ok(words) => words,
        Err(fault) => {
            let _ = eprintln!(rt; "{fault}");
            return ExitCode::from(2);
        }
    };
    match answered(&rt, &rt, &words) {
        Ok(status) => ExitCode::from(status),
        Err(fault) => {
            let _ = eprintln!(rt; "{fault}");
            ExitCode::from(2)
        }
    }
}
