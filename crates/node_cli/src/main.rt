//! A node as a program: its words are the command. Of `check` and `run` standard input has the settings (or of `check`
//! a file), standard output gets what they are worth or the journal, and the status says whether the node ran (0), its
//! settings were refused (1) or a fault kept it from that (2). `serve` serves a directory as a daemon, and ends by 3
//! where the disk failed, and by 4 where its volume was removed; the others ask the daemon of a directory, and print
//! what it answers.
#![tactic(auto)]

ghost use Rattle.std.specs.Prelude.{◌<◌, ◌^◌, length, IsErrOf};

mod advising;
mod asking;
mod checking;
mod fault;
mod link_key;
mod serving;
mod verdict;

use advising::{DocumentName, advise};
use asking::ask;
use checking::check_settings;
use fault::NodeFault;
use node_args::{ArgsError, NodeCommand, RunCommand, advice_of, command_of};
use node_run::{RunResult, run_node};
use node_threads::NodeSettings;
use server_book::OpenError;
use serving::serve_directory;
use std::alloc::Global;
use std::fs::Files;
use std::io::{Read, Write};
use std::net::Net;
use std::process::ExitCode;
use std::random::RandomSource;
use std::sync::Wait;
use std::thread::Threads;
use std::time::Clock;
use std::{env, io};

/// The most octets of settings: sixteen pools and all keys take two thousand, so an endless input ends here.
const MOST_OCTETS: usize = 1 << 20;

/// The settings that a text has; `Settings` too where it is longer than that.
fn settings_in(alloc: Global, text: &[u8]) -> Result<NodeSettings, OpenError>
    ensures long { 2 ^ 20 < length text.now → IsErrOf result OpenError.Settings }
{
    if text.len() > MOST_OCTETS {
        return Err(OpenError::Settings);
    }
    NodeSettings::read(alloc, text)
}

/// The text that a run writes, and the status, or the fault that it ended by.
#[derive(Drop)]
struct RunAnswer {
    octets: Vec<u8>,
    status: Result<u8, NodeFault>,
}

impl RunAnswer {
    fn of(run: RunResult) -> RunAnswer {
        RunAnswer {
            octets: run.journal,
            status: match run.received {
                Ok(_) => Ok(0),
                Err(why) => Err(NodeFault::Node(why)),
            },
        }
    }
}

/// Returns what a run comes to; what its settings lack, or what is odd in them, is said in notes.
fn answer<R: Threads + Wait + Sync + Net + Clock, P: Print + Sync>(
    rt: &R,
    alloc: Global,
    command: RunCommand,
    text: &[u8],
    notes: &P,
) -> Result<RunAnswer, NodeFault>
where
    R::Stream: Send + Drop,
    R::Listener: Send + Drop,
{
    let settings = settings_in(alloc, text);
    advise(
        notes,
        alloc,
        DocumentName::Own,
        text,
        settings.as_ref().map_err(|error| *error),
    );
    match settings {
        Err(OpenError::Memory) => Err(NodeFault::Memory),
        Err(refusal) => Ok(RunAnswer {
            octets: format!(in alloc; "{refusal}\n")?.into_bytes(),
            status: Ok(1),
        }),
        Ok(settings) => {
            match run_node(rt, alloc, &settings, command.count, command.partner, notes) {
                Ok(run) => Ok(RunAnswer::of(run)),
                Err(error) => Err(NodeFault::Run(error)),
            }
        }
    }
}

/// The words of the command line; `Usage` where one isn't text.
fn words_given(rt: &HostRuntime) -> Result<Vec<String>, NodeFault> {
    let words = match env::args(rt) {
        Ok(words) => words,
        Err(error) => return Err(memory_or(error, NodeFault::Words(ArgsError::Usage))),
    };
    words.collect(rt.alloc()).map_err(|_| NodeFault::Memory)
}

/// Returns what ends the program where its words or its input didn't come: want of memory, or the fault.
fn memory_or(error: io::Error, fault: NodeFault) -> NodeFault {
    if error.kind() == io::ErrorKind::OutOfMemory {
        NodeFault::Memory
    } else {
        fault
    }
}

/// What standard input has, as far as settings go.
fn input_of(rt: &HostRuntime) -> Result<Vec<u8>, NodeFault> {
    let mut text = Vec::new(rt.alloc());
    let mut input = rt.stdin().take(MOST_OCTETS as u64 + 1);
    match input.read_to_end(&mut text) {
        Ok(_) => Ok(text),
        Err(error) => Err(memory_or(error, NodeFault::Read)),
    }
}

/// Runs by the settings on standard input.
fn run_by_input<R: Threads + Wait + Sync + Net + Clock>(
    rt: &HostRuntime,
    handles: &R,
    command: RunCommand,
) -> Result<u8, NodeFault>
where
    R::Stream: Send + Drop,
    R::Listener: Send + Drop,
{
    let text = input_of(rt)?;
    let outcome = match answer(handles, rt.alloc(), command, &text, &rt.stderr()) {
        Ok(outcome) => outcome,
        Err(fault) => return Err(fault),
    };
    match rt.stdout().write_all(&outcome.octets) {
        Ok(()) => outcome.status,
        Err(_) => Err(NodeFault::Write),
    }
}

/// Does what the words of the command line ask, and gives the status.
fn answered<R: Threads + Wait + Sync + Files + Net + RandomSource + Clock>(
    rt: &HostRuntime,
    handles: &R,
    words: &[String],
) -> Result<u8, NodeFault>
where
    R::Stream: Send + Drop,
    R::Listener: Send + Drop,
{
    match command_of(rt.alloc(), words)? {
        NodeCommand::Check(command) => check_settings(rt, &command),
        NodeCommand::Run(command) => run_by_input(rt, handles, command),
        NodeCommand::Serve(served) => serve_directory(rt, handles, &served),
        NodeCommand::Ask { directory, request } => {
            ask(rt, handles, directory.as_str(), &request)
        }
    }
}

/// Says on standard error why there is no answer; of words that are no command, what would do too.
fn tell(rt: &HostRuntime, words: &[String], fault: &NodeFault) {
    let _ = eprintln!(rt; "{fault}");
    if let NodeFault::Words(ArgsError::Usage) = fault {
        if let Ok(advice) = advice_of(rt.alloc(), words) {
            let _ = eprintln!(rt; "{advice}");
        }
    }
}

fn main(rt: HostRuntime) -> ExitCode {
    let words = match words_given(&rt) {
        Ok(words) => words,
        Err(fault) => {
            let _ = eprintln!(rt; "{fault}");
            return ExitCode::from(2);
        }
    };
    match answered(&rt, &rt, &words) {
        Ok(status) => ExitCode::from(status),
        Err(fault) => {
            tell(&rt, &words, &fault);
            ExitCode::from(2)
        }
    }
}
