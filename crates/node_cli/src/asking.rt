//! Asking the server of a directory, by its control socket.

use crate::fault::NodeFault;
use node_daemon::CONTROL;
use server_status::{ControlReply, ControlRequest, ControlVerdict};
use std::alloc::Global;
use std::io::{self, ErrorKind, Read, Write};
use std::net::Net;
use std::os::unix::net::UnixStream;
use std::path::Path;
use std::time::Duration;

/// How many seconds the server may take to answer.
const LONGEST_WAIT: u64 = 30;

/// The most octets of an answer.
const MOST_OCTETS: u64 = 1 << 20;

/// Why a server isn't reached at its socket: who asks may not, or it doesn't run.
fn fault_of(error: &io::Error) -> NodeFault {
    match error.kind() {
        ErrorKind::PermissionDenied => NodeFault::NotPermitted,
        _ => NodeFault::Silent,
    }
}

/// What the server answers to a request. `NotPermitted` where who asks may not reach its socket; `Silent` where no
/// server runs in the directory, or it doesn't answer.
fn answer_of(
    net: &impl Net,
    alloc: Global,
    directory: &str,
    request: &ControlRequest,
) -> Result<Vec<u8>, NodeFault> {
    let path = Path::new(directory).join(alloc, CONTROL)?;
    match UnixStream::connect(net, path.as_path().as_str()) {
        Ok(stream) => asked(alloc, stream, request).ok_or(NodeFault::Silent),
        Err(error) => Err(fault_of(&error)),
    }
}

/// What is answered to a request over a stream; `None` where nothing is.
fn asked(alloc: Global, mut stream: UnixStream, request: &ControlRequest) -> Option<Vec<u8>> {
    let longest = Some(Duration::from_secs(LONGEST_WAIT));
    stream.set_read_timeout(longest).ok()?;
    stream.write_all(request.words().as_bytes()).ok()?;
    stream.write_all(b"\n").ok()?;
    let mut octets = Vec::new(alloc);
    stream.take(MOST_OCTETS).read_to_end(&mut octets).ok()?;
    Some(octets)
}

/// Asks the server of a directory, and says what it answers: its text on standard output, or on standard error why it
/// refuses. Gives the status: 0 where it was done, 1 where it was refused. `NotPermitted` where who asks may not reach
/// its socket; `Silent` where no server runs there, or what it says is no answer.
pub fn ask(
    rt: &HostRuntime,
    net: &impl Net,
    directory: &str,
    request: &ControlRequest,
) -> Result<u8, NodeFault> {
    let octets = answer_of(net, rt.alloc(), directory, request)?;
    let Ok(words) = str::from_utf8(&octets) else {
        return Err(NodeFault::Silent);
    };
    match ControlReply::read(words) {
        Some(
            ControlReply {
                verdict: ControlVerdict::Done,
                text,
            },
        ) => match rt.stdout().write_all(text.as_bytes()) {
            Ok(()) => Ok(0),
            Err(_) => Err(NodeFault::Write),
        },
        Some(
            ControlReply {
                verdict: ControlVerdict::Refused(reason),
                ..
            },
        ) => {
            let _ = eprintln!(rt; "node: refused: {reason}");
            Ok(1)
        }
        None => Err(NodeFault::Silent),
    }
}
