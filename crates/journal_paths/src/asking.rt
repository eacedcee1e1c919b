//! Asking a server, by its control socket.

use crate::synced::{Synced, synced_in};
use server_status::{ControlReply, ControlRequest, ControlVerdict, StatusFormat};
use std::alloc::Global;
use std::io::{Read, Write};
use std::net::Net;
use std::os::unix::net::UnixStream;
use std::path::Path;
use std::time::Duration;

/// How many seconds the server may take to answer.
const LONGEST_WAIT: u64 = 10;

/// The most octets of an answer.
const MOST_OCTETS: u64 = 1 << 20;

/// What the server of a control socket answers to a request; `None` where none does.
fn answer_of(
    net: &impl Net,
    alloc: Global,
    control: Path<'_>,
    request: &ControlRequest,
) -> Option<Vec<u8>> {
    let mut stream = UnixStream::connect(net, control.as_str()).ok()?;
    let longest = Some(Duration::from_secs(LONGEST_WAIT));
    stream.set_read_timeout(longest).ok()?;
    stream.write_all(request.words().as_bytes()).ok()?;
    stream.write_all(b"\n").ok()?;
    let mut octets = Vec::new(alloc);
    stream.take(MOST_OCTETS).read_to_end(&mut octets).ok()?;
    Some(octets)
}

/// What the server of a control socket says of its disk; `None` where no server answers there, or says nothing of it.
pub fn ask(net: &impl Net, alloc: Global, control: Path<'_>) -> Option<Synced> {
    let octets = answer_of(
        net,
        alloc,
        control,
        &ControlRequest::Status(StatusFormat::Json),
    )?;
    let Ok(words) = str::from_utf8(&octets) else {
        return None;
    };
    match ControlReply::read(words) {
        Some(
            ControlReply {
                verdict: ControlVerdict::Done,
                text,
            },
        ) => synced_in(alloc, text),
        Some(
            ControlReply {
                verdict: ControlVerdict::Refused(_),
                ..
            },
        )
        | None => None,
    }
}
