//! Frames of the link, whole and in pieces.

ghost use Rattle.std.specs.Prelude.{◌≤◌, ◌<◌};

use crate::prefixes::add_error;
use crate::unit_words::{add_reply, add_role, add_update};
use binding_rules::{Counter, Role, ServerState};
use failover_message::{Feed, Frame, FrameKind, LinkError, decode, encode};
use line_words::{add_number, add_word};
use probe_lines::Arguments;
use std::alloc::{AllocError, Global};
use text_fields::push_octets;

/// The name of RFC 8156, section 5.
fn kind_name(kind: &FrameKind) -> &'static [u8] {
    match kind {
        FrameKind::BindingUpdate(_) => b"BNDUPD",
        FrameKind::BindingReply(_) => b"BNDREPLY",
        FrameKind::PoolRequest => b"POOLREQ",
        FrameKind::PoolResponse { .. } => b"POOLRESP",
        FrameKind::UpdateRequest => b"UPDREQ",
        FrameKind::UpdateRequestAll => b"UPDREQALL",
        FrameKind::UpdateDone => b"UPDDONE",
        FrameKind::Connect { .. } => b"CONNECT",
        FrameKind::ConnectReply { .. } => b"CONNECTREPLY",
        FrameKind::Disconnect => b"DISCONNECT",
        FrameKind::State(_) => b"STATE",
        FrameKind::Contact { .. } => b"CONTACT",
    }
}

fn add_connect(out: &mut Vec<u8>, role: Role, last: Counter) -> Result<(), AllocError> {
    add_role(out, role)?;
    add_number(out, last.number())
}

fn state_name(state: ServerState) -> &'static [u8] {
    match state {
        ServerState::Normal => b"normal",
        ServerState::Interrupted => b"interrupted",
        ServerState::Down => b"down",
    }
}

/// Returns what a frame says, behind its kind's name.
fn add_body(out: &mut Vec<u8>, kind: &FrameKind) -> Result<(), AllocError> {
    match kind {
        FrameKind::BindingUpdate(update) => add_update(out, update),
        FrameKind::BindingReply(reply) => add_reply(out, reply),
        FrameKind::PoolResponse { moved } => add_number(out, u64::from(*moved)),
        FrameKind::Connect { role, last } | FrameKind::ConnectReply { role, last } => {
            add_connect(out, *role, *last)
        }
        FrameKind::State(state) => add_word(out, state_name(*state)),
        FrameKind::Contact { ask, answer } => {
            add_number(out, ask.number())?;
            add_number(out, answer.number())
        }
        _ => Ok(()),
    }
}

/// The term, the serial, the kind and what it says.
fn add_frame(out: &mut Vec<u8>, frame: &Frame) -> Result<(), AllocError> {
    add_number(out, u64::from(frame.term))?;
    add_number(out, frame.serial.number())?;
    add_word(out, kind_name(&frame.kind))?;
    add_body(out, &frame.kind)
}

/// `same` where a frame is written as these octets, else the octets that it is written as.
fn add_written(
    alloc: Global,
    out: &mut Vec<u8>,
    frame: &Frame,
    octets: &[u8],
) -> Result<(), AllocError> {
    match encode(alloc, frame) {
        Ok(written) if written.as_slice() == octets => add_word(out, b"same"),
        Ok(written) => {
            out.push(b' ')?;
            push_octets(out, written.as_slice())
        }
        Err(error) => add_error(alloc, out, &error),
    }
}

/// `frame OCTETS`: the frame, and whether it is written as the same octets; or the fault.
pub fn frame(
    alloc: Global,
    arguments: &mut Arguments<'_>,
    out: &mut Vec<u8>,
) -> Result<(), AllocError> {
    let octets = arguments.octets(alloc)?;
    match decode(&octets) {
        Ok(frame) => {
            add_frame(out, &frame)?;
            add_word(out, b"=")?;
            add_written(alloc, out, &frame, &octets)
        }
        Err(error) => add_error(alloc, out, &error),
    }
}

fn add_fed(
    alloc: Global,
    out: &mut Vec<u8>,
    fed: &Result<Vec<Frame>, LinkError>,
) -> Result<(), AllocError> {
    match fed {
        Err(error) => add_error(alloc, out, error),
        Ok(frames) if frames.is_empty() => add_word(out, b"-"),
        Ok(frames) => {
            for frame in frames {
                add_frame(out, frame)?;
                out.push(b';')?;
            }
            Ok(())
        }
    }
}

/// `feed OCTETS OCTETS ..`: what each piece of a stream gives, each frame with a semicolon behind it, or `-`.
pub fn feed(
    alloc: Global,
    arguments: &mut Arguments<'_>,
    out: &mut Vec<u8>,
) -> Result<(), AllocError> {
    let mut feed = Feed::new(alloc);
    for _ in 0..u16::MAX {
        if arguments.is_done() {
            break;
        }
        let piece = arguments.octets(alloc)?;
        let fed = feed.feed(&piece);
        add_fed(alloc, out, &fed)?;
    }
    Ok(())
}

/// A stream's frames, fed in pieces of a length: how many, and their octets.
fn fed_in_pieces(alloc: Global, stream: &[u8], length: usize) -> Result<(u64, Vec<u8>), LinkError>
    requires { 1 ≤ length }
{
    let mut feed = Feed::new(alloc);
    let mut octets = Vec::new(alloc);
    let mut count = 0u64;
    for piece in stream.chunks(length) {
        for frame in &feed.feed(piece)? {
            count = count.saturating_add(1);
            octets.extend_from_slice(encode(alloc, frame)?.as_slice())?;
        }
    }
    Ok((count, octets))
}

/// `pieces OCTETS LENGTH ..`: of a stream that is fed in pieces of each length, how many frames it gives, and whether
/// they are written as the stream.
pub fn pieces(
    alloc: Global,
    arguments: &mut Arguments<'_>,
    out: &mut Vec<u8>,
) -> Result<(), AllocError> {
    let stream = arguments.octets(alloc)?;
    for _ in 0..u16::MAX {
        if arguments.is_done() {
            break;
        }
        let length = arguments.number(1 << 20).max(1);
        match fed_in_pieces(alloc, &stream, length as usize) {
            Ok((count, octets)) => {
                add_number(out, count)?;
                add_word(out, if octets == stream { b"same" } else { b"others" })?;
            }
            Err(error) => add_error(alloc, out, &error)?,
        }
    }
    Ok(())
}
