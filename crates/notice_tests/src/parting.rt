//! Streams of frames and notices, in chunks of every length.

use crate::texts::{CLOCK, PROGRAM, SETTINGS};
use binding_rules::{Counter, Role};
use failover_message::{Feed, Frame, FrameKind, LinkError};
use link_notices::{StreamPart, StreamSplitter, push_notice};
use std::alloc::Global;
use std::test::Fail;

/// CONNECT of the primary in term 5, with the last message 9.
const CONNECT: [u8; 26] = [
    0, 0, 0, 22, 8, 0, 0, 0, 5, 0, 0, 0, 0, 0, 0, 0, 0, 1, 0, 0, 0, 0, 0, 0, 0, 9,
];

/// DISCONNECT in term 5.
const DISCONNECT: [u8; 17] = [0, 0, 0, 13, 10, 0, 0, 0, 5, 0, 0, 0, 0, 0, 0, 0, 0];

/// What was read of a stream.
#[derive(Drop)]
struct Heard {
    frames: Vec<Frame>,
    /// The texts of notices, a line feed behind each.
    texts: Vec<u8>,
}

/// What is read of a stream that comes in chunks of this length.
fn read(alloc: Global, stream: &[u8], size: usize) -> Result<Heard, Fail> {
    let mut splitter = StreamSplitter::new(alloc);
    let mut feed = Feed::new(alloc);
    let mut frames = Vec::new(alloc);
    let mut texts = Vec::new(alloc);
    for chunk in stream.chunks(size.max(1)) {
        for part in splitter.feed(chunk)?.as_slice() {
            match part {
                StreamPart::Frames(octets) => {
                    frames.extend_from_slice(feed.feed(octets.as_slice())?.as_slice())?;
                }
                StreamPart::Notice(text) => {
                    texts.extend_from_slice(text.as_slice())?;
                    texts.push(b'\n')?;
                }
            }
        }
    }
    Ok(Heard { frames, texts })
}

/// A frame of this kind in term 5, without a serial.
fn frame(kind: FrameKind) -> Frame {
    Frame {
        term: 5,
        serial: Counter::ZERO,
        kind,
    }
}

/// Two frames and three notices.
fn stream(alloc: Global) -> Result<Vec<u8>, Fail> {
    let mut stream = Vec::new(alloc);
    push_notice(&mut stream, PROGRAM)?;
    push_notice(&mut stream, SETTINGS)?;
    stream.extend_from_slice(&CONNECT)?;
    push_notice(&mut stream, CLOCK)?;
    stream.extend_from_slice(&DISCONNECT)?;
    Ok(stream)
}

/// The texts of the three, a line feed behind each.
fn texts(alloc: Global) -> Result<Vec<u8>, Fail> {
    let mut texts = Vec::new(alloc);
    for text in [PROGRAM, SETTINGS, CLOCK] {
        texts.extend_from_slice(text)?;
        texts.push(b'\n')?;
    }
    Ok(texts)
}

#[test]
fn in_chunks_of_every_length(rt: HostRuntime) -> Result<(), Fail> {
    let alloc = rt.alloc();
    let stream = stream(alloc)?;
    let texts = texts(alloc)?;
    let Some(last) = Counter::new(9) else {
        return Err(Fail::from("9 is no counter"));
    };
    let connect = frame(FrameKind::Connect {
        role: Role::Primary,
        last,
    });
    let frames = [connect, frame(FrameKind::Disconnect)];
    for size in 1..=stream.len() {
        let read = read(alloc, &stream, size)?;
        assert!(&rt; read.frames.as_slice() == frames.as_slice());
        assert_eq!(rt; read.texts.as_slice(), texts.as_slice());
    }
    Ok(())
}

/// The fault of the frames, where a stream begins so.
fn fault_of(alloc: Global, stream: &[u8]) -> Result<Option<LinkError>, Fail> {
    let mut splitter = StreamSplitter::new(alloc);
    let mut feed = Feed::new(alloc);
    for part in splitter.feed(stream)?.as_slice() {
        if let StreamPart::Frames(octets) = part {
            if let Err(fault) = feed.feed(octets.as_slice()) {
                return Ok(Some(fault));
            }
        }
    }
    Ok(None)
}

#[test]
fn that_begin_neither(rt: HostRuntime) -> Result<(), Fail> {
    let cases: [(&[u8], Option<LinkError>); 7] = [
        (&[2, 0, 1, b'x'], Some(LinkError::Length)),
        (&[1, 0, 0, b'x'], Some(LinkError::Length)),
        (&[1, 16, 1, b'x'], Some(LinkError::Length)),
        (&[0, 1, 0, 0], Some(LinkError::Length)),
        (&[0, 0, 2, 1], Some(LinkError::Length)),
        (&[1, 16, 0, b'x'], None),
        (&[0, 0, 2, 0], None),
    ];
    for (stream, fault) in cases {
        assert_eq!(rt; fault_of(rt.alloc(), stream)?, fault);
    }
    Ok(())
}
