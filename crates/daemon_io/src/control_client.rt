//! One who asks the daemon by the control socket.

use crate::send_buffer::SendBuffer;
use mio::net::UnixStream;
use std::alloc::Global;
use std::io::{ErrorKind, Read};
use std::mem;
use std::time::Instant;

/// The most octets of a request's line.
const LONGEST_LINE: usize = 256;

/// How many seconds one may take to say a line, and to hear the answer.
const LONGEST_CALL: u64 = 5;

/// How far one who asks has come.
#[derive(Clone, Copy, PartialEq, Eq)]
enum ControlStage {
    /// Its line hasn't come whole yet.
    Asking,
    /// Its line has come whole.
    Asked,
    /// Its line was heard, and it waits for the answer.
    Waiting,
    /// It is told the answer.
    Told,
    /// Its connection is over.
    Over,
}

/// One who asks: what came of its line, without the line feed, and what it hasn't been told yet of the answer.
#[derive(Drop)]
pub(crate) struct ControlClient {
    stream: UnixStream,
    /// When it began to ask, or was told the answer.
    begun: Instant,
    stage: ControlStage,
    line: Vec<u8>,
    answer: SendBuffer,
}

impl ControlClient {
    /// One that has come now.
    pub(crate) fn new(alloc: Global, stream: UnixStream, now: Instant) -> ControlClient {
        ControlClient {
            stream,
            begun: now,
            stage: ControlStage::Asking,
            line: Vec::new(alloc),
            answer: SendBuffer::new(alloc),
        }
    }

    /// Returns whether its connection is over.
    pub(crate) fn is_over(&self) -> bool {
        self.stage == ControlStage::Over
    }

    /// Returns whether its line hasn't come whole yet.
    pub(crate) fn is_asking(&self) -> bool {
        self.stage == ControlStage::Asking
    }

    /// Returns whether it waits for its answer.
    pub(crate) fn waits(&self) -> bool {
        self.stage == ControlStage::Waiting
    }

    /// Its line, where that has come whole: from then on it waits for the answer.
    pub(crate) fn line(&mut self, alloc: Global) -> Option<Vec<u8>> {
        if self.stage != ControlStage::Asked {
            return None;
        }
        self.stage = ControlStage::Waiting;
        Some(mem::replace(&mut self.line, Vec::new(alloc)))
    }

    /// Tells it the answer, as far as it hears it now.
    pub(crate) fn tell(&mut self, text: &[u8], now: Instant) {
        self.begun = now;
        self.stage = match self.answer.add(text) {
            Ok(()) => ControlStage::Told,
            Err(_) => ControlStage::Over,
        };
        self.go_on(now);
    }

    /// Hears it, or goes on to tell it, without waiting. One that takes too long is given up.
    pub(crate) fn go_on(&mut self, now: Instant) {
        self.stage = match self.stage {
            ControlStage::Asking => self.heard(),
            ControlStage::Told => self.told(),
            ControlStage::Asked | ControlStage::Waiting | ControlStage::Over => return,
        };
        let is_late = now.duration_since(self.begun).as_secs() >= LONGEST_CALL;
        if is_late && matches!(self.stage, ControlStage::Asking | ControlStage::Told) {
            self.stage = ControlStage::Over;
        }
    }

    /// Takes what has come of its line.
    fn heard(&mut self) -> ControlStage {
        let mut buffer = [0u8; LONGEST_LINE];
        match self.stream.read(&mut buffer) {
            Ok(0) => ControlStage::Over,
            Ok(count) => self.said(&buffer[..count]),
            Err(error) if error.kind() == ErrorKind::WouldBlock => ControlStage::Asking,
            Err(_) => ControlStage::Over,
        }
    }

    /// Takes octets of its line: up to the line feed, behind which nothing counts.
    fn said(&mut self, octets: &[u8]) -> ControlStage {
        let end = octets.iter().position(|octet| *octet == b'\n');
        let front = match end {
            Some(place) => &octets[..place],
            None => octets,
        };
        if self.line.len() + front.len() > LONGEST_LINE
            || self.line.extend_from_slice(front).is_err()
        {
            return ControlStage::Over;
        }
        match end {
            Some(_) => ControlStage::Asked,
            None => ControlStage::Asking,
        }
    }

    /// Writes what it hasn't been told yet.
    fn told(&mut self) -> ControlStage {
        match self.answer.write_to(&mut self.stream) {
            Ok(()) if self.answer.len() == 0 => ControlStage::Over,
            Ok(()) => ControlStage::Told,
            Err(_) => ControlStage::Over,
        }
    }
}
