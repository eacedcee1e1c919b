//! What a person asks by the control socket, and is told.

use daemon_io::Control;
use server_status::{ControlReply, ControlRequest, ControlVerdict};
use std::alloc::Global;
use std::time::Instant;

/// The desk of a server: it hears one request at a time, and holds back what it answers until the lines that this tells
/// of are on the disk.
#[derive(Drop)]
pub struct ControlServer<K: Control> {
    alloc: Global,
    control: K,
    held: Option<String>,
}

/// What a line asks, if it is a request's.
fn request_of(line: &[u8]) -> Option<ControlRequest> {
    ControlRequest::read(str::from_utf8(line).ok()?)
}

impl<K: Control> ControlServer<K> {
    /// A desk by a control socket.
    pub fn new(alloc: Global, control: K) -> ControlServer<K> {
        ControlServer {
            alloc,
            control,
            held: None,
        }
    }

    /// A request that has come. What is none is refused here.
    pub fn next_request(&mut self, now: Instant) -> Option<ControlRequest> {
        let line = self.control.next_request(now)?;
        let request = request_of(&line);
        if request.is_none() {
            self.refuse("this is no request");
        }
        request
    }

    /// Holds an answer back.
    fn hold(&mut self, answer: &ControlReply<'_>) {
        let mut words = String::new(self.alloc);
        self.held = match answer.push(&mut words) {
            Ok(()) => Some(words),
            Err(_) => Some(String::new(self.alloc)),
        };
    }

    /// The request was done; it is told a text.
    pub fn accept_request(&mut self, text: &str) {
        self.hold(&ControlReply {
            verdict: ControlVerdict::Done,
            text,
        });
    }

    /// The request was refused, for a reason of one line.
    pub fn refuse(&mut self, reason: &str) {
        self.hold(&ControlReply {
            verdict: ControlVerdict::Refused(reason),
            text: "",
        });
    }

    /// Tells what was held back.
    pub fn send_replies(&mut self, now: Instant) {
        if let Some(words) = self.held.take() {
            self.control.send_reply(words.as_bytes(), now);
        }
    }

    /// Goes on to tell those who haven't heard all yet.
    pub fn go_on(&mut self, now: Instant) {
        let _ = self.control.next_request(now);
    }
}
