//! Resting until something comes.

use mio::event::Source;
use mio::{Events, Interest, Poll, Registry, Token};
use std::alloc::Global;
use std::io;
use std::net::Net;
use std::time::Duration;

/// How many sockets may end one rest.
const MOST_EVENTS: usize = 64;

/// A way to rest.
pub trait Poller: Drop {
    /// Rests until something may have come, at most so long.
    fn wait(&mut self, longest: Duration) -> io::Result<()>;
}

/// Rests until one of the sockets that it watches has something, or takes octets again.
#[derive(Drop)]
pub struct Readiness {
    poll: Poll,
    events: Events,
}

/// The sockets that a [`Readiness`] watches; one that is dropped leaves them.
#[derive(Drop)]
pub struct PollRegistry {
    registry: Registry,
}

impl Readiness {
    /// It watches no socket yet.
    pub fn new(net: &impl Net, alloc: Global) -> io::Result<Readiness> {
        let poll = Poll::new(net)?;
        let events = Events::with_capacity(alloc, MOST_EVENTS)?;
        Ok(Readiness { poll, events })
    }

    /// Returns what it watches, for a device to add its sockets.
    pub fn registry(&self) -> io::Result<PollRegistry> {
        let registry = self.poll.registry().try_clone()?;
        Ok(PollRegistry { registry })
    }
}

impl PollRegistry {
    /// A rest ends when the source has something to read.
    pub(crate) fn add_reads<S: Source>(&self, source: &mut S) -> io::Result<()> {
        self.registry.register(source, Token(0), Interest::READABLE)
    }

    /// A rest ends when the source has something to read, or takes octets again.
    pub(crate) fn add_both<S: Source>(&self, source: &mut S) -> io::Result<()> {
        let both = Interest::READABLE | Interest::WRITABLE;
        self.registry.register(source, Token(0), both)
    }
}

impl Poller for Readiness {
    fn wait(&mut self, longest: Duration) -> io::Result<()> {
        self.poll.poll(&mut self.events, Some(longest))
    }
}
