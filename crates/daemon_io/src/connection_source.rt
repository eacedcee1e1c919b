//! The door by which connections with the partner come.

ghost use Rattle.std.specs.Prelude.{◌≡◌, take};
ghost use Rattle.link_notices.specs.Nonces.{EndsSo};

use crate::non_blocking_stream::NonBlockingStream;
use crate::polling::PollRegistry;
use link_notices::NONCE_END;
use mio::net::{TcpListener, TcpStream};
use std::io;
use std::net::{Net, SocketAddr};
use std::random::RandomSource;
use std::time::{Duration, Instant};

/// How long a source waits before it calls again.
#[derive(Clone, Copy, Debug, PartialEq, Eq)]
pub enum Pause {
    /// 1 s, behind a connection that stood.
    Short,
    /// 2 s, behind any other, and behind a call that came to none.
    Long,
    /// 10 s, behind a connection of two servers that stay apart.
    Apart,
}

impl Pause {
    /// How many seconds it lasts.
    fn seconds(self) -> u64 {
        match self {
            Pause::Short => 1,
            Pause::Long => 2,
            Pause::Apart => 10,
        }
    }
}

/// How many seconds a call may last.
const LONGEST_CALL: u64 = 5;

/// A connection that has come, and its nonce: 24 octets that the system's generator drew for it alone, and the mark of
/// an end that understands notices.
#[derive(Drop)]
pub struct NewConnection<S: NonBlockingStream> {
    pub stream: S,
    pub nonce: [u8; 32],
}

/// Where connections with the partner come from.
pub trait ConnectionSource: Drop {
    type Stream: NonBlockingStream;

    /// The next connection, where one has come by now. A side that calls begins a call where it is time for one.
    fn next_connection(&mut self, now: Instant) -> Option<NewConnection<Self::Stream>>;

    /// Closes another connection, while one stands. Returns whether one had come.
    fn reject_next(&mut self) -> bool;

    /// A connection is over: the next call is a pause later.
    fn back_off(&mut self, pause: Pause, now: Instant);
}

/// A call of the partner's address.
#[derive(Drop)]
struct ConnectAttempt {
    stream: TcpStream,
    begun: Instant,
}

/// The primary's way to the secondary: it calls its address.
#[derive(Drop)]
struct Connector {
    address: SocketAddr,
    call: Option<ConnectAttempt>,
    /// Not before this the next call begins.
    next: Instant,
}

/// The door of a server by the system's sockets.
#[derive(Drop)]
pub struct SystemConnectionSource<'a, R: Net + RandomSource> {
    system: &'a R,
    watched: PollRegistry,
    way: SourceMode,
}

/// How connections come.
#[derive(Drop)]
enum SourceMode {
    /// There is no partner.
    None,
    /// The secondary listens.
    Listening(TcpListener),
    /// The primary calls.
    Calling(Connector),
}

/// How far a call has come.
enum ConnectProgress {
    /// It goes on.
    On(ConnectAttempt),
    /// It has the connection.
    Answered(TcpStream),
    /// It failed, or lasted too long.
    Over,
}

/// Looks how far a call has come.
fn looked_at(call: ConnectAttempt, now: Instant) -> ConnectProgress {
    if let Ok(None) = call.stream.take_error() {
        if call.stream.peer_addr().is_ok() {
            return ConnectProgress::Answered(call.stream);
        }
        if now.duration_since(call.begun).as_secs() < LONGEST_CALL {
            return ConnectProgress::On(call);
        }
    }
    ConnectProgress::Over
}

/// The moment that is a pause later.
fn later(now: Instant, pause: Pause) -> Instant {
    now.checked_add(Duration::from_secs(pause.seconds()))
        .unwrap_or(now)
}

/// The nonce of an end that understands notices, of the octets that were drawn for it.
fn nonce_of(drawn: &[u8; 24]) -> [u8; 32]
    ensures drawn { take 24 result ≡ drawn.now }
    ensures end { EndsSo result }
{
    let mut nonce = [0u8; 32];
    nonce[..24].copy_from_slice(drawn);
    nonce[24..].copy_from_slice(&NONCE_END);
    nonce
}

impl Connector {
    /// Begins a call, where it is time for one.
    fn begin(&mut self, net: &impl Net, watched: &PollRegistry, now: Instant) {
        if now < self.next {
            return;
        }
        self.next = later(now, Pause::Long);
        let Ok(mut stream) = TcpStream::connect(net, self.address) else {
            return;
        };
        if watched.add_both(&mut stream).is_ok() {
            self.call = Some(ConnectAttempt { stream, begun: now });
        }
    }

    /// The connection that a call came to by now.
    fn answered(
        &mut self,
        net: &impl Net,
        watched: &PollRegistry,
        now: Instant,
    ) -> Option<TcpStream> {
        let Some(call) = self.call.take() else {
            self.begin(net, watched, now);
            return None;
        };
        match looked_at(call, now) {
            ConnectProgress::On(call) => {
                self.call = Some(call);
                None
            }
            ConnectProgress::Answered(stream) => Some(stream),
            ConnectProgress::Over => {
                self.next = later(now, Pause::Long);
                None
            }
        }
    }
}

/// The next connection to a listener, where one has come.
fn accepted(listener: &TcpListener, watched: &PollRegistry) -> Option<TcpStream> {
    let (mut stream, _) = listener.accept().ok()?;
    watched.add_both(&mut stream).ok()?;
    Some(stream)
}

impl<'a, R: Net + RandomSource> SystemConnectionSource<'a, R> {
    /// No connection comes.
    pub fn shut(system: &'a R, watched: PollRegistry) -> SystemConnectionSource<'a, R> {
        SystemConnectionSource {
            system,
            watched,
            way: SourceMode::None,
        }
    }

    /// Listens for the partner at an address.
    pub fn listen(
        system: &'a R,
        address: SocketAddr,
        watched: PollRegistry,
    ) -> io::Result<SystemConnectionSource<'a, R>> {
        let mut listener = TcpListener::bind(system, address)?;
        watched.add_reads(&mut listener)?;
        Ok(SystemConnectionSource {
            system,
            watched,
            way: SourceMode::Listening(listener),
        })
    }

    /// Calls the partner at an address, from now on.
    pub fn call(
        system: &'a R,
        address: SocketAddr,
        watched: PollRegistry,
        now: Instant,
    ) -> SystemConnectionSource<'a, R> {
        SystemConnectionSource {
            system,
            watched,
            way: SourceMode::Calling(Connector {
                address,
                call: None,
                next: now,
            }),
        }
    }
}

impl<R: Net + RandomSource> ConnectionSource for SystemConnectionSource<'_, R> {
    type Stream = TcpStream;

    fn next_connection(&mut self, now: Instant) -> Option<NewConnection<TcpStream>> {
        let stream = match &mut self.way {
            SourceMode::None => None,
            SourceMode::Listening(listener) => accepted(listener, &self.watched),
            SourceMode::Calling(calling) => calling.answered(self.system, &self.watched, now),
        }?;
        stream.set_nodelay(true).ok()?;
        let mut drawn = [0u8; 24];
        self.system.fill_bytes(&mut drawn).ok()?;
        Some(NewConnection {
            stream,
            nonce: nonce_of(&drawn),
        })
    }

    fn reject_next(&mut self) -> bool {
        match &self.way {
            SourceMode::None | SourceMode::Calling(_) => false,
            SourceMode::Listening(listener) => listener.accept().is_ok(),
        }
    }

    fn back_off(&mut self, pause: Pause, now: Instant) {
        if let SourceMode::Calling(calling) = &mut self.way {
            calling.next = later(now, pause);
        }
    }
}
