//! How the two ends of the link meet: the secondary listens, the primary connects.

use binding_rules::Role;
use node_threads::Turns;
use std::net::{Net, OpenListener, SocketAddr, TcpListener, TcpStream};
use std::sync::Wait;
use std::thread;
use std::time::{Clock as Handle, Duration};

/// How many milliseconds an end sleeps between two looks.
const LOOK: u64 = 50;

/// How many milliseconds an end waits before it tries again at first, and each time later.
pub const FIRST_PAUSE: u64 = 1_000;

pub const LATER_PAUSE: u64 = 10_000;

/// Where streams to the partner come from.
#[derive(Drop)]
pub enum PartnerSocket<L: OpenListener + Drop> {
    /// The secondary's address, to which the primary connects.
    Partner(SocketAddr),
    /// The secondary's own listener.
    Listener(L),
}

impl<L: OpenListener + Drop> PartnerSocket<L> {
    pub fn listener(&self) -> Option<&L> {
        match self {
            PartnerSocket::Partner(_) => None,
            PartnerSocket::Listener(listener) => Some(listener),
        }
    }
}

/// Sleeps so many milliseconds, or until the workers have ended: false then.
pub fn rests<R: Wait + Handle>(rt: &R, turns: &Turns, milliseconds: u64) -> bool {
    for _ in 0..milliseconds / LOOK {
        if turns.has_ended(rt) {
            return false;
        }
        thread::sleep(rt, Duration::from_millis(LOOK));
    }
    !turns.has_ended(rt)
}

/// The primary's door is the address, the secondary's a listener there that blocks nobody. `None` where it can't
/// listen.
fn opens<R: Net>(rt: &R, role: Role, address: SocketAddr) -> Option<PartnerSocket<R::Listener>> {
    match role {
        Role::Primary => Some(PartnerSocket::Partner(address)),
        Role::Secondary => {
            let listener = TcpListener::bind(rt, address).ok()?;
            listener.set_nonblocking(true).ok()?;
            Some(PartnerSocket::Listener(listener))
        }
    }
}

/// The door of a side; where it can't be opened, that is said once and tried again. `None` where the workers have ended
/// before.
pub fn door_of<R: Wait + Handle + Net, P: Print>(
    rt: &R,
    role: Role,
    address: SocketAddr,
    turns: &Turns,
    notes: &P,
) -> Option<PartnerSocket<R::Listener>> {
    let mut pause = FIRST_PAUSE;
    for _ in rt.forever() {
        if let Some(door) = opens(rt, role, address) {
            return Some(door);
        }
        if pause == FIRST_PAUSE {
            let _ = println!(notes;
                "node: can't listen for its partner at {address}, and tries again"
            );
        }
        if !rests(rt, turns, pause) {
            return None;
        }
        pause = LATER_PAUSE;
    }
    unreachable!()
}

/// A stream by the door, if there is one now.
fn tried<R: Net>(rt: &R, door: &PartnerSocket<R::Listener>) -> Option<R::Stream> {
    match door {
        PartnerSocket::Partner(address) => {
            TcpStream::connect_timeout(rt, address, Duration::from_secs(1)).ok()
        }
        PartnerSocket::Listener(listener) => {
            let (stream, _) = listener.accept().ok()?;
            Some(stream)
        }
    }
}

/// The next stream to the partner. `None` where the workers have ended before.
pub fn next_stream<R: Wait + Handle + Net>(
    rt: &R,
    door: &PartnerSocket<R::Listener>,
    turns: &Turns,
) -> Option<R::Stream> {
    let mut pause = match door {
        PartnerSocket::Partner(_) => FIRST_PAUSE,
        PartnerSocket::Listener(_) => LOOK,
    };
    for _ in rt.forever() {
        if let Some(stream) = tried(rt, door) {
            return Some(stream);
        }
        if !rests(rt, turns, pause) {
            return None;
        }
        if let PartnerSocket::Partner(_) = door {
            pause = LATER_PAUSE;
        }
    }
    unreachable!()
}
