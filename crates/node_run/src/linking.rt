//! The node's end of the link: which connection it has, when it has another, and what a person is told of it.

use crate::connection::PartnerWire;
use crate::meeting::{FIRST_PAUSE, LATER_PAUSE, PartnerSocket, door_of, next_stream, rests};
use binding_rules::Role;
use locked_book::{BookName, Pass, ServeError, SharedBook};
use node_threads::{Clock, NodeError, Notices, Turns, serve_link};
use server_book::Settings;
use std::alloc::Global;
use std::net::{Net, OpenStream, SocketAddr};
use std::sync::Wait;
use std::time::Clock as Handle;

/// How a connection ended.
#[derive(Clone, Copy, Debug, PartialEq, Eq)]
enum ConnectionEnd {
    /// This node's workers have ended.
    Served,
    /// The partner said DISCONNECT.
    PartnerGone,
    /// The connection broke, or the partner closed it.
    Lost,
    /// What came isn't what may come there.
    Refused,
    /// This node can't go on with it.
    Failed(NodeError),
}

impl ConnectionEnd {
    /// Returns whether there is to be no other connection.
    fn is_last(&self) -> bool {
        matches!(
            self,
            ConnectionEnd::Served
                | ConnectionEnd::PartnerGone
                | ConnectionEnd::Failed(NodeError::Serve(ServeError::Stranger { .. }))
        )
    }
}

/// How the connection ended, by what its engine gave and what was seen of its wire.
fn ending_of(
    ended: Result<(), NodeError>,
    has_ended: bool,
    has_failed: bool,
    is_over: bool,
) -> ConnectionEnd {
    match ended {
        Ok(()) if is_over => ConnectionEnd::Served,
        Ok(()) if has_ended => ConnectionEnd::Lost,
        Ok(()) => ConnectionEnd::PartnerGone,
        Err(NodeError::Read) if has_failed => ConnectionEnd::Lost,
        Err(NodeError::Read) => ConnectionEnd::Refused,
        Err(NodeError::Write) => ConnectionEnd::Lost,
        Err(fault) => ConnectionEnd::Failed(fault),
    }
}

/// Says how a connection ended.
fn tell<P: Print>(notes: &P, peer: SocketAddr, ending: &ConnectionEnd) {
    let _ = match ending {
        ConnectionEnd::Served => println!(notes; "node: said DISCONNECT to its partner"),
        ConnectionEnd::PartnerGone => println!(notes; "node: its partner said DISCONNECT"),
        ConnectionEnd::Lost => println!(notes; "node: lost the connection with {peer}"),
        ConnectionEnd::Refused => println!(notes;
            "node: refused {peer}: what it sent may not come there, or one of the two has lost its journal"
        ),
        ConnectionEnd::Failed(NodeError::Serve(refusal)) => {
            println!(notes; "node: ended the connection with {peer}: {refusal}")
        }
        ConnectionEnd::Failed(fault) => {
            println!(notes; "node: ended the connection with {peer}: {fault}")
        }
    };
}

/// One connection, from its first frame to its end, which is told. Also whether it stood for a while.
fn served<N: BookName, R: Wait + Handle + Net, C: Clock, P: Print, V: Notices>(
    rt: &R,
    alloc: Global,
    shared: &SharedBook<N>,
    pass: &mut Pass<N>,
    settings: &Settings,
    clock: &C,
    turns: &Turns,
    notes: &P,
    notices: &V,
    stream: R::Stream,
    door: &PartnerSocket<R::Listener>,
) -> (ConnectionEnd, bool) {
    let Ok(peer) = stream.peer_addr() else {
        return (ConnectionEnd::Lost, false);
    };
    let Ok(mut connection) = PartnerWire::new(rt, stream, door.listener()) else {
        return (ConnectionEnd::Lost, false);
    };
    let _ = println!(notes; "node: connected with {peer}");
    let ended = serve_link(
        rt,
        alloc,
        shared,
        pass,
        settings,
        clock,
        turns,
        notices,
        &mut connection,
    );
    let others = connection.others();
    if others > 0 {
        let _ = println!(notes; "node: closed {others} other connections");
    }
    let ending = ending_of(
        ended,
        connection.has_ended(),
        connection.has_failed(),
        turns.has_ended(rt),
    );
    tell(notes, peer, &ending);
    (ending, connection.has_stood())
}

/// Keeps the link to the partner until the workers have ended or the partner said DISCONNECT: the secondary listens at
/// the address and the primary connects to it, again after a second, and then at most every ten. One line for a person
/// tells of each connection, and one of its end.
pub fn keep_link<N: BookName, R: Wait + Handle + Net, C: Clock, P: Print, V: Notices>(
    rt: &R,
    alloc: Global,
    shared: &SharedBook<N>,
    pass: &mut Pass<N>,
    settings: &Settings,
    address: SocketAddr,
    clock: &C,
    turns: &Turns,
    notes: &P,
    notices: &V,
) {
    let Some(door) = door_of(rt, settings.role(), address, turns, notes) else {
        return;
    };
    let _ = match settings.role() {
        Role::Primary => println!(notes; "node: connects to its partner at {address}"),
        Role::Secondary => println!(notes; "node: listens for its partner at {address}"),
    };
    let mut pause = FIRST_PAUSE;
    for _ in rt.forever() {
        let Some(stream) = next_stream(rt, &door, turns) else {
            return;
        };
        let (ending, has_stood) = served(
            rt, alloc, shared, pass, settings, clock, turns, notes, notices, stream, &door,
        );
        if ending.is_last() {
            return;
        }
        if has_stood {
            pause = FIRST_PAUSE;
        }
        if door.listener().is_none() && !rests(rt, turns, pause) {
            return;
        }
        pause = LATER_PAUSE;
    }
    unreachable!()
}
