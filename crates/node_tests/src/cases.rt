//! What one end of the link hears over a wire, and what is to come of it.

use crate::books::{A_OPENED, PRIMARY, SECONDARY};
use crate::frames::*;
use node_threads::NodeError;

/// A link's end, what it hears, and what is to come of it.
#[derive(Drop)]
pub struct Case {
    pub settings: &'static str,
    /// The journal of its book before, closed.
    pub begun: &'static str,
    /// What its clock shows; none where it fails.
    pub at: Option<u64>,
    /// Whether the workers have ended before.
    pub is_over: bool,
    /// How many times the client's REQUEST comes to a worker before: once, or not at all.
    pub datagrams: u32,
    /// What comes over the wire, and what is written to it.
    pub heard: &'static [&'static str],
    pub written: &'static [&'static str],
    /// How many octets a read brings, at most.
    pub step: usize,
    pub ended: Result<(), NodeError>,
    pub journal: &'static str,
    /// How many of the first writes are let fail in turn, and how many of its first reads.
    pub failing_writes: usize,
    pub failing_reads: usize,
}

/// The secondary's journal without a message.
const B_OPENED: &str = "pd-journal 1 B
1 9000 open 2000 3600 3600
2 9000 pool 2001:0db8:0000:0000:0000:0000:0000:0000/48 56
3 10000 close
end 3
";

/// The secondary's journal once it answered the update.
const B_ANSWERED: &str = "pd-journal 1 B
1 9000 open 2000 3600 3600
2 9000 pool 2001:0db8:0000:0000:0000:0000:0000:0000/48 56
3 10000 take 0 1 update active 2001:0db8:0000:0000:0000:0000:0000:0000/56 1 0 7210000 00000001 00030001020000000001
4 10000 send 0 1 reply accept 2001:0db8:0000:0000:0000:0000:0000:0000/56 1 1 1
5 10000 close
end 5
";

/// The primary's journal once it told of its lease.
const A_TOLD: &str = "pd-journal 1 A
1 9000 open 2000 3600 3600
2 9000 pool 2001:0db8:0000:0000:0000:0000:0000:0000/48 56
3 10000 grant 00030001020000000001 00000001 2001:0db8:0000:0000:0000:0000:0000:0000/56 3600
4 10000 send 0 1 update active 2001:0db8:0000:0000:0000:0000:0000:0000/56 1 0 7210000 00000001 00030001020000000001
5 10000 close
end 5
";

/// The primary's end that hears its partner join, and tells what the worker gave.
const OF_PRIMARY: Case = Case {
    settings: PRIMARY,
    begun: A_OPENED,
    at: Some(10_000),
    is_over: false,
    datagrams: 1,
    heard: &[CONNECT_REPLY],
    written: &[CONNECT, UPDATE],
    step: 4096,
    ended: Ok(()),
    journal: A_TOLD,
    failing_writes: 2,
    failing_reads: 1,
};

/// The secondary's end that hears an update and answers it. The update's 74 octets take three reads behind CONNECT's
/// one.
const OF_SECONDARY: Case = Case {
    settings: SECONDARY,
    begun: B_OPENED,
    datagrams: 0,
    heard: &[CONNECT, UPDATE],
    written: &[CONNECT_REPLY, POOL_REQUEST, REPLY],
    step: 26,
    journal: B_ANSWERED,
    failing_writes: 3,
    failing_reads: 4,
    ..OF_PRIMARY
};

/// The secondary's end that takes nothing, and whose calls don't fail.
const OF_NOTHING: Case = Case {
    journal: B_OPENED,
    failing_writes: 0,
    failing_reads: 0,
    ..OF_SECONDARY
};

/// What an end hears that joins, talks and goes; and where each write and each read fails in turn.
pub const CASES: [Case; 6] = [
    OF_PRIMARY,
    OF_SECONDARY,
    // An end says that it goes, and hears it.
    Case {
        datagrams: 0,
        heard: &[],
        written: &[CONNECT, DISCONNECT],
        is_over: true,
        journal: A_OPENED,
        failing_reads: 0,
        ..OF_PRIMARY
    },
    Case {
        heard: &[CONNECT, DISCONNECT, CONTACT],
        written: &[CONNECT_REPLY, POOL_REQUEST],
        step: 4096,
        ..OF_NOTHING
    },
    // A clock that fails ends it before anything is said.
    Case {
        at: None,
        heard: &[CONNECT],
        written: &[],
        ended: Err(NodeError::Net),
        ..OF_NOTHING
    },
    // What is no frame ends it.
    Case {
        heard: &["0000000c"],
        written: &[],
        ended: Err(NodeError::Read),
        ..OF_NOTHING
    },
];
