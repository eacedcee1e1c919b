//! What workers answer to datagrams, and the journal that they leave.

use crate::books::{A_OPENED, book_of, closed};
use crate::posts::{Letter, Post, Scene};
use client_id::Duid;
use node_threads::{NoNotices, NodeError, PartnerAvailability, Turns, WorkersResult, serve_all};
use std::alloc::Global;
use std::marker::Brand;
use std::process::Abort;
use std::sync::Wait;
use std::sync::atomic::Ordering;
use std::sync::ledger::Blank;
use std::test::Fail;
use std::thread::Threads;

const SOLICIT: &str = "010a0b0c0001000a000300010200000000010019000c000000010000000000000000";

const REQUEST: &str =
    "030a0b0c0001000a000300010200000000010002000a000300010200000000090019000c000000010000000000000000";

/// The first unit for an hour.
const OFFERED: &str =
    "020a0b0c0001000a000300010200000000010002000a0003000102000000000900190029000000010000070800000b40001a001900000e1\
    000000e103820010db8000000000000000000000000";

const GRANTED: &str =
    "070a0b0c0001000a000300010200000000010002000a0003000102000000000900190029000000010000070800000b40001a001900000e1\
    000000e103820010db8000000000000000000000000";

/// What is no message.
const SHORT: &str = "010a0b";

const SOLICITED: Letter = (SOLICIT, OFFERED);

pub const REQUESTED: Letter = (REQUEST, GRANTED);

const BOTH: &[Letter] = &[SOLICITED, REQUESTED];

/// Side A's journal of the lease that lasts an hour.
const WHOLE_HOUR: &str = "pd-journal 1 A
1 9000 open 2000 3600 3600
2 9000 pool 2001:0db8:0000:0000:0000:0000:0000:0000/48 56
3 10000 grant 00030001020000000001 00000001 2001:0db8:0000:0000:0000:0000:0000:0000/56 3600
4 3700000 close
end 4
";

/// Its journal of no lease.
const NOTHING: &str = "pd-journal 1 A
1 9000 open 2000 3600 3600
2 9000 pool 2001:0db8:0000:0000:0000:0000:0000:0000/48 56
3 3700000 close
end 3
";

/// Datagrams that come to workers, one to each at once, and what is to come of them.
#[derive(Drop)]
struct Exchange {
    letters: &'static [Letter],
    workers: usize,
    turns: u32,
    /// What the clock shows; none where it fails.
    at: Option<u64>,
    /// Whether what is sent goes out.
    sends: bool,
    received: Result<u32, NodeError>,
    /// How many answers are sent.
    sent: usize,
    /// How often the clock is asked.
    asked: usize,
    journal: &'static str,
}

/// The worked SOLICIT and REQUEST.
const WORKED: Exchange = Exchange {
    letters: BOTH,
    workers: 1,
    turns: 2,
    at: Some(10_000),
    sends: true,
    received: Ok(2),
    sent: 2,
    asked: 2,
    journal: WHOLE_HOUR,
};

/// What workers do: what is no message asks no clock, and a call that fails ends one.
const EXCHANGES: [Exchange; 6] = [
    WORKED,
    // Two receive, ask the clock and send at once.
    Exchange {
        workers: 2,
        ..WORKED
    },
    Exchange {
        letters: &[(SHORT, "")],
        turns: 1,
        received: Ok(1),
        sent: 0,
        asked: 0,
        journal: NOTHING,
        ..WORKED
    },
    // Nothing comes any more.
    Exchange {
        letters: &[REQUESTED],
        received: Err(NodeError::Net),
        sent: 1,
        asked: 1,
        ..WORKED
    },
    Exchange {
        letters: &[REQUESTED, REQUESTED],
        sends: false,
        received: Err(NodeError::Net),
        sent: 0,
        asked: 1,
        ..WORKED
    },
    Exchange {
        letters: &[REQUESTED, REQUESTED],
        at: None,
        received: Err(NodeError::Net),
        sent: 0,
        asked: 1,
        journal: NOTHING,
        ..WORKED
    },
];

/// Returns what the workers of an exchange leave.
fn left(
    rt: &(impl Threads + Wait + Sync),
    alloc: Global,
    exchange: &Exchange,
    scene: &Scene,
) -> Result<WorkersResult, Fail> {
    let book = book_of(alloc, A_OPENED)?;
    let mut posts = Vec::new(alloc);
    for next in 0..exchange.workers {
        posts.push(Post { scene, next })?;
    }
    let own = Duid::from_hex(b"00030001020000000009")?;
    let turns = Turns::new(exchange.turns);
    let blank = Blank::new(posts.len() as u64);
    match serve_all::<Brand, _, _, _, _>(
        rt,
        alloc,
        blank,
        book,
        posts,
        &own,
        scene,
        &turns,
        PartnerAvailability::Up,
        &NoNotices,
    ) {
        Ok(left) => Ok(left),
        Err(_) => Err(Fail::from("not closed")),
    }
}

/// That all comes of an exchange which is to come of it.
fn check(
    rt: &(impl Abort + Threads + Wait + Sync),
    alloc: Global,
    exchange: &Exchange,
) -> Result<(), Fail> {
    let workers = exchange.workers;
    let mut scene = Scene::of(alloc, exchange.letters, exchange.at, workers);
    scene.sends = exchange.sends;
    let mut left = left(rt, alloc, exchange, &scene)?;
    assert_eq!(rt; left.received, exchange.received);
    assert!(rt; !scene.is_other.load(Ordering::SeqCst));
    assert_eq!(rt; scene.sending.begun.load(Ordering::SeqCst), exchange.sent);
    assert_eq!(rt; scene.asking.begun.load(Ordering::SeqCst), exchange.asked);
    let text = closed(alloc, &mut left.book, 3_700_000)?;
    assert_eq!(rt; text.as_slice(), exchange.journal.as_bytes());
    // Each call that was made by all was made by all at once.
    assert!(rt; scene.receiving.has_met.load(Ordering::SeqCst));
    assert_eq!(rt;
        scene.asking.has_met.load(Ordering::SeqCst),
        exchange.asked >= workers
    );
    assert_eq!(rt;
        scene.sending.has_met.load(Ordering::SeqCst),
        exchange.sent >= workers
    );
    Ok(())
}

#[test]
fn workers_answer(rt: HostRuntime) -> Result<(), Fail> {
    for exchange in &EXCHANGES {
        check(&rt, rt.alloc(), exchange)?;
    }
    Ok(())
}
