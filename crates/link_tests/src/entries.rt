//! Who is let in, with a key and without.

use crate::ends::{CALLED, CALLER, KEY};
use binding_rules::{Counter, Role};
use failover_message::{Frame, FrameKind, encode};
use link_auth::{
    AuthenticatedPeer, EntryFault, EntryProgress, HandshakeRole, LinkKey, PeerAuthenticator,
    PeerEntry, PeerNonces,
};
use std::alloc::Global;
use std::test::Fail;

/// What waits after a chunk, and what it is to be answered.
fn waits(verdict: EntryProgress) -> Option<(PeerEntry, Option<[u8; 32]>)> {
    match verdict {
        EntryProgress::Waits { waiting, answer } => Some((waiting, answer)),
        EntryProgress::Admitted(_) => None,
    }
}

/// Who was let in.
fn entered(verdict: EntryProgress) -> Result<AuthenticatedPeer, Fail> {
    match verdict {
        EntryProgress::Waits { .. } => Err(Fail::from("it isn't let in")),
        EntryProgress::Admitted(entrant) => Ok(entrant),
    }
}

/// Who is let in with a chunk.
fn let_in(alloc: Global, waiting: PeerEntry, chunk: &[u8]) -> Result<AuthenticatedPeer, Fail> {
    entered(waiting.receive(alloc, chunk)?)
}

/// What waits, and the proof that it sends.
fn proving(verdict: EntryProgress) -> Result<(PeerEntry, [u8; 32]), Fail> {
    let Some((waiting, proof)) = waits(verdict) else {
        return Err(Fail::from("it doesn't wait"));
    };
    match proof {
        Some(proof) => Ok((waiting, proof)),
        None => Err(Fail::from("it sends no proof")),
    }
}

/// An end with the key that has heard the other's nonce.
fn greeted(
    alloc: Global,
    side: HandshakeRole,
    own: [u8; 32],
    other: &[u8; 32],
) -> Result<(PeerEntry, [u8; 32]), Fail> {
    let keeper = PeerAuthenticator {
        side,
        key: Some(LinkKey::from_text(KEY)?),
    };
    proving(keeper.begin(alloc, own).receive(alloc, other)?)
}

/// A proof, and what is put behind it.
fn proof_and(
    alloc: Global,
    entrant: &mut AuthenticatedPeer,
    proof: &[u8; 32],
) -> Result<Vec<u8>, Fail> {
    let mut octets = Vec::new(alloc);
    octets.extend_from_slice(proof)?;
    octets.extend_from_slice(&entrant.passage.encode(alloc, b"grant")?)?;
    Ok(octets)
}

/// The octets of a frame that has no line in a journal.
fn octets_of(alloc: Global, kind: FrameKind) -> Result<Vec<u8>, Fail> {
    let frame = Frame {
        term: 0,
        serial: Counter::ZERO,
        kind,
    };
    let mut octets = Vec::new(alloc);
    octets.extend_from_slice(encode(alloc, &frame)?.as_slice())?;
    Ok(octets)
}

/// Two ends with one key let each other in, each knows both nonces, and what one puts in the other takes.
#[test]
fn let_in_who_has_the_key(rt: HostRuntime) -> Result<(), Fail> {
    let alloc = rt.alloc();
    let (caller, one) = greeted(alloc, HandshakeRole::Initiator, CALLER, &CALLED)?;
    let (called, other) = greeted(alloc, HandshakeRole::Responder, CALLED, &CALLER)?;
    let mut caller = let_in(alloc, caller, &other)?;
    let last = proof_and(alloc, &mut caller, &one)?;
    let called = let_in(alloc, called, &last)?;
    assert_eq!(rt;
        caller.nonces,
        Some(PeerNonces {
            own: CALLER,
            other: CALLED
        })
    );
    assert_eq!(rt;
        called.nonces,
        Some(PeerNonces {
            own: CALLED,
            other: CALLER
        })
    );
    assert_eq!(rt; called.ahead.as_slice(), b"grant".as_slice());
    Ok(())
}

/// Without a key CONNECT in pieces is let in, and DISCONNECT is a stranger's.
#[test]
fn let_in_who_says_connect(rt: HostRuntime) -> Result<(), Fail> {
    let alloc = rt.alloc();
    let keeper = PeerAuthenticator {
        side: HandshakeRole::Responder,
        key: None,
    };
    let connect = octets_of(
        alloc,
        FrameKind::Connect {
            role: Role::Primary,
            last: Counter::ZERO,
        },
    )?;
    let (front, back) = connect.split_at(connect.len().min(5));
    let Some((waiting, None)) = waits(keeper.begin(alloc, CALLED).receive(alloc, front)?) else {
        return Err(Fail::new(format_args!("it doesn't wait")));
    };
    let entrant = let_in(alloc, waiting, back)?;
    assert_eq!(rt; entrant.ahead.as_slice(), connect.as_slice());
    assert_eq!(rt; entrant.nonces, None);
    let goodbye = octets_of(alloc, FrameKind::Disconnect)?;
    let fault = keeper.begin(alloc, CALLED).receive(alloc, &goodbye).err();
    assert_eq!(rt; fault, Some(EntryFault::Stranger));
    Ok(())
}
