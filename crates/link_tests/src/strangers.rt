//! Who hasn't the key.

use crate::ends::{CALLED, CALLER, answer, opening, pair, waiting};
use link_auth::{
    HandshakeProgress, HandshakeRole, KeyHandshake, LinkFault, LinkKey, RecordChannel,
};
use std::test::Fail;

/// Why an end refuses a proof.
fn fault_of(heard: HandshakeProgress, proof: Option<[u8; 32]>) -> Option<LinkFault> {
    let proof = proof?;
    waiting(heard)?.receive(&proof).err()
}

/// The proof of who has another key, and the end's own greeting and proof sent back.
#[test]
fn prove_nothing(rt: HostRuntime) -> Result<(), Fail> {
    let alloc = rt.alloc();
    let stranger = KeyHandshake::new(
        alloc,
        LinkKey::from_text(&[b'a'; 64])?,
        HandshakeRole::Responder,
        CALLED,
    );
    let proof = answer(&stranger.receive(&CALLER)?);
    let caller = opening(alloc, HandshakeRole::Initiator, CALLER)?.receive(&CALLED)?;
    assert_eq!(rt; fault_of(caller, proof), Some(LinkFault::Forged));
    let caller = opening(alloc, HandshakeRole::Initiator, CALLER)?.receive(&CALLER)?;
    let own = answer(&caller);
    assert_eq!(rt; fault_of(caller, own), Some(LinkFault::Forged));
    Ok(())
}

/// Why an end refuses a chunk.
fn fault_in(joined: &mut RecordChannel, chunk: &[u8]) -> Option<LinkFault> {
    joined.reader.feed(chunk).err()
}

/// A record left out, sent back and repeated.
#[test]
fn move_no_record(rt: HostRuntime) -> Result<(), Fail> {
    let Some((mut caller, mut called)) = pair(rt.alloc())? else {
        return Err(Fail::new(format_args!("no pair")));
    };
    let first = caller.writer.write(b"grant")?;
    let second = caller.writer.write(b"close")?;
    assert_eq!(rt; fault_in(&mut called, &second), Some(LinkFault::Forged));
    assert_eq!(rt; fault_in(&mut caller, &first), Some(LinkFault::Forged));
    assert_eq!(rt; fault_in(&mut called, &first), None);
    assert_eq!(rt; fault_in(&mut called, &first), Some(LinkFault::Forged));
    assert_eq!(rt; fault_in(&mut called, &second), None);
    Ok(())
}

/// A record changed in its piece, and one that is too long.
#[test]
fn make_no_record(rt: HostRuntime) -> Result<(), Fail> {
    let Some((mut caller, mut called)) = pair(rt.alloc())? else {
        return Err(Fail::new(format_args!("no pair")));
    };
    let mut record = caller.writer.write(b"grant")?;
    if let Some(octet) = record.get_mut(3) {
        *octet = b'G';
    }
    assert_eq!(rt; fault_in(&mut called, &record), Some(LinkFault::Forged));
    assert_eq!(rt; fault_in(&mut called, &[0x40, 0]), None);
    assert_eq!(rt; fault_in(&mut caller, &[0x40, 1]), Some(LinkFault::TooLong));
    Ok(())
}
