//! Two ends that share a key.

use link_auth::{
    HandshakeProgress, HandshakeRole, KeyHandshake, LinkKey, RecordChannel, RecordReader,
    RecordWriter,
};
use std::alloc::Global;
use std::test::Fail;

/// 32 octets, from 0 on.
pub(crate) const KEY: &[u8] = b"000102030405060708090a0b0c0d0e0f101112131415161718191a1b1c1d1e1f\n";

/// What the end that calls draws.
pub(crate) const CALLER: [u8; 32] = [1; 32];

/// What the end that was called draws.
pub(crate) const CALLED: [u8; 32] = [2; 32];

/// An end that begins, by the key.
pub(crate) fn opening(
    alloc: Global,
    side: HandshakeRole,
    nonce: [u8; 32],
) -> Result<KeyHandshake, Fail> {
    let key = LinkKey::from_text(KEY)?;
    Ok(KeyHandshake::new(alloc, key, side, nonce))
}

/// What is to be sent now.
pub(crate) fn answer(heard: &HandshakeProgress) -> Option<[u8; 32]> {
    match heard {
        HandshakeProgress::More { answer, .. } => *answer,
        HandshakeProgress::Joined { answer, .. } => *answer,
    }
}

/// The end, where more is to come.
pub(crate) fn waiting(heard: HandshakeProgress) -> Option<KeyHandshake> {
    match heard {
        HandshakeProgress::More { opening, .. } => Some(opening),
        HandshakeProgress::Joined { .. } => None,
    }
}

/// The end that hears this proof.
fn after(heard: HandshakeProgress, proof: Option<[u8; 32]>) -> Result<Option<RecordChannel>, Fail> {
    let (Some(opening), Some(proof)) = (waiting(heard), proof) else {
        return Ok(None);
    };
    let heard = opening.receive(&proof)?;
    Ok(joined(heard))
}

/// The connection, where the other end's proof has come.
pub(crate) fn joined(heard: HandshakeProgress) -> Option<RecordChannel> {
    match heard {
        HandshakeProgress::More { .. } => None,
        HandshakeProgress::Joined { joined, .. } => Some(joined),
    }
}

/// Both ends of a connection: the one that called, and the one that was called.
pub(crate) fn pair(alloc: Global) -> Result<Option<(RecordChannel, RecordChannel)>, Fail> {
    let caller = opening(alloc, HandshakeRole::Initiator, CALLER)?.receive(&CALLED)?;
    let called = opening(alloc, HandshakeRole::Responder, CALLED)?.receive(&CALLER)?;
    let one = answer(&caller);
    let other = answer(&called);
    let (Some(caller), Some(called)) = (after(caller, other)?, after(called, one)?) else {
        return Ok(None);
    };
    Ok(Some((caller, called)))
}

/// Both ends, where they meet.
pub(crate) fn both(alloc: Global) -> Result<(RecordChannel, RecordChannel), Fail> {
    match pair(alloc)? {
        Some(ends) => Ok(ends),
        None => Err(Fail::from("no pair")),
    }
}

/// Returns whether octets have these digits.
fn is_spelled(alloc: Global, octets: &[u8], digits: &str) -> Result<bool, Fail> {
    let found = hex::encode(alloc, octets)?;
    Ok(found.as_str() == digits)
}

/// What the end that calls proves.
fn proof(alloc: Global) -> Result<Option<[u8; 32]>, Fail> {
    let heard = opening(alloc, HandshakeRole::Initiator, CALLER)?.receive(&CALLED)?;
    Ok(answer(&heard))
}

/// Returns whether the end that calls proves what another program does.
fn is_proved(alloc: Global) -> Result<bool, Fail> {
    match proof(alloc)? {
        Some(proof) => is_spelled(
            alloc,
            &proof,
            "b180e3e97b24cde45585bfb9d8662df10d4ec5127cf68918a3576c04def43d20",
        ),
        None => Ok(false),
    }
}

/// Two records, one behind the other.
fn records(
    alloc: Global,
    writer: &mut RecordWriter,
    one: &[u8],
    other: &[u8],
) -> Result<Vec<u8>, Fail> {
    let mut stream = Vec::new(alloc);
    stream.extend_from_slice(&writer.write(one)?)?;
    stream.extend_from_slice(&writer.write(other)?)?;
    Ok(stream)
}

/// What a stream says, read octet by octet.
fn said(alloc: Global, reader: &mut RecordReader, stream: &[u8]) -> Result<Vec<u8>, Fail> {
    let mut octets = Vec::new(alloc);
    for octet in stream {
        octets.extend_from_slice(&reader.feed(&[*octet])?)?;
    }
    Ok(octets)
}

/// Returns whether the records of one end are another program's, and the other end reads them.
fn are_read(
    alloc: Global,
    caller: &mut RecordChannel,
    called: &mut RecordChannel,
) -> Result<bool, Fail> {
    let stream = records(alloc, &mut caller.writer, b"abc", b"defgh")?;
    let is_same = is_spelled(
        alloc,
        &stream,
        "000361626324e1318ddaf1b7504a8bef4a622b5009\
00056465666768fa3bddedd2b760daeba16ef0b3044ff5",
    )?;
    let octets = said(alloc, &mut called.reader, &stream)?;
    Ok(is_same && octets.as_slice() == b"abcdefgh".as_slice())
}

/// Returns whether the other end's record of the same octets is another.
fn is_answered(alloc: Global, called: &mut RecordChannel) -> Result<bool, Fail> {
    let back = called.writer.write(b"abc")?;
    is_spelled(alloc, &back, "000361626311ff4d813cc229d066fd2d7938c692c4")
}

/// The proofs and the records of a program that others wrote.
#[test]
fn send_what_others_make_of_the_same(rt: HostRuntime) -> Result<(), Fail> {
    let alloc = rt.alloc();
    assert!(&rt; is_proved(alloc)?);
    let (mut caller, mut called) = both(alloc)?;
    assert!(&rt; are_read(alloc, &mut caller, &mut called)?);
    assert!(&rt; is_answered(alloc, &mut called)?);
    Ok(())
}
