//! Texts of notices, as the document on them has them.

use lead_time::{Reading, Skew, Transit};
use link_notices::{
    Notice, PairSettings, ProgramWord, UnitPool, encode_notice, push_notice_text, read_notice,
};
use prefix_range::read_text;
use std::alloc::Global;
use std::test::Fail;
use text_fields::Listed;

pub(crate) const PROGRAM: &[u8] = b"program fengtuyas 1.0.0";

pub(crate) const SETTINGS: &[u8] = b"settings 2000 3600 7200 1000 \
    2001:0db8:0000:0000:0000:0000:0000:0000/32 56 2001:0db9:ab00:0000:0000:0000:0000:0000/40 64";

pub(crate) const CLOCK: &[u8] = b"clock 7 1764417600000";

pub(crate) const CLOCK_REPLY: &[u8] =
    b"clock-reply 18446744073709551615 1764417600000 1764417599988";

/// The pool of this prefix, with units of so many bits.
pub(crate) fn pool(prefix: &[u8], unit_length: u8) -> Result<UnitPool, Fail> {
    let prefix = read_text(prefix)?;
    Ok(UnitPool {
        prefix,
        unit_length,
    })
}

/// Settings with these pools, those of the text else.
pub(crate) fn settings(alloc: Global, pools: &[UnitPool]) -> Result<PairSettings, Fail> {
    Ok(PairSettings {
        skew: Skew::new(2000)?,
        mclt: 3600,
        life: 7200,
        transit: Transit::new(1000)?,
        pools: Listed::new(pools.to_vec(alloc)?),
    })
}

/// The notice that a text spells.
fn read(alloc: Global, text: &[u8]) -> Result<Notice, Fail> {
    match read_notice(alloc, text)? {
        Some(notice) => Ok(notice),
        None => Err(Fail::from("it is passed over")),
    }
}

/// Returns whether the text of a notice is this one, and its octets are these three and then it.
fn is_spelled(alloc: Global, notice: &Notice, head: [u8; 3], text: &[u8]) -> Result<bool, Fail> {
    let mut found = Vec::new(alloc);
    push_notice_text(&mut found, notice)?;
    let mut wanted = Vec::new(alloc);
    wanted.extend_from_slice(&head)?;
    wanted.extend_from_slice(text)?;
    let octets = encode_notice(alloc, notice)?;
    Ok(found.as_slice() == text && octets.as_slice() == wanted.as_slice())
}

#[test]
fn of_a_program(rt: HostRuntime) -> Result<(), Fail> {
    let alloc = rt.alloc();
    let notice = Notice::Program {
        name: ProgramWord::new(alloc, b"fengtuyas")?,
        version: ProgramWord::new(alloc, b"1.0.0")?,
    };
    assert!(&rt; is_spelled(alloc, &notice, [1, 0, 23], PROGRAM)?);
    let Notice::Program { name, version } = read(alloc, PROGRAM)? else {
        return Err(Fail::from("it is no program"));
    };
    assert_eq!(rt; name.as_bytes(), b"fengtuyas".as_slice());
    assert_eq!(rt; version.as_bytes(), b"1.0.0".as_slice());
    Ok(())
}

#[test]
fn of_settings(rt: HostRuntime) -> Result<(), Fail> {
    let alloc = rt.alloc();
    let pools = [
        pool(b"2001:db8::/32", 56)?,
        pool(b"2001:db9:ab00::/40", 64)?,
    ];
    let notice = Notice::Settings(settings(alloc, &pools)?);
    assert!(&rt; is_spelled(alloc, &notice, [1, 0, 120], SETTINGS)?);
    let Notice::Settings(found) = read(alloc, SETTINGS)? else {
        return Err(Fail::from("they are no settings"));
    };
    assert_eq!(rt; found.skew.milliseconds(), 2000);
    assert_eq!(rt; found.mclt, 3600);
    assert_eq!(rt; found.life, 7200);
    assert_eq!(rt; found.transit.milliseconds(), 1000);
    assert!(&rt; found.pools.as_slice() == pools.as_slice());
    Ok(())
}

#[test]
fn of_a_question(rt: HostRuntime) -> Result<(), Fail> {
    let alloc = rt.alloc();
    let notice = Notice::Clock {
        number: 7,
        asked: Reading::new(1_764_417_600_000)?,
    };
    assert!(&rt; is_spelled(alloc, &notice, [1, 0, 21], CLOCK)?);
    let Notice::Clock { number, asked } = read(alloc, CLOCK)? else {
        return Err(Fail::from("it is no question"));
    };
    assert_eq!(rt; number, 7);
    assert_eq!(rt; asked.milliseconds(), 1_764_417_600_000);
    Ok(())
}

#[test]
fn of_an_answer(rt: HostRuntime) -> Result<(), Fail> {
    let alloc = rt.alloc();
    let notice = Notice::ClockReply {
        number: u64::MAX,
        asked: Reading::new(1_764_417_600_000)?,
        answered: Reading::new(1_764_417_599_988)?,
    };
    assert!(&rt; is_spelled(alloc, &notice, [1, 0, 60], CLOCK_REPLY)?);
    let Notice::ClockReply {
        number,
        asked,
        answered,
    } = read(alloc, CLOCK_REPLY)?
    else {
        return Err(Fail::from("it is no answer"));
    };
    assert_eq!(rt; number, u64::MAX);
    assert_eq!(rt; asked.milliseconds(), 1_764_417_600_000);
    assert_eq!(rt; answered.milliseconds(), 1_764_417_599_988);
    Ok(())
}
