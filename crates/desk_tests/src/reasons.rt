//! Reasons of foreign grants at the millisecond where each begins and ends to hold.

use crate::pairs::{pair_of, plain_of};
use auditor::{LineSource, reason_holds};
use lead_time::{Reading, Skew, Transit};
use std::alloc::{AllocError, Global};
use std::process::Abort;
use std::test::Fail;

/// Another client's grant at 10000, and what follows it.
fn journal_of_a(alloc: Global, valid: u32, given_back: u64) -> Result<String, AllocError> {
    format!(in alloc;
        "pd-journal 1 A
1 9000 open 2000 3600 3600
2 9000 pool 2001:0db8:0000:0000:0000:0000:0000:0000/48 56
3 10000 grant 00030001020000000002 00000001 2001:0db8:0000:0000:0000:0000:0000:0000/56 {valid}
4 {given_back} release 00030001020000000002 00000001 2001:0db8:0000:0000:0000:0000:0000:0000/56
5 3700000 close
end 5
"
    )
}

const PARTNER: &[u8] = b"pd-journal 1 B
1 9000 open 2000 3600 3600
2 9000 pool 2001:0db8:0000:0000:0000:0000:0000:0000/48 56
3 3700000 close
end 3
";

/// The primary's second volume: line 4 carries another client's lease up to 3610000 by the primary's clock.
const SECOND_VOLUME: &str = "pd-journal 2 A 2
1 1000000 open 2000 3600 3600
2 1000000 pool 2001:0db8:0000:0000:0000:0000:0000:0000/48 56
3 1000000 base 0 0 0 0 0
4 1000000 carry 00030001020000000002 00000001 2001:0db8:0000:0000:0000:0000:0000:0000/56 3610000
5 1000000 unit 2001:0db8:0000:0000:0000:0000:0000:0000/56 active 00030001020000000002 00000001 1 0 3614000 7210000 0 \
0 active -
6 2000000 release 00030001020000000002 00000001 2001:0db8:0000:0000:0000:0000:0000:0000/56
7 8000000 close
end 7
";

/// Returns what the unit's holder claims from one moment up to another, with this foreign line alone.
fn claim(alloc: Global, foreign: &str, from: u64, to: u64) -> Result<String, AllocError> {
    format!(in alloc;
        "pd-certificate 1
holder 00030001020000000001
prefix 2001:0db8:0000:0000:0000:0000:0000:0000/56
interval {from} {to}
piece A3 {from} {to} latest A3 earliest A3
foreign {foreign}
end
"
    )
}

/// A foreign line, the interval, how long an answer may be under way, in milliseconds, and whether the reason holds.
type Reasoned = (&'static str, u64, u64, u64, bool);

/// Returns whether the reason of a certificate's foreign line holds; none where it hasn't one such line alone.
fn only_reason_holds<S: LineSource>(
    alloc: Global,
    source: &S,
    text: &str,
    transit: u64,
) -> Result<Option<bool>, Fail> {
    let (skew, transit) = (Skew::new(2000)?, Transit::new(transit)?);
    let claim = certificate::read(alloc, text.as_bytes())?;
    match claim.foreign.as_slice() {
        [entry] => Ok(Some(reason_holds(source, &claim, entry, skew, transit))),
        _ => Ok(None),
    }
}

/// That a reason holds over a source as said.
fn check_reason<S: LineSource>(
    rt: &impl Abort,
    alloc: Global,
    source: &S,
    reason: &Reasoned,
) -> Result<(), Fail> {
    let (foreign, from, to, transit, holds) = reason;
    let claim = claim(alloc, foreign, *from, *to)?;
    let found = only_reason_holds(alloc, source, claim.as_str(), *transit)?;
    assert_eq!(rt; found, Some(*holds));
    Ok(())
}

/// That each reason holds over this journal of the primary's as said.
fn check(rt: &impl Abort, alloc: Global, journal: &str, reasons: &[Reasoned]) -> Result<(), Fail> {
    let pair = pair_of(alloc, journal.as_bytes(), PARTNER)?;
    let source = plain_of(&pair);
    for reason in reasons {
        check_reason(rt, alloc, &source, reason)?;
    }
    Ok(())
}

/// 2^48, the greatest moment that a certificate can name.
const LAST: u64 = Reading::MAX;

/// What is granted for ever ends before no moment, and begins 2000, the skew, before its reading.
const FOR_EVER: &[Reasoned] = &[
    ("A3 early A3", LAST, LAST, 0, false),
    ("A3 late A3", 0, 8000, 0, true),
    ("A3 late A3", 0, 8001, 0, false),
];

/// What is granted for 100 seconds ends by 10000, the skew of 2000 and 100 seconds; where its answer may be half a
/// second under way, so much later.
const FOR_A_WHILE: &[Reasoned] = &[
    ("A3 early A3", 112_000, LAST, 0, true),
    ("A3 early A3", 111_999, LAST, 0, false),
    ("A3 early A3", 112_500, LAST, 500, true),
    ("A3 early A3", 112_499, LAST, 500, false),
];

const GIVEN_BACK: &[Reasoned] = &[
    (
        "A3 released A4 chain A3>A4 latest A4",
        22_000,
        LAST,
        0,
        true,
    ),
    (
        "A3 released A4 chain A3>A4 latest A4",
        21_999,
        LAST,
        0,
        false,
    ),
];

/// By the clock.
const BY_THE_CLOCK: &str = "A3 released A4 clock A3 A4 latest A4";

/// What is carried ends as its line says, began before the volume whatever its line's reading is, and is given back as
/// a grant is. A chain from another line shows nothing of this one.
const CARRIED: &[Reasoned] = &[
    ("A4 early A4", 3_611_999, LAST, 0, false),
    ("A4 early A4", 3_612_000, LAST, 0, true),
    ("A4 early A4", 3_612_499, LAST, 500, false),
    ("A4 early A4", 3_612_500, LAST, 500, true),
    ("A4 early A5", LAST, LAST, 0, false),
    ("A4 late A4", 0, 0, 0, false),
    ("A4 late A4", 0, 998_000, 0, false),
    (
        "A4 released A6 chain A4>A6 latest A6",
        2_002_000,
        LAST,
        0,
        true,
    ),
    (
        "A4 released A6 chain A4>A6 latest A6",
        2_001_999,
        LAST,
        0,
        false,
    ),
];

/// For how long is granted, when it is given back, and what holds then. The grant by 12000 and the release from 12000
/// on may be one moment; from 12001 on they are not.
const GRANTED: [(u32, u64, &[Reasoned]); 5] = [
    (u32::MAX, 3_600_000, FOR_EVER),
    (100, 3_600_000, FOR_A_WHILE),
    (3600, 20_000, GIVEN_BACK),
    (3600, 14_000, &[(BY_THE_CLOCK, 22_000, LAST, 0, false)]),
    (3600, 14_001, &[(BY_THE_CLOCK, 22_000, LAST, 0, true)]),
];

#[test]
fn holds_to_the_millisecond(rt: HostRuntime) -> Result<(), Fail> {
    for (valid, given_back, reasons) in &GRANTED {
        let journal = journal_of_a(rt.alloc(), *valid, *given_back)?;
        check(&rt, rt.alloc(), &journal, reasons)?;
    }
    check(&rt, rt.alloc(), SECOND_VOLUME, CARRIED)
}
