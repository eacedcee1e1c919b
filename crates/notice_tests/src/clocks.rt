//! Clocks at the bounds of a verdict. All numbers are milliseconds.

use lead_time::{Reading, Skew};
use link_notices::{ClockExchange, ClockRange, ClockVerdict, judged_skew};
use std::test::Fail;

/// The exchange of these three readings.
fn exchange(asked: u64, answered: u64, back: u64) -> Result<ClockExchange, Fail> {
    Ok(ClockExchange {
        asked: Reading::new(asked)?,
        answered: Reading::new(answered)?,
        back: Reading::new(back)?,
    })
}

/// The verdict on this exchange, where the lesser skew is two seconds.
fn verdict(asked: u64, answered: u64, back: u64) -> Result<ClockVerdict, Fail> {
    let exchange = exchange(asked, answered, back)?;
    Ok(exchange.verdict(Skew::new(3000)?, Skew::new(2000)?))
}

#[test]
fn without_delay(rt: HostRuntime) -> Result<(), Fail> {
    let cases = [
        (1_000_000, ClockVerdict::Agrees),
        (1_004_000, ClockVerdict::Agrees),
        (1_004_001, ClockVerdict::TooFarOff),
        (996_000, ClockVerdict::Agrees),
        (995_999, ClockVerdict::TooFarOff),
        (0, ClockVerdict::TooFarOff),
    ];
    for (answered, wanted) in cases {
        assert_eq!(rt; verdict(1_000_000, answered, 1_000_000)?, wanted);
    }
    Ok(())
}

#[test]
fn with_a_delay(rt: HostRuntime) -> Result<(), Fail> {
    let cases = [
        (1_004_000, ClockVerdict::Agrees),
        (1_004_001, ClockVerdict::Unknown),
        (1_004_010, ClockVerdict::Unknown),
        (1_004_011, ClockVerdict::TooFarOff),
        (996_010, ClockVerdict::Agrees),
        (996_009, ClockVerdict::Unknown),
        (996_000, ClockVerdict::Unknown),
        (995_999, ClockVerdict::TooFarOff),
    ];
    for (answered, wanted) in cases {
        assert_eq!(rt; verdict(1_000_000, answered, 1_000_010)?, wanted);
    }
    Ok(())
}

#[test]
fn set_back_meanwhile(rt: HostRuntime) -> Result<(), Fail> {
    assert_eq!(rt;
        verdict(1_000_000, 1_000_000, 999_999)?,
        ClockVerdict::Unknown
    );
    assert_eq!(rt; verdict(1_000_000, 0, 999_999)?, ClockVerdict::Unknown);
    Ok(())
}

#[test]
fn by_the_lesser_skew(rt: HostRuntime) -> Result<(), Fail> {
    let cases = [
        (2000, 3000, 2000),
        (3000, 2000, 2000),
        (0, 3000, 100),
        (99, 100, 100),
        (101, 102, 101),
    ];
    for (own, other, wanted) in cases {
        assert_eq!(rt; judged_skew(Skew::new(own)?, Skew::new(other)?), wanted);
    }
    let near = exchange(1000, 1200, 1000)?;
    let far = exchange(1000, 1201, 1000)?;
    let skew = Skew::new(5)?;
    assert_eq!(rt; near.verdict(skew, skew), ClockVerdict::Agrees);
    assert_eq!(rt; far.verdict(skew, skew), ClockVerdict::TooFarOff);
    Ok(())
}

#[test]
fn ranges(rt: HostRuntime) -> Result<(), Fail> {
    assert_eq!(rt;
        exchange(1000, 990, 1010)?.range(),
        ClockRange {
            least: -20,
            most: -10
        }
    );
    assert_eq!(rt;
        exchange(1000, 1005, 1010)?.range(),
        ClockRange { least: -5, most: 5 }
    );
    assert_eq!(rt;
        exchange(1000, 3000, 1010)?.range(),
        ClockRange {
            least: 1990,
            most: 2000
        }
    );
    Ok(())
}
