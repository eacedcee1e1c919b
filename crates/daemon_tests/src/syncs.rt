//! How long syncs took.

use lead_time::Reading;
use server_status::{SyncSummary, SyncTime, SyncTimes};
use std::test::Fail;

#[test]
fn tells_the_middle_and_the_worst_of_a_minute(rt: HostRuntime) -> Result<(), Fail> {
    let mut times = SyncTimes::new(rt.alloc());
    let start = Reading::new(1_000_000)?;
    assert_eq!(rt; times.summary(rt.alloc(), start)?, None);
    for (milliseconds, microseconds) in [(0, 9000), (100, 70), (200, 30), (300, 50), (400, 400)] {
        let ended = Reading::new(1_000_000 + milliseconds)?;
        times.add(SyncTime {
            ended,
            microseconds,
        })?;
    }
    let summary = SyncSummary {
        count: 5,
        median: 70,
        worst: 9000,
    };
    assert_eq!(rt;
        times.summary(rt.alloc(), Reading::new(1_060_000)?)?,
        Some(summary)
    );
    let summary = SyncSummary {
        count: 4,
        median: 70,
        worst: 400,
    };
    assert_eq!(rt;
        times.summary(rt.alloc(), Reading::new(1_060_001)?)?,
        Some(summary)
    );
    assert_eq!(rt; times.summary(rt.alloc(), Reading::new(1_060_401)?)?, None);
    Ok(())
}

#[test]
fn looks_at_the_last_of_many(rt: HostRuntime) -> Result<(), Fail> {
    let mut times = SyncTimes::new(rt.alloc());
    let ended = Reading::new(1_000_000)?;
    for microseconds in 0..1030 {
        times.add(SyncTime {
            ended,
            microseconds,
        })?;
    }
    let summary = SyncSummary {
        count: 1024,
        median: 518,
        worst: 1029,
    };
    assert_eq!(rt; times.summary(rt.alloc(), ended)?, Some(summary));
    Ok(())
}
