//! Two journals of one lease of an hour, and certificates over them.

use attribution::Verdict;
use auditor::LineSource;
use causal_order::Certificate;
use lead_time::{Skew, Transit};
use parallel_check::{CheckError, Gate, audit_all};
use std::alloc::Global;
use std::sync::Wait;
use std::test::Fail;
use std::thread::Threads;

pub const SKEW: u64 = 2000;

pub const PRIMARY: &str = "pd-journal 1 A
1 9000 open 2000 3600 3600
2 9000 pool 2001:0db8:0000:0000:0000:0000:0000:0000/48 56
3 10000 grant 00030001020000000001 00000001 2001:0db8:0000:0000:0000:0000:0000:0000/56 3600
4 3700000 close
end 4
";

pub const SECONDARY: &str = "pd-journal 1 B
1 9000 open 2000 3600 3600
2 9000 pool 2001:0db8:0000:0000:0000:0000:0000:0000/48 56
3 3700000 close
end 3
";

/// The whole time that both journals show.
const WHOLE_HOUR: &str = "pd-certificate 1
holder 00030001020000000001
prefix 2001:0db8:0000:0000:0000:0000:0000:0000/56
interval 12000 3608000
piece A3 12000 3608000 latest A3 earliest A3
end
";

/// A millisecond more at its front.
const TOO_EARLY: &str = "pd-certificate 1
holder 00030001020000000001
prefix 2001:0db8:0000:0000:0000:0000:0000:0000/56
interval 11999 3608000
piece A3 11999 3608000 latest A3 earliest A3
end
";

/// So many certificates: the whole hour at even indexes, too early at odd ones.
fn in_turn(alloc: Global, count: usize) -> Result<Vec<Certificate>, Fail> {
    let mut certificates = Vec::new(alloc);
    for index in 0..count {
        let text = if index % 2 == 0 {
            WHOLE_HOUR
        } else {
            TOO_EARLY
        };
        certificates.push(certificate::read(alloc, text.as_bytes())?)?;
    }
    Ok(certificates)
}

/// How many certificates are audited, how far the clocks may be from true time and how long an answer may be under way,
/// in milliseconds, and how many workers audit.
#[derive(Drop)]
pub struct Asked {
    pub count: usize,
    pub skew: u64,
    pub transit: u64,
    pub workers: usize,
}

/// The verdicts on so many certificates, by so many workers, or why there are none.
pub fn audited<S: LineSource + Sync, G: Gate>(
    rt: &(impl Threads + Wait + Sync),
    alloc: Global,
    source: &S,
    gate: &G,
    asked: &Asked,
) -> Result<Result<Vec<Verdict>, CheckError>, Fail> {
    let skew = Skew::new(asked.skew)?;
    let transit = Transit::new(asked.transit)?;
    let certificates = in_turn(alloc, asked.count)?;
    Ok(audit_all(
        rt,
        alloc,
        source,
        &certificates,
        skew,
        transit,
        asked.workers,
        gate,
    ))
}
