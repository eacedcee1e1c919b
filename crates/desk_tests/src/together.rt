//! Two workers audit at a time, and no worker has a share of its own.

use crate::gates::Holding;
use crate::pairs::{pair_of, plain_of};
use crate::parallel_inputs::{Asked, PRIMARY, SECONDARY, SKEW, audited};
use attribution::Verdict;
use std::alloc::Global;
use std::process::Abort;
use std::sync::Wait;
use std::test::Fail;
use std::thread::Threads;

/// The verdicts of two workers on so many certificates, who pass a gate.
fn verdicts_at(
    rt: &(impl Threads + Wait + Sync),
    alloc: Global,
    gate: &Holding,
    count: usize,
) -> Result<Vec<Verdict>, Fail> {
    let pair = pair_of(alloc, PRIMARY.as_bytes(), SECONDARY.as_bytes())?;
    let asked = Asked {
        count,
        skew: SKEW,
        transit: 0,
        workers: 2,
    };
    Ok(audited(rt, alloc, &plain_of(&pair), gate, &asked)??)
}

/// That one of two workers, held at index 0, sees that the audit of another index is over.
fn check_held(
    rt: &(impl Abort + Threads + Wait + Sync),
    alloc: Global,
    count: usize,
    until: usize,
) -> Result<(), Fail> {
    let gate = Holding::new(until);
    let verdicts = verdicts_at(rt, alloc, &gate, count)?;
    assert!(rt; gate.saw_it());
    assert_eq!(rt; verdicts.len(), count);
    for (index, verdict) in verdicts.iter().enumerate() {
        assert_eq!(rt; *verdict == Verdict::Accepted, index % 2 == 0);
    }
    Ok(())
}

// `one_thread_audits_all` would hold index 0 for all turns.
#[test]
fn two_work_at_a_time(rt: HostRuntime) -> Result<(), Fail> {
    check_held(&rt, rt.alloc(), 2, 1)
}

// While one worker is held at the first certificate, the other draws both of the rest.
#[test]
fn no_worker_has_a_share_of_its_own(rt: HostRuntime) -> Result<(), Fail> {
    check_held(&rt, rt.alloc(), 3, 2)
}
