//! Any number of workers gives the verdicts of one, over either source of lines.

use crate::pairs::{index_of, pair_of, plain_of};
use crate::parallel_inputs::{Asked, PRIMARY, SECONDARY, SKEW, audited};
use attribution::{Verdict, verdict_line};
use auditor::LineSource;
use parallel_check::{CheckError, OpenGate};
use std::alloc::Global;
use std::process::Abort;
use std::sync::Wait;
use std::test::Fail;
use std::thread::Threads;

/// That the verdicts are accepted and refused in turn.
fn check_in_turn(rt: &impl Abort, alloc: Global, verdicts: &[Verdict]) -> Result<(), Fail> {
    for (index, verdict) in verdicts.iter().enumerate() {
        let line = if index % 2 == 0 {
            "accepted\n"
        } else {
            "refused C7 PieceGrant 1\n"
        };
        assert_eq!(rt; verdict_line(alloc, verdict)?.as_slice(), line.as_bytes());
    }
    Ok(())
}

/// That 0, 1 and 65 certificates are accepted and refused in turn, by so many workers.
fn check_workers<S: LineSource + Sync>(
    rt: &(impl Abort + Threads + Wait + Sync),
    alloc: Global,
    source: &S,
    workers: usize,
) -> Result<(), Fail> {
    for count in [0, 1, 65] {
        let asked = Asked {
            count,
            skew: SKEW,
            transit: 0,
            workers,
        };
        let verdicts = audited(rt, alloc, source, &OpenGate, &asked)??;
        assert_eq!(rt; verdicts.len(), count);
        check_in_turn(rt, alloc, &verdicts)?;
    }
    Ok(())
}

/// That any number of workers gives the same over a source.
fn check_source<S: LineSource + Sync>(
    rt: &(impl Abort + Threads + Wait + Sync),
    alloc: Global,
    source: &S,
) -> Result<(), Fail> {
    for workers in [1, 2, 3, 63, 64] {
        check_workers(rt, alloc, source, workers)?;
    }
    Ok(())
}

#[test]
fn any_number_of_workers_gives_the_same(rt: HostRuntime) -> Result<(), Fail> {
    let pair = pair_of(rt.alloc(), PRIMARY.as_bytes(), SECONDARY.as_bytes())?;
    check_source(&rt, rt.alloc(), &plain_of(&pair))?;
    let index = index_of(&rt, rt.alloc(), &pair)?;
    check_source(&rt, rt.alloc(), &index)
}

/// How many certificates and workers: none, and too many.
const REFUSED: [(usize, usize); 6] = [
    (0, 0),
    (0, 65),
    (0, usize::MAX),
    (2, 0),
    (2, 65),
    (2, usize::MAX),
];

#[test]
fn no_workers_and_too_many_are_refused(rt: HostRuntime) -> Result<(), Fail> {
    let pair = pair_of(rt.alloc(), PRIMARY.as_bytes(), SECONDARY.as_bytes())?;
    let source = plain_of(&pair);
    for (count, workers) in &REFUSED {
        let asked = Asked {
            count: *count,
            skew: SKEW,
            transit: 0,
            workers: *workers,
        };
        let verdicts = audited(&rt, rt.alloc(), &source, &OpenGate, &asked)?;
        assert!(rt; matches!(&verdicts, Err(CheckError::Workers)));
    }
    Ok(())
}

/// The skew, the transit and the verdict. An answer that may be half a second under way: the lease may have begun too
/// late for the whole hour.
const BY_TRANSIT: [(u64, u64, Verdict); 3] = [
    (SKEW, 0, Verdict::Accepted),
    (SKEW, 500, Verdict::PieceGrant(1)),
    (SKEW + 1, 0, Verdict::PieceGrant(1)),
];

#[test]
fn the_transit_is_asked(rt: HostRuntime) -> Result<(), Fail> {
    let pair = pair_of(rt.alloc(), PRIMARY.as_bytes(), SECONDARY.as_bytes())?;
    let source = plain_of(&pair);
    for (skew, transit, verdict) in &BY_TRANSIT {
        let asked = Asked {
            count: 1,
            skew: *skew,
            transit: *transit,
            workers: 2,
        };
        let verdicts = audited(&rt, rt.alloc(), &source, &OpenGate, &asked)??;
        assert!(rt; verdicts.as_slice() == [*verdict].as_slice());
    }
    Ok(())
}
