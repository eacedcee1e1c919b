//! Losses of power in a run, and in the run that goes on from what was left.

use crate::runs::{COUNT, FileRun, left_of, run_over};
use disk_model::extent_of;
use std::alloc::Global;
use std::process::Abort;
use std::test::Fail;

/// More calls than opening a file and putting the words to it takes: two, and two for each of four batches.
const CALLS: usize = 11;

/// Draws what a loss of power leaves of a run, and goes on from it, with so many calls that are answered.
fn run_again(
    rt: &impl Abort,
    alloc: Global,
    run: &FileRun,
    seed: u64,
    calls: usize,
) -> Result<FileRun, Fail> {
    let content = left_of(rt, run, seed)?;
    run_over(alloc, &content, calls)
}

#[test]
fn what_was_told_of_is_found_again(rt: HostRuntime) -> Result<(), Fail> {
    for calls in 0..CALLS {
        let first = run_over(rt.alloc(), &[], calls)?;
        for seed in 0..200 {
            let second = run_again(&rt, rt.alloc(), &first, seed, seed as usize % CALLS)?;
            assert!(rt; second.told >= first.told);
            assert_eq!(rt;
                run_again(&rt, rt.alloc(), &second, seed, CALLS)?.told,
                COUNT
            );
        }
    }
    Ok(())
}

// The second batch's sync fails: three words were told of, and each number of words from three to six is left.
#[test]
fn any_number_of_lines_past_those_told_of_is_left(rt: HostRuntime) -> Result<(), Fail> {
    let failed = run_over(rt.alloc(), &[], 5)?;
    assert_eq!(rt; failed.told, 3);
    let mut found = [0; 7];
    for seed in 0..200 {
        let content = left_of(&rt, &failed, seed)?;
        found[extent_of(&content).lines.min(6)] = 1;
    }
    assert_eq!(rt; found, [0, 0, 0, 1, 1, 1, 1]);
    Ok(())
}
