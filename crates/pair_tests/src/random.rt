//! Many short walks by chance.

use crate::walks::{Tally, first_wrong_seed};
use std::test::Fail;

/// How many walks, of how many events each: under thirty seconds where the test is compiled with all checks and
/// unproved.
const WALKS: u64 = 400;

const EVENTS: u64 = 250;

#[test]
fn no_walk_goes_wrong(rt: HostRuntime) -> Result<(), Fail> {
    let mut tally = Tally::NONE;
    let wrong = first_wrong_seed(rt.alloc(), WALKS, EVENTS, &mut tally)?;
    assert_eq!(&rt; wrong, None);
    // the walks meet what they are to meet
    assert!(&rt; tally.granted > 0 && tally.restarted > 0 && tally.seized > 0);
    Ok(())
}
