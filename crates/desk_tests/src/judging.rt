//! Audits of lines that break rules, which the desk's own commands refuse before: the verdict is on the certificate
//! alone. What is judged of legal journals are examples of the desk.

use crate::changes::{
    ACCEPTED, BEFORE_OPEN, Change, REASON, SKEW, Several, check_changes, check_several,
};
use crate::foreign::{
    BEGAN_LATE_CHANGES, BOUNDS_OF_A_RELEASE, CHAINS, ENDED_EARLY_CHANGES, GRANTED_EARLIER,
    OF_A_WIDER_PREFIX, OTHER_ORDERS,
};
use crate::inputs::{
    AT_THE_PARTNER, BEGAN_LATE, END_TO_END, ENDED_EARLY, FIVE_OTHERS, GIVEN_BACK,
    GIVEN_BACK_BY_ANOTHER, WHOLE_HOUR,
};
use crate::pieces::{
    CLEAR_ORDERS, CLEARINGS, END_TO_END_CHANGES, LINES_OF_A_PIECE, LINES_OF_TWO_PIECES,
    NUMBERS_OF_A_PIECE,
};
use crate::volume_inputs::GRANTED_LATER;
use std::test::Fail;

/// Accepted inputs, and what changes of each are.
const CHANGED: [(&str, &[Change]); 13] = [
    (GIVEN_BACK, NUMBERS_OF_A_PIECE),
    (GIVEN_BACK, CLEARINGS),
    (GIVEN_BACK, LINES_OF_A_PIECE),
    (END_TO_END, END_TO_END_CHANGES),
    (END_TO_END, LINES_OF_TWO_PIECES),
    (END_TO_END, CLEAR_ORDERS),
    (ENDED_EARLY, ENDED_EARLY_CHANGES),
    (BEGAN_LATE, BEGAN_LATE_CHANGES),
    (WHOLE_HOUR, OF_A_WIDER_PREFIX),
    (AT_THE_PARTNER, CHAINS),
    (GIVEN_BACK_BY_ANOTHER, BOUNDS_OF_A_RELEASE),
    (FIVE_OTHERS, OTHER_ORDERS),
    (GRANTED_LATER, GRANTED_EARLIER),
];

#[test]
fn judges_each_change(rt: HostRuntime) -> Result<(), Fail> {
    for (input, changes) in &CHANGED {
        check_changes(&rt, rt.alloc(), input, changes)?;
    }
    Ok(())
}

/// What stands in an input, and what is put in its place.
const BY_CLOCK: (&str, &str) = ("chain A3>A4>B3>B4", "clock A3 B4");

/// The same where one side holds both lines.
const BY_ITS_CLOCK: (&str, &str) = ("chain A3>A4", "clock A3 A4");

/// The secondary's journal of the whole hour, as its second volume opened at 1000000.
const OPENED_LATER: (&str, &str) = (
    "pd-journal 1 B\n1 500 open 2000 3600 3600\n2 500 pool",
    "pd-journal 2 B 2\n1 1000000 open 2000 3600 3600\n2 1000000 pool",
);

/// A grant a millisecond earlier.
const GRANTED_BEFORE: (&str, &str) = ("3 1004001 grant", "3 1004000 grant");

const SEVERAL: [Several; 10] = [
    // Clocks as far from true time as said: the close lines come too early.
    (GIVEN_BACK, &[], SKEW + 1, "refused C5 PastEnd A\n"),
    // Another client's lease, given back on the same side: it holds from the release's latest moment on.
    (
        GIVEN_BACK_BY_ANOTHER,
        &[BY_ITS_CLOCK, ("4 20000 release", "4 14000 release")],
        SKEW,
        REASON,
    ),
    (
        GIVEN_BACK_BY_ANOTHER,
        &[BY_ITS_CLOCK, ("4 20000 release", "4 14001 release")],
        SKEW,
        ACCEPTED,
    ),
    // Readings order two lines only where they lie further apart than twice the skew: 10,000 and 9,600 lie 400 apart
    // the wrong way; 9,000 and 9,600 are 600 apart, more than twice 299.
    (
        AT_THE_PARTNER,
        &[BY_CLOCK, ("3 10000 grant", "3 9000 grant")],
        SKEW,
        REASON,
    ),
    (
        AT_THE_PARTNER,
        &[BY_CLOCK, ("4 9600 release", "4 9500 release")],
        SKEW,
        REASON,
    ),
    (
        AT_THE_PARTNER,
        &[BY_CLOCK, ("3 10000 grant", "3 9000 grant")],
        300,
        REASON,
    ),
    (
        AT_THE_PARTNER,
        &[BY_CLOCK, ("3 10000 grant", "3 9000 grant")],
        299,
        ACCEPTED,
    ),
    // A grant by 1004000 may have been written by 1002000; a first volume has none before it.
    (
        GRANTED_LATER,
        &[GRANTED_BEFORE, ("pd-journal 2 B 2", "pd-journal 1 B")],
        SKEW,
        ACCEPTED,
    ),
    // Before the partner's volume.
    (WHOLE_HOUR, &[OPENED_LATER], SKEW, BEFORE_OPEN),
    (
        WHOLE_HOUR,
        &[
            OPENED_LATER,
            (" 12000 ", " 1002000 "),
            (" 12000 ", " 1002000 "),
        ],
        SKEW,
        BEFORE_OPEN,
    ),
];

#[test]
fn judges_several_changes(rt: HostRuntime) -> Result<(), Fail> {
    for several in &SEVERAL {
        check_several(&rt, rt.alloc(), several)?;
    }
    Ok(())
}
