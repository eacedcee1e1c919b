//! Changes of other clients' leases: those that ended before the interval, began after it or were given back.

use crate::changes::{ACCEPTED, BEFORE_OPEN, Change, GAP, REASON};

/// A lease that ended before the interval, or a millisecond later.
pub const ENDED_EARLY_CHANGES: &[Change] = &[
    (
        "112000 200000\npiece A4 112000",
        "111999 200000\npiece A4 111999",
        REASON,
    ),
    ("foreign A3 early A3\n", "", "refused C9 Uncovered A3\n"),
    ("foreign A3 early A3", "foreign A3 late A3", REASON),
];

/// A lease that began after the interval, or a millisecond earlier.
pub const BEGAN_LATE_CHANGES: &[Change] = &[
    (
        "8000\npiece A3 3000 8000",
        "8001\npiece A3 3000 8001",
        "refused C10 Reason A4\n",
    ),
    (
        "foreign A4 late A4",
        "foreign A4 early A4",
        "refused C10 Reason A4\n",
    ),
];

/// A lease of a wider prefix on the other side.
pub const OF_A_WIDER_PREFIX: &[Change] = &[(
    "3 3700000 close\nend 3",
    "3 10000 grant 00030001020000000002 00000001 2001:0db8:0000:0000:0000:0000:0000:0000/48 3600\n4 3700000 close\n\
    end 4",
    "refused C9 Uncovered B3\n",
)];

/// Messages and releases that do not lead from the grant to the release.
pub const CHAINS: &[Change] = &[
    ("3 9500 take 0 1", "3 9500 take 0 2", REASON),
    ("3 9500 take 0 1", "3 9500 take 1 1", REASON),
    (
        "active 2001:0db8:0000:0000:0000:0000:0000:0000/56 1 0 7210000",
        "active 2001:0db8:0000:0000:0000:0000:0000:0000/56 1 0 7210001",
        REASON,
    ),
    (
        "4 9600 release 00030001020000000002 00000001",
        "4 9600 release 00030001020000000002 00000002",
        REASON,
    ),
    (
        "4 9600 release 00030001020000000002",
        "4 9600 release 00030001020000000003",
        REASON,
    ),
    (
        "4 9600 release 00030001020000000002 00000001 2001:0db8:0000:0000",
        "4 9600 release 00030001020000000002 00000001 2001:0db8:0000:0100",
        REASON,
    ),
];

/// The release's latest moment, and the interval's beginning.
pub const BOUNDS_OF_A_RELEASE: &[Change] = &[
    ("l 22000", "l 21999", GAP),
    (
        "l 22000 40000\npiece B3 22000",
        "l 21999 40000\npiece B3 21999",
        REASON,
    ),
    ("4 20000 release", "4 20001 release", REASON),
    ("chain A3>A4 latest A4", "clock A3 A4 latest A4", ACCEPTED),
];

/// The foreign lines of the leases of five others.
const IN_ORDER: &str =
    "foreign A3 early A3\nforeign A4 early A4\nforeign A5 early A5\nforeign B3 early B3\nforeign B4 early B4\n";

/// The same in other orders, of other lines and of none.
pub const OTHER_ORDERS: &[Change] = &[
    (
        IN_ORDER,
        "foreign B4 early B4\nforeign B3 early B3\nforeign A5 early A5\nforeign A4 early A4\nforeign A3 early A3\n",
        ACCEPTED,
    ),
    (
        IN_ORDER,
        "foreign A5 early A5\nforeign B3 early B3\nforeign A3 early A3\nforeign B4 early B4\nforeign A4 early A4\n",
        ACCEPTED,
    ),
    (
        IN_ORDER,
        "foreign B4 early B4\nforeign A5 early A5\nforeign A3 early A3\n",
        "refused C9 Uncovered A4\n",
    ),
    (
        IN_ORDER,
        "foreign A5 early A5\nforeign A4 early A4\nforeign A5 early A5\nforeign A3 early A3\n",
        "refused C9 Uncovered B3\n",
    ),
    (
        IN_ORDER,
        "foreign B4 early B4\nforeign B3 late B3\nforeign A5 early A5\nforeign A4 late A4\nforeign A3 early A3\n",
        "refused C10 Reason B3\n",
    ),
];

/// Granted before its partner's volume, for ever.
pub const GRANTED_EARLIER: &[Change] = &[(
    "3 1004001 grant 00030001020000000001 00000001 2001:0db8:0000:0000:0000:0000:0000:0000/56 3600",
    "3 10000 grant 00030001020000000001 00000001 2001:0db8:0000:0000:0000:0000:0000:0000/56 4294967295",
    BEFORE_OPEN,
)];
