//! Changes of one piece and of pieces end to end: each number of an accepted input moved, each line of its certificate
//! left out, and the releases that are cleared or not.

use crate::changes::{ACCEPTED, Change, GAP, GRANT};

const GAP_OF_2: &str = "refused C6 PieceGap 2\n";

const GAP_OF_3: &str = "refused C6 PieceGap 3\n";

const CUT: &str = "refused C8 PieceRelease 1 A4\n";

/// Each number of a piece, past its limit.
pub const NUMBERS_OF_A_PIECE: &[Change] = &[
    ("3 10000 grant", "3 10001 grant", GRANT),
    ("3 10000 grant", "3 9999 grant", GRANT),
    ("/56 10\n", "/56 9\n", GRANT),
    ("3 20000 close", "3 19999 close", "refused C5 PastEnd B\n"),
    ("l 12000", "l 11999", GAP),
    ("18000\npiece", "18001\npiece", "refused C5 PastEnd A\n"),
    ("18000\npiece", "17999\npiece", GAP_OF_2),
    ("A3 12000", "A3 12001", GAP),
    ("18000 latest", "18001 latest", GAP_OF_2),
    ("latest A3", "latest A4", GRANT),
    ("earliest A3", "earliest A4", GRANT),
    ("piece A3", "piece A2", GRANT),
];

/// What clears the release, and what does not.
pub const CLEARINGS: &[Change] = &[
    ("4 20000 release", "4 19999 release", CUT),
    ("clear A4 after A4\n", "", CUT),
    ("clear A4 after A4", "clear A5 after A5", CUT),
    ("clear A4 after A4", "clear A4 after A5", CUT),
    ("clear A4 after A4", "clear A3 after A4", CUT),
    ("clear A4 after A4", "clear A4 before chain A3>A4", CUT),
    ("clear A4 after A4", "clear A4 before clock A4 A3", CUT),
    ("clear A4 after A4", "clear B4 after B4", CUT),
    (
        "4 20000 release 00030001020000000001 00000001",
        "4 12000 release 00030001020000000001 00000002",
        ACCEPTED,
    ),
    (
        "4 20000 release 00030001020000000001 00000001",
        "4 12000 release 00030001020000000002 00000001",
        ACCEPTED,
    ),
    (
        "release 00030001020000000001 00000001 2001:0db8:0000:0000",
        "release 00030001020000000001 00000001 2001:0db8:0000:0100",
        ACCEPTED,
    ),
];

/// One line of its certificate left out, but for the clear line.
pub const LINES_OF_A_PIECE: &[Change] = &[
    ("holder 00030001020000000001\n", "", "refused C2 Form 2\n"),
    (
        "prefix 2001:0db8:0000:0000:0000:0000:0000:0000/56\n",
        "",
        "refused C2 Form 3\n",
    ),
    ("interval 12000 18000\n", "", "refused C2 Form 4\n"),
    (
        "piece A3 12000 18000 latest A3 earliest A3\n",
        "",
        "refused C2 Form 5\n",
    ),
    ("A4\nend\n", "A4\n", "refused C3 End\n"),
];

/// Bounds of two pieces, and releases that one of them does not clear.
pub const END_TO_END_CHANGES: &[Change] = &[
    ("12000 18000 latest", "12000 17999 latest", GAP_OF_2),
    ("18000 23000 latest", "18001 23000 latest", GAP_OF_2),
    ("18000 23000 latest", "18000 23001 latest", GAP_OF_3),
    ("18000 23000 latest", "18000 22999 latest", GAP_OF_3),
    (
        "6 15000 grant",
        "6 14999 grant",
        "refused C7 PieceGrant 2\n",
    ),
    ("clear A4 before chain A4>A5\n", "", CUT),
    (
        "clear A7 after A7\nclear B3 before clock B3 A5\n",
        "",
        "refused C8 PieceRelease 1 A7\n",
    ),
    (
        "clear B3 before clock B3 A5\n",
        "",
        "refused C8 PieceRelease 1 B3\n",
    ),
    (
        "clear B3 before clock B3 A6\nclear A7 after A7\n",
        "",
        "refused C8 PieceRelease 2 A7\n",
    ),
    (
        "clear B3 before clock B3 A6\n",
        "",
        "refused C8 PieceRelease 2 B3\n",
    ),
    (
        "clear A4 before chain A4>A6\n",
        "",
        "refused C8 PieceRelease 2 A4\n",
    ),
    (
        "3 5000 release",
        "3 6000 release",
        "refused C8 PieceRelease 1 B3\n",
    ),
    ("3 5000 release", "3 5999 release", ACCEPTED),
    (
        "7 25000 release",
        "7 24999 release",
        "refused C8 PieceRelease 2 A7\n",
    ),
    ("chain A4>A5", "chain A3>A5", CUT),
    ("chain A4>A5", "chain A4", CUT),
    ("chain A4>A5", "clock A4 A5", CUT),
];

/// One line of their certificate left out, but for the other clear lines.
pub const LINES_OF_TWO_PIECES: &[Change] = &[
    ("holder 00030001020000000001\n", "", "refused C2 Form 2\n"),
    (
        "prefix 2001:0db8:0000:0000:0000:0000:0000:0000/56\n",
        "",
        "refused C2 Form 3\n",
    ),
    ("interval 12000 23000\n", "", "refused C2 Form 4\n"),
    (
        "piece A5 12000 18000 latest A5 earliest A5\n",
        "",
        "refused C2 Form 5\n",
    ),
    ("clear A7 after A7\n", "", "refused C8 PieceRelease 1 A7\n"),
    ("piece A6 18000 23000 latest A6 earliest A6\n", "", GAP_OF_2),
    (
        "clear A7 after A7\nclear A4 before chain A4>A6",
        "clear A4 before chain A4>A6",
        "refused C8 PieceRelease 2 A7\n",
    ),
    ("A6\nend\n", "A6\n", "refused C3 End\n"),
];

/// The clear lines of the first piece.
const CLEAR: &str = "clear A4 before chain A4>A5\nclear A7 after A7\nclear B3 before clock B3 A5\n";

/// The same in other orders.
pub const CLEAR_ORDERS: &[Change] = &[
    (
        CLEAR,
        "clear B3 before clock B3 A5\nclear A7 after A7\nclear A4 before chain A4>A5\n",
        ACCEPTED,
    ),
    (
        CLEAR,
        "clear A7 after A7\nclear A4 after A4\nclear B3 before clock B3 A5\nclear A4 before chain A4>A5\n",
        ACCEPTED,
    ),
    (
        CLEAR,
        "clear B3 before clock B3 A5\nclear B3 before clock B3 A5\nclear A7 after A7\n",
        "refused C8 PieceRelease 1 A4\n",
    ),
];
