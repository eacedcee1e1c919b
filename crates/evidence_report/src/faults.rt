//! Which comparison fails, and with which numbers.

use attribution::Delegation;
use binding_rules::Role;
use causal_order::Ref;
use client_id::Duid;
use lead_time::Reading;
use prefix_range::Prefix;

/// Why a grant doesn't carry a piece: the first that holds, in this order. Numbers are milliseconds of true time.
#[derive(Clone, Copy, Debug, PartialEq, Eq)]
pub enum PieceFault {
    /// The line that it names grants nothing.
    NoGrant,
    /// The lease is this client's.
    OtherClient(Duid),
    /// The lease is of this prefix, which doesn't contain the one asked of.
    OtherPrefix(Prefix),
    /// What it names is no chain from the grant.
    NoChainFrom,
    /// The lease surely stands from this moment on, which is later than the piece's beginning.
    BegunLate { begun: u64, from: u64 },
    /// What it names is no chain to the grant.
    NoChainTo,
    /// The piece's end and the skew (`needed`) are later than the reading and the lifetime (`shown`).
    EndsEarly { needed: u64, shown: u64 },
}

/// Why a foreign entry's reason doesn't hold: the first that holds, in this order. Numbers are milliseconds of true
/// time.
#[derive(Clone, Copy, Debug, PartialEq, Eq)]
pub enum ForeignFault {
    /// The line that it names tells of no delegation.
    NoDelegation,
    /// What it names is no chain from, or to, the line or the release.
    NoChain,
    /// The lease never ends.
    Endless,
    /// The delegation may last up to this moment, which is later than the interval's beginning.
    EndsLate { ends: u64, from: u64 },
    /// A carry line doesn't show when what it tells of began.
    Carried,
    /// The interval's end and the skew (`needed`) are later than the reading at the chain's first line (`shown`).
    BeginsEarly { needed: u64, shown: u64 },
    /// The line that is named as its release gives back something else.
    NotGivenBack,
    /// The release isn't shown to have come behind the grant.
    NotBehind,
    /// It was surely given back by this moment, which is later than the interval's beginning.
    GivenBackLate { given: u64, from: u64 },
}

/// Why a certificate is refused: the condition that isn't met, with what was compared.
#[derive(Clone, Copy, Debug, PartialEq, Eq)]
pub enum Failure {
    /// The interval ends where it begins, or before.
    EmptyInterval {
        from: Reading,
        to: Reading,
    },
    /// The interval's end and the skew (`needed`) are later than the reading of this side's close line.
    PastEnd {
        side: Role,
        needed: u64,
        closed: Reading,
    },
    /// The piece of this number, from 1, must begin at `must`, and begins at `begins`, with its end at `ends`; behind
    /// the last one there is none, and the last ends at `must`, which isn't the interval's end.
    PieceGap {
        number: u64,
        must: Reading,
        piece: Option<(Reading, Reading)>,
    },
    /// The piece of this number isn't carried by its grant.
    PieceGrant {
        number: u64,
        fault: PieceFault,
    },
    /// This side has earlier volumes, whose answers had surely reached their clients by `needed`, which is later than
    /// the interval's beginning.
    BeforeOpen {
        side: Role,
        needed: u64,
        from: Reading,
    },
    /// The grant of the piece of this number isn't shown to have come behind the earlier volumes of this side.
    PieceBeforeOpen {
        number: u64,
        side: Role,
    },
    /// No clear entry discharges this release of what the piece's grant gave.
    PieceRelease {
        number: u64,
        release: Ref,
    },
    /// The line tells of this delegation of another client, and no foreign entry names it.
    Uncovered {
        at: Ref,
        delegation: Delegation,
    },
    /// The reason of the foreign entry of this line doesn't hold.
    Reason {
        at: Ref,
        fault: ForeignFault,
    },
}
