//! What a certificate says.

use crate::by_line::NamesLine;
use crate::entries::{Chain, ClearList, ForeignList, PieceList};
use crate::order::Precedes;
use crate::reference::Ref;
use client_id::Duid;
use lead_time::Reading;
use prefix_range::Prefix;

/// A client is said to have held a whole prefix from one moment up to another, in milliseconds of true time.
#[derive(Debug, Drop)]
pub struct Certificate {
    pub holder: Duid,
    pub prefix: Prefix,
    pub from: Reading,
    /// The first moment past the interval.
    pub to: Reading,
    pub pieces: PieceList,
    pub foreign: ForeignList,
}

/// A grant that carries a part of the interval.
#[derive(Debug, Drop)]
pub struct Piece {
    pub grant: Ref,
    pub from: Reading,
    pub to: Reading,
    /// A chain from the grant.
    pub latest: Chain,
    /// A chain to the grant.
    pub earliest: Chain,
    pub clear: ClearList,
}

/// A release that does not cut a piece short.
#[derive(Debug, Drop)]
pub struct Clear {
    pub release: Ref,
    pub why: ClearReason,
}

impl NamesLine for Clear {
    ghost named = { λ c. c.release };

    fn line(&self) -> Ref {
        self.release
    }
}

/// Why a release does not cut a piece short.
#[derive(Debug, Drop)]
pub enum ClearReason {
    /// It was written before the grant.
    Before(Precedes),
    /// It was written after the piece's end: a chain to the release.
    After(Chain),
}

/// Another client's grant.
#[derive(Debug, Drop)]
pub struct Foreign {
    pub grant: Ref,
    pub reason: Reason,
}

impl NamesLine for Foreign {
    ghost named = { λ f. f.grant };

    fn line(&self) -> Ref {
        self.grant
    }
}

/// Why another client's grant does not touch the interval.
#[derive(Debug, Drop)]
pub enum Reason {
    /// It ended before: a chain from the grant.
    Early(Chain),
    /// It began after: a chain to the grant.
    Late(Chain),
    /// It was given back before: the release, why it came after the grant, a chain from the release.
    Released {
        release: Ref,
        order: Precedes,
        latest: Chain,
    },
}
