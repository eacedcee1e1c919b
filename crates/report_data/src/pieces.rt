//! Pieces as JSON.

use crate::object::Object;
use crate::values::{
    association_of, chain_of, client_of, line_of, mark_of, order_of, prefix_of, time_of,
};
use causal_order::{Chain, Clear};
use evidence_report::{
    ClearReport, LineReading, OrderReport, PieceReport, ReleaseReport, ReportedGrant,
};
use serde_json::Value;
use std::alloc::{AllocError, Global};

fn lease_of(alloc: Global, granted: &ReportedGrant) -> Result<Value, AllocError> {
    Object::new(alloc)
        .with_made("reading", time_of(alloc, granted.reading.milliseconds()))
        .with_made("client", client_of(alloc, &granted.lease.client))
        .with_made("iaid", association_of(alloc, granted.lease.iaid))
        .with_made("prefix", prefix_of(alloc, &granted.lease.prefix))
        .with("valid_s", granted.lease.valid)
        .into_value()
}

/// What a grant grants, or null.
fn granted_of(alloc: Global, granted: &Option<ReportedGrant>) -> Result<Value, AllocError> {
    match granted {
        Some(granted) => lease_of(alloc, granted),
        None => Ok(Value::Null),
    }
}

fn cleared_before(alloc: Global, order: &OrderReport<'_>) -> Result<Value, AllocError> {
    Object::new(alloc)
        .with("why", "before_grant")
        .with_made("order", order_of(alloc, order))
        .into_value()
}

fn cleared_after(
    alloc: Global,
    chain: &Chain,
    earliest: &Option<LineReading>,
) -> Result<Value, AllocError> {
    Object::new(alloc)
        .with("why", "after_piece")
        .with_made("chain", chain_of(alloc, chain))
        .with_made("written_from", mark_of(alloc, earliest))
        .into_value()
}

/// Why a release doesn't end the piece, or null.
fn cleared_of(
    alloc: Global,
    entry: &Option<(&Clear, ClearReport<'_>)>,
) -> Result<Value, AllocError> {
    match entry {
        Some((_, ClearReport::Before(order))) => cleared_before(alloc, order),
        Some((_, ClearReport::After(chain, earliest))) => cleared_after(alloc, chain, earliest),
        None => Ok(Value::Null),
    }
}

fn release_of(alloc: Global, report: &ReleaseReport<'_>) -> Result<Value, AllocError> {
    Object::new(alloc)
        .with_made("line", line_of(alloc, report.release.at))
        .with_made(
            "reading",
            time_of(alloc, report.release.reading.milliseconds()),
        )
        .with_made("cleared", cleared_of(alloc, &report.entry))
        .with("discharged", report.is_discharged)
        .into_value()
}

fn releases_of(alloc: Global, releases: &[ReleaseReport<'_>]) -> Result<Value, AllocError> {
    let mut values = Vec::new(alloc);
    for release in releases {
        values.push(release_of(alloc, release)?)?;
    }
    Ok(Value::Array(values))
}

/// The object with the number of releases that aren't told of, where there are any.
fn with_more(object: Object, more: u64) -> Object {
    if more == 0 {
        return object;
    }
    object.with("more_releases", more)
}

fn piece_of(alloc: Global, report: &PieceReport<'_>) -> Result<Value, AllocError> {
    let object = Object::new(alloc)
        .with_made("from", time_of(alloc, report.piece.from.milliseconds()))
        .with_made("to", time_of(alloc, report.piece.to.milliseconds()))
        .with_made("grant", line_of(alloc, report.piece.grant))
        .with_made("granted", granted_of(alloc, &report.granted))
        .with_made("chain_from_grant", chain_of(alloc, &report.piece.latest))
        .with_made("granted_by", mark_of(alloc, &report.latest))
        .with_made("chain_to_grant", chain_of(alloc, &report.piece.earliest))
        .with_made("granted_from", mark_of(alloc, &report.earliest))
        .with_made("releases", releases_of(alloc, &report.releases.told));
    with_more(object, report.releases.more).into_value()
}

/// Each piece, in order.
pub(crate) fn pieces_of(alloc: Global, pieces: &[PieceReport<'_>]) -> Result<Value, AllocError> {
    let mut values = Vec::new(alloc);
    for piece in pieces {
        values.push(piece_of(alloc, piece)?)?;
    }
    Ok(Value::Array(values))
}
