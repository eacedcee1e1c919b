//! The delegations near the moment, as JSON.

ghost use Rattle.std.specs.Prelude.{◌≡◌, IfOk};
ghost use Rattle.serde_json.specs.View.{view};
ghost use Rattle.answer_data.specs.Members.{IsMoment};
ghost use Rattle.answer_data.specs.Leases.{IsShownFor, begins_from, IsPossibleFor, IsLease, AreLeases};

use crate::state_data::state_of;
use attribution::Lasting;
use candidate_leases::{CandidateLease, begun_by, ends_by, lasts_from, may_begin};
use lead_time::Reading;
use plain_search::HolderQuery;
use report_data::{Object, association_of, client_of, line_of, prefix_of, time_of};
use serde_json::Value;
use std::alloc::{AllocError, Global};

/// A moment, or null.
fn moment_or_null(alloc: Global, moment: Option<u64>) -> Result<Value, AllocError>
    ensures { IfOk result (λ v. IsMoment moment (view v)) }
{
    match moment {
        Some(moment) => time_of(alloc, moment),
        None => Ok(Value::Null),
    }
}

/// From when to when a lease of so many seconds can be shown.
fn shown_for(
    alloc: Global,
    reading: Reading,
    valid: u32,
    query: &HolderQuery,
) -> Result<Value, AllocError>
    ensures { IfOk result (λ v. IsShownFor query.now reading (Lasting.For valid) (view v)) }
{
    let from = begun_by(reading, query.skew, query.transit);
    let to = lasts_from(reading, valid, query.skew);
    Object::new(alloc)
        .with_made("from", time_of(alloc, from))
        .with_made("to", moment_or_null(alloc, to))
        .into_value()
}

/// From when to when a lease can be shown; null where it is carried.
fn shown_of(
    alloc: Global,
    reading: Reading,
    lasting: &Lasting,
    query: &HolderQuery,
) -> Result<Value, AllocError>
    ensures { IfOk result (λ v. IsShownFor query.now reading lasting.now (view v)) }
{
    match lasting {
        Lasting::For(valid) => shown_for(alloc, reading, *valid, query),
        Lasting::Until(_) => Ok(Value::Null),
    }
}

/// From when on a lease may have been; `None` where it is carried.
fn begins_from(reading: Reading, lasting: &Lasting, query: &HolderQuery) -> Option<u64>
    ensures { result ≡ begins_from query.now reading lasting.now }
{
    match lasting {
        Lasting::For(_) => Some(may_begin(reading, query.skew)),
        Lasting::Until(_) => None,
    }
}

/// From when to when it may have been.
fn possible_of(
    alloc: Global,
    reading: Reading,
    lasting: &Lasting,
    query: &HolderQuery,
) -> Result<Value, AllocError>
    ensures { IfOk result (λ v. IsPossibleFor query.now reading lasting.now (view v)) }
{
    let from = begins_from(reading, lasting, query);
    let to = ends_by(reading, lasting, query.skew, query.transit);
    Object::new(alloc)
        .with_made("from", moment_or_null(alloc, from))
        .with_made("to", moment_or_null(alloc, to))
        .into_value()
}

/// A lease, with what is shown of it.
fn lease_of(alloc: Global, lease: &CandidateLease, query: &HolderQuery) -> Result<Value, AllocError>
    ensures { IfOk result (λ v. IsLease query.now lease.now (view v)) }
{
    let reading = lease.line.reading;
    let lasting = &lease.delegation.lasting;
    Object::new(alloc)
        .with_made("line", line_of(alloc, lease.line.at))
        .with_made("reading", time_of(alloc, reading.milliseconds()))
        .with_made("client", client_of(alloc, &lease.delegation.client))
        .with_made("iaid", association_of(alloc, lease.delegation.iaid))
        .with_made("prefix", prefix_of(alloc, &lease.delegation.prefix))
        .with_made("shown", shown_of(alloc, reading, lasting, query))
        .with_made("possible", possible_of(alloc, reading, lasting, query))
        .with_made("at_the_moment", state_of(alloc, &lease.state, query.at))
        .into_value()
}

/// Each lease, with what is shown of it. `AllocError` where a growth was refused.
#[tactic(auto, using(crate::proofs::MoreLeases::leases_begun))]
pub fn leases_of(
    alloc: Global,
    leases: &[CandidateLease],
    query: &HolderQuery,
) -> Result<Value, AllocError>
    ensures { IfOk result (λ v. AreLeases query.now leases.now (view v)) }
{
    let mut values = Vec::new(alloc);
    for lease in leases {
        values.push(lease_of(alloc, lease, query)?)?;
    }
    Ok(Value::Array(values))
}
