//! Other clients' delegations as JSON.

use crate::object::Object;
use crate::values::{
    association_of, chain_of, client_of, line_of, mark_of, order_of, prefix_of, time_of,
};
use attribution::{Delegation, Lasting};
use causal_order::{Chain, Ref};
use evidence_report::{
    ForeignEvidence, ForeignReport, LineReading, OrderReport, ReportedDelegation,
};
use serde_json::Value;
use std::alloc::{AllocError, Global};

/// For how many seconds a delegation lasts, or null.
fn seconds_of(lasting: &Lasting) -> Value {
    match lasting {
        Lasting::For(seconds) => Value::from(*seconds),
        Lasting::Until(_) => Value::Null,
    }
}

/// Up to which reading it is carried, or null.
fn until_of(alloc: Global, lasting: &Lasting) -> Result<Value, AllocError> {
    match lasting {
        Lasting::For(_) => Ok(Value::Null),
        Lasting::Until(end) => time_of(alloc, end.milliseconds()),
    }
}

/// Whose a delegation is, of which prefix, and how long it lasts: one of the last two is null.
pub(crate) fn delegation_of(alloc: Global, delegation: &Delegation) -> Result<Value, AllocError> {
    Object::new(alloc)
        .with_made("client", client_of(alloc, &delegation.client))
        .with_made("iaid", association_of(alloc, delegation.iaid))
        .with_made("prefix", prefix_of(alloc, &delegation.prefix))
        .with("valid_s", seconds_of(&delegation.lasting))
        .with_made("until", until_of(alloc, &delegation.lasting))
        .into_value()
}

fn delegated_of(alloc: Global, told: &ReportedDelegation) -> Result<Value, AllocError> {
    Object::new(alloc)
        .with_made("reading", time_of(alloc, told.reading.milliseconds()))
        .with_made("delegation", delegation_of(alloc, &told.delegation))
        .into_value()
}

fn told_of(alloc: Global, told: &Option<ReportedDelegation>) -> Result<Value, AllocError> {
    match told {
        Some(told) => delegated_of(alloc, told),
        None => Ok(Value::Null),
    }
}

fn early_of(
    alloc: Global,
    chain: &Chain,
    latest: &Option<LineReading>,
) -> Result<Value, AllocError> {
    Object::new(alloc)
        .with("why", "early")
        .with_made("chain", chain_of(alloc, chain))
        .with_made("written_by", mark_of(alloc, latest))
        .into_value()
}

fn late_of(
    alloc: Global,
    chain: &Chain,
    earliest: &Option<LineReading>,
) -> Result<Value, AllocError> {
    Object::new(alloc)
        .with("why", "late")
        .with_made("chain", chain_of(alloc, chain))
        .with_made("written_from", mark_of(alloc, earliest))
        .into_value()
}

fn released_of(
    alloc: Global,
    release: Ref,
    gives_back: bool,
    order: &OrderReport<'_>,
    chain: &Chain,
    latest: &Option<LineReading>,
) -> Result<Value, AllocError> {
    Object::new(alloc)
        .with("why", "released")
        .with_made("release", line_of(alloc, release))
        .with("gives_back", gives_back)
        .with_made("order", order_of(alloc, order))
        .with_made("chain", chain_of(alloc, chain))
        .with_made("written_by", mark_of(alloc, latest))
        .into_value()
}

fn outside_of(alloc: Global, outside: &ForeignEvidence<'_>) -> Result<Value, AllocError> {
    match outside {
        ForeignEvidence::Early(chain, latest) => early_of(alloc, chain, latest),
        ForeignEvidence::Late(chain, earliest) => late_of(alloc, chain, earliest),
        ForeignEvidence::Released {
            release,
            gives_back,
            order,
            chain,
            latest,
        } => released_of(alloc, *release, *gives_back, order, chain, latest),
    }
}

fn entry_of(alloc: Global, report: &ForeignReport<'_>) -> Result<Value, AllocError> {
    Object::new(alloc)
        .with_made("line", line_of(alloc, report.entry.grant))
        .with_made("told", told_of(alloc, &report.told))
        .with_made("outside", outside_of(alloc, &report.outside))
        .into_value()
}

/// Each foreign entry, in order.
pub(crate) fn foreign_of(
    alloc: Global,
    foreign: &[ForeignReport<'_>],
) -> Result<Value, AllocError> {
    let mut values = Vec::new(alloc);
    for entry in foreign {
        values.push(entry_of(alloc, entry)?)?;
    }
    Ok(Value::Array(values))
}
