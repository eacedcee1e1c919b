//! The comparison that a refusal rests on, as JSON.

use crate::foreign::delegation_of;
use crate::object::Object;
use crate::values::{client_of, line_of, prefix_of, side_of, time_of};
use attribution::Delegation;
use binding_rules::Role;
use causal_order::Ref;
use evidence_report::{Failure, ForeignFault, PieceFault};
use lead_time::Reading;
use serde_json::Value;
use std::alloc::{AllocError, Global};

/// A moment, or null.
fn moment_of(alloc: Global, moment: Option<Reading>) -> Result<Value, AllocError> {
    match moment {
        Some(moment) => time_of(alloc, moment.milliseconds()),
        None => Ok(Value::Null),
    }
}

fn gap_of(
    alloc: Global,
    number: u64,
    must: Reading,
    piece: &Option<(Reading, Reading)>,
) -> Result<Value, AllocError> {
    let (begins, ends) = match piece {
        Some((begins, ends)) => (Some(*begins), Some(*ends)),
        None => (None, None),
    };
    Object::new(alloc)
        .with("condition", "C6")
        .with("piece", number)
        .with_made("must_begin", time_of(alloc, must.milliseconds()))
        .with_made("begins", moment_of(alloc, begins))
        .with_made("ends", moment_of(alloc, ends))
        .into_value()
}

/// A fault of a piece, with what is told of it so far.
fn piece_fault(alloc: Global, number: u64, name: &'static str) -> Object {
    Object::new(alloc)
        .with("condition", "C7")
        .with("piece", number)
        .with("fault", name)
}

/// A fault of a piece, with the two moments that were compared, by their names.
fn compared_piece(
    alloc: Global,
    number: u64,
    name: &'static str,
    later: (&'static str, u64),
    earlier: (&'static str, u64),
) -> Result<Value, AllocError> {
    piece_fault(alloc, number, name)
        .with_made(later.0, time_of(alloc, later.1))
        .with_made(earlier.0, time_of(alloc, earlier.1))
        .into_value()
}

fn piece_fault_of(alloc: Global, number: u64, fault: &PieceFault) -> Result<Value, AllocError> {
    match fault {
        PieceFault::NoGrant => piece_fault(alloc, number, "no_grant").into_value(),
        PieceFault::OtherClient(client) => {
            piece_fault(alloc, number, "other_client")
                .with_made("client", client_of(alloc, client))
                .into_value()
        }
        PieceFault::OtherPrefix(prefix) => {
            piece_fault(alloc, number, "other_prefix")
                .with_made("prefix", prefix_of(alloc, prefix))
                .into_value()
        }
        PieceFault::NoChainFrom => piece_fault(alloc, number, "no_chain_from").into_value(),
        PieceFault::BegunLate { begun, from } => compared_piece(
            alloc,
            number,
            "begun_late",
            ("begun", *begun),
            ("from", *from),
        ),
        PieceFault::NoChainTo => piece_fault(alloc, number, "no_chain_to").into_value(),
        PieceFault::EndsEarly { needed, shown } => compared_piece(
            alloc,
            number,
            "ends_early",
            ("needed", *needed),
            ("shown", *shown),
        ),
    }
}

/// A foreign entry's fault, with what is told of it so far.
fn line_fault(alloc: Global, at: Ref, name: &'static str) -> Object {
    Object::new(alloc)
        .with("condition", "C10")
        .with_made("line", line_of(alloc, at))
        .with("fault", name)
}

/// A foreign entry's fault that has no numbers.
fn named_fault(alloc: Global, at: Ref, name: &'static str) -> Result<Value, AllocError> {
    line_fault(alloc, at, name).into_value()
}

/// A foreign entry's fault, with the two moments that were compared.
fn compared_fault(
    alloc: Global,
    at: Ref,
    name: &'static str,
    later: u64,
    earlier: u64,
) -> Result<Value, AllocError> {
    line_fault(alloc, at, name)
        .with_made("later", time_of(alloc, later))
        .with_made("earlier", time_of(alloc, earlier))
        .into_value()
}

fn foreign_fault_of(alloc: Global, at: Ref, fault: &ForeignFault) -> Result<Value, AllocError> {
    match fault {
        ForeignFault::NoDelegation => named_fault(alloc, at, "no_delegation"),
        ForeignFault::NoChain => named_fault(alloc, at, "no_chain"),
        ForeignFault::Endless => named_fault(alloc, at, "endless"),
        ForeignFault::EndsLate { ends, from } => {
            compared_fault(alloc, at, "ends_late", *ends, *from)
        }
        ForeignFault::Carried => named_fault(alloc, at, "carried"),
        ForeignFault::BeginsEarly { needed, shown } => {
            compared_fault(alloc, at, "begins_early", *needed, *shown)
        }
        ForeignFault::NotGivenBack => named_fault(alloc, at, "not_given_back"),
        ForeignFault::NotBehind => named_fault(alloc, at, "not_behind"),
        ForeignFault::GivenBackLate { given, from } => {
            compared_fault(alloc, at, "given_back_late", *given, *from)
        }
    }
}

fn empty_interval(alloc: Global, from: Reading, to: Reading) -> Result<Value, AllocError> {
    Object::new(alloc)
        .with("condition", "C4")
        .with_made("from", time_of(alloc, from.milliseconds()))
        .with_made("to", time_of(alloc, to.milliseconds()))
        .into_value()
}

fn past_end(alloc: Global, side: Role, needed: u64, closed: Reading) -> Result<Value, AllocError> {
    Object::new(alloc)
        .with("condition", "C5")
        .with("side", side_of(side))
        .with_made("needed", time_of(alloc, needed))
        .with_made("closed", time_of(alloc, closed.milliseconds()))
        .into_value()
}

fn before_open(alloc: Global, side: Role, needed: u64, from: Reading) -> Result<Value, AllocError> {
    Object::new(alloc)
        .with("condition", "C11")
        .with("side", side_of(side))
        .with_made("needed", time_of(alloc, needed))
        .with_made("from", time_of(alloc, from.milliseconds()))
        .into_value()
}

fn piece_before_open(alloc: Global, number: u64, side: Role) -> Result<Value, AllocError> {
    Object::new(alloc)
        .with("condition", "C11")
        .with("side", side_of(side))
        .with("piece", number)
        .into_value()
}

fn piece_release(alloc: Global, number: u64, release: Ref) -> Result<Value, AllocError> {
    Object::new(alloc)
        .with("condition", "C8")
        .with("piece", number)
        .with_made("line", line_of(alloc, release))
        .into_value()
}

fn uncovered(alloc: Global, at: Ref, delegation: &Delegation) -> Result<Value, AllocError> {
    Object::new(alloc)
        .with("condition", "C9")
        .with_made("line", line_of(alloc, at))
        .with_made("delegation", delegation_of(alloc, delegation))
        .into_value()
}

fn condition_of(alloc: Global, failure: &Failure) -> Result<Value, AllocError> {
    match failure {
        Failure::EmptyInterval { from, to } => empty_interval(alloc, *from, *to),
        Failure::PastEnd {
            side,
            needed,
            closed,
        } => past_end(alloc, *side, *needed, *closed),
        Failure::PieceGap {
            number,
            must,
            piece,
        } => gap_of(alloc, *number, *must, piece),
        Failure::PieceGrant { number, fault } => piece_fault_of(alloc, *number, fault),
        Failure::BeforeOpen { side, needed, from } => before_open(alloc, *side, *needed, *from),
        Failure::PieceBeforeOpen { number, side } => piece_before_open(alloc, *number, *side),
        Failure::PieceRelease { number, release } => piece_release(alloc, *number, *release),
        Failure::Uncovered { at, delegation } => uncovered(alloc, *at, delegation),
        Failure::Reason { at, fault } => foreign_fault_of(alloc, *at, fault),
    }
}

/// The comparison, or null.
pub(crate) fn failure_of(alloc: Global, failure: &Option<Failure>) -> Result<Value, AllocError> {
    match failure {
        Some(failure) => condition_of(alloc, failure),
        None => Ok(Value::Null),
    }
}
