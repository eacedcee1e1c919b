//! The reason why nobody is named, as JSON.

ghost use Rattle.std.specs.Prelude.{◌≡◌, ◌∷◌, [], IfOk, codes};
ghost use Rattle.serde_json.specs.Data.{no_members, string, put as with_member};
ghost use Rattle.serde_json.specs.View.{view, members_view};
ghost use Rattle.report_data.specs.Rulings.{With, IsObject, IsCount, IsTime};
ghost use Rattle.answer_data.specs.Members.{IsLine, IsSide};
ghost use Rattle.answer_data.specs.Reasons.{IsReason, IsReasonOf, IsEndOf};
ghost use Rattle.answer_data.specs.Texts.{IsArrayOf};

use binding_rules::Role;
use candidate_leases::NoHolderReason;
use causal_order::Ref;
use lead_time::Reading;
use report_data::{Object, line_of, side_of, time_of};
use serde_json::Value;
use std::alloc::{AllocError, Global};

/// Why nobody is named, with what is told of it so far.
fn reason(alloc: Global, name: &'static str) -> Object
    ensures { IfOk result.fields
        (λ f. members_view f.entries ≡ with_member (codes "reason") (string name.now) no_members) }
{
    Object::new(alloc).with("reason", name)
}

/// A reason that is its name.
fn plain(alloc: Global, name: &'static str) -> Result<Value, AllocError>
    ensures { IfOk result (λ v. IsReasonOf name.now (IsObject (view v))) }
{
    reason(alloc, name).into_value()
}

/// A moment before the first volumes of both sides, which began at these readings.
fn before_first(alloc: Global, primary: Reading, secondary: Reading) -> Result<Value, AllocError>
    ensures { IfOk result (λ v. IsReason (NoHolderReason.BeforeFirstVolume primary secondary) (view v)) }
{
    reason(alloc, "before_first_volume")
        .with_made("journal_a", time_of(alloc, primary.milliseconds()))
        .with_made("journal_b", time_of(alloc, secondary.milliseconds()))
        .into_value()
}

/// A moment at which answers of earlier volumes may have come.
fn before_open(alloc: Global, side: Role, needed: u64) -> Result<Value, AllocError>
    ensures { IfOk result (λ v. IsReason (NoHolderReason.BeforeOpen side needed) (view v)) }
{
    reason(alloc, "before_open")
        .with("side", side_of(side))
        .with_made("needed", time_of(alloc, needed))
        .into_value()
}

/// A reason by a side's journal: the least that its clock must have shown, and what it showed last, in milliseconds.
fn ended(
    alloc: Global,
    name: &'static str,
    side: Role,
    needed: u64,
    key: &'static str,
    shown: u64,
) -> Result<Value, AllocError>
    ensures { IfOk result (λ v. IsEndOf name.now side needed key.now shown (view v)) }
{
    reason(alloc, name)
        .with("side", side_of(side))
        .with_made("needed", time_of(alloc, needed))
        .with_made(key, time_of(alloc, shown))
        .into_value()
}

/// A prefix of several customers, whose units have this length.
fn several_customers(alloc: Global, unit_length: u8) -> Result<Value, AllocError>
    ensures { IfOk result (λ v. IsReason (NoHolderReason.SeveralCustomers unit_length) (view v)) }
{
    reason(alloc, "several_customers")
        .with("unit_length", unit_length)
        .into_value()
}

/// Two lines.
fn both_lines(alloc: Global, first: Ref, other: Ref) -> Result<Value, AllocError>
    ensures { IfOk result (λ v. IsArrayOf IsLine (first ∷ other ∷ []) (view v)) }
{
    let mut lines = Vec::new(alloc);
    lines.push(line_of(alloc, first)?)?;
    lines.push(line_of(alloc, other)?)?;
    Ok(Value::Array(lines))
}

/// A reason by two lines.
fn several(alloc: Global, first: Ref, other: Ref) -> Result<Value, AllocError>
    ensures { IfOk result (λ v. IsReasonOf (codes "several")
        (With (codes "lines") (IsArrayOf IsLine (first ∷ other ∷ [])) (IsObject (view v)))) }
{
    reason(alloc, "several")
        .with_made("lines", both_lines(alloc, first, other))
        .into_value()
}

/// A lease that is told of by a carry line.
fn carried(alloc: Global, line: Ref) -> Result<Value, AllocError>
    ensures { IfOk result (λ v. IsReasonOf (codes "carried") (With (codes "line") (IsLine line) (IsObject (view v)))) }
{
    reason(alloc, "carried")
        .with_made("line", line_of(alloc, line))
        .into_value()
}

/// The volume of a side that goes on.
fn after_last(alloc: Global, side: Role, needed: u64, last: Reading) -> Result<Value, AllocError>
    ensures { IfOk result (λ v. IsReason (NoHolderReason.AfterLastLine side needed last) (view v)) }
{
    let last = last.milliseconds();
    ended(alloc, "after_last_line", side, needed, "last", last)
}

/// The volume of a side that is closed.
fn past_end(alloc: Global, side: Role, needed: u64, closed: Reading) -> Result<Value, AllocError>
    ensures { IfOk result (λ v. IsReason (NoHolderReason.PastEnd side needed closed) (view v)) }
{
    let closed = closed.milliseconds();
    ended(alloc, "past_end", side, needed, "closed", closed)
}

/// The reason, by its name, and its values. `AllocError` where a growth was refused.
pub fn reason_of(alloc: Global, why: &NoHolderReason) -> Result<Value, AllocError>
    ensures { IfOk result (λ v. IsReason why.now (view v)) }
{
    match why {
        NoHolderReason::OutsidePools => plain(alloc, "outside_pools"),
        NoHolderReason::BeforeFirstVolume { primary, secondary } => before_first(
            alloc, *primary, *secondary,
        ),
        NoHolderReason::BeforeOpen { side, needed } => before_open(alloc, *side, *needed),
        NoHolderReason::AfterLastLine { side, needed, last } => after_last(
            alloc, *side, *needed, *last,
        ),
        NoHolderReason::PastEnd {
            side,
            needed,
            closed,
        } => past_end(alloc, *side, *needed, *closed),
        NoHolderReason::SeveralCustomers { unit_length } => several_customers(alloc, *unit_length),
        NoHolderReason::Several { first, other } => several(alloc, first.at, other.at),
        NoHolderReason::Carried { line } => carried(alloc, line.at),
        NoHolderReason::NotShown => plain(alloc, "not_shown"),
        NoHolderReason::Nobody => plain(alloc, "nobody"),
    }
}
