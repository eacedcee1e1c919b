//! What a lease was at the moment asked of, as JSON.

ghost use Rattle.std.specs.Prelude.{◌≡◌, ℕ, IfOk, codes};
ghost use Rattle.serde_json.specs.Data.{no_members, string, put as with_member};
ghost use Rattle.serde_json.specs.View.{view, members_view};
ghost use Rattle.report_data.specs.Rulings.{With, IsObject, IsTime};
ghost use Rattle.answer_data.specs.Members.{IsLine};
ghost use Rattle.answer_data.specs.Leases.{IsStateOf, IsGivenBack, FallsShort, IsState};

use binding_rules::Role;
use candidate_leases::AtMoment;
use causal_order::Ref;
use lead_time::Reading;
use report_data::{Object, line_of, side_of, time_of};
use serde_json::Value;
use std::alloc::{AllocError, Global};

/// What a lease was, with what is told of it so far.
fn state(alloc: Global, name: &'static str) -> Object
    ensures { IfOk result.fields
        (λ f. members_view f.entries ≡ with_member (codes "is") (string name.now) no_members) }
{
    Object::new(alloc).with("is", name)
}

/// What is its name alone.
fn plain(alloc: Global, name: &'static str) -> Result<Value, AllocError>
    ensures { IfOk result (λ v. IsStateOf name.now (IsObject (view v))) }
{
    state(alloc, name).into_value()
}

/// A lease that had ended by a moment.
fn ended(alloc: Global, end: u64) -> Result<Value, AllocError>
    ensures { IfOk result (λ v. IsStateOf (codes "ended") (With (codes "by") (IsTime end) (IsObject (view v)))) }
{
    state(alloc, "ended")
        .with_made("by", time_of(alloc, end))
        .into_value()
}

/// A lease that was given back, by its release.
fn given_back(alloc: Global, name: &'static str, release: Ref) -> Result<Value, AllocError>
    ensures { IfOk result (λ v. IsGivenBack name.now (IsLine release) (view v)) }
{
    state(alloc, name)
        .with_made("release", line_of(alloc, release))
        .into_value()
}

/// A lease of which a moment is shown that lies so many milliseconds past the moment asked of, or before it.
fn falls_short(
    alloc: Global,
    name: &'static str,
    key: &'static str,
    moment: u64,
    short: u64,
) -> Result<Value, AllocError>
    ensures { IfOk result (λ v. FallsShort name.now key.now moment short (view v)) }
{
    state(alloc, name)
        .with_made(key, time_of(alloc, moment))
        .with("short_ms", short)
        .into_value()
}

/// A lease that may have been given back in an earlier volume.
fn earlier(alloc: Global, side: Role, needed: u64) -> Result<Value, AllocError>
    ensures { (at : ℕ) → IfOk result (λ v. IsState at (AtMoment.EarlierVolumes side needed) (view v)) }
{
    state(alloc, "earlier_volumes")
        .with("side", side_of(side))
        .with_made("needed", time_of(alloc, needed))
        .into_value()
}

/// A lease that may have been given back behind a close line.
fn later(alloc: Global, side: Role, needed: u64, closed: Reading) -> Result<Value, AllocError>
    ensures { (at : ℕ) → IfOk result (λ v. IsState at (AtMoment.LaterVolumes side needed closed) (view v)) }
{
    state(alloc, "later_volumes")
        .with("side", side_of(side))
        .with_made("needed", time_of(alloc, needed))
        .with_made("closed", time_of(alloc, closed.milliseconds()))
        .into_value()
}

/// A lease that begins later than the moment.
fn beginning(alloc: Global, begun: u64, at: Reading) -> Result<Value, AllocError>
    ensures { IfOk result (λ v. IsState at (AtMoment.Beginning begun) (view v)) }
{
    let short = begun.saturating_sub(at.milliseconds());
    falls_short(alloc, "beginning", "begun_by", begun, short)
}

/// A lease that ends with the moment, or before it.
fn ending(alloc: Global, end: u64, at: Reading) -> Result<Value, AllocError>
    ensures { IfOk result (λ v. IsState at (AtMoment.Ending end) (view v)) }
{
    let short = (at.milliseconds() + 1).saturating_sub(end);
    falls_short(alloc, "ending", "lasts_to", end, short)
}

/// What a lease was at the moment. `AllocError` where a growth was refused.
pub(crate) fn state_of(alloc: Global, found: &AtMoment, at: Reading) -> Result<Value, AllocError>
    ensures { IfOk result (λ v. IsState at found.now (view v)) }
{
    match found {
        AtMoment::NotBegun => plain(alloc, "not_begun"),
        AtMoment::Ended(end) => ended(alloc, *end),
        AtMoment::GivenBack(release) => given_back(alloc, "given_back", release.at),
        AtMoment::Carried => plain(alloc, "carried"),
        AtMoment::Beginning(begun) => beginning(alloc, *begun, at),
        AtMoment::Ending(end) => ending(alloc, *end, at),
        AtMoment::MayBeGivenBack(release) => given_back(alloc, "may_be_given_back", release.at),
        AtMoment::EarlierVolumes { side, needed } => earlier(alloc, *side, *needed),
        AtMoment::LaterVolumes {
            side,
            needed,
            closed,
        } => later(alloc, *side, *needed, *closed),
        AtMoment::Shown => plain(alloc, "shown"),
    }
}
