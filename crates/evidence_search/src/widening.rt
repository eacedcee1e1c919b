//! The widest interval that a search shows.

ghost use Rattle.std.specs.Prelude.{◌≡◌, ◌+◌, ◌<◌, ◌≤◌, ℕ, IfOk, IsErrOf, MatchOption};
ghost use Rattle.binding_rules.specs.declared.role.Role.TheVariants.{Primary};
ghost use Rattle.causal_order.specs.Journals.{journal_of};
ghost use Rattle.attribution.specs.Acceptance.{ClosesFrom};
ghost use Rattle.evidence_search.specs.Claim.{between, HasNoPlainEvidence, IsNotTold, IsTooLong};
ghost use Rattle.evidence_search.specs.Search.{IsShownRound, IsTold};

use crate::finding::search_over;
use crate::guessing::guess_round;
use crate::messages::DeliveredMessages;
use auditor::LineSource;
use binding_rules::Role;
use causal_order::Certificate;
use lead_time::{Reading, Skew};
use plain_search::{FindError, Query, less_skew};
use std::alloc::{AllocError, Global};

/// The certificate that tells of the query; none where it isn't shown, or only by more lines than a text may have.
fn told_over<S: LineSource>(
    alloc: Global,
    source: &S,
    messages: Option<&DeliveredMessages>,
    query: &Query,
) -> Result<Option<Certificate>, AllocError>
    ensures { IfOk result (λ found. MatchOption found (IsNotTold (S.journals source.now) query.now)
        (IsTold (S.journals source.now) query.now)) }
{
    match search_over(alloc, source, messages, query) {
        Ok(certificate) => Ok(Some(certificate)),
        Err(FindError::NoneFound) => Ok(None),
        Err(FindError::TooLong) => Ok(None),
        Err(FindError::Memory) => Err(AllocError),
    }
}

/// The moment of these milliseconds, which is no later than another.
fn moment(milliseconds: u64, latest: Reading) -> Reading
    requires { milliseconds ≤ latest }
    ensures { result ≡ milliseconds }
{
    match Reading::new(milliseconds) {
        Ok(moment) => moment,
        Err(_) => latest,
    }
}

/// Returns how far to go from what is shown to what isn't: so far, but a millisecond at least and no farther than
/// there.
fn stride(step: u64, room: u64) -> u64
    requires { 0 < room }
    ensures { (0 < result) × (result ≤ room) }
{
    step.max(1).min(room)
}

/// The certificate of the earliest beginning that is shown. The guess is tried first, and the millisecond before it.
fn from_earliest<S: LineSource>(
    alloc: Global,
    source: &S,
    messages: Option<&DeliveredMessages>,
    query: &Query,
    found: Certificate,
    guess: u64,
) -> Result<Certificate, AllocError>
    requires round { IsShownRound (S.journals source.now) query.now found }
    requires to { found.to ≡ query.now.to }
    ensures round { IfOk result (IsShownRound (S.journals source.now) query.now) }
    ensures to { IfOk result (λ c. c.to ≡ query.now.to) }
    ensures earliest { IfOk result (λ c. (m : ℕ) → m + 1 ≡ c.from
        → IsNotTold (S.journals source.now) (between query.now m query.now.to)) }
{
    let mut step = found.from.milliseconds().saturating_sub(guess);
    let mut growth = 0;
    let mut found = found;
    let mut low = 0;
    while low < found.from.milliseconds() {
        let shown = found.from.milliseconds();
        let from = moment(shown - stride(step, shown - low), found.from);
        let wider = Query { from, ..*query };
        let told = told_over(alloc, source, messages, &wider)?;
        match told {
            Some(certificate) => {
                found = certificate;
                step = step.saturating_mul(growth).max(1);
                growth = 2;
            }
            None => {
                low = from.milliseconds() + 1;
                step = (shown - from.milliseconds()) / 2;
            }
        }
    }
    Ok(found)
}

/// The last moment up to which the primary's journal can show an interval, or this one where that is later.
fn last_shown<S: LineSource>(source: &S, skew: Skew, least: Reading) -> Reading
    ensures least { least ≤ result }
    ensures last { (to : ℕ) → result < to → ClosesFrom (journal_of (S.journals source.now) Primary) (to + skew) → ⊥ }
{
    let closed = source.close_reading(Role::Primary);
    let Some(last) = less_skew(closed.milliseconds(), skew) else {
        return least;
    };
    if last.milliseconds() > least.milliseconds() {
        last
    } else {
        least
    }
}

/// The certificate of the latest end that is shown from the same beginning. The guess is tried first, and the
/// millisecond behind it.
fn to_latest<S: LineSource>(
    alloc: Global,
    source: &S,
    messages: Option<&DeliveredMessages>,
    query: &Query,
    found: Certificate,
    guess: u64,
) -> Result<Certificate, AllocError>
    requires round { IsShownRound (S.journals source.now) query.now found }
    ensures round { IfOk result (IsShownRound (S.journals source.now) query.now) }
    ensures from { IfOk result (λ c. c.from ≡ found.from) }
    ensures latest { IfOk result (λ c.
        IsNotTold (S.journals source.now) (between query.now c.from (c.to + 1))) }
{
    let from = found.from;
    let mut step = guess.saturating_sub(found.to.milliseconds());
    let mut growth = 0;
    let mut found = found;
    let mut high = last_shown(source, query.skew, found.to);
    while found.to.milliseconds() < high.milliseconds() {
        let shown = found.to.milliseconds();
        let to = moment(shown + stride(step, high.milliseconds() - shown), high);
        let wider = Query { from, to, ..*query };
        let told = told_over(alloc, source, messages, &wider)?;
        match told {
            Some(certificate) => {
                found = certificate;
                step = step.saturating_mul(growth).max(1);
                growth = 2;
            }
            None => {
                high = moment(to.milliseconds() - 1, to);
                step = (to.milliseconds() - shown) / 2;
            }
        }
    }
    Ok(found)
}

/// The certificate of the widest interval round the query's that is shown by as many lines as a text may have: neither
/// end can be moved outward by a millisecond. `NoneFound` where the query itself isn't shown, `TooLong` where it is by
/// more lines.
pub fn widest<S: LineSource>(
    alloc: Global,
    source: &S,
    messages: Option<&DeliveredMessages>,
    query: &Query,
) -> Result<Certificate, FindError>
    ensures round { IfOk result (IsShownRound (S.journals source.now) query.now) }
    ensures earliest { IfOk result (λ c. (m : ℕ) → m + 1 ≡ c.from
        → IsNotTold (S.journals source.now) (between query.now m query.now.to)) }
    ensures latest { IfOk result (λ c.
        IsNotTold (S.journals source.now) (between query.now c.from (c.to + 1))) }
    ensures none { IsErrOf result FindError.NoneFound → HasNoPlainEvidence (S.journals source.now) query.now }
    ensures long { IsErrOf result FindError.TooLong → IsTooLong (S.journals source.now) query.now }
{
    let found = search_over(alloc, source, messages, query)?;
    let wide = Query {
        from: moment(0, query.from),
        to: last_shown(source, query.skew, query.to),
        ..*query
    };
    let guess = guess_round(alloc, source, query, &wide)?;
    let found = from_earliest(alloc, source, messages, query, found, guess.from)?;
    let found = to_latest(alloc, source, messages, query, found, guess.to)?;
    Ok(found)
}
