//! What an order's client has already.

ghost use Rattle.std.specs.Prelude.{◌≡◌, ◌↔◌, IsTrue, IfOk, IfErr, IfSome};
ghost use Rattle.binding_rules.specs.declared.unit.UnitStatus.TheVariants.{Active};
ghost use Rattle.order_book.specs.Answer.{IsFirstRefusal};
ghost use Rattle.order_book.specs.Replayed.{state_of};
ghost use Rattle.client_service.specs.ReusableLeases.{IsLatest, IsTheirs, KnowsGrant, IsReusableFor, IsReusable};

use crate::grants::{GrantLine, granted_by};
use crate::remaining::reuse_lifetime;
use crate::terms::ReuseTerms;
use binding_rules::{Binding, Unit, UnitStatus};
use journal_lines::{Event, Lease};
use lead_time::{End, Reading};
use order_book::{Book, BookError, Order};
use prefix_range::Prefix;

/// What a client has by a line of the journal: a prefix for so many seconds from now on.
#[derive(Clone, Copy, Debug, PartialEq, Eq)]
pub struct ReusableLease {
    pub prefix: Prefix,
    pub valid: u32,
    /// The number of the line.
    pub number: u32,
}

/// Returns whether a unit is the lease's client's.
fn is_theirs(status: &UnitStatus, lease: &Lease) -> bool
    ensures { IsTrue result ↔ (status.now ≡ Active (record { client = lease.now.client; iaid = lease.now.iaid })) }
{
    *status
        == UnitStatus::Active(Binding {
            client: lease.client,
            iaid: lease.iaid,
        })
}

/// Returns whether the partner granted nothing of a unit, or knows this server's last grant of it.
fn knows_grant(unit: &Unit) -> bool
    ensures { IsTrue result ↔ KnowsGrant unit.now }
{
    unit.told.milliseconds() == 0 || unit.due.is_none()
}

/// The last grant line of a lease's unit, where it is of the lease's client and no later line ended what it grants.
fn last_grant(book: &Book, lease: &Lease) -> Option<GrantLine>
    ensures { IfSome result (λ g. IsLatest book.now lease.now g.number g.reading g.valid) }
{
    let Some(place) = book.last_grant(&lease.prefix) else {
        return None;
    };
    match book.journal().get(place) {
        Some(line) => granted_by(line, lease),
        None => None,
    }
}

/// When a lease's unit ends for the server, where it is the lease's client's, and the partner knows the last grant.
fn own_end(book: &Book, lease: &Lease) -> Option<End>
    ensures theirs { IfSome result (λ _. IsTheirs book.now lease.now) }
    ensures known { IfSome result (λ _. KnowsGrant ((state_of book.now).units lease.now.prefix)) }
    ensures end { IfSome result (λ end. end ≡ ((state_of book.now).units lease.now.prefix).own_end) }
{
    match book.unit(lease.prefix) {
        Some(unit) if is_theirs(&unit.status, lease) && knows_grant(&unit) => Some(unit.own_end),
        _ => None,
    }
}

/// What the client has of a lease that it would be given by a line at this reading.
fn reusable_lease_for(
    book: &Book,
    terms: &ReuseTerms,
    now: Reading,
    lease: &Lease,
) -> Option<ReusableLease>
    ensures { IfSome result (IsReusableFor book.now terms.now now lease.now) }
{
    let Some(end) = own_end(book, lease) else {
        return None;
    };
    let Some(granted) = last_grant(book, lease) else {
        return None;
    };
    let Some(valid) = reuse_lifetime(terms, &granted, end, now, lease.valid) else {
        return None;
    };
    Some(ReusableLease {
        prefix: lease.prefix,
        valid,
        number: granted.number,
    })
}

/// Returns what an order's client has by a line of the journal that may be told again: none where the order would be
/// answered otherwise, or the grant is too old, or less remains of it than half of what would be granted now, or the
/// partner, which has granted the unit too, doesn't know the grant yet. It writes no line and takes no memory. The
/// refusals are those of `Book::apply`, `Memory` apart.
pub fn find_reusable_lease(
    book: &Book,
    terms: &ReuseTerms,
    now: Reading,
    order: &Order,
) -> Result<Option<ReusableLease>, BookError>
    ensures standing { IfOk result (λ found. IfSome found (IsReusable book.now terms.now now order.now)) }
    ensures refused { IfErr result (IsFirstRefusal (state_of book.now) now order.now) }
{
    match book.answer(now, order) {
        Ok((line, _reply)) => match &line.event {
            Event::Grant(lease) => Ok(reusable_lease_for(book, terms, line.reading, lease)),
            _ => Ok(None),
        },
        Err(error) => Err(error),
    }
}
