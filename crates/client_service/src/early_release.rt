//! Which releases come too early: the partner may still tell the client again what it gives back.

ghost use Rattle.std.specs.Prelude.{◌≡◌, ◌↔◌, IsTrue};
ghost use Rattle.client_service.specs.EarlyReleases.{desired_lifetime, MayBeToldAgain, IsEarlyRelease, IsEarlyAt};
ghost use Rattle.client_service.specs.EarlyReleases.{IsOrderedEarly, HasEarlyRelease};

use crate::permit::Permit;
use crate::permits::permit_at;
use crate::terms::ReuseTerms;
use binding_rules::{Binding, Unit, UnitStatus};
use dhcp6_pd::ClientMessage;
use journal_lines::Event;
use lead_time::Reading;
use order_book::{Book, LeaseRequest, Order};
use server_book::order_of;

/// The desired lifetime that a book's open line states, in seconds.
fn desired_lifetime(book: &Book) -> u32
    ensures { result ≡ desired_lifetime book.now }
{
    match book.journal().first() {
        Some(line) => match &line.event {
            Event::Open { life, .. } => *life,
            _ => 0,
        },
        None => 0,
    }
}

/// Returns whether the partner may tell its last grant of a unit again, whatever the clocks do within the skew.
fn may_be_told_again(terms: &ReuseTerms, life: u32, unit: &Unit, now: Reading) -> bool
    ensures { IsTrue result ↔ MayBeToldAgain terms.now life unit.now.told now }
{
    let ahead = 2000 * u64::from(life);
    let told = unit.told.milliseconds();
    let until = told + 1000 * u64::from(terms.floor) + 2 * terms.skew.milliseconds();
    terms.floor > 0 && ahead <= told && now.milliseconds() + ahead < until
}

/// Returns whether a client that asks to give back a prefix at a reading has it, and the partner may tell it again. After
/// that the partner tells nothing again that it granted before (`nothing_is_told_again`), where both have the same floor.
pub fn is_early_release(book: &Book, terms: &ReuseTerms, now: Reading, asked: &LeaseRequest) -> bool
    ensures { IsTrue result ↔ IsEarlyRelease book.now terms.now now asked.now }
{
    let Some(prefix) = asked.hint else {
        return false;
    };
    let Some(unit) = book.unit(prefix) else {
        return false;
    };
    let theirs = UnitStatus::Active(Binding {
        client: asked.client,
        iaid: asked.iaid,
    });
    unit.status == theirs && may_be_told_again(terms, desired_lifetime(book), &unit, now)
}

/// The same of a message's IA_PD at a place, counted from 0: only a RELEASE gives anything back.
fn is_early_at(
    book: &Book,
    terms: &ReuseTerms,
    now: Reading,
    message: &ClientMessage,
    place: usize,
) -> bool
    ensures { IsTrue result ↔ IsEarlyAt book.now terms.now now message.now place }
{
    match order_of(message, place) {
        Some(Order::Release(asked)) => is_early_release(book, terms, now, &asked),
        _ => false,
    }
}

/// The same of an IA_PD that may be ordered by `permits`.
fn is_ordered_early(
    book: &Book,
    terms: &ReuseTerms,
    now: Reading,
    message: &ClientMessage,
    permits: &[Permit],
    place: usize,
) -> bool
    ensures { IsTrue result ↔ IsOrderedEarly book.now terms.now now message.now permits.now place }
{
    permit_at(permits, place).is_ordered() && is_early_at(book, terms, now, message, place)
}

/// Returns whether a message is a RELEASE that comes too early: the client has the prefix of one of its IA_PDs that may
/// be ordered by `permits`, and the partner may tell that again. After that the partner tells nothing again that it
/// granted before (`nothing_is_told_again`).
pub fn has_early_release(
    book: &Book,
    terms: &ReuseTerms,
    now: Reading,
    message: &ClientMessage,
    permits: &[Permit],
) -> bool
    ensures { IsTrue result ↔ HasEarlyRelease book.now terms.now now message.now permits.now }
{
    for place in 0..message.ias.as_slice().len() {
        if is_ordered_early(book, terms, now, message, permits, place) {
            return true;
        }
    }
    false
}
