//! What the IA_PDs of a message are told without a line.

ghost use Rattle.std.specs.Prelude.{◌≡◌, ◌<◌, length, IfSome};
ghost use Rattle.client_service.specs.Reusing.{IsReused, IsReusedBy, later};
ghost use Rattle.client_service.specs.Ending.{AreAllAgain, IsAgainAt, IsDenial};

use crate::ia_outcome::IaOutcome;
use crate::partner_availability::PartnerAvailability;
use crate::permit::Permit;
use crate::permits::permit_at;
use crate::service::BookService;
use crate::serving_ias::IaOutcomes;
use crate::terms::ReuseTerms;
use dhcp6_pd::ClientMessage;
use lead_time::Reading;
use locked_book::ServeError;
use order_book::{BookError, Order};
use server_book::{IaAnswer, order_of};
use std::alloc::Global;

/// Returns what a client is told of a refusal for which no unit of a partner's may be taken over.
fn denied(partner: PartnerAvailability, refusal: &ServeError) -> Option<IaAnswer>
    ensures { IfSome result (IsDenial refusal.now) }
{
    match refusal {
        ServeError::Book(BookError::NoBinding) => Some(IaAnswer::NoBinding),
        ServeError::Book(BookError::NoPrefix) => match partner {
            PartnerAvailability::Up => Some(IaAnswer::NoPrefix),
            PartnerAvailability::Down => None,
        },
        _ => None,
    }
}

/// Returns what an order's client is told without a line, if it has something that may be told again, or is refused.
#[tactic(auto, using(crate::proofs::ToldAgain::again))]
fn reuse_lease<S: BookService>(
    service: &S,
    pass: &S::Pass,
    partner: PartnerAvailability,
    terms: &ReuseTerms,
    now: Reading,
    order: &Order,
) -> Option<IaOutcome>
    ensures { IfSome result (λ t. IsReused S.may_have terms.now now (S.receipts pass.now) order.now t.answer t.line) }
{
    match service.reusable_lease(pass, terms, now, order) {
        Ok(Some(standing)) => Some(IaOutcome {
            answer: IaAnswer::Given {
                prefix: standing.prefix,
                valid: standing.valid,
            },
            line: Some(standing.number),
        }),
        Ok(None) => None,
        Err(refusal) => match denied(partner, &refusal) {
            Some(answer) => Some(IaOutcome { answer, line: None }),
            None => None,
        },
    }
}

/// Returns what an order's client is told without a line, by its permit.
fn reuse_permitted<S: BookService>(
    service: &S,
    pass: &S::Pass,
    partner: PartnerAvailability,
    terms: &ReuseTerms,
    permit: Permit,
    now: Reading,
    order: &Order,
) -> Option<IaOutcome>
    ensures { IfSome result (λ t. IsReusedBy S.may_have permit terms.now now (S.receipts pass.now) order.now
        t.answer t.line) }
{
    match permit {
        Permit::Allowed => reuse_lease(service, pass, partner, terms, now, order),
        Permit::Anew => None,
        Permit::Denied => Some(IaOutcome::without_line(IaAnswer::NoPrefix)),
        Permit::Unbound => Some(IaOutcome::without_line(IaAnswer::NoBinding)),
        Permit::Omitted => Some(IaOutcome::without_line(IaAnswer::Released)),
    }
}

/// The greater of two numbers of lines, if there is one.
fn later(one: Option<u32>, other: Option<u32>) -> Option<u32>
    ensures { result ≡ later one other }
{
    match (one, other) {
        (Some(a), Some(b)) => Some(a.max(b)),
        (None, number) | (number, None) => number,
    }
}

/// Returns what the message's IA_PD at a place is told without a line, counted from 0.
fn reuse_at<S: BookService>(
    service: &S,
    pass: &S::Pass,
    partner: PartnerAvailability,
    terms: &ReuseTerms,
    permits: &[Permit],
    now: Reading,
    message: &ClientMessage,
    place: usize,
) -> Option<IaOutcome>
    requires { place < length message.now.ias }
    ensures { IfSome result (λ t. IsAgainAt S.may_have terms.now message.now permits.now now place
        (S.receipts pass.now) t.answer t.line) }
{
    let permit = permit_at(permits, place);
    match order_of(message, place) {
        Some(order) => reuse_permitted(service, pass, partner, terms, permit, now, &order),
        None => unreachable!(),
    }
}

/// Returns what all IA_PDs of a message are told without a line; none where one of them needs a line, or a growth is
/// refused.
pub(crate) fn reuse_all<S: BookService>(
    alloc: Global,
    service: &S,
    pass: &S::Pass,
    partner: PartnerAvailability,
    terms: &ReuseTerms,
    permits: &[Permit],
    now: Reading,
    message: &ClientMessage,
) -> Option<IaOutcomes>
    ensures { IfSome result (λ all. AreAllAgain S.may_have terms.now message.now permits.now now
        (S.receipts pass.now) all.answers.items all.line) }
{
    let mut answers = Vec::new(alloc);
    let mut line = None;
    for place in 0..message.ias.as_slice().len() {
        let Some(told) = reuse_at(service, pass, partner, terms, permits, now, message, place)
        else {
            return None;
        };
        line = later(line, told.line);
        if answers.push(told.answer).is_err() {
            return None;
        }
    }
    Some(IaOutcomes { answers, line })
}
