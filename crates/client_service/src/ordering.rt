//! One IA_PD's order, and what is told of it.

ghost use Rattle.std.specs.Prelude.{◌≡◌};
ghost use Rattle.order_book.specs.Answer.{IsRequest};
ghost use Rattle.client_service.specs.declared.permit.Permit.TheVariants.{Allowed};
ghost use Rattle.dhcp6_pd.specs.declared.message.ClientKind.TheVariants.{Solicit, Request};
ghost use Rattle.client_service.specs.Telling.{IsClients};
ghost use Rattle.client_service.specs.Ending.{refusal_outcome, receipt_outcome, IsOrderOf, EndsIn, EndsAs, Seizes};

use crate::ia_outcome::IaOutcome;
use crate::partner_availability::PartnerAvailability;
use crate::service::BookService;
use dhcp6_pd::ClientKind;
use lead_time::Reading;
use locked_book::{Receipt, ServeError};
use order_book::{BookError, Order, Reply};
use server_book::IaAnswer;

/// Returns what a client is told of a refusal. One that no client is told of is handed on.
fn refusal_outcome(refusal: ServeError) -> Result<IaOutcome, ServeError>
    ensures { result ≡ refusal_outcome refusal }
{
    match refusal {
        ServeError::Book(BookError::NoPrefix) => Ok(IaOutcome {
            answer: IaAnswer::NoPrefix,
            line: None,
        }),
        ServeError::Book(BookError::NoBinding) => Ok(IaOutcome {
            answer: IaAnswer::NoBinding,
            line: None,
        }),
        _ => Err(refusal),
    }
}

/// Returns what a client is told of an order's receipt.
fn receipt_outcome(receipt: &Receipt) -> Option<IaOutcome>
    ensures { result ≡ receipt_outcome receipt.now }
{
    match &receipt.reply {
        Reply::Granted { prefix, valid } => Some(IaOutcome {
            answer: IaAnswer::Given {
                prefix: *prefix,
                valid: *valid,
            },
            line: Some(receipt.number),
        }),
        Reply::Released => Some(IaOutcome {
            answer: IaAnswer::Released,
            line: Some(receipt.number),
        }),
        Reply::Sent { .. } | Reply::Taken(_) | Reply::Done => None,
    }
}

/// Returns what a Request would be given.
fn offered<S: BookService>(
    service: &S,
    pass: &mut S::Pass,
    now: Reading,
    order: &Order,
) -> Result<IaOutcome, ServeError>
    requires { IsRequest order.now }
    ensures { EndsIn S.may_have Solicit now order.now (S.receipts pass.old) (S.receipts pass.new) result }
{
    match service.offer(pass, now, order) {
        Ok((prefix, valid)) => Ok(IaOutcome {
            answer: IaAnswer::Given { prefix, valid },
            line: None,
        }),
        Err(refusal) => refusal_outcome(refusal),
    }
}

/// Returns what an order ends in.
fn served<S: BookService>(
    service: &S,
    pass: &mut S::Pass,
    now: Reading,
    order: &Order,
) -> Result<IaOutcome, ServeError>
    requires { IsClients order.now }
    ensures { EndsIn S.may_have Request now order.now (S.receipts pass.old) (S.receipts pass.new) result }
{
    match service.serve(pass, now, order) {
        Ok(receipt) => match receipt_outcome(&receipt) {
            Some(told) => Ok(told),
            None => unreachable!(),
        },
        Err(refusal) => refusal_outcome(refusal),
    }
}

/// Returns what an order of a message of this type ends in: a SOLICIT's is offered.
fn serve_or_offer<S: BookService>(
    service: &S,
    pass: &mut S::Pass,
    kind: ClientKind,
    now: Reading,
    order: &Order,
) -> Result<IaOutcome, ServeError>
    requires { IsOrderOf kind order.now }
    ensures { EndsIn S.may_have kind now order.now (S.receipts pass.old) (S.receipts pass.new) result }
{
    match kind {
        ClientKind::Solicit => offered(service, pass, now, order),
        _ => served(service, pass, now, order),
    }
}

/// Takes over the lowest unit of the partner's that may be, and says whether one was.
fn seize_lowest<S: BookService>(
    service: &S,
    pass: &mut S::Pass,
    now: Reading,
) -> Result<bool, ServeError>
    ensures { Seizes S.may_have now (S.receipts pass.old) (S.receipts pass.new) result }
{
    let found = match service.first_to_seize(pass, now) {
        Ok(found) => found,
        Err(refusal) => return Err(refusal),
    };
    let Some(prefix) = found else {
        return Ok(false);
    };
    match service.serve(pass, now, &Order::Seize(prefix)) {
        Ok(_) => Ok(true),
        Err(refusal) => match refusal {
            ServeError::Stranger { .. } => Err(refusal),
            ServeError::Book(_) | ServeError::Memory => Ok(false),
        },
    }
}

/// Returns what an order of a message of this type ends in. Where no prefix is left and the partner is down, a unit is
/// taken over, and it is ordered once more.
pub(crate) fn serve_or_seize<S: BookService>(
    service: &S,
    pass: &mut S::Pass,
    partner: PartnerAvailability,
    kind: ClientKind,
    now: Reading,
    order: &Order,
) -> Result<IaOutcome, ServeError>
    requires { IsOrderOf kind order.now }
    ensures { EndsAs S.may_have Allowed partner kind now order.now (S.receipts pass.old) (S.receipts pass.new) result }
{
    let told = match serve_or_offer(service, pass, kind, now, order) {
        Ok(told) => told,
        Err(refusal) => return Err(refusal),
    };
    match (partner, &told.answer) {
        (PartnerAvailability::Down, IaAnswer::NoPrefix) => match seize_lowest(service, pass, now) {
            Ok(true) => serve_or_offer(service, pass, kind, now, order),
            Ok(false) => Ok(told),
            Err(refusal) => Err(refusal),
        },
        _ => Ok(told),
    }
}
