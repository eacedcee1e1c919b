//! What all IA_PDs of a message are told.

ghost use Rattle.std.specs.Prelude.{◌≡◌, ◌<◌, length, IfOk, IfErr, MatchResult};
ghost use Rattle.client_service.specs.Ending.{AreAllServed, IsCutShort, EndsAs, EndsAt, IsOrderOf};
ghost use Rattle.client_service.specs.Lines.{or_earlier};

use crate::ia_outcome::IaOutcome;
use crate::no_reply_reason::NoReplyReason;
use crate::ordering::serve_or_seize;
use crate::partner_availability::PartnerAvailability;
use crate::permit::Permit;
use crate::permits::permit_at;
use crate::service::BookService;
use dhcp6_pd::{ClientKind, ClientMessage};
use lead_time::Reading;
use locked_book::ServeError;
use order_book::Order;
use server_book::{IaAnswer, order_of};
use std::alloc::Global;

/// What each IA_PD of a message is told, and the number of the last line that they are told by.
#[derive(Drop)]
pub(crate) struct IaOutcomes {
    pub answers: Vec<IaAnswer>,
    pub line: Option<u32>,
}

/// The later of two lines, if there is one: that of the later IA_PD.
fn or_earlier(line: Option<u32>, earlier: Option<u32>) -> Option<u32>
    ensures { result ≡ or_earlier line earlier }
{
    match line {
        Some(number) => Some(number),
        None => earlier,
    }
}

/// Returns what an order ends in, where it may be given; else what its permit says.
fn serve_permitted<S: BookService>(
    service: &S,
    pass: &mut S::Pass,
    partner: PartnerAvailability,
    permit: Permit,
    kind: ClientKind,
    now: Reading,
    order: &Order,
) -> Result<IaOutcome, ServeError>
    requires { IsOrderOf kind order.now }
    ensures { EndsAs S.may_have permit partner kind now order.now (S.receipts pass.old) (S.receipts pass.new) result }
{
    match permit {
        Permit::Allowed => serve_or_seize(service, pass, partner, kind, now, order),
        Permit::Anew => serve_or_seize(service, pass, partner, kind, now, order),
        Permit::Denied => Ok(IaOutcome::without_line(IaAnswer::NoPrefix)),
        Permit::Unbound => Ok(IaOutcome::without_line(IaAnswer::NoBinding)),
        Permit::Omitted => Ok(IaOutcome::without_line(IaAnswer::Released)),
    }
}

/// Returns what the message's IA_PD at a place ends in, counted from 0.
fn serve_ia<S: BookService>(
    service: &S,
    pass: &mut S::Pass,
    partner: PartnerAvailability,
    permits: &[Permit],
    now: Reading,
    message: &ClientMessage,
    place: usize,
) -> Result<IaOutcome, ServeError>
    requires { place < length message.now.ias }
    ensures { EndsAt S.may_have partner message.now permits.now now place (S.receipts pass.old) (S.receipts pass.new)
        result }
{
    let permit = permit_at(permits, place);
    match order_of(message, place) {
        Some(order) => serve_permitted(service, pass, partner, permit, message.kind, now, &order),
        None => unreachable!(),
    }
}

/// Orders what each IA_PD of the message asks that may be ordered, one after the other, up to the first whose order
/// ends in what no client is told.
pub(crate) fn serve_ias<S: BookService>(
    alloc: Global,
    service: &S,
    pass: &mut S::Pass,
    partner: PartnerAvailability,
    permits: &[Permit],
    now: Reading,
    message: &ClientMessage,
) -> Result<IaOutcomes, NoReplyReason>
    ensures told { IfOk result (λ all. AreAllServed S.may_have partner message.now permits.now now (S.receipts pass.old)
        (S.receipts pass.new) all.answers.items all.line) }
    ensures silent { IfErr result (IsCutShort S.may_have partner message.now permits.now now (S.receipts pass.old)
        (S.receipts pass.new)) }
{
    let mut answers = Vec::new(alloc);
    let mut line = None;
    for place in 0..message.ias.as_slice().len() {
        let told = match serve_ia(service, pass, partner, permits, now, message, place) {
            Ok(told) => told,
            Err(refusal) => return Err(NoReplyReason::Refused(refusal)),
        };
        line = or_earlier(told.line, line);
        if answers.push(told.answer).is_err() {
            return Err(NoReplyReason::Memory);
        }
    }
    Ok(IaOutcomes { answers, line })
}
