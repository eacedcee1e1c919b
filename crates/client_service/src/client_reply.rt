//! The answer to one message.

ghost use Rattle.std.specs.Prelude.{◌≡◌, ◌≤◌, ◌&&◌, false, length, IfOk, IfErr, None};
ghost use Rattle.client_service.specs.Reusing.{IsResent};
ghost use Rattle.dhcp6_pd.specs.declared.message.ClientKind.TheVariants.{Solicit};
ghost use Rattle.client_service.specs.declared.partner_availability.PartnerAvailability.TheVariants.{Up};
ghost use Rattle.dhcp6_pd.specs.Layout.{message_octets};
ghost use Rattle.server_book.specs.ReplyPolicy.{omits_unbound};
ghost use Rattle.server_book.specs.Messages.{answer_of, has_none, is_elsewhere, information_answer};
ghost use Rattle.client_service.specs.Answering.{IsTold, HasNoReply, IsUninformed};
ghost use Rattle.client_service.specs.Ending.{IsUnwritten, IsUnencoded};

use crate::no_reply_reason::NoReplyReason;
use crate::partner_availability::PartnerAvailability;
use crate::permit::Permit;
use crate::reusing::reuse_all;
use crate::service::BookService;
use crate::serving_ias::serve_ias;
use crate::terms::ReuseTerms;
use client_id::Duid;
use dhcp6_pd::{ClientKind, ClientMessage, InformationRequest, PdError, ServerMessage, encode};
use lead_time::Reading;
use server_book::{IaAnswer, ReplyPolicy, answer_of, information_answer};
use std::alloc::Global;
use std::marker::Model;

/// The answer to one message: its octets, the peer that they go to, and the number of the last line that they tell of.
/// Only [`answer_to`] and [`resend_lease`] make one.
#[derive(Drop)]
pub struct ClientReply<P> {
    octets: Vec<u8>,
    peer: P,
    line: Option<u32>,
}

impl<P> Model for ClientReply<P> {
    ghost use Rattle.client_service.specs.Answering.{AnswerTo};

    ghost Value = { AnswerTo P };

    ghost view = { λ a. record { octets = a.octets.items; peer = a.peer; line = a.line } };
}

impl<P> ClientReply<P> {
    /// Returns what is sent.
    pub fn octets(&self) -> &[u8]
        ensures { result.now ≡ self.now.octets }
    {
        &self.octets
    }

    /// Returns to whom it is sent: who sent the message.
    pub fn peer(&self) -> &P
        ensures { result.now ≡ self.now.peer }
    {
        &self.peer
    }

    /// Returns the number of the last line that it tells of: it may be sent once that line is kept. None where it tells
    /// of no line, as an ADVERTISE.
    pub fn line(&self) -> Option<u32>
        ensures { result ≡ self.now.line }
    {
        self.line
    }
}

/// Returns whether an answer says nothing, since the server hides what it doesn't know.
fn is_elsewhere(manner: &ReplyPolicy, message: &ClientMessage, reply: &ServerMessage) -> bool
    ensures { result ≡ (omits_unbound manner.now message.now.kind && has_none reply.now.ias) }
{
    manner.omits_unbound(message.kind) && matches!(reply.ias.as_slice(), [])
}

/// The octets of an answer.
fn encoded(alloc: Global, reply: &ServerMessage) -> Result<Vec<u8>, NoReplyReason>
    ensures written { IfOk result (λ v. v.items ≡ message_octets reply.now) }
    ensures unwritten { IfErr result (IsUnencoded reply.now) }
{
    match encode(alloc, reply) {
        Ok(octets) => Ok(octets),
        Err(PdError::TooLong) => Err(NoReplyReason::TooLong),
        Err(_) => Err(NoReplyReason::Memory),
    }
}

/// The octets of the message that tells this.
fn written(
    alloc: Global,
    own: &Duid,
    manner: &ReplyPolicy,
    message: &ClientMessage,
    answers: &[IaAnswer],
) -> Result<Vec<u8>, NoReplyReason>
    requires some { 1 ≤ length message.now.ias }
    requires each { length answers.now ≡ length message.now.ias }
    ensures written { IfOk result (λ v. v.items ≡ message_octets (answer_of message.now own.now manner.now
        answers.now)) }
    ensures known { IfOk result (λ _. is_elsewhere message.now manner.now answers.now ≡ false) }
    ensures unwritten { IfErr result (IsUnwritten own.now manner.now message.now answers.now) }
{
    let Ok(reply) = answer_of(alloc, message, own, manner, answers) else {
        return Err(NoReplyReason::Memory);
    };
    if is_elsewhere(manner, message, &reply) {
        return Err(NoReplyReason::UnknownBinding);
    }
    encoded(alloc, &reply)
}

/// Orders what a client's message asks of the server `own` at a reading, one order for each IA_PD in its order, and
/// gives the answer, to the peer that the message came from. The octets are the message that tells each IA_PD what its
/// receipt says, or of a SOLICIT what would be granted, in the server's manner.
///
/// By `permits` an IA_PD may be denied, each by its place: it is told NoPrefixAvail, NoBinding or nothing, and nothing
/// is ordered for it. Those behind the end of the list may be ordered.
///
/// There is no answer (`NoReplyReason`) where the message has no IA_PD, an order ends in what no client is told,
/// nothing is known of a REBIND and the server's manner hides that, the answer is too long, or a growth is refused. The
/// lines of IA_PDs that were served before stand.
pub fn answer_to<S: BookService, P: Drop>(
    alloc: Global,
    service: &S,
    pass: &mut S::Pass,
    own: &Duid,
    manner: &ReplyPolicy,
    partner: PartnerAvailability,
    permits: &[Permit],
    now: Reading,
    message: &ClientMessage,
    peer: P,
) -> Result<ClientReply<P>, NoReplyReason>
    ensures told { IfOk result (λ a. IsTold S.may_have partner own.now manner.now message.now permits.now now
        (S.receipts pass.old) (S.receipts pass.new) a.octets a.line) }
    ensures silent { IfErr result (HasNoReply S.may_have partner own.now manner.now message.now permits.now now
        (S.receipts pass.old) (S.receipts pass.new)) }
    // A SOLICIT is answered by no line: none is written while the partner is up, and none is told of.
    ensures offers { message.now.kind ≡ Solicit → partner ≡ Up → S.receipts pass.new ≡ S.receipts pass.old }
    ensures advertised { message.now.kind ≡ Solicit → IfOk result (λ a. a.line ≡ None) }
    ensures back { IfOk result (λ a. a.peer ≡ peer) }
{
    if message.ias.as_slice().is_empty() {
        return Err(NoReplyReason::NothingRequested);
    }
    let all = serve_ias(alloc, service, pass, partner, permits, now, message)?;
    let octets = written(alloc, own, manner, message, &all.answers)?;
    Ok(ClientReply {
        octets,
        peer,
        line: all.line,
    })
}

/// Answers a client's message without a line, where each of its IA_PDs asks for what its client has by a line that may
/// be told again by the terms, or is refused, or denied by `permits`: the octets tell the first for the seconds that
/// remain. Otherwise it gives the peer back, and the message is one for [`answer_to`]: a SOLICIT, a message of which an
/// IA_PD needs a line, or is to have one by `permits`, and any where a growth is refused.
pub fn resend_lease<S: BookService, P: Drop>(
    alloc: Global,
    service: &S,
    pass: &S::Pass,
    own: &Duid,
    manner: &ReplyPolicy,
    partner: PartnerAvailability,
    terms: &ReuseTerms,
    permits: &[Permit],
    now: Reading,
    message: &ClientMessage,
    peer: P,
) -> Result<ClientReply<P>, P>
    ensures told { IfOk result (λ a. IsResent S.may_have terms.now own.now manner.now message.now permits.now now
        (S.receipts pass.now) a.octets a.line) }
    ensures back { IfOk result (λ a. a.peer ≡ peer) }
    ensures unanswered { IfErr result (λ p. p ≡ peer) }
{
    if message.kind == ClientKind::Solicit || message.ias.as_slice().is_empty() {
        return Err(peer);
    }
    let Some(all) = reuse_all(alloc, service, pass, partner, terms, permits, now, message) else {
        return Err(peer);
    };
    let Ok(octets) = written(alloc, own, manner, message, &all.answers) else {
        return Err(peer);
    };
    Ok(ClientReply {
        octets,
        peer,
        line: all.line,
    })
}

/// Answers a client's request for options alone in the manner of the server `own`, to the peer that it came from. It
/// tells of no line. `TooLong` where the answer has more than 65,535 octets, `Memory` where a growth was refused.
pub fn answer_information<P: Drop>(
    alloc: Global,
    own: &Duid,
    manner: &ReplyPolicy,
    request: InformationRequest,
    peer: P,
) -> Result<ClientReply<P>, NoReplyReason>
    ensures told { IfOk result (λ a. a.octets ≡ message_octets (information_answer request own.now manner.now)) }
    ensures apart { IfOk result (λ a. a.line ≡ None) }
    ensures back { IfOk result (λ a. a.peer ≡ peer) }
    ensures silent { IfErr result (IsUninformed own.now manner.now request) }
{
    let Ok(reply) = information_answer(alloc, request, own, manner) else {
        return Err(NoReplyReason::Memory);
    };
    let octets = encoded(alloc, &reply)?;
    Ok(ClientReply {
        octets,
        peer,
        line: None,
    })
}
