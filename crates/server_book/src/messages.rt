//! What a client's message orders, and the message that answers it.

ghost use Rattle.std.specs.Prelude.{◌≡◌, ◌≤◌, ◌++◌, [], length, IfOk, IfErr, OnOk};
ghost use Rattle.server_book.specs.Messages.{asked_in, order_by, order_of, written_of, and_reply, replies_of};
ghost use Rattle.server_book.specs.Messages.{first_bound, further_of, at_first};
ghost use Rattle.server_book.specs.Messages.{kind_of, is_release, answer_of, information_answer};

use crate::reply_policy::{ReplyPolicy, occasion_of, refused_addresses};
use client_id::{Duid, Iaid};
use dhcp6_pd::{
    ClientKind, ClientMessage, IaPart, IaPd, IaReply, IaReplyAnswer, InformationRequest, Relay,
    RelayId, RelayList, ServerKind, ServerMessage,
};
use order_book::{BookError, LeaseRequest, Order};
use prefix_range::Prefix;
use router_options::{Occasion, chosen};
use std::alloc::{AllocError, Global};
use text_fields::Listed;

/// The outcome of one IA_PD of a client's message.
#[derive(Clone, Copy, Debug, PartialEq, Eq)]
pub enum IaAnswer {
    /// The client has this prefix for so many seconds.
    Given { prefix: Prefix, valid: u32 },
    /// There is no prefix for it.
    NoPrefix,
    /// It has no such binding.
    NoBinding,
    /// Its prefix was taken back: the answer says nothing of it.
    Released,
}

fn order_by(kind: ClientKind, asked: LeaseRequest) -> Order
    ensures { result ≡ order_by kind asked }
{
    match kind {
        ClientKind::Solicit | ClientKind::Request => Order::Request(asked),
        ClientKind::Renew | ClientKind::Rebind => Order::Renew(asked),
        ClientKind::Release => Order::Release(asked),
    }
}

/// The order of a message's IA_PD at a place, counted from 0; `None` past the last. A SOLICIT's is to be offered, not
/// applied.
pub fn order_of(message: &ClientMessage, place: usize) -> Option<Order>
    ensures { result ≡ order_of message.now place }
{
    match message.ias.as_slice().get(place) {
        Some(ia) => Some(order_by(
            message.kind,
            LeaseRequest {
                client: message.client,
                iaid: ia.iaid,
                hint: ia.hint,
            },
        )),
        None => None,
    }
}

fn written_of(hidden: bool, answer: &IaAnswer) -> Option<IaReplyAnswer>
    ensures { result ≡ written_of hidden answer.now }
{
    match answer {
        IaAnswer::Given { prefix, valid } => Some(IaReplyAnswer::Given {
            prefix: *prefix,
            valid: *valid,
        }),
        IaAnswer::NoPrefix => Some(IaReplyAnswer::NoPrefix),
        IaAnswer::NoBinding => {
            if hidden {
                None
            } else {
                Some(IaReplyAnswer::NoBinding)
            }
        }
        IaAnswer::Released => None,
    }
}

/// Adds what is written of an answer.
fn add_reply(
    replies: &mut Vec<IaReply>,
    hidden: bool,
    iaid: Iaid,
    answer: &IaAnswer,
) -> Result<(), AllocError>
    ensures { OnOk result (replies.new.items
        ≡ replies.old.items ++ and_reply iaid (written_of hidden answer.now) []) }
{
    match written_of(hidden, answer) {
        Some(answer) => replies.extend_from_slice(&[IaReply { iaid, answer }]),
        None => Ok(()),
    }
}

/// Returns what the first of two prefixes of an IA_PD is told that is bound.
fn first_bound(answer: IaAnswer, later: IaAnswer) -> IaAnswer
    ensures { result ≡ first_bound answer later }
{
    match answer {
        IaAnswer::NoBinding => later,
        _ => answer,
    }
}

/// Returns what those in front are told that go with the IA_PD before them: the first of them that is bound.
fn further_of(ias: &[IaPd], answers: &[IaAnswer]) -> IaAnswer
    requires { length answers.now ≡ length ias.now }
    ensures { result ≡ further_of ias.now answers.now }
{
    for (place, ia) in ias.iter().enumerate() {
        match (ia.part, answers[place]) {
            (IaPart::First, _) => return IaAnswer::NoBinding,
            (IaPart::Further, IaAnswer::NoBinding) => {}
            (IaPart::Further, answer) => return answer,
        }
    }
    IaAnswer::NoBinding
}

/// Returns what is told of one with those behind it: of all prefixes of an IA_PD at the first, and nothing at another.
fn at_first(part: IaPart, answer: IaAnswer, ias: &[IaPd], answers: &[IaAnswer]) -> IaAnswer
    requires { length answers.now ≡ length ias.now }
    ensures { result ≡ at_first part answer (further_of ias.now answers.now) }
{
    match part {
        IaPart::First => first_bound(answer, further_of(ias, answers)),
        IaPart::Further => IaAnswer::Released,
    }
}

fn replies_of(
    alloc: Global,
    hidden: bool,
    ias: &[IaPd],
    answers: &[IaAnswer],
) -> Result<Vec<IaReply>, AllocError>
    requires { length answers.now ≡ length ias.now }
    ensures { IfOk result (λ v. v.items ≡ replies_of hidden ias.now answers.now) }
{
    let mut replies = Vec::new(alloc);
    for (place, ia) in ias.iter().enumerate() {
        let next = place + 1;
        let told = at_first(ia.part, answers[place], &ias[next..], &answers[next..]);
        add_reply(&mut replies, hidden, ia.iaid, &told)?;
    }
    Ok(replies)
}

fn copy_of_id(alloc: Global, id: &Option<RelayId>) -> Result<Option<RelayId>, AllocError>
    ensures { IfOk result (λ i. i ≡ id.now) }
{
    match id {
        Some(id) => {
            let id = RelayId::from_bytes(alloc, id.as_bytes())?;
            Ok(Some(id))
        }
        None => Ok(None),
    }
}

fn copy_of_relay(alloc: Global, relay: &Relay) -> Result<Relay, AllocError>
    ensures { IfOk result (λ r. r ≡ relay.now) }
{
    let interface = copy_of_id(alloc, &relay.interface)?;
    let remote = copy_of_id(alloc, &relay.remote)?;
    Ok(Relay {
        hops: relay.hops,
        link: relay.link,
        peer: relay.peer,
        interface,
        remote,
    })
}

fn copy_of_relays(alloc: Global, relays: &[Relay]) -> Result<RelayList, AllocError>
    ensures { IfOk result (λ r. r ≡ relays.now) }
{
    let mut copies = Vec::with_capacity(alloc, relays.len())?;
    for relay in relays {
        let copy = copy_of_relay(alloc, relay)?;
        copies.push(copy)?;
    }
    Ok(Listed::new(copies))
}

fn kind_of(kind: ClientKind) -> ServerKind
    ensures { result ≡ kind_of kind }
{
    match kind {
        ClientKind::Solicit => ServerKind::Advertise,
        _ => ServerKind::Reply,
    }
}

/// The message of the server `own` that answers a client's message in its manner, with one answer for each of its
/// IA_PDs, in their order. It refuses for want of memory alone.
pub fn answer_of(
    alloc: Global,
    message: &ClientMessage,
    own: &Duid,
    manner: &ReplyPolicy,
    answers: &[IaAnswer],
) -> Result<ServerMessage, BookError>
    requires some { 1 ≤ length message.now.ias }
    requires each { length answers.now ≡ length message.now.ias }
    ensures answered { IfOk result (λ s. s ≡ answer_of message.now own.now manner.now answers.now) }
    ensures refused { IfErr result (λ e. e ≡ BookError.Memory) }
{
    let relays = copy_of_relays(alloc, message.relays.as_slice())?;
    let options = chosen(
        alloc,
        manner.options.as_slice(),
        occasion_of(message.kind),
        message.requested.as_slice(),
    )?;
    let no_addresses = refused_addresses(alloc, manner, message)?;
    let ias = replies_of(
        alloc,
        manner.omits_unbound(message.kind),
        message.ias.as_slice(),
        answers,
    )?;
    Ok(ServerMessage {
        relays,
        kind: kind_of(message.kind),
        xid: message.xid,
        client: Some(message.client),
        server: *own,
        options,
        success: matches!(&message.kind, ClientKind::Release),
        no_addresses,
        ias: Listed::new(ias),
    })
}

/// The message of the server `own` that answers a request for options alone in its manner. It refuses for want of
/// memory alone.
pub fn information_answer(
    alloc: Global,
    request: InformationRequest,
    own: &Duid,
    manner: &ReplyPolicy,
) -> Result<ServerMessage, BookError>
    ensures answered { IfOk result (λ s. s ≡ information_answer request own.now manner.now) }
    ensures refused { IfErr result (λ e. e ≡ BookError.Memory) }
{
    let options = chosen(
        alloc,
        manner.options.as_slice(),
        Occasion::Information,
        request.requested.as_slice(),
    )?;
    Ok(ServerMessage {
        relays: request.relays,
        kind: ServerKind::Reply,
        xid: request.xid,
        client: request.client,
        server: *own,
        options,
        success: false,
        no_addresses: Listed::new(Vec::new(alloc)),
        ias: Listed::new(Vec::new(alloc)),
    })
}
