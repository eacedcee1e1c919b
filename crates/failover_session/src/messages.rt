//! Messages between the partners as frames of the link.

ghost use Rattle.std.specs.Prelude.{◌≡◌, Some, None};
ghost use Rattle.failover_session.specs.Messages.{body_in, message_in};

use binding_rules::{Body, Counter, PartnerMessage};
use failover_message::{Frame, FrameKind};

fn body_in(kind: &FrameKind) -> Option<Body>
    ensures { result ≡ body_in kind.now }
{
    match kind {
        FrameKind::BindingUpdate(update) => Some(Body::Update(*update)),
        FrameKind::BindingReply(reply) => Some(Body::Reply(*reply)),
        FrameKind::Contact { ask, answer } => Some(Body::Contact {
            ask: *ask,
            answer: *answer,
        }),
        _ => None,
    }
}

/// The message that a frame carries; `None` where its kind has no line in a journal.
pub(crate) fn message_in(frame: &Frame) -> Option<PartnerMessage>
    ensures { result ≡ message_in frame.now }
{
    let body = body_in(&frame.kind)?;
    Some(PartnerMessage {
        term: frame.term,
        serial: frame.serial,
        body,
    })
}

fn kind_of(body: &Body) -> FrameKind
    ensures { body_in result ≡ Some body.now }
{
    match body {
        Body::Update(update) => FrameKind::BindingUpdate(*update),
        Body::Reply(reply) => FrameKind::BindingReply(*reply),
        Body::Contact { ask, answer } => FrameKind::Contact {
            ask: *ask,
            answer: *answer,
        },
    }
}

/// The frame that carries a message.
pub(crate) fn frame_of(message: &PartnerMessage) -> Frame
    ensures { message_in result ≡ Some message.now }
{
    Frame {
        term: message.term,
        serial: message.serial,
        kind: kind_of(&message.body),
    }
}

/// A frame that has no line in a journal: its term and serial are 0.
pub(crate) fn word(kind: FrameKind) -> Frame
    ensures { result ≡ record { term = 0; serial = 0; kind = kind } }
{
    Frame {
        term: 0,
        serial: Counter::ZERO,
        kind,
    }
}
