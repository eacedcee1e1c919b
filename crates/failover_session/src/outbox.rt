//! A frame that is handed out.

ghost use Rattle.std.specs.Prelude.{◌≡◌, ◌∷◌, [], Some, IfSome};
ghost use Rattle.std.specs.List.{cons_option};
ghost use Rattle.binding_rules.specs.declared.message.PartnerMessage.{PartnerMessage as Message};
ghost use Rattle.failover_session.specs.OutboundFrames.{Greets, greeting_kind, meanings_of, sends_of, sends_above};
ghost use Rattle.failover_session.specs.Messages.{message_in};

use crate::messages::{frame_of, word};
use binding_rules::{Counter, Role};
use failover_message::{Frame, FrameKind};
use journal_lines::Event;
use locked_book::Receipt;

/// A frame to be written to the wire, and the number of the line that sends it: none where it has no line in a journal.
#[derive(Clone, Copy, Debug, PartialEq, Eq)]
pub struct OutboundFrame {
    pub frame: Frame,
    pub number: Option<u32>,
}

impl OutboundFrame {
    /// What a server says first, with the serial of the message that it took last: the primary connects, the secondary
    /// answers (RFC 8156, section 5).
    pub(crate) fn greeting(role: Role, last: Counter) -> OutboundFrame
        ensures { meanings_of (result ∷ []) ≡ Greets (greeting_kind role last) ∷ [] }
    {
        let kind = match role {
            Role::Primary => FrameKind::Connect { role, last },
            Role::Secondary => FrameKind::ConnectReply { role, last },
        };
        OutboundFrame {
            frame: word(kind),
            number: None,
        }
    }

    /// The frame of what a receipt's line sends, if it sends anything.
    #[tactic(auto, using(crate::proofs::Saying::one_line))]
    pub(crate) fn of(receipt: &Receipt) -> Option<OutboundFrame>
        ensures says { sends_of (receipt.now ∷ []) ≡ meanings_of (cons_option result []) }
        ensures message { IfSome result (λ h. (m : Message) × (message_in h.frame ≡ Some m)) }
    {
        match &receipt.line.event {
            Event::Send(message) => Some(OutboundFrame {
                frame: frame_of(message),
                number: Some(receipt.number),
            }),
            _ => None,
        }
    }

    /// The same, if its serial is above this one.
    #[tactic(auto, using(crate::proofs::Again::one_receipt))]
    pub(crate) fn above(receipt: &Receipt, last: Counter) -> Option<OutboundFrame>
        ensures { sends_above last (receipt.now ∷ []) ≡ meanings_of (cons_option result []) }
    {
        let handed = OutboundFrame::of(receipt)?;
        if handed.frame.serial > last {
            Some(handed)
        } else {
            None
        }
    }
}
