//! Messages, which one line sends and another takes.

ghost use Rattle.std.specs.Prelude.{◌≡◌, ◌↔◌, IsTrue};
ghost use Rattle.causal_order.specs.Journals.{line_of};
ghost use Rattle.causal_order.specs.Order.{IsTakeOf};
ghost use Rattle.causal_order.specs.Tests.{same_messages, sent_in, taken_in, is_take_of};

use crate::lines::Lines;
use crate::reference::Ref;
use binding_rules::PartnerMessage;
use journal_lines::Event;

/// The message that a line sends.
fn message_sent<L: Lines>(lines: &L, at: Ref) -> Option<PartnerMessage>
    ensures { result ≡ sent_in (line_of (L.journals lines.now) at) }
{
    match lines.line(at)?.event {
        Event::Send(message) => Some(message),
        _ => None,
    }
}

/// The message that a line takes.
fn message_taken<L: Lines>(lines: &L, at: Ref) -> Option<PartnerMessage>
    ensures { result ≡ taken_in (line_of (L.journals lines.now) at) }
{
    match lines.line(at)?.event {
        Event::Take(message) => Some(message),
        _ => None,
    }
}

fn is_same(one: &PartnerMessage, other: &PartnerMessage) -> bool
    ensures { IsTrue result ↔ (one.now ≡ other.now) }
{
    one == other
}

/// Returns whether the messages are there, and are the same.
fn is_received(sent: Option<PartnerMessage>, taken: Option<PartnerMessage>) -> bool
    ensures { result ≡ same_messages sent taken }
{
    match (sent, taken) {
        (Some(sent), Some(taken)) => is_same(&sent, &taken),
        _ => false,
    }
}

/// Returns whether the line at `take` takes on the other side what the line at `send` sends.
pub fn is_take_of<L: Lines>(lines: &L, send: Ref, take: Ref) -> bool
    ensures decided { IsTrue result ↔ IsTakeOf (L.journals lines.now) send take }
    ensures value { result ≡ is_take_of (L.journals lines.now) send take }
{
    take.side == send.side.partner()
        && is_received(message_sent(lines, send), message_taken(lines, take))
}
