//! The messages among a journal's lines.

ghost use Rattle.std.specs.Prelude.{◌≡◌, ◌↔◌, IsTrue, MatchOption};
ghost use Rattle.binding_rules.specs.declared.message.PartnerMessage.{PartnerMessage as MessageValue};
ghost use Rattle.pair_world.specs.PairWorld.{message_in, IsNumbered, WasSent};

use binding_rules::PartnerMessage;
use journal_lines::{Event, Line};

/// Returns what a line sends.
fn message_in(line: &Line) -> Option<PartnerMessage>
    ensures { result ≡ message_in line.now.event }
{
    match &line.event {
        Event::Send(message) => Some(*message),
        _ => None,
    }
}

fn is_same(one: &PartnerMessage, other: &PartnerMessage) -> bool
    ensures { IsTrue result ↔ (one.now ≡ other.now) }
{
    one == other
}

/// The message of this number among all that the lines sent, counted from 1.
pub(crate) fn message_at(lines: &[Line], number: u64) -> Option<PartnerMessage>
    ensures { MatchOption result
        ((m : MessageValue) → IsNumbered lines.now number m → ⊥)
        (IsNumbered lines.now number) }
{
    let mut left = number;
    for line in lines {
        match message_in(line) {
            Some(message) => {
                if left == 1 {
                    return Some(message);
                }
                left = left.saturating_sub(1);
            }
            None => {}
        }
    }
    None
}

/// Returns whether the lines sent the message.
pub(crate) fn was_sent(lines: &[Line], message: &PartnerMessage) -> bool
    ensures { IsTrue result ↔ WasSent lines.now message.now }
{
    for line in lines {
        match message_in(line) {
            Some(sent) => {
                if is_same(&sent, message) {
                    return true;
                }
            }
            None => {}
        }
    }
    false
}
