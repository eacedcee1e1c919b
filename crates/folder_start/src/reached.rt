//! What of the partner's shows that it has taken a message of a volume: then it has taken all of those before.

ghost use Rattle.std.specs.Prelude.{◌≡◌, ◌↔◌, IsTrue};
ghost use Rattle.folder_start.specs.Reached.{change_before, restarts_before, AnswersVolume, HasReached};

use binding_rules::{Body, Counter, PartnerMessage};
use journal_lines::{Event, Line};
use prefix_range::Prefix;

/// So many of a volume's last lines that take a message are looked at.
const LAST_TAKEN: usize = 16;

/// Returns how often a server had begun again when its volume began.
fn restarts_before(lines: &[Line]) -> Counter
    ensures { result ≡ restarts_before lines.now }
{
    for line in lines {
        if let Event::Base(numbers) = &line.event {
            return numbers.restart;
        }
    }
    Counter::ZERO
}

/// Returns the number of a unit's last change when the volume began.
fn change_before(lines: &[Line], prefix: &Prefix) -> Counter
    ensures { result ≡ change_before prefix.now lines.now }
{
    for line in lines {
        if let Event::Unit(kept) = &line.event {
            if kept.prefix == *prefix {
                return kept.mine;
            }
        }
    }
    Counter::ZERO
}

/// Returns whether a message of the partner's answers what a volume of these lines told it: a change that the volume
/// made, or a restart.
fn answers(lines: &[Line], message: &PartnerMessage) -> bool
    ensures { IsTrue result ↔ AnswersVolume lines.now message.now.body }
{
    match &message.body {
        Body::Reply(reply) => reply.of > change_before(lines, &reply.prefix),
        Body::Contact { answer, .. } => *answer > restarts_before(lines),
        Body::Update(_) => false,
    }
}

/// Returns whether one of the last messages that a volume of these lines takes answers what the volume told.
pub(crate) fn has_reached_partner(lines: &[Line]) -> bool
    ensures { IsTrue result → HasReached lines.now }
{
    let mut looked = 0usize;
    for line in lines.iter().rev() {
        if let Event::Take(message) = &line.event {
            if answers(lines, message) {
                return true;
            }
            looked = looked.saturating_add(1);
            if looked >= LAST_TAKEN {
                return false;
            }
        }
    }
    false
}
