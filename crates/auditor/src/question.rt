//! What a source is asked of its lines.

ghost use Rattle.std.specs.Prelude.{◌≡◌};
ghost use Rattle.auditor.specs.Passing.{concerns, answers};

use crate::grants::is_release_of;
use attribution::Delegation;
use journal_lines::Event;
use prefix_range::Prefix;

/// A question that is asked of an event.
#[derive(Clone, Copy, Debug, PartialEq, Eq)]
pub enum EventQuestion {
    /// Whether it grants or carries a prefix that overlaps this one, or gives one back.
    Overlapping(Prefix),
    /// Whether it gives this delegation back.
    GivingBack(Delegation),
}

/// Returns whether the event grants or carries a prefix that overlaps this one, or gives one back.
fn concerns(prefix: &Prefix, event: &Event) -> bool
    ensures { result ≡ concerns prefix.now event.now }
{
    match event {
        Event::Grant(lease) => lease.prefix.overlaps(prefix),
        Event::Carry(carried) => carried.prefix.overlaps(prefix),
        Event::Release { prefix: other, .. } => other.overlaps(prefix),
        _ => false,
    }
}

/// Returns whether the event answers the question.
#[tactic(auto, using(crate::proofs::Given::release_tested))]
pub fn answers(question: &EventQuestion, event: &Event) -> bool
    ensures { result ≡ answers question.now event.now }
{
    match question {
        EventQuestion::Overlapping(prefix) => concerns(prefix, event),
        EventQuestion::GivingBack(delegation) => is_release_of(delegation, event),
    }
}
