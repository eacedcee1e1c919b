//! What no legal volume carries.

ghost use Rattle.std.specs.Prelude.{◌≡◌, ◌↔◌, ◌^◌, ◌<◌, ◌≤◌, IsTrue, length};
ghost use Rattle.journal_lines.specs.declared.line.Line.{Line as LineValue};
ghost use Rattle.causal_order.specs.Journals.{journals_of};
ghost use Rattle.journal_merge.specs.Waits.{IsFirst};
ghost use Rattle.pair_judgement.specs.Carrying.{opened_at, EndsTooLate, IsFirstCarrying};

use binding_rules::Role;
use causal_order::Ref;
use journal_lines::{Event, Journal, Line};

/// No lease that a legal volume leaves ends so many milliseconds after the next volume's open line.
const LONGEST_LEFT: u64 = 100_000_000_000;

/// Returns what the open line reads, in milliseconds.
fn opened_at(lines: &[Line]) -> u64
    ensures value { result ≡ opened_at lines.now }
    ensures within { result ≤ 2 ^ 48 }
{
    if lines.is_empty() {
        return 0;
    }
    lines[0].reading.milliseconds()
}

/// Returns whether the event tells of a lease, or of a unit, that ends later after this reading than a legal volume
/// leaves any.
fn ends_too_late(opened: u64, event: &Event) -> bool
    requires { opened ≤ 2 ^ 48 }
    ensures { IsTrue result ↔ EndsTooLate opened event.now }
{
    match event {
        Event::Carry(carried) => opened + LONGEST_LEFT < carried.end.milliseconds(),
        Event::Unit(unit) => opened + LONGEST_LEFT < unit.own_end.milliseconds(),
        _ => false,
    }
}

/// The number of the first line that carries what no legal volume leaves.
#[tactic(auto, using(journal_merge::proofs::First::none_start))]
fn first_of(lines: &[Line]) -> Option<u32>
    requires { length lines.now < 2 ^ 32 }
    ensures { IsFirst (λ (line : LineValue). EndsTooLate (opened_at lines.now) line.event) lines.now result }
{
    let opened = opened_at(lines);
    for (place, line) in lines.iter().enumerate() {
        if ends_too_late(opened, &line.event) {
            return Some(place as u32 + 1);
        }
    }
    None
}

/// The first line that carries what no legal volume leaves, the primary's before the secondary's.
pub(crate) fn first_carrying(primary: &Journal, secondary: &Journal) -> Option<Ref>
    requires few_primary { length primary.now.lines < 2 ^ 32 }
    requires few_secondary { length secondary.now.lines < 2 ^ 32 }
    ensures { IsFirstCarrying (journals_of primary.now secondary.now) result }
{
    if let Some(number) = first_of(primary.lines.as_slice()) {
        return Some(Ref {
            side: Role::Primary,
            number,
        });
    }
    let number = first_of(secondary.lines.as_slice())?;
    Some(Ref {
        side: Role::Secondary,
        number,
    })
}
