//! What single lines say.

ghost use Rattle.std.specs.Prelude.{◌≡◌};
ghost use Rattle.causal_order.specs.Bounds.{reading_of};
ghost use Rattle.attribution.specs.Tests.{lease_of, delegation_of};

use attribution::Delegation;
use causal_order::{Lines, Ref};
use journal_lines::{Event, Lease};
use lead_time::Reading;

/// Returns what the clock showed at the line.
pub fn reading_at<L: Lines>(lines: &L, at: Ref) -> Option<Reading>
    ensures { result ≡ reading_of (L.journals lines.now) at }
{
    let line = lines.line(at)?;
    Some(line.reading)
}

/// The lease that the line grants.
pub fn lease_at<L: Lines>(lines: &L, at: Ref) -> Option<Lease>
    ensures { result ≡ lease_of (L.journals lines.now) at }
{
    let line = lines.line(at)?;
    match line.event {
        Event::Grant(lease) => Some(lease),
        _ => None,
    }
}

/// The delegation that the line tells of.
pub fn delegation_at<L: Lines>(lines: &L, at: Ref) -> Option<Delegation>
    ensures { result ≡ delegation_of (L.journals lines.now) at }
{
    let line = lines.line(at)?;
    Delegation::told_by(&line.event)
}
