//! The line of a grant.

ghost use Rattle.std.specs.Prelude.{◌≡◌, ◌↔◌, IsTrue, IfSome};
ghost use Rattle.client_service.specs.ReusableLeases.{IsGrantedBy};

use journal_lines::{Event, Lease, Line};
use lead_time::Reading;

/// A line that grants a lease: its number, its reading, and the lifetime in seconds.
#[derive(Clone, Copy)]
pub(crate) struct GrantLine {
    pub number: u32,
    pub reading: Reading,
    pub valid: u32,
}

/// Returns whether two leases are of one client, identity association and prefix.
fn is_same(one: &Lease, other: &Lease) -> bool
    ensures { IsTrue result ↔ (one.now ≡ record other.now { valid = one.now.valid }) }
{
    one.client == other.client && one.iaid == other.iaid && one.prefix == other.prefix
}

/// What a line grants a lease's client, if it grants it this prefix.
pub(crate) fn granted_by(line: &Line, lease: &Lease) -> Option<GrantLine>
    ensures { IfSome result (λ g. IsGrantedBy line.now lease.now g.number g.reading g.valid) }
{
    match &line.event {
        Event::Grant(granted) if is_same(granted, lease) => Some(GrantLine {
            number: line.number,
            reading: line.reading,
            valid: granted.valid,
        }),
        _ => None,
    }
}
