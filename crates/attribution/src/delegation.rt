//! What is delegated to a client, as journals tell of it.

ghost use Rattle.std.specs.Prelude.{◌≡◌};
ghost use Rattle.attribution.specs.Delegation.{of_lease, told_by};

use client_id::{Duid, Iaid};
use journal_lines::{Event, Lease};
use lead_time::End;
use prefix_range::Prefix;

/// How long a delegation lasts.
#[derive(Clone, Copy, Debug, PartialEq, Eq)]
pub enum Lasting {
    /// Granted for so many seconds: `Lease::INFINITE` for ever.
    For(u32),
    /// Carried from earlier volumes: up to this reading of its server's clock.
    Until(End),
}

/// A prefix that is a client's, under an identity association.
#[derive(Clone, Copy, Debug, PartialEq, Eq)]
pub struct Delegation {
    pub client: Duid,
    pub iaid: Iaid,
    pub prefix: Prefix,
    pub lasting: Lasting,
}

impl Delegation {
    /// Returns what a lease delegates.
    pub fn of_lease(lease: &Lease) -> Delegation
        ensures { result ≡ of_lease lease.now }
    {
        Delegation {
            client: lease.client,
            iaid: lease.iaid,
            prefix: lease.prefix,
            lasting: Lasting::For(lease.valid),
        }
    }

    /// The delegation that an event tells of: a grant's, or what is carried.
    pub fn told_by(event: &Event) -> Option<Delegation>
        ensures { result ≡ told_by event.now }
    {
        match event {
            Event::Grant(lease) => Some(Delegation::of_lease(lease)),
            Event::Carry(carried) => Some(Delegation {
                client: carried.client,
                iaid: carried.iaid,
                prefix: carried.prefix,
                lasting: Lasting::Until(carried.end),
            }),
            _ => None,
        }
    }
}
