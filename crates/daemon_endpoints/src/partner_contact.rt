//! When the two servers were joined last, and when the partner was heard last.

ghost use Rattle.std.specs.Prelude.{◌≡◌, None, if◌then◌else◌};
ghost use Rattle.daemon_endpoints.specs.Contact.{heard_by, is_heard_within, reach_at};

use crate::partner_arrival::PartnerArrival;
use client_limits::PartnerReach;
use std::time::{Duration, Instant};

/// For how many seconds a server that is apart from its partner leaves to it what that may know.
const WAIT: u64 = 60;

/// When a server saw last that it is joined with its partner, and when it heard it, by the monotonic clock.
#[derive(Clone, Copy, Debug)]
pub struct PartnerContact {
    joined: Instant,
    /// When octets came last over the connection that was let in last.
    heard: Option<Instant>,
}

impl PartnerContact {
    /// A server begins at this moment: its partner has time to come.
    pub fn new(begun: Instant) -> PartnerContact
        ensures joined { result.joined ≡ begun }
        ensures heard { result.heard ≡ None }
    {
        PartnerContact {
            joined: begun,
            heard: None,
        }
    }

    /// Sees at a moment whether the two are joined.
    pub fn see(&mut self, is_joined: bool, now: Instant)
        ensures joined { self.new.joined ≡ (if is_joined then now else self.old.joined) }
        ensures heard { self.new.heard ≡ self.old.heard }
    {
        if is_joined {
            self.joined = now;
        }
    }

    /// Notes what came from the partner.
    pub fn note(&mut self, arrival: PartnerArrival)
        ensures heard { self.new.heard ≡ heard_by arrival self.old.heard }
        ensures joined { self.new.joined ≡ self.old.joined }
    {
        match arrival {
            PartnerArrival::Octets(at) => self.heard = Some(at),
            PartnerArrival::Entered => self.heard = None,
            PartnerArrival::Event | PartnerArrival::Nothing => {}
        }
    }

    /// Returns whether octets came since so many seconds ago over the connection that was let in last.
    pub fn is_heard_within(&self, seconds: u64, now: Instant) -> bool
        ensures { result ≡ is_heard_within self.now.heard seconds now }
    {
        match self.heard {
            Some(heard) => now.duration_since(heard) <= Duration::from_secs(seconds),
            None => false,
        }
    }

    /// How far the partner is at a moment: apart, once the two weren't joined for more than a minute.
    pub fn reach(&self, now: Instant) -> PartnerReach
        ensures { result ≡ reach_at self.now.joined now }
    {
        if now.duration_since(self.joined) > Duration::from_secs(WAIT) {
            PartnerReach::Apart
        } else {
            PartnerReach::Near
        }
    }
}
