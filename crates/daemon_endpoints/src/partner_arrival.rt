//! What comes from the partner.

ghost use Rattle.std.specs.Prelude.{◌≡◌};
ghost use Rattle.daemon_endpoints.specs.Hearing.{is_something, or_waiting};

use std::time::Instant;

/// What came from the partner in a turn.
#[derive(Clone, Copy, Debug, PartialEq, Eq)]
pub enum PartnerArrival {
    /// Nothing.
    Nothing,
    /// No octets over a connection that stands: somebody who waits to be let in, or the end of a connection.
    Event,
    /// The partner was let in over another connection.
    Entered,
    /// Octets over the connection that stands, at this moment of the monotonic clock.
    Octets(Instant),
}

impl PartnerArrival {
    /// Returns whether anything came.
    pub fn is_something(&self) -> bool
        ensures { result ≡ is_something self.now }
    {
        !matches!(self, PartnerArrival::Nothing)
    }

    /// The same where anything came; else an event, where somebody came who waits.
    pub(crate) fn or_waiting(self, has_come: bool) -> PartnerArrival
        ensures { result ≡ or_waiting has_come self }
    {
        match self {
            PartnerArrival::Nothing if has_come => PartnerArrival::Event,
            PartnerArrival::Nothing
            | PartnerArrival::Event
            | PartnerArrival::Entered
            | PartnerArrival::Octets(_) => self,
        }
    }
}
