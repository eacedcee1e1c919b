//! Readings of clocks, the ends of leases, and the sums that a server makes of them.
//!
//! A [`Reading`] is what a clock showed, in milliseconds since 1970, and a [`Skew`] is the most by which a clock and
//! true time differ: `earliest` and `latest` bound the moment of a reading. A [`Transit`] is the most by which an
//! answer may be under way. `allowed_valid` is the lifetime that the maximum client lead time allows (RFC 8156,
//! section 4.4), `own_end` and `told_end` are when a lease ends for the server and for its partner, `takeover` is
//! when a unit of a partner that is down may be taken over. Every contract states its sum.
//!
//! ```text
//! let reading = Reading::new(10_000)?;
//! let skew = Skew::new(2000)?;
//! let moments = (earliest(reading, skew), latest(reading, skew)); // (8000, 12000)
//! ```
#![tactic(auto)]

mod bounds;
mod end;
mod error;
mod lease;
mod reading;
mod skew;
mod transit;

pub use bounds::{earliest, latest};
pub use end::End;
pub use error::LeadTimeError;
pub use lease::{allowed_valid, is_past, own_end, takeover, told_end};
pub use reading::Reading;
pub use skew::Skew;
pub use transit::Transit;
