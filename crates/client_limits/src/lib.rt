//! Quotas and rate limits: how many units a client, and the clients behind one relay port, may hold, and how many
//! messages a second they may send. It implements `Admission` for `client_service` and collects access records. It
//! doesn't end leases: a client keeps what it has when a limit is lowered.
//!
//! Where an association belongs to its port, what its messages lead to goes by the access record of this server's last
//! grant of its unit (specs/Quotas, `permit_for`): by the same port they are ordered; by another they are denied, and a
//! RELEASE is told NoBinding; and where there is no record, or the partner told of a later grant, they are left to the
//! partner while that is in reach ([`PartnerReach`]), and a RELEASE is told nothing.
//!
//! Who has which units, where a holder is known by octets: a client's identifier, a relay's port.
//!
//! [`Holders`] lists each holder's units, and knows the holder of each unit that it was told of. A unit has one holder:
//! where it is given to another, it leaves the list of who had it.
//!
//! ```text
//! holders.give(unit, client.as_bytes())?;
//! holders.units(client.as_bytes());  // in the order in which they were given
//! ```
#![tactic(auto)]

mod grant_records;
mod holders;
mod limiter;
mod limits;
mod listing;
mod origin;
mod partner_reach;
mod quotas;
mod rates;

pub use holders::Holders;
pub use limiter::Limiter;
pub use limits::{Limits, PortRule};
pub use partner_reach::PartnerReach;
