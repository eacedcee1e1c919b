//! The state machine of one delegable unit, as each server of the pair keeps it. `take_update` and `take_reply` apply
//! a binding update or reply of the partner and return the next state; `grantable` and `renewable` say who may
//! delegate the unit. Messages are values here; `failover_message` has their octets and `line_words` their text.
//!
//! A [`Unit`] is what a server knows of one prefix that it may delegate. `take_update` is the binding table: what a
//! server makes of its partner's update. `take_reply` settles its own due change, or the mark of a unit that it
//! seized. `grantable` and `renewable` say who may give it. The messages ([`PartnerMessage`], [`Body`], [`Update`],
//! [`BindReply`]) are values here; their octets and words belong to other crates. The table is specs/Table, replies
//! specs/Reply, what may be said specs/Messages.
//!
//! ```text
//! let (outcome, unit) = take_update(Role::Secondary, &unit, now, waiting, &update);
//! let may_give = grantable(Role::Secondary, &unit);
//! ```
#![tactic(auto)]

mod counter;
mod giving;
mod message;
mod role;
mod table;
mod taking;
mod unit;
mod update;

pub use counter::Counter;
pub use giving::{grantable, renewable};
pub use message::{Body, PartnerMessage, ServerState};
pub use role::Role;
pub use taking::{Outcome, take_reply, take_update};
pub use unit::{Binding, Unit, UnitStatus};
pub use update::{Acknowledgement, BindReply, Status, Update};
