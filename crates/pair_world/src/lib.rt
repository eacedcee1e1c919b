//! A model of the whole pair: two books, two clocks, and a link that loses, repeats and reorders messages, driven by a
//! list of events. Its theorem is pair safety: no address is ever held by two clients. It is a specification and a
//! test bed; no program uses it.
//!
//! A [`World`] has the books of the two servers, and all that happened to them. `step` lets an [`Event`] happen: a
//! server is ordered something, a message that its partner ever sent reaches it (late, again, in any order, or never),
//! it stops, it begins again, time passes. Or it refuses the event, and nothing changes. `holders` says who has an
//! address now. specs/PairWorld has what a step does and which refusal comes first, specs/Holders who has what.
//!
//! The laws are calls without a body, whose contract is the law. `address_safe` is pair safety: after any list of
//! events no address is held by two clients at any moment. `partner_stands_back` has the laws of a server whose partner
//! is down, `world_is_run` says that what happened is a run of the pair in the auditor's sense, and `books_keep` is the
//! invariant, clause by clause. `one_holder_ever` and `partner_down_laws` say the same of a world of one unit
//! (specs/UnitWorld), which allows more than the rules do.
//!
//! ```text
//! let mut world = World::new(alloc, moment, &primary, &secondary)?; // where are_alike(&primary, &secondary)
//! let reply = world.step(&Event::Serve { side: Role::Primary, clock, order })?;
//! let clients = world.holders(alloc, &prefix)?; // of a unit at most one
//! ```
#![tactic(auto)]

mod alike;
mod client;
mod error;
mod event;
mod holding;
mod laws;
mod messages;
mod run_step;
mod stepping;
mod world;

pub use alike::are_alike;
pub use error::WorldError;
pub use event::Event;
pub use laws::{
    address_safe, books_keep, one_holder_ever, partner_down_laws, partner_stands_back, world_is_run,
};
pub use run_step::Step;
pub use world::World;
