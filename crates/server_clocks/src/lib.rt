//! The clocks of a server that runs: the time of day, which its lines have, and the monotonic clock, by which it
//! measures how long something took.
//!
//! ```text
//! let clocks = SystemClocks::new(&rt);
//! let Moment { instant, reading } = clocks.now()?;
//! ```
#![tactic(auto)]

mod clocks;

pub use clocks::{Clocks, Moment, SystemClocks};
