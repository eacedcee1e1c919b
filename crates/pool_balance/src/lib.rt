//! How the primary shares free units with the secondary.
//!
//! Each server is to have half of what is free. `target` is that half, rounded down, and `choose` names the units to
//! move: the highest free ones, highest first (RFC 8156, section 4.2.2: proportional allocation). Both contracts say
//! exactly which.
//!
//! ```text
//! let wanted = target(256, 0); // 128
//! let units = choose(alloc, &units_of_the_pool)?;
//! ```
#![tactic(auto)]

mod choosing;
mod error;

pub use choosing::{choose, target};
pub use error::BalanceError;
