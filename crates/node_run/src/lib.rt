//! A node's run: so many datagrams answered, beside the link to the partner, and the journal that comes of it.
//!
//! [`run_node`] has the workers of `node_threads` answer clients while an end of the link meets the partner's, and
//! meets it again where the connection ends. What a person is to know is printed, a line each.
//!
//! ```text
//! let run = run_node(rt, alloc, &settings, count, Partner::Up, &rt.stderr())?;
//! rt.stdout().write_all(&run.journal)?;             // closed, also where run.received says that a worker failed
//! ```
#![tactic(auto)]

mod connection;
mod error;
mod linking;
mod meeting;
mod running;
mod telling;

pub use error::RunError;
pub use running::{RunResult, run_node};
