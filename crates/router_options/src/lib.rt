//! The options that a server hands out beside prefixes (RFC 8415, section 21, RFC 3646 and RFC 4075).
//!
//! [`RouterOptions`] are those that a server was given, and [`chosen`] says which of them an answer gets: what its
//! client asked for, and what goes with its type. A [`ReadyOption`] is one of them as it is written: a code and data.
//! Names of a search list are [`DomainName`]s, which only a text makes that spells one (RFC 1035).
//!
//! ```text
//! let options = RouterOptions { dns, search, ..RouterOptions::none(alloc) }.ready(alloc)?;
//! let given = chosen(alloc, &options, Occasion::Reply, requested)?;
//! ```
#![tactic(auto)]

mod choosing;
mod error;
mod name;
mod options;
mod ready;

pub use choosing::{Occasion, chosen};
pub use error::{NameError, OptionsError};
pub use name::DomainName;
pub use options::RouterOptions;
pub use ready::{OptionList, ReadyOption};
