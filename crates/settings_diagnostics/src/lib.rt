//! Error messages and warnings about a settings document. Given the parsed TOML table it returns one diagnostic for
//! each key that is missing or has a wrong value, the key that a misspelled one was probably meant to be, and warnings
//! about settings that are valid but unusual. It prints nothing and changes nothing.
//!
//! [`reasons_of`] tells of each key that is missing, or whose value doesn't meet the wish there, and where all keys are
//! as wanted, what the pools lack together: settings with no reason are read (specs/Refusing). [`suggested_key`] finds
//! the known key that an unknown one was likely meant for; [`pool_warning`], [`lead_time_warning`] and [`link_warning`]
//! doubt settings that are read. [`pair_conflicts`] compares the settings of two servers as they do themselves at each
//! connection, and [`may_join`] says whether that lets them join (specs/Pairing).
//!
//! ```text
//! for complaint in &reasons_of(alloc, &table)?.keys {
//!     eprintln!(rt; "node: settings: {complaint}")?; // mclt: wants 1 to 31536000, has 0
//! }
//! ```
#![tactic(auto)]

mod key;
mod key_diagnostic;
mod key_rule;
mod key_rules;
mod lines;
mod pairing;
mod pools;
mod refusing;
mod spelling_hint;
mod warnings;

pub use key::{KEYS, Key, POOL_KEYS};
pub use key_diagnostic::{KeyDiagnostic, KeyTable};
pub use key_rule::{Expectation, KeyRule, Presence, TextFormat, ValueFault};
pub use lines::line_ends;
pub use pairing::{PairConflict, PairDocument, PairEnd, may_join, pair_conflicts};
pub use refusing::{PoolConflict, RefusalReasons, reasons_of};
pub use spelling_hint::suggested_key;
pub use warnings::{SettingsWarning, lead_time_warning, link_warning, pool_warning};
