//! IPv6 prefixes (RFC 4291): the set of addresses that share their first bits.
//!
//! A [`Prefix`] keeps no bit past its length. `contains` and `overlaps` are those of the sets, decided by end points;
//! `unit` gives the prefixes of one length inside a pool. Texts come in two forms: what people write (`read_text`,
//! RFC 4291, section 2.2) and the one canonical spelling of journals and certificates (`read_canonical`,
//! `write_text`). specs/Prefix has the sets, specs/Spelling and specs/Text the texts.
//!
//! ```text
//! let pool = read_text(b"2001:db8::/48")?;
//! let first = pool.unit(56, 0); // 2001:db8::/56
//! ```
#![tactic(auto)]

mod address;
mod canonical;
mod colons;
mod error;
mod numeral;
mod pool;
mod prefix;
mod row;
mod text;

pub use canonical::{push_prefix, read_canonical, write_text};
pub use error::PrefixError;
pub use pool::unit;
pub use prefix::Prefix;
pub use text::read_text;
