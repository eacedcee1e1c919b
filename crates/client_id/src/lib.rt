//! Who a client is: its DUID and the identity association of a delegation (RFC 8415, sections 11 and 12).
//!
//! A [`Duid`] is its 3 to 130 octets, and two are `==` exactly where their octets are the same; an [`Iaid`] is a
//! number. Both are written in lower-case hexadecimal, and read back exactly. The definitions are specs/Duid; what
//! specs/Octets and specs/PaddedLaws say of the array inside is for bodies only.
//!
//! ```text
//! let client = Duid::from_hex(b"00030001020000000001")?;
//! let same = client == Duid::from_bytes(client.as_bytes())?; // true
//! ```
#![tactic(auto)]

mod duid;
mod error;
mod iaid;

pub use duid::Duid;
pub use error::ClientIdError;
pub use iaid::Iaid;
