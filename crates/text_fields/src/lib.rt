//! Fields of texts: cuts between stops, decimal numbers and lower-case hexadecimal octets.
//!
//! Journals, certificates, prefixes and identifiers are all spelled with these. Each field has one spelling: a
//! definition in specs/ says it, a call finds a value exactly where a word is its spelling, and a writer appends it.
//! specs/Parsing has the words in which every parser above says what it found (`Finds`, `Moves`, `Gives`).
//!
//! ```text
//! let mut words = Cuts::new(b"grant 7", b' ');
//! let name = words.next_cut(); // Some(b"grant")
//! let number = number_of(b"7"); // Some(7)
//! ```
#![tactic(auto)]

mod cuts;
mod lists;
mod number;
mod octets;

pub use cuts::Cuts;
pub use lists::Listed;
pub use number::{number_of, push_number};
pub use octets::{is_hex, octet_of, octets_of, push_octets};
