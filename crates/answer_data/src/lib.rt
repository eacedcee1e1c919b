//! Answers of the desk as JSON: what was found, who held a prefix and when, or why nobody is named.
//!
//! [`AnswerParts`] gathers what an answer says, and writes it as one object (RFC 8259); [`holder_data`] and those beside
//! it do it of answers over two texts. [`why_data`] writes why nobody is named, with the delegations near the moment.
//! specs/Answers, specs/Parts and specs/Unnamed say which members an object has, what stands in each, and that a reader of
//! the text has this object again. [`holder_objects_are_true`]: where an object names a holder, that is true.
//!
//! ```text
//! let text = holder_data(alloc, &answer)?; // {"access":[],"certificates":["certificate ..
//! ```
#![tactic(auto)]

mod answers;
mod laws;
mod lease_data;
mod parts;
mod reason_data;
mod state_data;
mod texts;
mod unnamed;
mod volumes;

pub use answers::{found_data, holder_data, refused_data, ruling_data};
pub use laws::holder_objects_are_true;
pub use parts::{AnswerParts, NamedHolder};
pub use unnamed::{line_data, why_data};
pub use volumes::volumes_value;
