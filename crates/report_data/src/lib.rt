//! A report on a ruling, as JSON.
//!
//! [`data_of`] writes one object (RFC 8259): the ruling, the comparison that a refusal rests on, and all that a report
//! has, field by field. Times are objects of their milliseconds since 1970 and of what RFC 3339 writes for them; what
//! there isn't is `null`. specs/Rulings says which members an object has, what stands in those of the ruling, the question,
//! the bounds, the certificate and the volumes, and that a reader of the text has this object again; what stands in
//! pieces, foreign entries, cited lines and failures is only tested.
//!
//! ```text
//! let text = data_of(alloc, &explanation, certificate_text, volumes)?;
//! ```
#![tactic(auto)]

mod data;
mod failures;
mod foreign;
mod object;
mod pieces;
mod values;

pub use data::{data_of, verdict_data};
pub use object::Object;
pub use values::{association_of, client_of, line_of, prefix_of, side_of, text_of, time_of};
