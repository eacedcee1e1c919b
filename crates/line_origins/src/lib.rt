//! Which volume has a line of the journal that consecutive volumes of a side are together, and by which number.
//!
//! Where an answer is over several volumes of a side, its lines are numbered in the joined journal (`volume_join`): all
//! lines of the first volume, and of each further one what stands behind its head lines, without the close lines between
//! them. [`parts_of`] says which of the joined lines each volume has, one [`VolumePart`] a volume; [`origin_of`] finds
//! the volume of a line by these, and its own number there. [`SpanOrigins`] are the parts of both sides.
//!
//! The line that an origin names has the reading and the event of the joined line, and each joined line has an origin
//! (specs/Laws).
//!
//! ```text
//! let origins = SpanOrigins::of(alloc, &read)?;
//! let origin = origins.origin_of(Role::Primary, 1234); // Some(LineOrigin { volume: 40, line: 310 })
//! ```
#![tactic(auto)]

mod finding;
mod laws;
mod parts;
mod spans;

pub use finding::{LineOrigin, origin_of};
pub use laws::origins_are_true;
pub use parts::{VolumePart, parts_of};
pub use spans::SpanOrigins;
