//! What the heads of journals say of their servers' clocks and answers.
//!
//! A volume begins with its server's settings: how far its clock may be from true time (`open`), and how long an answer
//! may be on its way (`transit`; where no line says it, nothing). [`bounds_said`] gives what all volumes of some files
//! say alike, so that whoever asks needn't know it; where they differ, or none says anything, it's refused.
//! specs/Heads says what a file says.
//!
//! ```text
//! let HeadBounds { skew, transit } = bounds_said(alloc, &files)?;
//! ```
#![tactic(auto)]

mod fault;
mod head;
mod heads;

pub use desk_args::HeadBounds;
pub use fault::HeadsFault;
pub use heads::bounds_said;
