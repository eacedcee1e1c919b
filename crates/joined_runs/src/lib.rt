//! That an answer over joined journals is true of the pair that left the volumes.
//!
//! The headline of an audit speaks of runs that leave its two journals. No run leaves journals that volumes were put
//! together to (`volume_join`): a pair leaves its volumes. Of a run that leaves volumes one is made that leaves the
//! joined journals: without the close lines between them and the head lines behind these, its lines numbered on, its
//! moments as they were. That is a run of the pair too, and the same clients hold the same in it at each moment. So
//! what is accepted over the joined journals is true of the run that left the volumes (specs/Laws).
#![tactic(auto)]

mod auditing;
mod laws;

pub use auditing::audit_over_volumes;
pub use laws::{accepted_is_true_over_volumes, joined_could_be_left, put_together_is_joined};
