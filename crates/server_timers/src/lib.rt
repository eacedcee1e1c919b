//! What a running server has to do by time: send a heartbeat to its partner, roll its volume over, warn that the
//! volume is nearly full. `due_actions` computes it from the settings, the clock and the volume's size. It does none
//! of it and keeps no state.
//!
//! A server that wrote nothing for `heartbeat` seconds owes a contact, so that its partner and its journal know that it
//! lives; until it has joined its partner, another line takes its place. A line that takes a contact of the partner's
//! doesn't count: the partner hears nothing of it, so two that are idle each say that they live. A volume rolls after
//! so many lines behind its head lines, after so many hours, or when told, but only where the rules let: not while the
//! partner is taken for down, and not before it has acknowledged each unit that was seized from it. A book that is full
//! takes a close line alone: that is known an hour ahead, by the rate at which lines were written so far.
//!
//! ```text
//! let growth = Growth { lines: work.lines, head_lines, opened, spoken };
//! let owed = upkeep.owed(&growth, now, RollBlocked::of(work.down, work.mark), OperatorRequest::Nothing);
//! if owed.contact { book.apply(now, &Order::SendContact)?; }
//! ```
#![tactic(auto)]

mod due_actions;
mod growth;
mod schedule;

pub use due_actions::{DueActions, OperatorRequest, RollBlocked, RollState, Room};
pub use growth::Growth;
pub use schedule::Timers;
