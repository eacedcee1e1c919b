//! The log of a running server: each `LogEvent` with its syslog level and its wording, and a rate limit for events
//! that may repeat. It writes lines to any printer. It decides nothing.
//!
//! A [`LogEvent`] is told by a [`Log`]: each time; or, where it may happen often, at once and then a count a minute;
//! or, where it lasts and is seen again and again, once an hour. Of what lasts a [`StateWatch`] tells each change.
//!
//! ```text
//! let mut log = Log::new(alloc, &rt.stderr());
//! log.log(&LogEvent::Listens(address));                 // <6>node: listens for clients and relays at [::]:547
//! log.log_limited(&LogEvent::Rejected, now);            // <4>node: closed another connection
//! watch.see_clock(&SeenClock::Behind, &log);            // <3>node: serves nobody: its clock fell behind ..
//! ```
#![tactic(auto)]

mod disconnect_reason;
mod event_words;
mod lead_words;
mod level;
mod log;
mod log_event;
mod rate_limit;
mod refused_ports;
mod watch;

pub use disconnect_reason::DisconnectReason;
pub use level::Level;
pub use log::{Log, moment_words};
pub use log_event::LogEvent;
pub use watch::{SeenClock, StateWatch};
