//! The main loop of `node serve`: receive, run what is due, commit, send, wait. It is generic over sockets, clock and
//! disk, so that its contract covers every send: no reply leaves before its line is synced. It has one thread and
//! holds no lock.
//!
//! A [`Daemon`] runs a server (`server_core`) over devices that don't wait (`daemon_io`), a turn after another: it
//! hears clients, the partner and the control socket (`daemon_endpoints`), does what is owed, puts all new lines to the
//! disk by one write and one sync, and only then tells: answers to their clients, frames to the partner, and the
//! control socket. So nothing is told that a loss of power could take back: [`Daemon::run`] promises it.
//!
//! While its clock is too far behind its journal (`server_start::is_behind`), or was set (`clock_watch`), it answers
//! nobody, and says so. Nor does a server that goes on without `restart`, for 30 s or until its partner waits; nor, any
//! more, one whose journal is short. A disk that fails ends it: what was held back is never told, and it goes on with what
//! its folder leads to when it is started again. So does a volume's file that was removed, which is seen each
//! heartbeat.
//!
//! A start that has a partner asks its clock before it writes a line, and one whose clock was set since it was kept last
//! waits: until the two agree, the difference is gone, or a person says that the clock is right.
//!
//! [`serve`] is the program: it takes the lock on a directory, opens the system's sockets, starts with what the directory
//! leads to once its clock lets it, and runs.
//!
//! ```text
//! serve(&rt, &rt, "/var/lib/node", &settings, &rt.stderr())?;            // until it is told to stop
//! ```
#![tactic(auto)]

mod beginning;
mod clock_check;
mod clock_wait;
mod commands;
mod daemon;
mod error;
mod expiring;
mod keeping;
mod lingering;
mod serving;
mod side_files;
mod statuses;
mod volume_check;
mod withholding;

pub use daemon::Daemon;
pub use error::{DaemonError, ServeFailure};
pub use serving::{CONTROL, serve};
