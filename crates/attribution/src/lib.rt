//! The definitions behind the headline theorem, and the theorem: runs of the pair, valid delegations, accepted
//! certificates, the first refusal. Read this crate to know what `accepted` means. It has almost no code; `auditor`
//! implements it.
//!
//! The definitions stand in specs/ and cite no code: a server's lines, volume by volume (`Volumes`; what a server may
//! write is `book_rules`' `NextHead`), runs of the pair and who holds what in one (`Run`), what it takes to accept a
//! certificate and what is then true (`Acceptance`), and which refusal comes first (`FirstRefusal`). What a certificate
//! is asked is a list, `CONDITIONS`; its verdict is the refusal of the first that isn't met.
//! What the headline needs of a server is less than its rules (`Lawful`), and which journals clocks fit is one
//! comparison a take (`Clocks`). What was read of a journal that is still being written shows as much, closed behind
//! its last line (`Snapshot`, `close_now`).
//!
//! The laws over these definitions are calls without a body, whose contract is the law: `accepted_is_true` is the
//! headline, `run_exists` and `no_two_holders` say what it is worth over journals that clocks fit.
//!
//! ```text
//! accepted_is_true(); // what is accepted is true in every run
//! let line = verdict_line(alloc, &Verdict::PieceGap(1))?; // b"refused C6 PieceGap 1\n"
//! ```
#![tactic(auto)]

mod close_line;
mod condition;
mod delegation;
mod laws;
mod verdict;
mod verdict_text;

pub use close_line::close_now;
pub use condition::{CONDITIONS, Condition};
pub use delegation::{Delegation, Lasting};
pub use laws::{
    accepted_is_true, bounds_hold, chains_stand_in_order, early_by_first_send,
    early_fits_no_clocks, end_points_decide, late_after_close, lawful_is_enough, listed_is_enough,
    no_two_holders, pieces_meet_every_moment, run_exists, snapshots_are_true, tests_decide,
    verdict_is_one,
};
pub use verdict::Verdict;
pub use verdict_text::{push_place, verdict_line};
