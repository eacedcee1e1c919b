//! The twenty rules of a journal as one state machine, shared by servers, the auditor and the model of the pair.
//! `Table::check` returns the first rule that a line would break, `Table::enter` applies a line that breaks none, and
//! `Table::replay` does both for a whole volume. It reads no text and no clock.
//!
//! A [`Table`] is the state of a server's book as its lines lead to it: settings, numbers, and each delegable unit.
//! `check` tells which [`Rule`] a line would break first, and `enter` makes of the table what the line makes of the
//! book. `Table::replay` goes through all lines of a volume once, and answers the table behind them or the first line
//! that breaks a rule.
//!
//! The definitions stand in specs/ and cite no code: the rules (`VolumeRules`, `UnitRules`, `MessageRules`, in their
//! order in `Rules`) and which lists of lines are volumes (`Volumes`). `state` of specs/State is the book that a table
//! is. What a book is and what each line makes of it stands in `book_state`, which lines the next volume begins with in
//! `book_rules`.
//!
//! ```text
//! let table = Table::replay(alloc, Role::Primary, Head::One, lines)?;
//! let broken = table.check(&next); // Some(Rule::Sequence) behind a close line
//! ```
//!
//! Which lines a server's next volume begins with, and what the volumes of a server are.
//!
//! A closed book names them: its settings and numbers, what it owes its clients, and the units that aren't as at an
//! opening (`NextHead` of specs/). `AreLegal`, there too, is a server's volumes from the first on: each breaks no rule,
//! and each next one begins with the lines that the one before names. The law: such lines break no rule themselves,
//! lead to the closed book's table, and are one list (`NextVolume`). Who writes them is `server_book`.
//!
//! ```text
//! next_volume_is_legal(); // what a closed book names is legal
//! ```
#![tactic(auto)]

mod effects;
mod error;
mod head_laws;
mod laws;
mod rule;
mod rules;
mod table;

pub use book_state::{Place, Pool};
pub use error::ReplayError;
pub use head_laws::next_volume_is_legal;
pub use laws::{first_broken_is_one, replies_are_own};
pub use rule::Rule;
pub use rules::message::{due_update, seized_update};
pub use rules::volume::are_apart;
pub use table::Table;
