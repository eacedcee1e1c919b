//! The words of the desk's command line.
//!
//! [`outline_of`] says what the words name that has to be read first: a time zone, and whether the bounds on clocks are
//! those that the heads of the journals say. With these ([`Surroundings`]) [`invocation_of`] gives the [`DeskRequest`]
//! that clap finds in the words and where its texts come from ([`InputSource`]), or says why there is none: `Usage` where
//! they ask nothing. specs/Words is the command line that clap is told of, specs/Given what each of its words means,
//! specs/Requests what they ask and in which form, specs/Sources what its paths do, specs/Outlines what is read first.
//!
//! ```text
//! let outline = outline_of(alloc, &words)?;
//! let order = invocation_of(alloc, &words, &surroundings)?; // DeskRequest::Answer(Command::Timeline, _) of `desk timeline`
//! ```
#![tactic(auto)]

mod address_advice;
mod advice;
mod arguments;
mod asides;
mod bounds;
mod command;
mod copy_args;
mod error;
mod join_args;
mod orders;
mod outlines;
mod request;
mod requests;
mod settings;
mod sources;
mod subcommands;
mod surroundings;
mod texts;
mod time_advice;
mod when;
mod who_args;
mod wishes;
mod workers;

pub use advice::advice_of;
pub use asides::{MomentSpan, NoteDetail};
pub use bounds::HeadBounds;
pub use command::Command;
pub use copy_args::CopyQuery;
pub use error::UsageError;
pub use join_args::JoinQuery;
pub use orders::{Invocation, invocation_of};
pub use outlines::{BoundsSource, Outline, outline_of};
pub use report_addresses::AddressNote;
pub use request::{AnswerForm, DeskRequest, ReportFacts, ReportForm, ReportOptions};
pub use settings::SettingsCheck;
pub use sources::InputSource;
pub use surroundings::Surroundings;
pub use workers::Workers;
