//! What is asked of the desk, and in which form it is answered.

use crate::command::Command;
use crate::copy_args::CopyQuery;
use crate::join_args::JoinQuery;
use crate::settings::SettingsCheck;
use lead_time::{Skew, Transit};
use plain_search::HolderQuery;

/// The form of an answer.
#[derive(Clone, Copy, Debug, PartialEq, Eq)]
pub enum AnswerForm {
    /// Lines.
    Plain,
    /// One JSON object.
    Json,
}

/// The form of a report.
#[derive(Clone, Copy, Debug, PartialEq, Eq)]
pub enum ReportForm {
    /// Sentences.
    Plain,
    /// One HTML page.
    Page,
    /// One JSON object.
    Json,
}

/// What a page says of its case, beside the answer: as it was given.
#[derive(Clone, Copy, Debug)]
pub struct ReportFacts<'a> {
    /// Which case it is of.
    pub case: Option<&'a str>,
    /// Who asked.
    pub asked_by: Option<&'a str>,
    /// When the page was made.
    pub made: Option<&'a str>,
}

/// How a report is told.
#[derive(Clone, Copy, Debug)]
pub struct ReportOptions<'a> {
    pub form: ReportForm,
    /// The time zone in which moments are told beside UTC, by its name, as `Europe/Paris`.
    pub zone: Option<&'a str>,
    pub facts: ReportFacts<'a>,
}

/// What is asked of the desk.
#[derive(Clone, Copy, Debug)]
pub enum DeskRequest<'a> {
    /// An answer.
    Answer(Command, AnswerForm),
    /// A report on a certificate: its verdict, with clocks within this skew of true time and answers that reach their
    /// clients within this transit, and what it rests on.
    Explain {
        skew: Skew,
        transit: Transit,
        telling: ReportOptions<'a>,
    },
    /// Which client held a prefix at a moment, and a report on that, or on why nobody is named.
    ExplainHolder(HolderQuery, SettingsCheck, ReportOptions<'a>),
    /// Volumes of one side put together as one journal.
    Join(JoinQuery),
    /// The text of volumes of one side up to a line.
    Copy(CopyQuery),
    /// Which volumes files have, and what is missing.
    Volumes,
}
