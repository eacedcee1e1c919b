//! How a report is told, and what it is made of.

use attribution_desk::ReadPair;
use desk_args::{NoteDetail, ReportForm, SettingsCheck};
use line_origins::SpanOrigins;
use volume_spans::SpanPair;
use zone_times::ZoneFile;

/// What a page says of its case, as it was given.
#[derive(Clone, Copy)]
pub struct StatedFacts<'a> {
    /// Which case it is of.
    pub case: Option<&'a str>,
    /// Who asked.
    pub asked_by: Option<&'a str>,
    /// When the page was made.
    pub made: Option<&'a str>,
}

/// How a report is told.
#[derive(Clone, Copy)]
pub struct ReportStyle<'a> {
    pub form: ReportForm,
    /// The zone in whose local time moments are told too.
    pub zone: Option<&'a ZoneFile>,
    /// How much is said of files that are passed over.
    pub detail: NoteDetail,
    pub facts: StatedFacts<'a>,
}

/// What a question was asked of: two texts as journals, the volumes that they are, and the access records of the grants
/// that show a holder.
#[derive(Clone, Copy)]
pub struct ReportSource<'a> {
    pub pair: &'a ReadPair,
    /// The volumes that the journals are; `None` where the texts themselves were given.
    pub volumes: Option<SpanPair>,
    /// Which of these volumes has each line; `None` where the texts themselves were given.
    pub origins: Option<&'a SpanOrigins>,
    /// Lines of access records, each after its word.
    pub access: &'a [u8],
    /// Whether the journals' settings must agree where somebody is named.
    pub settings: SettingsCheck,
}
