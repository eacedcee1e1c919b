//! The words of a report.

use binding_rules::Role;
use causal_order::Ref;
use client_id::{Duid, Iaid};
use journal_lines::Line;
use prefix_range::Prefix;

/// A word of a report: prose, or a value.
#[derive(Clone, Copy, Debug)]
pub enum ReportWord {
    /// Prose, in 7-bit characters, with the spaces and the punctuation round the values.
    Prose(&'static str),
    /// A side of the pair, `A` or `B`.
    Side(Role),
    /// A line of a journal, as `A3`.
    Line(Ref),
    /// What a server's clock shows, in milliseconds since 1970 UTC.
    Reading(u64),
    /// A moment of true time, in milliseconds since 1970 UTC.
    Moment(u64),
    /// The moment of true time so many milliseconds before 1970 UTC.
    BeforeEpoch(u64),
    /// A length of time in milliseconds.
    Milliseconds(u64),
    /// A length of time in seconds.
    Seconds(u64),
    /// A number of a sum or of a count.
    Number(u64),
    Client(Duid),
    /// An identity association of a client.
    Association(Iaid),
    Prefix(Prefix),
    /// What a journal's line says behind its number.
    Entry(Line),
}
