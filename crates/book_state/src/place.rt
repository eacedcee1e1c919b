//! How far the head lines of a volume have come.

use journal_lines::Carried;
use prefix_range::Prefix;

/// How far a volume's head lines have come, by its last line.
#[derive(Clone, Copy, Debug, PartialEq, Eq)]
pub enum Place {
    /// At the open line or a pool line, or before any.
    AtPools,
    /// At the transit line.
    AtTransit,
    /// At the base line.
    AtBase,
    /// At this carry line.
    AtCarry(Carried),
    /// At the unit line of this prefix.
    AtUnit(Prefix),
    /// Behind the head lines.
    PastHead,
}
