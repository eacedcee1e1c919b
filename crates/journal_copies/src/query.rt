//! What is copied, and what comes of it.

use binding_rules::Role;
use volume_spans::{JoinRefusal, VolumeSpan};

/// Which volumes are copied, and how much of them.
#[derive(Clone, Copy, Debug, PartialEq, Eq)]
pub struct CopyQuery {
    /// Whose.
    pub side: Role,
    pub span: VolumeSpan,
    /// How many lines of the journal that they are together, from its first on.
    pub lines: u64,
}

/// The text of volumes, up to a line.
#[derive(Debug, Drop)]
pub struct CopiedText {
    pub text: Vec<u8>,
    pub volumes: VolumeSpan,
}

/// What comes of volumes that are copied.
#[derive(Debug, Drop)]
pub enum CopyOutcome {
    Copied(CopiedText),
    /// The volume of this number of the side isn't in the archive, or its file is at fault.
    Missing(Role, u32),
    /// They have so many lines, which are fewer than were asked for.
    OtherLines(u64),
    /// They aren't one journal.
    Refused(JoinRefusal),
}
