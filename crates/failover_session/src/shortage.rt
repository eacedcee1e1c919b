//! What shows that a server's own journal is short.

use binding_rules::Counter;
use prefix_range::Prefix;

/// What shows that a part of a server's own journal was lost: its partner knows more of it. It was put back from a copy,
/// or is another's.
#[derive(Clone, Copy, Debug, PartialEq, Eq)]
pub enum JournalShortage {
    /// The partner took message `taken`, and the last one that this journal sends is `sent`.
    Messages {
        taken: Counter,
        sent: Counter,
    },
    /// The partner speaks of change `taken` of a unit, and the last one that this journal made is `made`.
    Change {
        prefix: Prefix,
        taken: Counter,
        made: Counter,
    },
}
