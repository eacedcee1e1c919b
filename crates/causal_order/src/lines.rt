//! Where lines come from.

ghost use Rattle.std.specs.Prelude.{◌≡◌};
ghost use Rattle.causal_order.specs.Journals.{Journals, line_of};

use crate::reference::Ref;
use journal_lines::Line;

/// Two journals whose lines can be asked for.
pub trait Lines {
    /// The primary's lines and the secondary's.
    ghost journals: { Self → Journals };

    /// The line that a reference names, or `None` where there is none.
    fn line(&self, at: Ref) -> Option<Line>
        ensures { result ≡ line_of (journals self.now) at };
}
