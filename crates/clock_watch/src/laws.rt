//! Laws of clocks that nobody sets, and of one that is set.

ghost use Rattle.clock_watch.specs.Laws.{LeftIsNeverSet, SettingIsSeen};

/// A clock that nobody sets is never held to be set: slewing is nothing, and so are steps of less than the skew that
/// make less than twice the skew together. A clock that is set by two milliseconds more than the skew between two turns
/// is seen to be set at the second.
pub fn what_is_set_is_seen()
    ensures left { LeftIsNeverSet }
    ensures set { SettingIsSeen }
{}
