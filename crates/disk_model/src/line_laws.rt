//! Laws of what a loss of power leaves.

ghost use Rattle.disk_model.specs.Later.{LeftAreFirst, LaterOfLater, SyncedLinesLive, SyncedLinesStay};

/// A loss of power leaves of an open file the first so many of its lines, and no fewer than are synced.
pub fn left_are_first()
    ensures { LeftAreFirst }
{}

/// A line that is synced stands at its place in all that is left at any later moment, also over any number of losses of
/// power; and later than later is later.
pub fn synced_lines_stay()
    ensures stay { SyncedLinesStay }
    ensures later { LaterOfLater }
    ensures live { SyncedLinesLive }
{}
