//! That origins are true.

ghost use Rattle.line_origins.specs.Laws.{OriginsAreTrue};

/// Of volumes that are one journal each line has an origin, and the line that this names in its volume has the same
/// reading and the same event.
pub fn origins_are_true()
    ensures { OriginsAreTrue }
{}
