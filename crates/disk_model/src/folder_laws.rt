//! The law of what a loss of power leaves of a folder.

ghost use Rattle.disk_model.specs.Volumes.{VolumesAreLeft};

/// A loss of power leaves each settled volume whole, and of one more volume, which may not be there yet, the first so
/// many of its lines.
pub fn volumes_are_left()
    ensures { VolumesAreLeft }
{}
