//! Laws of the model.

ghost use Rattle.disk_model.specs.Laws.{WithinAnAppend, WithinACut, WithinASync};

/// Whatever is left within a call is left before it or after it, so that it is enough to look at a file after each
/// call.
pub fn left_within_a_call()
    ensures append { WithinAnAppend }
    ensures cut { WithinACut }
    ensures sync { WithinASync }
{}
