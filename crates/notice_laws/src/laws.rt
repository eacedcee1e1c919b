//! Laws of frames and notices on one link.

ghost use Rattle.notice_laws.specs.Reading.{AllIsRead, ReadIsBeginning};

use failover_message::{chunks_join, frames_stand_apart};

/// Where all that was said has come, each frame and each notice of it is read, in order, and nothing is left.
pub fn all_is_read()
    ensures { AllIsRead }
{
    frames_stand_apart();
    chunks_join();
}

/// As far as it has come, what is read is a beginning of what was said: no notice makes a frame or takes one away.
pub fn what_is_read_was_said()
    ensures { ReadIsBeginning }
{
    frames_stand_apart();
    chunks_join();
}
