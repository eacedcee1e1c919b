//! A close line for lines that were read while their server went on.

ghost use Rattle.std.specs.Prelude.{◌≡◌, ◌+◌, ◌<◌, ◌^◌, All, OnOk};
ghost use Rattle.attribution.specs.Snapshot.{closed_now};

use journal_lines::{Event, Line};
use std::alloc::AllocError;

/// Closes what was read of a volume: behind its last line comes a close line with the next number, at that line's
/// reading. Lines that end with a close line stay as they are, and so does an empty list. `AllocError` where a growth
/// was refused.
pub fn close_now(lines: &mut Vec<Line>) -> Result<(), AllocError>
    requires { All (λ line. line.number + 1 < 2 ^ 32) lines.now.items }
    ensures { OnOk result (lines.new.items ≡ closed_now lines.old.items) }
{
    let Some(last) = lines.last() else {
        return Ok(());
    };
    if last.event.is_close() {
        return Ok(());
    }
    let closing = Line {
        number: last.number + 1,
        reading: last.reading,
        event: Event::Close,
    };
    lines.push(closing)?;
    Ok(())
}
