//! How far two journals reach.

ghost use Rattle.std.specs.Prelude.{◌≡◌};
ghost use Rattle.archive_files.specs.Reaching.{last_reading, shown_until};

use journal_archive::PairJournals;
use journal_lines::Line;
use lead_time::Skew;

fn last_reading(lines: &[Line]) -> Option<u64>
    ensures { result ≡ last_reading lines.now }
{
    let last = lines.last()?;
    Some(last.reading.milliseconds())
}

/// The first moment, in milliseconds of true time, of which two shown journals can't tell: the earlier of the readings
/// at which they were closed, less the skew. `None` where one of them has no line.
pub fn shown_until(shown: &PairJournals, skew: Skew) -> Option<u64>
    ensures { result ≡ shown_until skew shown.now }
{
    let primary = last_reading(shown.primary.lines.as_slice())?;
    let secondary = last_reading(shown.secondary.lines.as_slice())?;
    Some(primary.min(secondary).saturating_sub(skew.milliseconds()))
}
