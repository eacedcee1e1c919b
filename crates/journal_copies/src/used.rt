//! Which lines of a shown journal stand in its server's volume.

ghost use Rattle.std.specs.Prelude.{◌≡◌};
ghost use Rattle.journal_copies.specs.Used.{is_put_behind, lines_before_put, lines_used};

use journal_lines::{Journal, Line};

/// Returns whether a line is the close line that the desk may have put behind another.
fn is_put_behind(before: &Line, line: &Line) -> bool
    ensures { result ≡ is_put_behind before.now line.now }
{
    line.event.is_close()
        && u64::from(line.number) == u64::from(before.number) + 1
        && line.reading.milliseconds() == before.reading.milliseconds()
}

/// The lines but for such a close line at their end.
fn lines_before_put(lines: &[Line]) -> &[Line]
    ensures { result.now ≡ lines_before_put lines.now }
{
    let Some(place) = lines.len().checked_sub(2) else {
        return lines;
    };
    if is_put_behind(&lines[place], &lines[place + 1]) {
        return &lines[..place + 1];
    }
    lines
}

/// How many lines of a shown journal its server wrote: all but a close line at its end with the next number, at the
/// reading of the line before it. So the desk closes a volume that goes on; where a server itself closed its volume so,
/// the close line isn't counted either, and the desk puts the same one there again.
pub fn lines_used(journal: &Journal) -> u64
    ensures { result ≡ lines_used journal.now.lines }
{
    lines_before_put(journal.lines.as_slice()).len() as u64
}
