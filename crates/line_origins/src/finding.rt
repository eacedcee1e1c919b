//! The volume of a joined line.

ghost use Rattle.std.specs.Prelude.{◌≡◌, ◌≤◌};
ghost use Rattle.line_origins.specs.Parts.{has_line, origin_at, origin_in};

use crate::parts::VolumePart;

/// A line of a volume.
#[derive(Clone, Copy, Debug, PartialEq, Eq)]
pub struct LineOrigin {
    /// Which volume of all that its server wrote it is, from 1.
    pub volume: u32,
    /// The number of the line there, counted from 1.
    pub line: u64,
}

impl VolumePart {
    /// Returns whether the joined line of this number is the volume's.
    fn has_line(&self, number: u32) -> bool
        ensures { result ≡ has_line self.now number }
    {
        self.before < number && number <= self.until
    }

    /// The volume's own number of that line.
    fn origin_at(&self, number: u32) -> LineOrigin
        requires { self.now.before ≤ number }
        ensures { result ≡ origin_at self.now number }
    {
        LineOrigin {
            volume: self.volume,
            line: u64::from(self.head) + u64::from(number - self.before),
        }
    }
}

/// The volume of the joined line of this number, counted from 1, and its own number there. `None` where no volume has it.
#[tactic(auto, using(crate::proofs::Stepping::has_first, crate::proofs::Stepping::has_later))]
pub fn origin_of(parts: &[VolumePart], number: u32) -> Option<LineOrigin>
    ensures { result ≡ origin_in parts.now number }
{
    let mut rest = parts;
    while let [part, later @ ..] = rest {
        if part.has_line(number) {
            return Some(part.origin_at(number));
        }
        rest = later;
    }
    None
}
