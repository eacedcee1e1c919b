//! By how much the partner's clock is ahead of this one, in words.

use link_notices::ClockRange;
use std::fmt;
use std::fmt::Write;

/// By how much the partner's clock is ahead of this one, or behind it: in seconds with one decimal, the lesser rounded
/// down and the greater up.
#[derive(Clone, Copy)]
pub(crate) struct LeadWords(pub(crate) ClockRange);

/// So many tenths of a second.
#[derive(Clone, Copy)]
struct Tenths(u64);

impl Tenths {
    /// No more than so many milliseconds.
    fn at_most(milliseconds: u64) -> Tenths {
        Tenths(milliseconds / 100)
    }

    /// No less than so many milliseconds.
    fn at_least(milliseconds: u64) -> Tenths {
        let more = if milliseconds % 100 == 0 { 0 } else { 1 };
        Tenths(milliseconds / 100 + more)
    }
}

impl fmt::Display for Tenths {
    fn fmt<W: Write>(&self, f: &mut fmt::Formatter<W>) -> fmt::Result {
        let (seconds, part) = (self.0 / 10, self.0 % 10);
        write!(f, "{seconds}.{part} s")
    }
}

impl fmt::Display for LeadWords {
    fn fmt<W: Write>(&self, f: &mut fmt::Formatter<W>) -> fmt::Result {
        let (least, most) = (self.0.least.unsigned_abs(), self.0.most.unsigned_abs());
        if self.0.least >= 0 {
            let (lesser, greater) = (Tenths::at_most(least), Tenths::at_least(most));
            write!(f, "between {lesser} and {greater} ahead of this one")
        } else if self.0.most <= 0 {
            let (lesser, greater) = (Tenths::at_most(most), Tenths::at_least(least));
            write!(f, "between {lesser} and {greater} behind this one")
        } else {
            let (behind, ahead) = (Tenths::at_least(least), Tenths::at_least(most));
            write!(f, "between {behind} behind and {ahead} ahead of this one")
        }
    }
}
