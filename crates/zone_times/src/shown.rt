//! The moments at which a clock of a zone shows a time.

ghost use Rattle.std.specs.Prelude.{◌≡◌, ◌≤◌, ℕ, ℤ, pos, ◌+ℤ◌, ◌*ℤ◌, None, IfSome};
ghost use Rattle.jiff_tz.specs.declared.ambiguous.AmbiguousOffset.{AmbiguousOffset as OffsetsValue};
ghost use Rattle.jiff_tz.specs.declared.ambiguous.AmbiguousOffset.TheVariants.{Unambiguous, Fold};
ghost use Rattle.zone_times.specs.Shown.{FileSays, IsAheadAt, IsMomentAt, AreMoments};

use crate::zone::ZoneFile;
use jiff_core::civil::DateTime;
use jiff_core::{Offset, Timestamp};
use jiff_tz::{AmbiguousOffset, TimeZone};
use lead_time::Reading;

/// At which moments a clock shows a time.
#[derive(Clone, Copy, Debug, PartialEq, Eq)]
pub enum ShownMoments {
    /// At this one.
    Once(Reading),
    /// At these, the first before the clock is put back and the second after that.
    Twice(Reading, Reading),
    /// At none: the clock is put forward over it.
    Never,
    /// At none that a reading may have.
    Outside,
}

/// The moment at which a clock so many seconds ahead of UTC shows a time. `None` where no reading may have it.
fn moment_of(shown: Reading, seconds: i32) -> Option<Reading>
    ensures given { IfSome result (λ m. pos shown ≡ pos m +ℤ (pos 1000 *ℤ seconds)) }
    ensures none { result ≡ None → (m : ℕ) → m ≤ 281474976710656 → pos shown ≡ pos m +ℤ (pos 1000 *ℤ seconds) → ⊥ }
{
    let milliseconds = shown.milliseconds() as i64 - 1000 * i64::from(seconds);
    if milliseconds < 0 {
        return None;
    }
    Reading::new(milliseconds as u64).ok()
}

impl ZoneFile {
    /// The offsets that the file gives to a time on the zone's clocks. `None` behind the year 9999.
    fn offsets(&self, shown: Reading) -> Option<AmbiguousOffset>
        ensures given { IfSome result (FileSays self.now.table shown) }
        ensures none { result ≡ None → (offsets : OffsetsValue) → FileSays self.now.table shown offsets → ⊥ }
    {
        match DateTime::from_nanosecond(i128::from(shown.milliseconds()) * 1_000_000) {
            Ok(time) => Some(TimeZone::Tzif(&self.table).to_ambiguous_offset(time)),
            Err(_) => None,
        }
    }

    /// By how many seconds the zone's clocks are ahead of UTC at a moment. `None` behind the year 9999.
    fn seconds_at(&self, moment: Reading) -> Option<i32>
        ensures given { IfSome result (IsAheadAt self.now.table moment) }
        ensures none { result ≡ None → (s : ℤ) → IsAheadAt self.now.table moment s → ⊥ }
    {
        match Timestamp::from_nanosecond(i128::from(moment.milliseconds()) * 1_000_000) {
            Ok(timestamp) => Some(TimeZone::Tzif(&self.table).to_offset(timestamp).seconds),
            Err(_) => None,
        }
    }

    /// The moment at which a clock at this offset shows a time, if the zone's clocks have this offset then.
    fn moment_at(&self, shown: Reading, offset: Offset) -> Option<Reading>
        ensures given { IfSome result (IsMomentAt self.now.table shown offset.seconds) }
        ensures none { result ≡ None → (m : ℕ) → m ≤ 281474976710656
            → IsMomentAt self.now.table shown offset.seconds m → ⊥ }
    {
        let moment = moment_of(shown, offset.seconds)?;
        if self.seconds_at(moment)? != offset.seconds {
            return None;
        }
        Some(moment)
    }

    /// The moment of a time that has this offset alone.
    fn once(&self, shown: Reading, offset: Offset) -> ShownMoments
        requires { FileSays self.now.table shown (Unambiguous offset) }
        ensures { AreMoments self.now.table shown result }
    {
        match self.moment_at(shown, offset) {
            Some(moment) => ShownMoments::Once(moment),
            None => ShownMoments::Outside,
        }
    }

    /// The moments of a time in a fold between two offsets.
    fn twice(&self, shown: Reading, before: Offset, after: Offset) -> ShownMoments
        requires { FileSays self.now.table shown (Fold before after) }
        ensures { AreMoments self.now.table shown result }
    {
        let Some(earlier) = self.moment_at(shown, before) else {
            return ShownMoments::Outside;
        };
        match self.moment_at(shown, after) {
            Some(later) => ShownMoments::Twice(earlier, later),
            None => ShownMoments::Outside,
        }
    }

    /// The moments at which a clock of the zone shows a time, given as the moment at which a clock in UTC shows it.
    pub fn moments_showing(&self, shown: Reading) -> ShownMoments
        ensures { AreMoments self.now.table shown result }
    {
        match self.offsets(shown) {
            Some(AmbiguousOffset::Unambiguous { offset }) => self.once(shown, offset),
            Some(AmbiguousOffset::Fold { before, after }) => self.twice(shown, before, after),
            Some(AmbiguousOffset::Gap { .. }) => ShownMoments::Never,
            None => ShownMoments::Outside,
        }
    }
}
