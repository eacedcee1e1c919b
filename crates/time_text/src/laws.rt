//! Laws of times.

ghost use Rattle.time_text.specs.Time.{OneMoment, ReadAgain};

/// A text spells one moment at most, and what is written of a moment by calendar and clock spells it.
pub fn times_are_read_again()
    ensures one { OneMoment }
    ensures again { ReadAgain }
{}
