//! Laws over the definitions in specs/ alone.

ghost use Rattle.client_service.specs.LeaseLaws.{ReuseIsWithin, ReuseEndsBefore, NothingIsToldAgain};

/// What is told again ends no later than its line's lifetime, counted from the moment at which the line was written, and
/// at least the skew before its unit's end: whatever the clock did within the skew, and however long the answer was
/// under way within the transit.
pub fn reuse_is_within_its_line()
    ensures line { ReuseIsWithin }
    ensures unit { ReuseEndsBefore }
{}

/// After a release that isn't early (`has_early_release`) the partner tells nothing again that it granted before and told
/// of: whatever the two clocks do within the skew, where both servers have this floor.
pub fn nothing_is_told_again()
    ensures { NothingIsToldAgain }
{}
