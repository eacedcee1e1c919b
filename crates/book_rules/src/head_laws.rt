//! Laws of the lines that a volume begins with.

ghost use Rattle.book_rules.specs.NextVolume.{NextIsLegal, NextIsOne};

/// The head lines that a closed book names for its next volume break no rule, and lead to the closed book's table, not
/// closed.
pub fn next_volume_is_legal()
    ensures legal { NextIsLegal }
    // And for one opening reading there is one list of them.
    ensures one { NextIsOne }
{}
