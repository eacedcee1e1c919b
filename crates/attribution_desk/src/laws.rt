//! What a ruling says of the world.

ghost use Rattle.attribution_desk.specs.Laws.{AcceptedRulingsAreTrue};

/// What is accepted over snapshots of what was read of two journals is true in every run whose volumes begin so.
pub fn accepted_rulings_are_true()
    ensures { AcceptedRulingsAreTrue }
{}
