//! What is true of what is said, in every run of the pair.

ghost use Rattle.candidate_leases.specs.Laws.{ShownIsValid, NobodyIsTrue};

use attribution::lawful_is_enough;

/// A lease that is said to have been its client's was a valid delegation at the moment, in every run of the pair that
/// leaves the journals with clocks within the skew and answers within the transit.
pub fn shown_is_valid()
    ensures { ShownIsValid }
{
    lawful_is_enough();
}

/// Where the reason is that nobody had it, no client held an address of the prefix at the moment in any such run.
pub fn nobody_is_true()
    ensures { NobodyIsTrue }
{
    lawful_is_enough();
}
