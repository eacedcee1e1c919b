//! That what is accepted over spans of volumes is true.

ghost use Rattle.joined_rulings.specs.Laws.{AcceptedIsTrue, GivenRulingsAreTrue};

use attribution::verdict_is_one;
use volume_spans::accepted_over_spans_is_true;

/// Whatever certificate is accepted over spans of volumes, or over given ones, is true in every run of the pair that
/// leaves these volumes, with clocks within the skew and answers within the transit, however both servers went on.
pub fn accepted_is_true()
    ensures accepted { AcceptedIsTrue }
    ensures given { GivenRulingsAreTrue }
{
    verdict_is_one();
    accepted_over_spans_is_true();
}
