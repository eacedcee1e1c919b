//! That who is named over spans of volumes held the prefix.

ghost use Rattle.joined_answers.specs.Laws.{NamedIsTrue};

use attribution::verdict_is_one;
use volume_spans::accepted_over_spans_is_true;

/// Whoever is named over spans of volumes held the prefix, in every run of the pair that leaves these volumes, with
/// clocks within the skew and answers within the transit, however both servers went on.
pub fn named_is_true()
    ensures { NamedIsTrue }
{
    verdict_is_one();
    accepted_over_spans_is_true();
}
