//! That what is found over spans of volumes is true.

ghost use Rattle.joined_evidence.specs.Laws.{FoundIsTrue};

use attribution::verdict_is_one;
use volume_spans::accepted_over_spans_is_true;

/// Whatever certificate is found over spans of volumes is true in every run of the pair that leaves these volumes, with
/// clocks within the skew and answers within the transit, however both servers went on.
pub fn found_is_true()
    ensures { FoundIsTrue }
{
    verdict_is_one();
    accepted_over_spans_is_true();
}
