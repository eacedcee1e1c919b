//! The sums by which a moment is told.

ghost use Rattle.std.specs.Prelude.{◌≡◌, ◌∷◌, [], true};
ghost use Rattle.report_document.specs.Telling.{less, is_value, values_in};
ghost use Rattle.report_document.specs.declared.word.ReportWord.TheVariants as word;

use crate::block::SentencePart;
use crate::word::ReportWord;
use causal_order::Ref;
use evidence_report::LineReading;
use lead_time::{Skew, Transit};

/// What leads from a reading to a lease.
pub(crate) const OF_LEASE: &str = ". So the lease of ";

/// The moment that is left of a sum of milliseconds when so many are taken off.
pub(crate) fn less(sum: u64, off: u64) -> ReportWord
    ensures value { result ≡ less sum off }
    ensures shown { is_value result ≡ true }
{
    if off <= sum {
        ReportWord::Moment(sum - off)
    } else {
        ReportWord::BeforeEpoch(off - sum)
    }
}

/// The reading at a mark, and how a sum begins that tells by it of a line.
pub(crate) fn by_mark(
    mark: &LineReading,
    so: &'static str,
    at: Ref,
    what: &'static str,
) -> [SentencePart; 4]
    ensures { values_in result ≡ word.Line mark.now.at ∷ word.Reading mark.now.reading ∷ word.Line at
        ∷ word.Number mark.now.reading ∷ [] }
{
    let reading = mark.reading.milliseconds();
    [
        ("At ", ReportWord::Line(mark.at)),
        (" the clock showed ", ReportWord::Reading(reading)),
        (so, ReportWord::Line(at)),
        (what, ReportWord::Number(reading)),
    ]
}

/// The skew and the transit, added, and the moment that they come to: what ends a sum that [`crate::push_sum`] appends.
pub fn with_both(skew: Skew, transit: Transit, moment: u64) -> [SentencePart; 3]
    ensures { values_in result ≡ word.Number skew ∷ word.Number transit ∷ word.Moment moment ∷ [] }
{
    [
        (" + ", ReportWord::Number(skew.milliseconds())),
        (" (skew) + ", ReportWord::Number(transit.milliseconds())),
        (" (transit) = ", ReportWord::Moment(moment)),
    ]
}
