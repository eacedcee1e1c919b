//! What is asked of a stretch of an interval.

ghost use Rattle.std.specs.Prelude.{◌≡◌};
ghost use Rattle.archive_desk.specs.Stretches.{reading_or, stretch_of, cut_at};
ghost use Rattle.joined_evidence.specs.Asking.{asked_at};

use evidence_search::Query;
use journal_archive::CoverageSpan;
use lead_time::Reading;
use plain_search::HolderQuery;

/// The reading of a moment, or the other where none has so many milliseconds.
fn reading_or(moment: u64, other: Reading) -> Reading
    ensures { result ≡ reading_or moment other }
{
    match Reading::new(moment) {
        Ok(reading) => reading,
        Err(_) => other,
    }
}

/// The same question of a stretch of its interval.
pub(crate) fn stretch_of(query: &Query, span: &CoverageSpan) -> Query
    ensures { result ≡ stretch_of query.now span.now }
{
    Query {
        holder: query.holder,
        prefix: query.prefix,
        from: reading_or(span.from, query.from),
        to: reading_or(span.to, query.to),
        skew: query.skew,
        transit: query.transit,
    }
}

/// The question of an interval that ends where the two shown journals end, where they end within it.
pub(crate) fn cut_at(query: &Query, until: &Option<u64>) -> Query
    ensures { result ≡ cut_at until.now query.now }
{
    match until {
        Some(until) => {
            if query.from.milliseconds() < *until && *until < query.to.milliseconds() {
                Query {
                    holder: query.holder,
                    prefix: query.prefix,
                    from: query.from,
                    to: reading_or(*until, query.to),
                    skew: query.skew,
                    transit: query.transit,
                }
            } else {
                *query
            }
        }
        None => *query,
    }
}

/// Who held the prefix where the interval begins.
pub(crate) fn asked_at(query: &Query) -> HolderQuery
    ensures { result ≡ asked_at query.now }
{
    HolderQuery {
        prefix: query.prefix,
        at: query.from,
        skew: query.skew,
        transit: query.transit,
    }
}
