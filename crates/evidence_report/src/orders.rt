//! What is shown of why one line was written before another.

ghost use Rattle.evidence_report.specs.Marks.{IsOrderReport};

use crate::chains::{earliest_mark, latest_mark};
use crate::mark::OrderReport;
use causal_order::{Lines, Precedes, Ref, precedes};
use lead_time::Skew;

/// What is shown of why the first line was written before the second.
pub fn order_report<'a, L: Lines>(
    lines: &L,
    order: &'a Precedes,
    first: Ref,
    second: Ref,
    skew: Skew,
) -> OrderReport<'a>
    ensures { IsOrderReport (L.journals lines.now) order.now first second result }
{
    match order {
        Precedes::Chain(chain) => OrderReport::Chain {
            chain,
            leads: precedes(lines, first, second, order, skew),
        },
        Precedes::Clock(before, after) => OrderReport::Clock {
            before,
            latest: latest_mark(lines, before, first),
            after,
            earliest: earliest_mark(lines, after, second),
        },
    }
}
