//! When leases end.

ghost use Rattle.book_rules.specs.State.{state};
ghost use Rattle.unit_index.specs.Queries.{IsFirstExpiry};

use crate::unit_index::UnitIndex;
use crate::unit_kinds::earlier;
use lead_time::End;

/// From when on a unit may be expired.
pub fn first_end(register: &UnitIndex) -> Option<End>
    ensures { IsFirstExpiry (state register.now.table) result }
{
    let mut first = None;
    for chart in &register.charts {
        first = earlier(first, chart.chart.ends());
    }
    first
}
