//! The state before the first line.

ghost use Rattle.std.specs.Prelude.{◌≡◌, IfOk};
ghost use Rattle.journal_lines.specs.Head.{volume_number};
ghost use Rattle.book_state.specs.Book.{blank};
ghost use Rattle.book_rules.specs.State.{state};

use crate::table::Table;
use binding_rules::{Counter, Role};
use book_state::{Place, StateNumbers, Units};
use journal_lines::Head;
use lead_time::{Reading, Skew, Transit};
use std::alloc::{AllocError, Global};

/// No time at all.
fn first_reading() -> Reading
    ensures { result ≡ 0 }
{
    match Reading::new(0) {
        Ok(reading) => reading,
        Err(_) => unreachable!(),
    }
}

/// No skew.
fn no_skew() -> Skew
    ensures { result ≡ 0 }
{
    match Skew::new(0) {
        Ok(skew) => skew,
        Err(_) => unreachable!(),
    }
}

impl Table {
    /// The state before the first line of a volume of a server in this role.
    pub fn new(alloc: Global, role: Role, head: Head) -> Table
        ensures { state result ≡ blank role (volume_number head) }
    {
        let numbers = StateNumbers {
            role,
            volume: head.volume(),
            skew: no_skew(),
            mclt: 0,
            life: 0,
            transit: Transit::ZERO,
            count: 0,
            opened: first_reading(),
            reading: first_reading(),
            closed: false,
            place: Place::AtPools,
            term: 0,
            serial: Counter::ZERO,
            restart: Counter::ZERO,
            waiting: false,
            asked: Counter::ZERO,
            down: None,
        };
        Table {
            numbers,
            units: Units::new(alloc),
        }
    }

    /// The same table, in memory of its own.
    pub fn copy(&self) -> Result<Table, AllocError>
        ensures { IfOk result (λ t. state t ≡ state self.now) }
    {
        let units = self.units.copy()?;
        Ok(Table {
            numbers: self.numbers,
            units,
        })
    }
}
