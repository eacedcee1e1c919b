//! What a book was opened with.

ghost use Rattle.std.specs.Prelude.{◌≡◌, IfOk, OnOk};
ghost use Rattle.book_state.specs.Book.{blank};
ghost use Rattle.server_start.specs.Opening.{said_by, opened};
ghost use Rattle.server_start.specs.FirstLines.{is_setting, with_event};

use binding_rules::Role;
use book_state::Pool;
use journal_lines::Event;
use lead_time::Transit;
use order_book::Book;
use std::alloc::{AllocError, Global};
use std::marker::Model;

/// The settings that a book was opened with, as its journal says them. Contracts see the record of specs/Opening.
#[derive(Debug, Drop)]
pub struct OpenedSettings {
    pub role: Role,
    /// The most by which the server's clock may be wrong, in milliseconds.
    pub skew: u64,
    /// The maximum client lead time, in seconds.
    pub mclt: u32,
    /// The desired lifetime, in seconds.
    pub life: u32,
    /// The most by which an answer may be under way.
    pub transit: Transit,
    /// The pools, in the order of their lines.
    pub pools: Vec<Pool>,
}

impl Model for OpenedSettings {
    ghost use Rattle.server_start.specs.Opening.{Opened};

    ghost Value = { Opened };

    ghost view = { λ o. record {
      role = o.role;
      skew = o.skew;
      mclt = o.mclt;
      life = o.life;
      transit = o.transit;
      pools = o.pools.items;
    } };
}

/// Returns whether the event says a setting.
fn is_setting(event: &Event) -> bool
    ensures { result ≡ is_setting event.now }
{
    matches!(
        event,
        Event::Open { .. } | Event::Pool { .. } | Event::Transit(_)
    )
}

impl OpenedSettings {
    /// Nothing is said yet.
    fn unsaid(alloc: Global, role: Role) -> OpenedSettings
        ensures { result ≡ said_by role (blank role 1) }
    {
        OpenedSettings {
            role,
            skew: 0,
            mclt: 0,
            life: 0,
            transit: Transit::ZERO,
            pools: Vec::new(alloc),
        }
    }

    /// Adds what an event says.
    fn add(&mut self, event: &Event) -> Result<(), AllocError>
        ensures { OnOk result (self.new ≡ with_event self.old event.now) }
    {
        match event {
            Event::Open { skew, mclt, life } => {
                self.skew = *skew;
                self.mclt = *mclt;
                self.life = *life;
            }
            Event::Pool {
                prefix,
                unit_length,
            } => self.pools.extend_from_slice(&[Pool {
                prefix: *prefix,
                unit_length: *unit_length,
            }])?,
            Event::Transit(transit) => self.transit = *transit,
            _ => (),
        }
        Ok(())
    }
}

/// The settings that a book was opened with. It looks at the lines that say them alone, the first of the journal.
pub fn opening_of(alloc: Global, book: &Book) -> Result<OpenedSettings, AllocError>
    ensures { IfOk result (λ opening. opening ≡ opened book.now) }
{
    let mut opening = OpenedSettings::unsaid(alloc, book.role());
    for line in book.journal() {
        if !is_setting(&line.event) {
            return Ok(opening);
        }
        opening.add(&line.event)?;
    }
    Ok(opening)
}
