//! A pair of servers in true time.

ghost use Rattle.std.specs.Prelude.{◌≡◌, ◌++◌, ◌↔◌, IsTrue, IfOk, IfErr, OnOk};
ghost use Rattle.server_settings.specs.Settings.{opening};
ghost use Rattle.pair_world.specs.PairWorld.{journal, is_stopped, IsNear, AreAlike, steps_of, new_world};

use crate::error::WorldError;
use crate::run_step::Step;
use binding_rules::Role;
use journal_lines::Line;
use lead_time::{Reading, Skew, Transit};
use order_book::Book;
use server_settings::Settings;
use std::alloc::{AllocError, Global};
use std::marker::Model;

/// The two servers of a pair, their books, and all that happened to them in true time.
#[derive(Drop)]
pub struct World {
    pub(crate) moment: Reading,
    pub(crate) skew: Skew,
    pub(crate) transit: Transit,
    pub(crate) run: Vec<Step>,
    pub(crate) a: Book,
    pub(crate) b: Book,
    pub(crate) stopped_a: bool,
    pub(crate) stopped_b: bool,
}

impl Model for World {
    ghost use Rattle.pair_world.specs.PairWorld.{PairWorld};

    ghost Value = { PairWorld };

    ghost view = { λ w. record {
      moment = w.moment;
      skew = w.skew;
      transit = w.transit;
      run = w.run.items;
      a = w.a;
      b = w.b;
      stopped_a = w.stopped_a;
      stopped_b = w.stopped_b;
    } };
}

/// Adds the steps by which a server wrote lines at a moment.
fn add_steps(
    run: &mut Vec<Step>,
    side: Role,
    moment: Reading,
    lines: &[Line],
) -> Result<(), AllocError>
    ensures { OnOk result (run.new.items ≡ run.old.items ++ steps_of side moment lines.now) }
{
    for line in lines {
        run.extend_from_slice(&[Step {
            side,
            moment,
            line: *line,
        }])?;
    }
    Ok(())
}

/// The book of a server of these settings that begins at a reading.
fn opened(alloc: Global, at: Reading, settings: &Settings) -> Result<Book, WorldError>
    ensures opened { IfOk result (λ b. b ≡ opening settings.now at) }
    ensures refused { IfErr result (λ e. e ≡ WorldError.Memory) }
{
    match Book::open(alloc, at, settings) {
        Ok(book) => Ok(book),
        Err(_) => Err(WorldError::Memory),
    }
}

impl World {
    /// The world in which both servers open at a moment of true time, by clocks that show it, and run. `first` are the
    /// primary's settings, `second` the secondary's; skew, lead time, lifetime, transit and pools agree. It refuses for
    /// want of memory alone.
    pub fn new(
        alloc: Global,
        moment: Reading,
        first: &Settings,
        second: &Settings,
    ) -> Result<World, WorldError>
        requires { AreAlike first.now second.now }
        ensures made { IfOk result (λ w. w ≡ new_world moment first.now second.now) }
        ensures refused { IfErr result (λ e. e ≡ WorldError.Memory) }
    {
        let a = opened(alloc, moment, first)?;
        let b = opened(alloc, moment, second)?;
        let mut run = Vec::new(alloc);
        add_steps(&mut run, Role::Primary, moment, a.journal())?;
        add_steps(&mut run, Role::Secondary, moment, b.journal())?;
        Ok(World {
            moment,
            skew: first.skew(),
            transit: first.transit(),
            run,
            a,
            b,
            stopped_a: false,
            stopped_b: false,
        })
    }

    /// The two books: the primary's, then the secondary's.
    pub fn books(&self) -> (&Book, &Book)
        ensures primary { result.0.now ≡ self.now.a }
        ensures secondary { result.1.now ≡ self.now.b }
    {
        (&self.a, &self.b)
    }

    /// The lines of a server's journal.
    pub(crate) fn lines(&self, side: Role) -> &[Line]
        ensures { result.now ≡ (journal side self.now).lines }
    {
        match side {
            Role::Primary => self.a.journal(),
            Role::Secondary => self.b.journal(),
        }
    }

    /// Returns whether a server is stopped.
    pub(crate) fn is_stopped(&self, side: Role) -> bool
        ensures { result ≡ is_stopped side self.now }
    {
        match side {
            Role::Primary => self.stopped_a,
            Role::Secondary => self.stopped_b,
        }
    }

    /// Returns whether a clock is within the pair's skew of the moment.
    pub(crate) fn is_near(&self, clock: Reading) -> bool
        ensures { IsTrue result ↔ IsNear self.now clock }
    {
        let skew = self.skew.milliseconds();
        let moment = self.moment.milliseconds();
        let shown = clock.milliseconds();
        shown <= moment + skew && moment <= shown + skew
    }
}
