//! How long a wire is quiet before a person is told of it.

ghost use Rattle.std.specs.Prelude.{◌≡◌, length};

use crate::noted::{Counts, NONE, Noted};
use crate::notice_books::{CONNECT, NOW, UPDATE_1, octets, opened, settings_of};
use binding_rules::Role;
use lead_time::Reading;
use locked_book::{BookName, SharedBook};
use node_threads::{Clock, EachOnce, Got, NetFault, Notices, Turns, Wire, serve_link};
use server_book::{Book, Settings};
use std::alloc::Global;
use std::marker::Brand;
use std::sync::Wait;
use std::sync::ledger::Blank;
use std::test::Fail;

/// What a wire brings.
#[derive(Clone, Copy)]
enum Step<'a> {
    /// So many pauses, at least one.
    Quiet(u32),
    Octets(&'a [u8]),
}

/// A wire that brings one step after another, and then ends.
#[derive(Drop)]
struct Steps<'a> {
    steps: &'a [Step<'a>],
    place: usize,
    /// How many pauses of the step have come.
    pauses: u32,
}

impl<'a> Steps<'a> {
    fn new(steps: &'a [Step<'a>]) -> Steps<'a> {
        Steps {
            steps,
            place: 0,
            pauses: 0,
        }
    }

    /// Notes a pause of a step that has so many.
    fn rest(&mut self, pauses: u32) {
        self.pauses = self.pauses.saturating_add(1);
        if self.pauses >= pauses {
            self.pauses = 0;
            self.place = self.place.saturating_add(1);
        }
    }
}

impl Wire for Steps<'_> {
    ghost brings = { λ old octets new. Unit };

    ghost writes = { λ old octets new. Unit };

    ghost fails = { λ old new. Unit };

    fn read(&mut self, buffer: &mut [u8]) -> Result<Got, NetFault> {
        match self.steps.get(self.place) {
            None => Ok(Got::End),
            Some(Step::Quiet(pauses)) => {
                self.rest(*pauses);
                Ok(Got::Idle)
            }
            Some(Step::Octets(octets)) => {
                let Some(front) = buffer.get_mut(..octets.len()) else {
                    return Err(NetFault);
                };
                front.copy_from_slice(octets);
                self.place = self.place.saturating_add(1);
                Ok(Got::Octets(octets.len()))
            }
        }
    }

    fn write(&mut self, _octets: &[u8]) -> Result<(), NetFault> {
        Ok(())
    }
}

/// A clock that always shows the same.
#[derive(Drop)]
pub struct Still {
    pub reading: Reading,
}

impl Clock for Still {
    fn now(&self) -> Result<Reading, NetFault> {
        Ok(self.reading)
    }
}

/// Lets the secondary's end of the link hear a wire, out of a book. Says whether the wire ended.
fn hears<N: BookName, R: Wait, V: Notices>(
    rt: &R,
    alloc: Global,
    blank: Blank,
    book: Book,
    settings: &Settings,
    clock: &Still,
    notices: &V,
    wire: &mut Steps<'_>,
) -> Option<()>
    requires name { blank.name ≡ N.name }
    requires passes { (blank.parts ≡ N.parts) × (N.parts ≡ 1) × (N.passes ≡ 1) }
    requires lines { N.opened ≡ length book.lines }
{
    let Ok((shared, mut passes)) = SharedBook::<N>::open(alloc, blank, book, 1) else {
        return None;
    };
    let mut pass = passes.pop()?;
    let turns = Turns::new(0);
    serve_link(
        rt, alloc, &shared, &mut pass, settings, clock, &turns, notices, wire,
    )
    .ok()
}

/// Tells what a wire shows.
fn tell_of<R: Wait, V: Notices>(
    rt: &R,
    alloc: Global,
    notices: &V,
    steps: &[Step<'_>],
) -> Result<(), Fail> {
    let settings = settings_of(alloc, Role::Secondary)?;
    let book = opened(alloc, &settings)?;
    let clock = Still {
        reading: Reading::new(NOW)?,
    };
    let mut wire = Steps::new(steps);
    let blank = Blank::new(1);
    hears::<Brand, _, _>(
        rt, alloc, blank, book, &settings, &clock, notices, &mut wire,
    )
    .ok_or("the link failed")?;
    Ok(())
}

/// Returns what a wire shows.
fn told(rt: &impl Wait, alloc: Global, steps: &[Step<'_>]) -> Result<Counts, Fail> {
    let noted = Noted::new();
    tell_of(rt, alloc, &noted, steps)?;
    Ok(noted.counts())
}

#[test]
fn ten_seconds_without_octets_are_told(rt: HostRuntime) -> Result<(), Fail> {
    let alloc = rt.alloc();
    let connect = octets(alloc, CONNECT)?;
    let update = octets(alloc, UPDATE_1)?;
    let silent = Counts {
        partner_silent: 1,
        ..NONE
    };
    let (connect, update) = (Step::Octets(&connect), Step::Octets(&update));
    // Once in a quiet time, however long it lasts.
    assert_eq!(rt; told(&rt, alloc, &[connect, Step::Quiet(5000)])?, silent);
    assert_eq!(rt; told(&rt, alloc, &[connect, Step::Quiet(11_000)])?, silent);
    // Not where octets come before.
    assert_eq!(rt; told(&rt, alloc, &[connect, Step::Quiet(4999)])?, NONE);
    let broken = [connect, Step::Quiet(4999), update, Step::Quiet(4999)];
    assert_eq!(rt; told(&rt, alloc, &broken)?, NONE);
    // Again in the next one, which the program doesn't hand on.
    let twice = [connect, Step::Quiet(5000), update, Step::Quiet(5000)];
    assert_eq!(rt;
        told(&rt, alloc, &twice)?,
        Counts {
            partner_silent: 2,
            ..NONE
        }
    );
    let noted = Noted::new();
    tell_of(&rt, alloc, &EachOnce::new(&noted), &twice)?;
    assert_eq!(rt; noted.counts(), silent);
    Ok(())
}
