//! Walks of a pair by chance.

use crate::dice::Dice;
use crate::pairs::{Pair, Turn};
use crate::told_leases::{ToldLease, ToldLeases};
use auditor::{Checked, check_pair};
use binding_rules::{Role, Unit, UnitStatus};
use client_id::{Duid, Iaid};
use journal_lines::{Journal, LineList};
use lead_time::{Reading, is_past};
use prefix_range::{Prefix, read_text, unit};
use server_book::{Book, LeaseRequest, Order};
use std::alloc::Global;
use std::test::Fail;

const PRIMARY: &[u8] = b"role = \"primary\"
duid = \"00030001020000000009\"
skew_ms = 2000
mclt = 600
life = 3600
[[pool]]
prefix = \"2001:db8::/53\"
unit = 56
";

const SECONDARY: &[u8] = b"role = \"secondary\"
duid = \"0003000102000000000a\"
skew_ms = 2000
mclt = 600
life = 3600
[[pool]]
prefix = \"2001:db8::/53\"
unit = 56
";

/// How many units the pool has.
const UNITS: u64 = 8;

/// How many walks there are, and how many events each has.
const WALKS: u64 = 50;

const EVENTS: u64 = 20_000;

/// By how many milliseconds each clock is ahead or behind, at most: within the skew.
const MOST_OFF: u64 = 1_500;

/// How many requests and releases were answered, how many requests without a line, how many releases came too early, and
/// how many connections there were.
#[derive(Clone, Copy, Default)]
struct Counts {
    answered: u64,
    again: u64,
    early: u64,
    connections: u64,
}

/// Two servers, what their clients were told, the dice, and true time in milliseconds.
#[derive(Drop)]
struct Walker {
    pair: Pair,
    told: ToldLeases,
    dice: Dice,
    moment: u64,
    /// By how much each server's clock is over the slowest that it may be.
    primary_over: u64,
    secondary_over: u64,
    counts: Counts,
}

impl Walker {
    fn new(alloc: Global, seed: u64) -> Result<Walker, Fail> {
        Ok(Walker {
            pair: Pair::open(alloc, PRIMARY, SECONDARY, Reading::new(10_000)?)?,
            told: ToldLeases::new(alloc),
            dice: Dice::new(seed),
            moment: 10_000,
            primary_over: MOST_OFF,
            secondary_over: 2 * MOST_OFF,
            counts: Counts::default(),
        })
    }

    fn role(&mut self) -> Role {
        match self.dice.below(2) {
            0 => Role::Primary,
            _ => Role::Secondary,
        }
    }

    /// What a server's clock shows.
    fn clock(&self, role: Role) -> Result<Reading, Fail> {
        let over = match role {
            Role::Primary => self.primary_over,
            Role::Secondary => self.secondary_over,
        };
        let shown = self.moment.saturating_add(over).saturating_sub(MOST_OFF);
        Ok(Reading::new(shown)?)
    }

    /// Sets a server's clock, within the skew.
    fn step_clock(&mut self) {
        let over = self.dice.below(2 * MOST_OFF + 1);
        match self.role() {
            Role::Primary => self.primary_over = over,
            Role::Secondary => self.secondary_over = over,
        }
    }

    /// Both ends begin another connection.
    fn connect(&mut self, alloc: Global) -> Result<(), Fail> {
        self.counts.connections = self.counts.connections.saturating_add(1);
        self.pair.connect(alloc)
    }

    /// One client of five: each asks either server.
    fn client(&mut self) -> Result<Duid, Fail> {
        let last = u8::try_from(self.dice.below(5)).unwrap_or(0);
        Ok(Duid::from_bytes(&[0, 3, 0, 1, 2, 0, 0, 0, 0, last])?)
    }

    /// A client asks a server for a unit, and is told no prefix that another client has.
    fn request(&mut self) -> Result<(), Fail> {
        let client = self.client()?;
        let role = self.role();
        let now = self.clock(role)?;
        let order = Order::Request(LeaseRequest {
            client,
            iaid: Iaid(1),
            hint: None,
        });
        if let Some((prefix, valid)) = self.pair.server(role).told_again(now, &order) {
            self.counts.again = self.counts.again.saturating_add(1);
            return self.tell(client, prefix, valid);
        }
        match self.pair.server(role).granted(now, &order) {
            Some((prefix, valid)) => self.tell(client, prefix, valid),
            None => Ok(()),
        }
    }

    /// A client is told that it has a prefix for so many seconds.
    fn tell(&mut self, client: Duid, prefix: Prefix, valid: u32) -> Result<(), Fail> {
        self.counts.answered = self.counts.answered.saturating_add(1);
        let until = self.moment.saturating_add(1_000 * u64::from(valid));
        let lease = ToldLease {
            client,
            prefix,
            until,
        };
        if self.told.tell(self.moment, lease)? {
            return Ok(());
        }
        Err(Fail::from("a client is told that it has what another has"))
    }

    /// A client gives back to a server what it was told last. One that does so too early has no answer.
    fn release(&mut self) -> Result<(), Fail> {
        let client = self.client()?;
        let role = self.role();
        let now = self.clock(role)?;
        let Some(prefix) = self.told.last_of(&client) else {
            return Ok(());
        };
        let asked = LeaseRequest {
            client,
            iaid: Iaid(1),
            hint: Some(prefix),
        };
        if self.pair.server(role).is_early_release(now, &asked) {
            self.counts.early = self.counts.early.saturating_add(1);
            return Ok(());
        }
        if self.pair.server(role).order(now, &Order::Release(asked)) {
            self.counts.answered = self.counts.answered.saturating_add(1);
            self.told.forget(&client, &prefix);
        }
        Ok(())
    }

    /// Octets come to one of the ends, or none do; what it says may go on its way twice. Where its connection has to be
    /// ended there is another.
    fn talk(&mut self, alloc: Global, is_quiet: bool) -> Result<(), Fail> {
        let role = self.role();
        let turn = Turn {
            now: self.clock(role)?,
            is_quiet,
            most: self.dice.below(200) as usize,
            is_repeated: self.dice.below(50) == 0,
        };
        if self.pair.turn(alloc, role, turn)? {
            return Ok(());
        }
        self.connect(alloc)
    }

    /// Lets the next event happen.
    fn happen(&mut self, alloc: Global) -> Result<(), Fail> {
        match self.dice.below(100) {
            0..12 => self.request(),
            12..18 => self.release(),
            18..22 => {
                let later = self.dice.below(600_000);
                self.moment = self.moment.saturating_add(later);
                Ok(())
            }
            22..26 => {
                self.step_clock();
                Ok(())
            }
            26..32 => self.talk(alloc, true),
            32 if self.dice.below(4) == 0 => self.connect(alloc),
            _ => self.talk(alloc, false),
        }
    }

    /// Returns whether a client of one server's and another one of the other's have the unit.
    fn is_torn(&self, prefix: Prefix) -> Result<bool, Fail> {
        let now = self.clock(Role::Primary)?;
        let later = self.clock(Role::Secondary)?;
        Ok(
            match (
                self.pair.primary.own.book.unit(prefix),
                self.pair.secondary.own.book.unit(prefix),
            ) {
                (Some(one), Some(other)) => has_two(&one, &other, now, later),
                _ => false,
            },
        )
    }

    /// Lets so many events happen, behind each of which one unit is looked at in turn: it isn't two clients'.
    fn go(&mut self, alloc: Global, events: u64) -> Result<(), Fail> {
        let pool = read_text(b"2001:db8::/53")?;
        self.connect(alloc)?;
        for event in 0..events {
            self.happen(alloc)?;
            let Some(prefix) = unit(&pool, 56, u128::from(event % UNITS)) else {
                return Err(Fail::from("no such unit"));
            };
            if self.is_torn(prefix)? {
                return Err(Fail::from("a unit is two clients'"));
            }
        }
        Ok(())
    }

    /// Judges the journals: they keep the rules and could both be true.
    fn judge(&self, alloc: Global) -> Result<(), Fail> {
        let end = Reading::new(self.moment.saturating_add(10_000))?;
        let a = closed(alloc, &self.pair.primary.own.book, end)?;
        let b = closed(alloc, &self.pair.secondary.own.book, end)?;
        if !matches!(&check_pair(alloc, &a, &b)?, Checked::Legal(_)) {
            return Err(Fail::from("the journals can't both be true"));
        }
        Ok(())
    }
}

/// Returns whether both servers have granted it, to two clients, and neither's lease has ended.
fn has_two(one: &Unit, other: &Unit, now: Reading, later: Reading) -> bool {
    match (&one.status, &other.status) {
        (UnitStatus::Active(first), UnitStatus::Active(second)) => {
            first != second && !is_past(now, one.own_end) && !is_past(later, other.own_end)
        }
        _ => false,
    }
}

/// A book's journal, closed.
fn closed(alloc: Global, book: &Book, now: Reading) -> Result<Journal, Fail> {
    let mut copy = book.copy()?;
    copy.apply(now, &Order::Close)?;
    let mut lines = Vec::new(alloc);
    lines.extend_from_slice(copy.journal())?;
    Ok(Journal {
        role: copy.role(),
        head: copy.head(),
        lines: LineList::new(lines),
    })
}

/// Walks so many events from a seed: no unit is two clients' at any of them, no client is told what another has, and
/// the journals keep the rules and could both be true.
fn walk(alloc: Global, seed: u64, events: u64) -> Result<Counts, Fail> {
    let mut walker = Walker::new(alloc, seed)?;
    walker.go(alloc, events)?;
    walker.judge(alloc)?;
    Ok(walker.counts)
}

#[test]
fn no_unit_is_two_clients_over_a_wire_that_breaks(rt: HostRuntime) -> Result<(), Fail> {
    for seed in 0..WALKS {
        let counts = walk(rt.alloc(), seed, EVENTS)?;
        assert!(rt; counts.answered > 1_000 && counts.again > 50);
        assert!(rt; counts.early > 50 && counts.connections > 10);
    }
    Ok(())
}
