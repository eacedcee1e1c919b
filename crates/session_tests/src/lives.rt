//! Stories of a pair, whose wire is cut behind each octet in turn.

use crate::evidence::check_shown;
use crate::pair_servers::Server;
use crate::pairs::{Pair, Turn};
use crate::stories::{ENDED, Event, RENEWED, RETURNED, Story};
use binding_rules::{Role, ServerState, UnitStatus};
use lead_time::Reading;
use prefix_range::{Prefix, read_text};
use server_book::Order;
use std::alloc::Global;
use std::process::Abort;
use std::test::Fail;
use text_fields::{is_hex, octets_of};

const PRIMARY: &[u8] = b"role = \"primary\"
duid = \"00030001020000000009\"
skew_ms = 2000
mclt = 3600
life = 3600
[[pool]]
prefix = \"2001:db8::/54\"
unit = 56
";

const SECONDARY: &[u8] = b"role = \"secondary\"
duid = \"00030001020000000009\"
skew_ms = 2000
mclt = 3600
life = 3600
[[pool]]
prefix = \"2001:db8::/54\"
unit = 56
";

/// The unit of the client, and the last of the pool's four.
const FIRST: &[u8] = b"2001:db8::/56";

const LAST: &[u8] = b"2001:db8:0:300::/56";

/// How many turns both ends have until nothing is left to tell, at most.
const TURNS: u32 = 100;

/// A pair, and how many octets its wire still carries before it is cut, once.
#[derive(Drop)]
struct Life {
    pair: Pair,
    left: usize,
}

/// The octets that digits spell.
fn octets(alloc: Global, digits: &str) -> Result<Vec<u8>, Fail> {
    let digits = digits.as_bytes();
    if !is_hex(digits) {
        return Err(Fail::from("no digits"));
    }
    let mut octets = vec![in alloc; 0u8; digits.len() / 2]?;
    octets_of(digits, &mut octets).ok_or("no digits")?;
    Ok(octets)
}

/// Refuses what isn't so.
fn must(is_so: bool, what: &'static str) -> Result<(), Fail> {
    if is_so { Ok(()) } else { Err(Fail::from(what)) }
}

impl Life {
    fn new(alloc: Global, left: usize) -> Result<Life, Fail> {
        let pair = Pair::open(alloc, PRIMARY, SECONDARY, Reading::new(9000)?)?;
        Ok(Life { pair, left })
    }

    /// One turn of an end, to which all comes that is under way, as far as the wire carries it. Behind a cut both
    /// begin another connection.
    fn turn(&mut self, alloc: Global, now: Reading, role: Role) -> Result<(), Fail> {
        let coming = self.pair.server(role).coming.len();
        let turn = Turn {
            now,
            is_quiet: coming == 0,
            most: coming.min(self.left),
            is_repeated: false,
        };
        must(self.pair.turn(alloc, role, turn)?, "an end has ended")?;
        self.left = self.left.saturating_sub(turn.most);
        if self.left > 0 {
            return Ok(());
        }
        self.left = usize::MAX;
        self.pair.connect(alloc)
    }

    fn is_quiet(&self) -> bool {
        self.pair.primary.coming.is_empty() && self.pair.secondary.coming.is_empty()
    }

    /// Turns of both, the secondary's first, until neither has anything to say when nothing came to it.
    fn talk(&mut self, alloc: Global, now: Reading) -> Result<(), Fail> {
        for _ in 0..TURNS {
            let was_quiet = self.is_quiet();
            self.turn(alloc, now, Role::Secondary)?;
            self.turn(alloc, now, Role::Primary)?;
            if was_quiet && self.is_quiet() {
                return Ok(());
            }
        }
        Err(Fail::from("they talk on"))
    }

    fn order(&mut self, now: Reading, role: Role, order: &Order) -> Result<(), Fail> {
        must(
            self.pair.server(role).order(now, order),
            "an order is refused",
        )
    }

    fn happen(&mut self, alloc: Global, now: Reading, event: &Event) -> Result<(), Fail> {
        match event {
            Event::Down(role) => self.order(now, *role, &Order::State(ServerState::Down)),
            Event::Seize(role) => self.order(now, *role, &Order::Seize(read_text(FIRST)?)),
            Event::Restart(role) => self.order(now, *role, &Order::Restart),
            Event::Datagram(role, datagram, answer) => {
                let datagram = octets(alloc, datagram)?;
                let answer = octets(alloc, answer)?;
                let server = self.pair.server(*role);
                must(
                    server.answers(alloc, now, &datagram, &answer)?,
                    "another answer",
                )
            }
            Event::Connect => self.pair.connect(alloc),
            Event::Talk => self.talk(alloc, now),
        }
    }

    /// Lets all happen, and gives the moment of the last event.
    fn live(&mut self, alloc: Global, story: &Story) -> Result<Reading, Fail> {
        let mut now = Reading::new(9000)?;
        for (at, event) in story.events {
            now = Reading::new(*at)?;
            self.happen(alloc, now, event)?;
        }
        Ok(now)
    }
}

/// Returns whether a server's partner has acknowledged all that it did of a unit, and a client has it or not.
fn is_settled(server: &Server, prefix: Prefix, is_held: bool) -> bool {
    match &server.own.book.unit(prefix) {
        Some(unit) => unit.due.is_none() && is_held == is_active(&unit.status),
        None => false,
    }
}

fn is_active(status: &UnitStatus) -> bool {
    matches!(status, UnitStatus::Active(_))
}

/// Returns whether a server has a unit to give that was moved to it.
fn has_backup(server: &Server, prefix: Prefix) -> bool {
    match &server.own.book.unit(prefix) {
        Some(unit) => unit.status == UnitStatus::FreeBackup,
        None => false,
    }
}

/// That both servers know the same of the client's unit, that the secondary has the last unit to give, and that their
/// journals show who held the first, and no longer than that.
fn check_end(
    rt: &impl Abort,
    alloc: Global,
    pair: &mut Pair,
    now: Reading,
    story: &Story,
) -> Result<(), Fail> {
    let first = read_text(FIRST)?;
    let last = read_text(LAST)?;
    assert!(rt; is_settled(&pair.primary, first, story.is_held));
    assert!(rt; is_settled(&pair.secondary, first, story.is_held));
    assert!(rt; has_backup(&pair.secondary, last));
    check_shown(rt, alloc, pair, now, &story.held)
}

/// Lets a pair live a story over a wire that is cut behind so many octets, and then over another, to the same end.
/// Returns how many octets came before the cut, where there was none.
fn check(rt: &impl Abort, alloc: Global, story: &Story, left: usize) -> Result<usize, Fail> {
    let mut life = Life::new(alloc, left)?;
    let now = life.live(alloc, story)?;
    check_end(rt, alloc, &mut life.pair, now, story)?;
    Ok(usize::MAX.saturating_sub(life.left))
}

/// The same over a wire that is never cut, and over one that is cut behind each of the octets that came over that.
fn check_cut(rt: &impl Abort, alloc: Global, story: &Story) -> Result<(), Fail> {
    let octets = check(rt, alloc, story, usize::MAX)?;
    assert!(rt; octets > 0);
    for left in 0..octets {
        check(rt, alloc, story, left)?;
    }
    Ok(())
}

#[test]
fn a_lease_is_renewed_by_the_partner(rt: HostRuntime) -> Result<(), Fail> {
    check_cut(&rt, rt.alloc(), &RENEWED)
}

#[test]
fn a_lease_ends_at_both(rt: HostRuntime) -> Result<(), Fail> {
    check_cut(&rt, rt.alloc(), &ENDED)
}

#[test]
fn a_partner_that_was_down_returns(rt: HostRuntime) -> Result<(), Fail> {
    check_cut(&rt, rt.alloc(), &RETURNED)
}
