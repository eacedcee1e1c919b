//! Events by chance, over a pool of four units and three clients of two identity associations each.

use crate::dice::Dice;
use binding_rules::{Role, ServerState};
use client_id::{Duid, Iaid};
use lead_time::Reading;
use pair_world::Event;
use prefix_range::{Prefix, unit};
use server_book::{LeaseRequest, Order};
use std::test::Fail;

/// What a generator of events knows of its world.
#[derive(Drop)]
pub struct Chance {
    pub dice: Dice,
    pub pool: Prefix,
    /// True time, in milliseconds.
    pub moment: u64,
    /// How many messages the primary sent, and the secondary.
    pub sent_a: u64,
    pub sent_b: u64,
}

impl Chance {
    fn side(&mut self) -> Role {
        match self.dice.below(2) {
            0 => Role::Primary,
            _ => Role::Secondary,
        }
    }

    /// A clock at either end of the skew, or right.
    fn clock(&mut self) -> Result<Reading, Fail> {
        let shown = match self.dice.below(3) {
            0 => self.moment.saturating_sub(2_000),
            1 => self.moment.saturating_add(2_000),
            _ => self.moment,
        };
        Ok(Reading::new(shown)?)
    }

    fn unit(&mut self) -> Result<Prefix, Fail> {
        match unit(&self.pool, 56, u128::from(self.dice.below(4))) {
            Some(unit) => Ok(unit),
            None => Err(Fail::from("no such unit")),
        }
    }

    fn asked(&mut self) -> Result<LeaseRequest, Fail> {
        let text: &[u8] = match self.dice.below(3) {
            0 => b"00030001020000000001",
            1 => b"00030001020000000002",
            _ => b"00030001020000000003",
        };
        let iaid = match self.dice.below(2) {
            0 => Iaid(1),
            _ => Iaid(2),
        };
        let hint = match self.dice.below(4) {
            0 => None,
            _ => Some(self.unit()?),
        };
        Ok(LeaseRequest {
            client: Duid::from_hex(text)?,
            iaid,
            hint,
        })
    }

    fn state(&mut self) -> ServerState {
        match self.dice.below(4) {
            0 => ServerState::Normal,
            1 => ServerState::Interrupted,
            _ => ServerState::Down,
        }
    }

    /// Returns what becomes of clients and their leases.
    fn lease_order(&mut self) -> Result<Order, Fail> {
        Ok(match self.dice.below(8) {
            0 => Order::Renew(self.asked()?),
            1 => Order::Release(self.asked()?),
            2 => Order::Release(self.asked()?),
            3 => Order::Expire(self.unit()?),
            _ => Order::Request(self.asked()?),
        })
    }

    /// Returns what becomes of units between the partners.
    fn unit_order(&mut self) -> Result<Order, Fail> {
        Ok(match self.dice.below(6) {
            0 => Order::Backup(self.unit()?),
            1 => Order::Reclaim(self.unit()?),
            2 => Order::Seize(self.unit()?),
            3 => Order::SendReply(self.unit()?),
            _ => Order::SendUpdate(self.unit()?),
        })
    }

    fn order(&mut self) -> Result<Order, Fail> {
        match self.dice.below(8) {
            0 => Ok(Order::SendContact),
            1 => Ok(Order::State(self.state())),
            2 => self.lease_order(),
            3 => self.lease_order(),
            4 => self.lease_order(),
            _ => self.unit_order(),
        }
    }

    fn serve(&mut self) -> Result<Event, Fail> {
        Ok(Event::Serve {
            side: self.side(),
            clock: self.clock()?,
            order: self.order()?,
        })
    }

    /// The partner's last message, or any, or one that was never sent.
    fn deliver(&mut self) -> Result<Event, Fail> {
        let side = self.side();
        let count = match side {
            Role::Primary => self.sent_b,
            Role::Secondary => self.sent_a,
        };
        let sent = match self.dice.below(3) {
            0 => self.dice.below(count.saturating_add(2)),
            1 => count.saturating_sub(self.dice.below(3)),
            _ => count,
        };
        Ok(Event::Deliver {
            side,
            sent,
            clock: self.clock()?,
        })
    }

    fn pass(&mut self) -> Event {
        Event::Pass(match self.dice.below(8) {
            0 => 3_604_000,
            1 => 3_600_000,
            2 => 1_800_000,
            3 => 2_000,
            4 => 4_000,
            5 => 1,
            _ => 60_000,
        })
    }

    /// The next event.
    pub fn event(&mut self) -> Result<Event, Fail> {
        match self.dice.below(64) {
            0 => Ok(Event::Stop(self.side())),
            1..=2 => Ok(Event::Restart {
                side: self.side(),
                clock: self.clock()?,
            }),
            3..=8 => Ok(self.pass()),
            9..=32 => self.deliver(),
            _ => self.serve(),
        }
    }
}
