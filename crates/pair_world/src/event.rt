//! What may happen in a world.

use binding_rules::Role;
use lead_time::Reading;
use order_book::Order;

/// One event of the pair, or time that passes. A clock is what the server's clock shows as the event happens.
#[derive(Clone, Copy, Debug, PartialEq, Eq)]
pub enum Event {
    /// A server is ordered something.
    Serve {
        side: Role,
        clock: Reading,
        order: Order,
    },
    /// A message of the partner's reaches a server: the one of this number among all that the partner ever sent,
    /// counted from 1. It may come late, again, in any order, or never.
    Deliver {
        side: Role,
        sent: u64,
        clock: Reading,
    },
    /// A server stops. Its journal survives.
    Stop(Role),
    /// A stopped server begins again.
    Restart {
        side: Role,
        clock: Reading,
    },
    /// So many milliseconds of true time pass.
    Pass(u64),
}
