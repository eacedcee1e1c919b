//! A client of two servers: what comes to them, and what their journals show then.

use crate::evidence::Held;
use binding_rules::Role;

/// What happens to a pair.
#[derive(Clone, Copy)]
pub(crate) enum Event {
    /// A server takes its partner for down.
    Down(Role),
    /// A server takes over the first unit.
    Seize(Role),
    /// A server begins again, and waits for its partner.
    Restart(Role),
    /// A datagram comes to a server, that gets this answer; both as digits.
    Datagram(Role, &'static str, &'static str),
    /// Both ends begin a connection.
    Connect,
    /// Both talk until nothing is left to tell.
    Talk,
}

/// What happens to a pair, each event at its moment, and what is to come of it.
pub(crate) struct Story {
    pub events: &'static [(u64, Event)],
    /// Whether the client still has the first unit then.
    pub is_held: bool,
    pub held: Held,
}

/// The client's REQUEST.
const REQUEST: &str =
    "030a0b0c0001000a000300010200000000010002000a000300010200000000090019000c000000010000000000000000";

/// Its REBIND of the first unit.
const REBIND: &str =
    "060a0b0c0001000a0003000102000000000100190029000000010000000000000000001a001900000000000000003820010db8000000000\
    000000000000000";

/// The first unit for an hour.
const GRANTED: &str =
    "070a0b0c0001000a000300010200000000010002000a0003000102000000000900190029000000010000070800000b40001a001900000e1\
    000000e103820010db8000000000000000000000000";

/// The second lease's hour ends at 5600000.
const BY_THE_PRIMARY: Held = Held {
    first: Role::Primary,
    from: 12_000,
    to: 4_990_000,
    past: 5_599_000,
};

/// A lease that the primary gives at 10000 and the secondary renews at 2000000.
pub(crate) const RENEWED: Story = Story {
    events: &[
        (10_000, Event::Datagram(Role::Primary, REQUEST, GRANTED)),
        (10_001, Event::Connect),
        (10_001, Event::Talk),
        (2_000_000, Event::Datagram(Role::Secondary, REBIND, GRANTED)),
        (2_000_001, Event::Talk),
        (5_000_000, Event::Talk),
    ],
    is_held: true,
    held: BY_THE_PRIMARY,
};

/// The same lease, until it has ended at both: more than its hour after 2000000, and the partner's lead time.
pub(crate) const ENDED: Story = Story {
    events: &[
        (10_000, Event::Datagram(Role::Primary, REQUEST, GRANTED)),
        (10_001, Event::Connect),
        (10_001, Event::Talk),
        (2_000_000, Event::Datagram(Role::Secondary, REBIND, GRANTED)),
        (2_000_001, Event::Talk),
        (9_300_000, Event::Talk),
        (9_400_000, Event::Talk),
    ],
    is_held: false,
    held: BY_THE_PRIMARY,
};

/// A lease that the secondary gives of a unit of the primary's while that is down. The primary returns, hears of it and
/// renews it at 4700000: its hour ends at 8300000.
pub(crate) const RETURNED: Story = Story {
    events: &[
        (9000, Event::Down(Role::Secondary)),
        (3_700_000, Event::Restart(Role::Primary)),
        (3_700_000, Event::Seize(Role::Secondary)),
        (
            3_700_000,
            Event::Datagram(Role::Secondary, REQUEST, GRANTED),
        ),
        (3_700_001, Event::Connect),
        (3_700_001, Event::Talk),
        (4_700_000, Event::Datagram(Role::Primary, REBIND, GRANTED)),
        (4_700_001, Event::Talk),
        (8_000_000, Event::Talk),
    ],
    is_held: true,
    held: Held {
        first: Role::Secondary,
        from: 3_702_000,
        to: 7_990_000,
        past: 8_299_000,
    },
};
