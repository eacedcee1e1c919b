//! Two servers and what is under way between them.

use crate::pair_servers::Server;
use binding_rules::Role;
use failover_session::LinkInput;
use lead_time::Reading;
use std::alloc::Global;
use std::test::Fail;

/// Two servers of one pair, each with the octets that are under way to it.
#[derive(Drop)]
pub(crate) struct Pair {
    pub primary: Server,
    pub secondary: Server,
}

/// What comes to an end in a turn.
#[derive(Clone, Copy)]
pub(crate) struct Turn {
    pub now: Reading,
    /// Nothing came for a while.
    pub is_quiet: bool,
    /// How many octets come, at most.
    pub most: usize,
    /// What the end says goes on its way twice.
    pub is_repeated: bool,
}

/// One turn of a server's end, whose frames go on their way to the other. Says whether the connection goes on.
fn take_turn(
    alloc: Global,
    server: &mut Server,
    wire: &mut Vec<u8>,
    turn: Turn,
) -> Result<bool, Fail> {
    let before = wire.len();
    let goes_on = if turn.is_quiet {
        server.turn(alloc, turn.now, &LinkInput::Idle, wire)?
    } else {
        server.hear(alloc, turn.now, turn.most, wire)?
    };
    if turn.is_repeated {
        let said = wire[before.min(wire.len())..].to_vec(alloc)?;
        wire.extend_from_slice(&said)?;
    }
    Ok(goes_on)
}

impl Pair {
    /// Two servers with new books, of the primary's settings and of the secondary's.
    pub fn open(
        alloc: Global,
        primary: &[u8],
        secondary: &[u8],
        now: Reading,
    ) -> Result<Pair, Fail> {
        Ok(Pair {
            primary: Server::open(alloc, primary, now)?,
            secondary: Server::open(alloc, secondary, now)?,
        })
    }

    /// The server of a role.
    pub fn server(&mut self, role: Role) -> &mut Server {
        match role {
            Role::Primary => &mut self.primary,
            Role::Secondary => &mut self.secondary,
        }
    }

    /// Both ends begin another connection: what was under way on the last one is lost.
    pub fn connect(&mut self, alloc: Global) -> Result<(), Fail> {
        let mut to_primary = Vec::new(alloc);
        let mut to_secondary = Vec::new(alloc);
        self.primary.connect(alloc, &mut to_secondary)?;
        self.secondary.connect(alloc, &mut to_primary)?;
        self.primary.coming = to_primary;
        self.secondary.coming = to_secondary;
        Ok(())
    }

    /// One turn of a server's end. Says whether the connection goes on.
    pub fn turn(&mut self, alloc: Global, role: Role, turn: Turn) -> Result<bool, Fail> {
        match role {
            Role::Primary => {
                take_turn(alloc, &mut self.primary, &mut self.secondary.coming, turn)
            }
            Role::Secondary => {
                take_turn(alloc, &mut self.secondary, &mut self.primary.coming, turn)
            }
        }
    }
}
