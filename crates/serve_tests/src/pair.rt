//! Two servers, their clients and the link between them, in simulated time.

use crate::disk::Loss;
use crate::server::Server;
use binding_rules::Role;
use lead_time::Reading;
use std::alloc::Global;
use std::test::Fail;
use test_support::pair_settings;

/// The settings of both, whose pool has sixteen units.
const PRIMARY: &str = pair_settings!("primary", "2001:db8::/52");

const SECONDARY: &str = pair_settings!("secondary", "2001:db8::/52");

/// True time at the beginning, in milliseconds.
const BEGIN: u64 = 10_000_000;

/// By how much the clocks are ahead of true time, in milliseconds, one turn after another.
const AHEAD: [u64; 3] = [0, 1900, 700];

/// A clock that reads so far below a journal's last line, in milliseconds, may go on with it: twice the skew.
const FAR_BEHIND: u64 = 4000;

/// How many turns both have until nothing is left to tell, at most.
const TURNS: u32 = 100;

/// How often servers are started until both run on, at most.
const STARTS: u32 = 10;

/// Which disks fail.
#[derive(Clone, Copy)]
pub(crate) enum Failing {
    Primary,
    Secondary,
    /// The primary's, and the secondary ends with it.
    Both,
}

/// When disks fail, and what is left of them.
#[derive(Clone, Copy)]
pub(crate) struct Plan {
    pub failing: Failing,
    /// So many calls are answered when the pair begins.
    pub calls: usize,
    /// So many are answered after the first failure.
    pub calls_again: usize,
    pub loss: Loss,
}

/// What happens to the pair.
#[derive(Clone, Copy)]
pub(crate) enum Event {
    /// A client asks a server for a prefix, or for it to go on.
    Ask(Role, u8),
    /// A server begins its next volume.
    Roll(Role),
    /// A server stops and starts again, by a clock that is as far behind as it may be.
    Stop(Role),
    /// So many seconds go by.
    Pass(u64),
}

/// Two servers that run over disks that fail.
#[derive(Drop)]
pub(crate) struct Pair {
    plan: Plan,
    pub primary: Server,
    pub secondary: Server,
    /// True time, in milliseconds.
    moment: u64,
    turns: usize,
    /// How often a server was started again since its disk failed.
    pub losses: u32,
}

impl Pair {
    /// Two servers that begin, over empty disks.
    pub fn new(alloc: Global, plan: Plan) -> Result<Pair, Fail> {
        let (primary, secondary) = match plan.failing {
            Failing::Primary | Failing::Both => (plan.calls, usize::MAX),
            Failing::Secondary => (usize::MAX, plan.calls),
        };
        let mut pair = Pair {
            plan,
            primary: Server::new(alloc, PRIMARY, primary)?,
            secondary: Server::new(alloc, SECONDARY, secondary)?,
            moment: BEGIN,
            turns: 0,
            losses: 0,
        };
        pair.begin()?;
        Ok(pair)
    }

    /// Both start, and go on until nothing is left to say.
    fn begin(&mut self) -> Result<(), Fail> {
        let now = Reading::new(BEGIN)?;
        self.primary.start(now)?;
        self.secondary.start(now)?;
        self.connect()?;
        self.go_on()
    }

    /// The server of a role.
    fn server(&mut self, role: Role) -> &mut Server {
        match role {
            Role::Primary => &mut self.primary,
            Role::Secondary => &mut self.secondary,
        }
    }

    /// Has the disk that is to fail answer so many calls from now on.
    fn answer_only(&mut self, calls: usize) -> Result<usize, Fail> {
        match self.plan.failing {
            Failing::Primary | Failing::Both => self.primary.answer_only(calls),
            Failing::Secondary => self.secondary.answer_only(calls),
        }
    }

    /// What a server's clock reads: it steps back and forth, and is never wrong by more than the skew.
    fn clock(&self, role: Role) -> Result<Reading, Fail> {
        let place = match role {
            Role::Primary => self.turns,
            Role::Secondary => self.turns.wrapping_add(1),
        };
        Ok(Reading::new(self.moment.saturating_add(AHEAD[place % 3]))?)
    }

    fn are_up(&self) -> bool {
        self.primary.is_up() && self.secondary.is_up()
    }

    fn is_quiet(&self) -> bool {
        self.primary.coming.is_empty() && self.secondary.coming.is_empty()
    }

    /// A turn of a server.
    fn turn(&mut self, role: Role) -> Result<(), Fail> {
        self.turns = self.turns.wrapping_add(1);
        self.moment = self.moment.saturating_add(1);
        let now = self.clock(role)?;
        let (primary, secondary) = (&mut self.primary, &mut self.secondary);
        match role {
            Role::Primary => primary.turn(now, self.moment, &mut secondary.coming),
            Role::Secondary => secondary.turn(now, self.moment, &mut primary.coming),
        }
    }

    /// Turns of both, until neither has anything to say where nothing came, or one doesn't run any more.
    fn talk(&mut self) -> Result<(), Fail> {
        for _ in 0..TURNS {
            let was_quiet = self.is_quiet();
            self.turn(Role::Secondary)?;
            self.turn(Role::Primary)?;
            if !self.are_up() || was_quiet && self.is_quiet() {
                return Ok(());
            }
        }
        Err(Fail::from("they talk on"))
    }

    /// Starts a server again that doesn't run, with what is left.
    fn start_again(&mut self, role: Role) -> Result<(), Fail> {
        let now = self.clock(role)?;
        let calls = if self.losses == 0 {
            self.plan.calls_again
        } else {
            usize::MAX
        };
        let loss = self.plan.loss.other(u64::from(self.losses));
        let server = self.server(role);
        if server.is_up() {
            return Ok(());
        }
        server.lose(loss, calls)?;
        server.start(now)?;
        self.losses = self.losses.saturating_add(1);
        Ok(())
    }

    /// Both begin a connection.
    fn connect(&mut self) -> Result<(), Fail> {
        self.primary.meet()?;
        self.secondary.meet()
    }

    /// Lets both go on until nothing is left to say; a server whose disk fails is started again.
    pub fn go_on(&mut self) -> Result<(), Fail> {
        for _ in 0..STARTS {
            if self.are_up() {
                self.talk()?;
            }
            if self.are_up() {
                return Ok(());
            }
            if matches!(self.plan.failing, Failing::Both) && self.losses == 0 {
                self.secondary.lose(self.plan.loss, usize::MAX)?;
            }
            self.start_again(Role::Primary)?;
            self.start_again(Role::Secondary)?;
            self.connect()?;
        }
        Err(Fail::from("they don't run on"))
    }

    /// Stops a server whose lines are on the disk, and starts it again by a clock that is as far behind as it may be.
    fn stop(&mut self, role: Role) -> Result<(), Fail> {
        let loss = self.plan.loss;
        let server = self.server(role);
        let last = server.last_reading().ok_or("no line")?;
        let calls = server.answer_only(0)?;
        server.lose(loss, calls)?;
        let least = last.saturating_sub(FAR_BEHIND);
        server.refuse_clock(Reading::new(least.saturating_sub(1))?)?;
        server.start(Reading::new(least)?)?;
        self.connect()
    }

    /// Lets something happen, and both go on.
    fn happen(&mut self, event: Event) -> Result<(), Fail> {
        match event {
            Event::Ask(role, client) => {
                let now = self.clock(role)?;
                self.server(role).hear(now, client)?;
            }
            Event::Roll(role) => {
                let now = self.clock(role)?;
                self.server(role).roll(now)?;
                self.connect()?;
            }
            Event::Stop(role) => self.stop(role)?,
            Event::Pass(seconds) => {
                self.moment = self.moment.saturating_add(seconds.saturating_mul(1000));
            }
        }
        self.go_on()
    }

    /// Lets one thing after another happen.
    pub fn live(&mut self, events: &[Event]) -> Result<(), Fail> {
        for event in events {
            self.happen(*event)?;
        }
        Ok(())
    }

    /// Both begin their next volumes, over a disk of which so many calls are answered.
    pub fn roll(&mut self, calls: usize) -> Result<(), Fail> {
        self.answer_only(calls)?;
        self.happen(Event::Roll(Role::Primary))?;
        self.happen(Event::Roll(Role::Secondary))?;
        self.answer_only(usize::MAX)?;
        Ok(())
    }

    /// Both end.
    pub fn end(&mut self) -> Result<(), Fail> {
        self.primary.lose(self.plan.loss, 0)?;
        self.secondary.lose(self.plan.loss, 0)
    }
}
