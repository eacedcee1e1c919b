//! How the secondary comes to units of its own (RFC 8156, section 4.2.2).

ghost use Rattle.std.specs.Prelude.{◌≡◌};
ghost use Rattle.failover_session.specs.OutboundFrames.{meanings_of};
ghost use Rattle.failover_session.specs.Sessions.{SendsLines};

use crate::book::{PairBook, Receipts};
use crate::error::SessionError;
use crate::link_endpoint::{LinkEndpoint, OrderOutcome};
use crate::session_state::SessionState;
use binding_rules::{Role, Status};
use book_state::{MOST_UNITS, Pool};
use failover_message::FrameKind;
use order_book::Order;
use pool_balance::choose;
use prefix_range::{Prefix, unit};

impl<'a, B: PairBook> LinkEndpoint<'a, B> {
    /// Asks the primary for units.
    pub(crate) fn ask_for_units(&self, duties: &mut SessionState) -> Result<(), SessionError>
        ensures { meanings_of duties.new.out.items ≡ meanings_of duties.old.out.items }
    {
        duties.awaits_units = true;
        duties.push_control_frame(FrameKind::PoolRequest)?;
        Ok(())
    }

    /// Asks the primary for units where the secondary has none to give, serves, and the last POOLREQ was answered.
    #[tactic(auto, using(crate::proofs::Saying::saying))]
    pub(crate) fn ask_if_needed(
        &self,
        pass: &mut B::Pass,
        duties: &mut SessionState,
    ) -> Result<(), SessionError>
        ensures { SendsLines (B.Pass.receipts pass.old) (B.Pass.receipts pass.new) duties.old.out.items duties.new.out.items }
    {
        if duties.awaits_units || self.role == Role::Primary {
            return Ok(());
        }
        let work = self.work(pass, 0)?;
        if work.waiting || work.usable.is_some() {
            return Ok(());
        }
        self.ask_for_units(duties)
    }

    /// Adds what each unit of a pool is.
    fn add_units(
        &self,
        pass: &mut B::Pass,
        pool: &Pool,
        units: &mut Vec<(Prefix, Status)>,
    ) -> Result<(), SessionError>
        ensures { B.Pass.receipts pass.new ≡ B.Pass.receipts pass.old }
    {
        for index in 0..MOST_UNITS {
            let Some(prefix) = unit(&pool.prefix, pool.unit_length, index as u128) else {
                return Ok(());
            };
            let look = self.look(pass, &prefix)?;
            if let Some(unit) = &look.unit {
                units.push((prefix, unit.status.status()))?;
            }
        }
        Ok(())
    }

    /// The units to move to the secondary.
    fn chosen(&self, pass: &mut B::Pass) -> Result<Vec<Prefix>, SessionError>
        ensures { B.Pass.receipts pass.new ≡ B.Pass.receipts pass.old }
    {
        let mut units = Vec::new(self.alloc);
        for pool in self.settings.pools() {
            self.add_units(pass, pool, &mut units)?;
        }
        match choose(self.alloc, &units) {
            Ok(chosen) => Ok(chosen),
            Err(_) => Err(SessionError::Memory),
        }
    }

    /// Moves units to the secondary, and gives how many.
    #[tactic(auto, using(crate::proofs::Saying::saying))]
    fn move_each(
        &self,
        pass: &mut B::Pass,
        duties: &mut SessionState,
        units: &[Prefix],
    ) -> Result<u32, SessionError>
        ensures { SendsLines (B.Pass.receipts pass.old) (B.Pass.receipts pass.new) duties.old.out.items duties.new.out.items }
    {
        let mut moved: u32 = 0;
        for prefix in units {
            if let OrderOutcome::Done = self.order(pass, duties, &Order::Backup(*prefix))? {
                moved = moved.saturating_add(1);
            }
        }
        Ok(moved)
    }

    /// Moves the units that the secondary lacks, and gives how many.
    #[tactic(auto, using(crate::proofs::Saying::saying))]
    fn move_units(&self, pass: &mut B::Pass, duties: &mut SessionState) -> Result<u32, SessionError>
        ensures { SendsLines (B.Pass.receipts pass.old) (B.Pass.receipts pass.new) duties.old.out.items duties.new.out.items }
    {
        if self.work(pass, 0)?.usable.is_none() {
            return Ok(0);
        }
        let chosen = self.chosen(pass)?;
        self.move_each(pass, duties, &chosen)
    }

    /// Answers the secondary's POOLREQ; the primary's is passed over.
    #[tactic(auto, using(crate::proofs::Saying::saying))]
    pub(crate) fn answer_pool_request(
        &self,
        pass: &mut B::Pass,
        duties: &mut SessionState,
    ) -> Result<(), SessionError>
        ensures { SendsLines (B.Pass.receipts pass.old) (B.Pass.receipts pass.new) duties.old.out.items duties.new.out.items }
    {
        match self.role {
            Role::Primary => {
                let moved = self.move_units(pass, duties)?;
                duties.push_control_frame(FrameKind::PoolResponse { moved })?;
                Ok(())
            }
            Role::Secondary => Ok(()),
        }
    }
}
