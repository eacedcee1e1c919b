//! What lines leave to tell that were added since all was told.

ghost use Rattle.std.specs.Prelude.{◌≡◌};
ghost use Rattle.failover_session.specs.Sessions.{SendsLines};

use crate::book::{PairBook, Receipts};
use crate::error::SessionError;
use crate::link_endpoint::{LinkEndpoint, OrderOutcome};
use crate::sending::Progress;
use crate::session_state::{SentUpTo, SessionState, UpdateKind};
use binding_rules::Body;
use journal_lines::Event;
use prefix_range::Prefix;

/// Of which units a line may leave something to tell.
#[derive(Clone, Copy)]
enum ChangedUnits {
    None,
    Of(Prefix),
    OfAny,
}

/// What a line leaves to tell. A contact may bring another term, in which all is told again.
fn changed_units(event: &Event) -> ChangedUnits {
    match event {
        Event::Grant(lease) => ChangedUnits::Of(lease.prefix),
        Event::Release { prefix, .. }
        | Event::Expire(prefix)
        | Event::Backup(prefix)
        | Event::Reclaim(prefix)
        | Event::Seize(prefix) => ChangedUnits::Of(*prefix),
        Event::Take(message) => match &message.body {
            Body::Update(update) => ChangedUnits::Of(update.prefix),
            Body::Reply(reply) => ChangedUnits::Of(reply.prefix),
            Body::Contact { .. } => ChangedUnits::OfAny,
        },
        Event::Send(message) => match &message.body {
            Body::Update(_) | Body::Reply(_) => ChangedUnits::None,
            Body::Contact { .. } => ChangedUnits::OfAny,
        },
        _ => ChangedUnits::OfAny,
    }
}

impl<'a, B: PairBook> LinkEndpoint<'a, B> {
    /// Sends the update of a unit that a line speaks of, if there is one to send.
    #[tactic(auto, using(crate::proofs::Saying::saying))]
    fn send_unit_update(
        &self,
        pass: &mut B::Pass,
        duties: &mut SessionState,
        prefix: &Prefix,
    ) -> Result<Option<OrderOutcome>, SessionError>
        ensures { SendsLines (B.Pass.receipts pass.old) (B.Pass.receipts pass.new) duties.old.out.items duties.new.out.items }
    {
        match self.send_update(pass, duties, UpdateKind::Mark, prefix)? {
            Some(fate) => Ok(Some(fate)),
            None => self.send_update(pass, duties, UpdateKind::Change, prefix),
        }
    }

    /// Sends what the lines of this pass up to an index leave to tell, from where all is told on. Notes how far it
    /// came.
    #[tactic(auto, using(crate::proofs::Saying::saying))]
    fn send_recent_updates(
        &self,
        pass: &mut B::Pass,
        duties: &mut SessionState,
        settled: &mut SentUpTo,
        end: usize,
    ) -> Result<Option<Progress>, SessionError>
        ensures { SendsLines (B.Pass.receipts pass.old) (B.Pass.receipts pass.new) duties.old.out.items duties.new.out.items }
    {
        for index in settled.lines.own..end {
            if duties.in_flight.is_full() {
                return Ok(Some(Progress::Part));
            }
            let news = match pass.receipts().get(index) {
                Some(receipt) => changed_units(&receipt.line.event),
                None => ChangedUnits::None,
            };
            let fate = match news {
                ChangedUnits::None => None,
                ChangedUnits::Of(prefix) => self.send_unit_update(pass, duties, &prefix)?,
                ChangedUnits::OfAny => return Ok(None),
            };
            match fate {
                Some(OrderOutcome::NoRoom) => return Ok(Some(Progress::NoRoom)),
                Some(OrderOutcome::Refused) => return Ok(None),
                Some(OrderOutcome::Done) | None => settled.lines.own = index.saturating_add(1),
            }
        }
        Ok(Some(Progress::All))
    }

    /// Sends what the lines that were added since all was told leave to tell. Where they don't say it, a round does.
    #[tactic(auto, using(crate::proofs::Saying::saying))]
    pub(crate) fn send_updates_since(
        &self,
        pass: &mut B::Pass,
        duties: &mut SessionState,
        settled: SentUpTo,
        now: &SentUpTo,
    ) -> Result<(), SessionError>
        ensures { SendsLines (B.Pass.receipts pass.old) (B.Pass.receipts pass.new) duties.old.out.items duties.new.out.items }
    {
        let mut settled = settled;
        let end = pass.receipts().len();
        let Some(progress) = self.send_recent_updates(pass, duties, &mut settled, end)? else {
            return self.send_all_updates(pass, duties, now);
        };
        if let Progress::All = progress {
            // What it sent itself leaves nothing to tell.
            settled.lines.own = pass.receipts().len();
        }
        duties.settled = Some(settled);
        Ok(())
    }
}
