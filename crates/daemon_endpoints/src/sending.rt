//! Telling clients and the partner what was held back for them.

ghost use Rattle.std.specs.Prelude.{◌≡◌};
ghost use Rattle.daemon_endpoints.specs.Receiving.{HasSameFiles};
ghost use Rattle.daemon_endpoints.specs.Saying.{frames_of, SaysOver};
ghost use Rattle.daemon_endpoints.specs.Sending.{AllLeave};

use crate::arrival::Arrival;
use crate::clients::ClientEndpoint;
use crate::partner::PartnerEndpoint;
use daemon_io::{ConnectionSource, Datagrams};
use disk_model::Folder;
use failover_session::OutboundFrame;
use server_clocks::{Clocks, Moment};
use server_core::{HeldAnswer, ServerCore};
use server_log::Log;

/// Sends each answer to who asked, but for those that are too late when they leave, and says the frames to the partner,
/// each once.
pub fn send_committed<F: Folder + Drop, G: Datagrams, D: ConnectionSource, C: Clocks, L: Print>(
    clients: &mut ClientEndpoint<G>,
    partner: &mut PartnerEndpoint<D>,
    running: &mut ServerCore<F, Arrival<G::Peer>>,
    answers: &[HeldAnswer<Arrival<G::Peer>>],
    frames: &[OutboundFrame],
    clocks: &C,
    now: &Moment,
    log: &mut Log<'_, L>,
)
where
    F::File: Drop,
    ensures leave { AllLeave C.gives C.fails G.sends clients.old.transit clients.old.datagrams answers.now
        clients.new.datagrams }
    ensures transit { clients.new.transit ≡ clients.old.transit }
    ensures said { SaysOver (frames_of frames.now) partner.old partner.new }
    ensures files { HasSameFiles running.old running.new }
{
    clients.send(answers, clocks, log);
    partner.send_frames(running, frames, now, log);
}
