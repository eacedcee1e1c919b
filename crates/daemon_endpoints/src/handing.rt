//! Handing on to the session what came over a connection.

ghost use Rattle.daemon_endpoints.specs.Receiving.{HasSameFiles};

use disk_model::Folder;
use failover_session::{LinkInput, SessionError};
use lead_time::Reading;
use notice_exchange::LinkEvent;
use server_core::ServerCore;
use server_settings::Settings;

/// What a read of a connection gave.
#[derive(Clone, Copy, Debug, PartialEq, Eq)]
pub(crate) enum Arrived {
    /// Octets: what they lead to is an event.
    Octets,
    /// None now.
    Nothing,
    /// None for a second.
    IdleSecond,
    /// None, and none will come.
    End,
}

/// Hands on an event: the session begins by it, or takes its frames.
#[tactic(auto, using(crate::proofs::Files::same_files))]
fn hand_on_event<F: Folder + Drop, P: Drop>(
    running: &mut ServerCore<F, P>,
    settings: &Settings,
    now: Reading,
    event: &LinkEvent,
) -> Result<(), SessionError>
where
    F::File: Drop,
    ensures { HasSameFiles running.old running.new }
{
    match event {
        LinkEvent::Begins => running.connect_partner(settings),
        LinkEvent::Frames(octets) => running.handle_input(
            settings,
            now,
            &LinkInput::Octets(octets.as_slice()),
        ),
    }
}

/// Hands on events, in order, up to the first that is an error.
#[tactic(auto, using(crate::proofs::Files::same_files, crate::proofs::Files::same_on))]
fn hand_on_events<F: Folder + Drop, P: Drop>(
    running: &mut ServerCore<F, P>,
    settings: &Settings,
    now: Reading,
    events: &[LinkEvent],
) -> Result<(), SessionError>
where
    F::File: Drop,
    ensures { HasSameFiles running.old running.new }
{
    for event in events {
        hand_on_event(running, settings, now, event)?;
    }
    Ok(())
}

/// Hands on what came by a read and waited before it, or that nothing came, or that nothing will. The error, where the
/// session has one: what stands after that isn't handed on. A session that gets no frames gets its turn all the same: it
/// tells the partner what is new.
#[tactic(auto, using(crate::proofs::Files::same_files, crate::proofs::Files::same_on))]
pub(crate) fn hand_on<F: Folder + Drop, P: Drop>(
    running: &mut ServerCore<F, P>,
    settings: &Settings,
    now: Reading,
    events: &[LinkEvent],
    arrived: Arrived,
) -> Result<(), SessionError>
where
    F::File: Drop,
    ensures { HasSameFiles running.old running.new }
{
    hand_on_events(running, settings, now, events)?;
    match arrived {
        Arrived::End => running.handle_input(settings, now, &LinkInput::Closed),
        _ if !events.is_empty() => Ok(()),
        Arrived::IdleSecond => running.handle_input(settings, now, &LinkInput::Idle),
        Arrived::Octets | Arrived::Nothing => running.handle_input(
            settings,
            now,
            &LinkInput::Octets(&[]),
        ),
    }
}
