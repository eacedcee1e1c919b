//! Why a connection with the partner is over.

use disk_model::Folder;
use failover_session::{SessionError, SessionStage};
use notice_exchange::{KeptApart, Overdue, TalkEnd};
use server_core::ServerCore;
use server_log::DisconnectReason;

/// Why a connection is over by the stage of its talk, if it is.
pub(crate) fn parting_at(stage: SessionStage) -> Option<DisconnectReason> {
    match stage {
        SessionStage::Greeting | SessionStage::Joined { .. } => None,
        SessionStage::Refused => Some(DisconnectReason::Refused),
        SessionStage::Ended { .. } => Some(DisconnectReason::PartnerLeft),
        SessionStage::Short { .. } => Some(DisconnectReason::JournalOlder),
    }
}

/// Why the talk of a connection is over by an error of it.
pub(crate) fn parting_of(error: SessionError) -> DisconnectReason {
    match error {
        SessionError::Frame => DisconnectReason::Refused,
        SessionError::Serve(refusal) => DisconnectReason::Book(refusal),
        SessionError::Memory => DisconnectReason::Memory,
    }
}

/// Why it is over by the error of a talk that has come to a stage: where this server's journal is short, the stage says
/// so.
pub(crate) fn parting_by(stage: Option<SessionStage>, error: SessionError) -> DisconnectReason {
    match stage {
        Some(SessionStage::Short { .. }) => DisconnectReason::JournalOlder,
        _ => parting_of(error),
    }
}

/// Why it is over by what came of notices, or by what they say.
pub(crate) fn parting_with(end: TalkEnd) -> DisconnectReason {
    match end {
        TalkEnd::EarlyFrame => DisconnectReason::Refused,
        TalkEnd::Misspelled => DisconnectReason::MisspelledNotice,
        TalkEnd::Apart(KeptApart::Settings(difference)) => {
            DisconnectReason::SettingsDiffer(difference)
        }
        TalkEnd::Apart(KeptApart::Clocks(range)) => DisconnectReason::ClocksDiffer(range),
        TalkEnd::Memory => DisconnectReason::Memory,
    }
}

/// Why it is over by what the partner didn't say in time.
pub(crate) fn parting_without(missing: Overdue) -> DisconnectReason {
    match missing {
        Overdue::Settings => DisconnectReason::NoSettings,
        Overdue::Clock => DisconnectReason::NoClock,
    }
}

/// Returns whether a server can tell its partner all that it lacks.
pub(crate) fn can_resend<F: Folder + Drop, P: Drop>(
    running: &ServerCore<F, P>,
    stage: &SessionStage,
) -> bool
where
    F::File: Drop,
{
    match stage {
        SessionStage::Joined { last } => running.can_resend_above(*last),
        SessionStage::Greeting
        | SessionStage::Refused
        | SessionStage::Ended { .. }
        | SessionStage::Short { .. } => true,
    }
}
