//! Two servers: one that serves beside its partner, and one that has just begun.

use binding_rules::Role;
use lead_time::{LeadTimeError, Reading};
use link_notices::{ClockRange, ClockVerdict};
use server_status::{
    AnswerCounts, ClockState, FaultCounts, JournalState, LastRefusal, LinkState, MessageCounts,
    NotServing, NoticeState, PartnerNotices, PartnerRefusal, PartnerState, ServerStatus,
    ServingState, SyncSummary, Traffic, UnitCounts, VolumeStatus,
};
use server_timers::{RollBlocked, RollState, Room};

/// What a partner told that agrees in all.
fn agreeing() -> PartnerNotices<'static> {
    PartnerNotices {
        state: NoticeState::Understood,
        program: Some(("fengtuyas", "1.0.0")),
        clock: Some(ClockRange {
            least: -12,
            most: 5,
        }),
        verdict: Some(ClockVerdict::Agrees),
        settings: Some(&[]),
    }
}

/// A server that has served for a while beside a partner that agrees in all.
pub(crate) fn serving() -> Result<ServerStatus<'static>, LeadTimeError> {
    serving_with(agreeing())
}

/// A server that has served for a while, whose partner told this.
pub(crate) fn serving_with<'a>(
    notices: PartnerNotices<'a>,
) -> Result<ServerStatus<'a>, LeadTimeError> {
    Ok(ServerStatus {
        role: Role::Primary,
        reading: Reading::new(1_795_460_505_623)?,
        clock: ClockState::Right,
        volume: VolumeStatus {
            number: 3,
            lines: 1042,
            synced: 1040,
            opened: Reading::new(1_795_460_400_000)?,
            written: Reading::new(1_795_460_504_420)?,
            roll: RollState::Blocked(RollBlocked::UnitMarked),
            room: Room::Enough,
        },
        units: UnitCounts {
            own: 100,
            partners: 50,
            delegated: 90,
            expired: 12,
            released: 4,
            due: 7,
            marked: 1,
        },
        standing: PartnerState::Normal,
        link: LinkState::Connected {
            since: Reading::new(1_795_460_500_000)?,
        },
        heard: Some(Reading::new(1_795_460_504_419)?),
        traffic: Traffic {
            messages: MessageCounts {
                solicit: 31,
                request: 30,
                renew: 400,
                rebind: 2,
                release: 5,
            },
            faults: FaultCounts {
                short: 1,
                not_ours: 9,
                ..Traffic::NONE.faults
            },
            answers: AnswerCounts {
                advertise: 31,
                reply: 435,
            },
            over_quota: 8,
            unanswered: 2,
            late: 3,
            held: 6,
        },
        syncs: Some(SyncSummary {
            count: 61,
            median: 420,
            worst: 1_012_000,
        }),
        serving: ServingState::Yes,
        journal: JournalState::Whole,
        refusal: None,
        notices,
    })
}

/// A server whose clock is behind, and which waits for its partner since it began.
pub(crate) fn waiting() -> Result<ServerStatus<'static>, LeadTimeError> {
    waiting_with(PartnerNotices::NONE)
}

/// The same of a server whose partner told this.
pub(crate) fn waiting_with<'a>(
    notices: PartnerNotices<'a>,
) -> Result<ServerStatus<'a>, LeadTimeError> {
    Ok(ServerStatus {
        role: Role::Secondary,
        reading: Reading::new(1_795_460_400_000)?,
        clock: ClockState::Behind,
        volume: VolumeStatus {
            number: 1,
            lines: 2,
            synced: 2,
            opened: Reading::new(1_795_460_400_000)?,
            written: Reading::new(1_795_460_505_623)?,
            roll: RollState::NotDue,
            room: Room::Full,
        },
        units: UnitCounts::NONE,
        standing: PartnerState::Waiting {
            since: Reading::new(1_795_460_400_000)?,
        },
        link: LinkState::Apart,
        heard: None,
        traffic: Traffic::NONE,
        syncs: None,
        serving: ServingState::No(NotServing::ClockBehind),
        journal: JournalState::Whole,
        refusal: Some(LastRefusal {
            why: PartnerRefusal::OlderVolumes,
            at: Reading::new(1_795_460_400_000)?,
        }),
        notices,
    })
}
