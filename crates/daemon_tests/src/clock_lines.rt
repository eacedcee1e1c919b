//! Lines of a server's log on clocks that were set, on its partner's clock, and on its partner's settings.

use crate::paper::Paper;
use lead_time::{LeadTimeError, Reading, Skew, Transit};
use link_notices::{ClockRange, SettingsDifference};
use server_log::{DisconnectReason, Log, LogEvent, SeenClock, StateWatch};
use server_status::ClockState;
use std::test::Fail;

/// A clock that was set an hour ahead.
fn set_ahead() -> Result<SeenClock, LeadTimeError> {
    Ok(SeenClock::Set {
        shows: Reading::new(1_795_957_200_000)?,
        expected: Reading::new(1_795_953_600_000)?,
    })
}

const CLOCKS: &str = "\
<3>node: serves nobody: its clock was set: it shows 2026-11-29T13:00:00.000Z, and by the monotonic clock it would show \
2026-11-29T12:00:00.000Z
<6>node: serves again: its clock is right
<3>node: serves nobody: its clock fell behind its journal by more than twice the skew
<3>node: serves nobody: its clock was set: it shows 2026-11-29T13:00:00.000Z, and by the monotonic clock it would show \
2026-11-29T12:00:00.000Z
";

/// Whether, of each of these in turn, a watch knows afterwards how the clock is.
fn knows_each<L: Print>(clocks: &[SeenClock], log: &Log<'_, L>) -> bool {
    let mut watch = StateWatch::new();
    for clock in clocks {
        watch.see_clock(clock, log);
        if watch.clock() != clock.state() {
            return false;
        }
    }
    true
}

#[test]
fn tells_each_change_of_its_clock(rt: HostRuntime) -> Result<(), Fail> {
    let paper = Paper::new(rt.alloc());
    let log = Log::new(rt.alloc(), &paper);
    let clocks = [
        SeenClock::Right,
        set_ahead()?,
        set_ahead()?,
        SeenClock::Right,
        SeenClock::Behind,
        SeenClock::Behind,
        set_ahead()?,
    ];
    assert!(rt; knows_each(&clocks, &log));
    assert!(rt; paper.has(CLOCKS));
    let set = set_ahead()?;
    assert_eq!(rt; set.state(), ClockState::Set);
    Ok(())
}

const EVENTS: &str = "\
<4>node: takes its clock for right, as it was told
<6>node: asks its partner's clock before it begins
<4>node: begins without its partner's clock: nobody said it within 30 s
<4>node: its partner's settings differ in skew_ms: 2000 here, 3000 there
<4>node: ended the connection with its partner: its partner's program sent no settings
<4>node: ended the connection with its partner: its partner's program sent no clock
<4>node: ended the connection with its partner: it sent a notice that isn't spelled as one
<4>node: ended the connection with its partner: this server's clock was set
";

#[test]
fn tells_of_clocks_and_notices(rt: HostRuntime) -> Result<(), Fail> {
    let paper = Paper::new(rt.alloc());
    let log = Log::new(rt.alloc(), &paper);
    let skew = SettingsDifference::Skew {
        own: Skew::new(2000)?,
        other: Skew::new(3000)?,
    };
    let events = [
        LogEvent::ClockAccepted,
        LogEvent::AsksPartnerClock,
        LogEvent::BeginsWithoutPartnerClock,
        LogEvent::PartnerSettings(skew),
        LogEvent::Disconnected(DisconnectReason::NoSettings),
        LogEvent::Disconnected(DisconnectReason::NoClock),
        LogEvent::Disconnected(DisconnectReason::MisspelledNotice),
        LogEvent::Disconnected(DisconnectReason::ClockSet),
    ];
    for event in &events {
        log.log(event);
    }
    assert!(rt; paper.has(EVENTS));
    Ok(())
}

const APART: &str = "\
<3>node: its partner's clock is between 171.0 s and 173.2 s ahead of this one: they stay apart until the two agree
<3>node: its partner's clock is between 171.0 s and 173.2 s behind this one: they stay apart until the two agree
<3>node: its partner's clock is between 4.0 s and 4.1 s behind this one: they stay apart until the two agree
<3>node: its partner's settings differ in mclt: 3600 here, 7200 there: they stay apart until the two agree
<3>node: its partner's settings differ in pools: they stay apart until the two agree
<3>node: its partner's settings differ in pool_order: they stay apart until the two agree
<4>node: its partner's settings differ in life: 3600 here, 7200 there
<4>node: its partner's settings differ in transit_ms: 40000 here, 39999 there
";

/// Its partner's clock is ahead by so many milliseconds.
fn clocks_differ(least: i64, most: i64) -> LogEvent {
    LogEvent::Disconnected(DisconnectReason::ClocksDiffer(ClockRange { least, most }))
}

/// Its partner's settings differ so that the two stay apart.
fn settings_differ(difference: SettingsDifference) -> LogEvent {
    LogEvent::Disconnected(DisconnectReason::SettingsDiffer(difference))
}

const MCLT: SettingsDifference = SettingsDifference::Mclt {
    own: 3600,
    other: 7200,
};

#[test]
fn tells_what_keeps_two_apart(rt: HostRuntime) -> Result<(), Fail> {
    let paper = Paper::new(rt.alloc());
    let log = Log::new(rt.alloc(), &paper);
    let transit = SettingsDifference::Transit {
        own: Transit::new(40_000)?,
        other: Transit::new(39_999)?,
    };
    let events = [
        clocks_differ(171_099, 173_101),
        clocks_differ(-173_101, -171_099),
        clocks_differ(-4_100, -4_000),
        settings_differ(MCLT),
        settings_differ(SettingsDifference::Pools),
        settings_differ(SettingsDifference::PoolOrder),
        LogEvent::PartnerSettings(SettingsDifference::Life {
            own: 3600,
            other: 7200,
        }),
        LogEvent::PartnerSettings(transit),
    ];
    for event in &events {
        log.log(event);
    }
    assert!(rt; paper.has(APART));
    Ok(())
}

const HOURLY: &str = "\
<3>node: its partner's clock is between 171.0 s and 173.2 s ahead of this one: they stay apart until the two agree
<3>node: its partner's settings differ in mclt: 3600 here, 7200 there: they stay apart until the two agree
<3>node: its partner's settings differ in pools: they stay apart until the two agree
<3>node: its partner's clock is between 5.0 s and 6.0 s behind this one: they stay apart until the two agree
<3>node: its partner's settings differ in mclt: 3600 here, 7200 there: they stay apart until the two agree
";

#[test]
fn tells_once_an_hour_what_keeps_two_apart(rt: HostRuntime) -> Result<(), Fail> {
    let paper = Paper::new(rt.alloc());
    let mut log = Log::new(rt.alloc(), &paper);
    let steps = [
        (clocks_differ(171_099, 173_101), 10_000_000),
        (settings_differ(MCLT), 10_000_500),
        (clocks_differ(171_098, 173_102), 10_010_000),
        (settings_differ(MCLT), 10_010_500),
        (settings_differ(SettingsDifference::Pools), 10_020_000),
        (clocks_differ(-6_000, -5_000), 13_599_999),
        (clocks_differ(-6_000, -5_000), 13_600_000),
        (settings_differ(MCLT), 13_600_499),
        (settings_differ(MCLT), 13_600_500),
        (clocks_differ(-6_000, -5_000), 13_600_501),
    ];
    for (event, at) in steps {
        let now = Reading::new(at)?;
        log.log_hourly(&event, now);
        log.log_due(now);
    }
    assert!(rt; paper.has(HOURLY));
    Ok(())
}
