//! How a server is: what its status says.

ghost use Rattle.std.specs.Prelude.{◌≡◌, ◌↔◌, length};
ghost use Rattle.order_book.specs.Replayed.{state_of};
ghost use Rattle.service_state.specs.Service.{IsShut};
ghost use Rattle.service_state.specs.Speaking.{last_spoken};
ghost use Rattle.service_state.specs.Statuses.{IsStanding};

use crate::service::{ServiceState, ShutReason};
use crate::speaking::last_spoken;
use binding_rules::{Body, Role};
use book_state::Pool;
use daemon_endpoints::PartnerEndpoint;
use daemon_io::ConnectionSource;
use failover_session::JournalShortage as SessionShortage;
use journal_lines::{Event, Line};
use lead_time::Reading;
use notice_exchange::PartnerProgram;
use order_book::Book;
use server_log::LogEvent;
use server_status::{
    JournalShortage, JournalState, PartnerNotices, PartnerState, UnitCounts, VolumeStatus,
};
use server_timers::{DueActions, Growth, RollState, Room};

/// Counts the units of a pool.
fn count_units(book: &Book, pool: &Pool, counts: &mut UnitCounts) {
    if pool.prefix.len() > pool.unit_length || pool.unit_length > 128 || !pool.is_small() {
        return;
    }
    for place in 0..pool.count() {
        if let Some(unit) = book.unit(pool.unit(place)) {
            counts.add(book.role(), &unit);
        }
    }
}

/// Counts the units of a server's pools, by what its book says of them.
pub fn units_of(book: &Book, pools: &[Pool]) -> UnitCounts {
    let mut counts = UnitCounts::NONE;
    for pool in pools {
        count_units(book, pool, &mut counts);
    }
    counts
}

/// When a server began again last.
fn restarted(book: &Book) -> Option<Reading> {
    let line = book
        .journal()
        .iter()
        .rev()
        .find(|line| matches!(line.event, Event::Restart(_)))?;
    Some(line.reading)
}

/// What a server takes its partner for.
pub fn standing_of(book: &Book, now: Reading) -> PartnerState
    ensures { IsStanding (state_of book.now).down (state_of book.now).waiting result }
{
    match book.down() {
        Some(since) => PartnerState::Down { since },
        None if book.waiting() => PartnerState::Waiting {
            since: restarted(book).unwrap_or(now),
        },
        None => PartnerState::Normal,
    }
}

/// Returns whether it is the event of a line that a volume begins with.
fn is_head(event: &Event) -> bool {
    matches!(
        event,
        Event::Open { .. }
            | Event::Pool { .. }
            | Event::Transit(_)
            | Event::Base(_)
            | Event::Carry(_)
            | Event::Unit(_)
    )
}

/// How many head lines a book's volume begins with.
pub fn head_lines_of(book: &Book) -> usize {
    book.journal()
        .iter()
        .take_while(|line| is_head(&line.event))
        .count()
}

/// What a person is told where a server goes on without `restart`, as before its stop; nothing where its partner came
/// meanwhile and all is well.
pub fn going_on(book: &Book) -> Option<LogEvent> {
    match (book.down(), book.next_mark(0)) {
        (Some(since), _) => Some(LogEvent::GoesOnAlone { since }),
        (None, Some(_)) => Some(LogEvent::MarkedGoesOn),
        (None, None) => None,
    }
}

/// How the journal is, by whether the server may serve.
pub fn journal_of(service: &ServiceState) -> JournalState
    ensures { result ≡ JournalState.Whole ↔ (IsShut service.now → ⊥) }
{
    match service {
        ServiceState::Open | ServiceState::HoldsOff { .. } => JournalState::Whole,
        ServiceState::Shut(ShutReason::PartnerServes) => {
            JournalState::Older(JournalShortage::PartnerServes)
        }
        ServiceState::Shut(ShutReason::Journal(shortage)) => {
            JournalState::Older(shortage_of(shortage))
        }
    }
}

/// What the partner knows more of the journal.
fn shortage_of(shortage: &SessionShortage) -> JournalShortage {
    match shortage {
        SessionShortage::Messages { taken, sent } => JournalShortage::Messages {
            taken: *taken,
            sent: *sent,
        },
        SessionShortage::Change {
            prefix,
            taken,
            made,
        } => JournalShortage::Change {
            prefix: *prefix,
            taken: *taken,
            made: *made,
        },
    }
}

/// How far a book's volume has grown, which begins with so many head lines.
pub fn growth_of(book: &Book, head_lines: usize, now: Reading) -> Growth
    ensures lines { result.lines ≡ length book.now.lines }
    ensures head { result.head_lines ≡ head_lines }
    ensures spoken { result.spoken ≡ last_spoken now book.now.lines }
{
    let lines = book.journal();
    Growth {
        lines: lines.len(),
        head_lines,
        opened: lines.first().map_or(now, |line| line.reading),
        spoken: last_spoken(lines, now),
    }
}

/// How the open volume is.
pub fn volume_of(book: &Book, kept: usize, growth: &Growth, owed: &DueActions) -> VolumeStatus {
    VolumeStatus {
        number: book.head().volume(),
        lines: growth.lines,
        synced: kept,
        opened: growth.opened,
        written: book
            .journal()
            .last()
            .map_or(growth.opened, |line| line.reading),
        roll: owed.roll,
        room: owed.room,
    }
}

/// The first volume of a server, which has yet to begin it.
pub fn first_volume(now: Reading) -> VolumeStatus {
    VolumeStatus {
        number: 1,
        lines: 0,
        synced: 0,
        opened: now,
        written: now,
        roll: RollState::NotDue,
        room: Room::Enough,
    }
}

/// The name and the version of the partner's program.
fn program_words(program: &PartnerProgram) -> Option<(&str, &str)> {
    let name = str::from_utf8(program.name.as_bytes()).ok()?;
    let version = str::from_utf8(program.version.as_bytes()).ok()?;
    Some((name, version))
}

/// What the partner told beside the frames.
pub fn notices_of<D: ConnectionSource>(partner: &PartnerEndpoint<D>) -> PartnerNotices<'_> {
    PartnerNotices {
        state: partner.notices(),
        program: partner.partner_program().and_then(program_words),
        clock: partner.clock_range(),
        verdict: partner.verdict(),
        settings: partner.differences(),
    }
}

/// Returns whether a line of a book shows that its partner has other settings: a unit is asked back whose move the
/// partner refused, or the partner told of one that isn't there.
pub fn shows_other_settings(book: &Book, line: &Line) -> bool {
    match &line.event {
        Event::Reclaim(_) => true,
        Event::Take(message) => match &message.body {
            Body::Update(update) => book.unit(update.prefix).is_none(),
            Body::Reply(_) | Body::Contact { .. } => false,
        },
        _ => false,
    }
}
