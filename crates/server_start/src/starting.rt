//! What a server does at its start.

ghost use Rattle.std.specs.Prelude.{◌≡◌, ◌≤◌, IfOk, IfErr, IsOk, OnOk};
ghost use Rattle.server_start.specs.declared.error.StartError.TheVariants.{NoTransit};
ghost use Rattle.order_book.specs.Replayed.{state_of};
ghost use Rattle.order_book.specs.Answer.{IsRefusal};
ghost use Rattle.server_start.specs.Starting.{HasRestarted, MayStart, IsNotFit, IsGoneOn, IsNotGoneOn, IsFollowed};
ghost use Rattle.server_start.specs.Starting.{IsNotFollowed, IsStart, IsNoStart, MayBegin, IsNoBeginning};

use crate::clock::reading_ahead;
use crate::error::StartError;
use crate::opened_settings::opening_of;
use crate::setting::DifferingSettings;
use lead_time::{Reading, Transit};
use order_book::{Book, BookError, Order};
use server_settings::Settings;
use std::alloc::Global;
use volume_store::ResumeStep;

/// What a server does at its start.
#[derive(Drop)]
pub enum StartAction {
    /// Nobody was told of any volume: the first book is opened now (`volume_store::begin_first`).
    First,
    /// This book goes on: its last line is `restart`, which its file lacks.
    GoOn(Book),
    /// This closed book's volume lacks its end line: it is ended and followed (`volume_store::roll`), and the next
    /// one's first order is `restart`.
    End(Book),
    /// This closed book's volume has ended: it is followed (`volume_store::begin_next`), and the next one's first order
    /// is `restart`.
    Next(Book),
}

/// The book of a server that begins again: with one line more, `restart`, at `now` or at the reading of the last line
/// where the clock fell behind it. The book's own refusals: `NotServing` of a closed one, `Full`, `Rule`, `Memory`.
pub fn restart(mut book: Book, now: Reading) -> Result<Book, BookError>
    ensures restarted { IfOk result (HasRestarted book now) }
    ensures refused { IfErr result (IsRefusal (state_of book) now Order.Restart) }
{
    match book.apply(now, &Order::Restart) {
        Ok(_) => Ok(book),
        Err(error) => Err(error),
    }
}

/// Asks whether a book may be started with, by the settings first and then by the clock: `Settings`, `ClockBehind`;
/// `Memory` where a growth was refused.
pub fn may_start(
    alloc: Global,
    book: &Book,
    settings: &Settings,
    now: Reading,
) -> Result<(), StartError>
    ensures may { OnOk result (MayStart settings.now book.now now) }
    ensures refused { IfErr result (IsNotFit settings.now book.now now) }
{
    let opening = opening_of(alloc, book)?;
    let differing = DifferingSettings::of(settings, &opening);
    if differing.is_any() {
        return Err(StartError::Settings { differing, opening });
    }
    match reading_ahead(book, now, settings.skew()) {
        Some(last) => Err(StartError::ClockBehind { now, last }),
        None => Ok(()),
    }
}

/// Asks whether a first volume may be begun by these settings: `NoTransit`.
fn may_open(settings: &Settings) -> Result<(), StartError>
    ensures may { IsOk result → 1 ≤ settings.now.transit }
    ensures refused { IfErr result (λ e. (e ≡ NoTransit) × (settings.now.transit ≡ 0)) }
{
    if settings.transit() == Transit::ZERO {
        Err(StartError::NoTransit)
    } else {
        Ok(())
    }
}

/// Asks of settings and clock whether a server may start with what its folder led to, before anything is changed:
/// `NoTransit` where there is no volume, else `Settings`, `ClockBehind`; `Memory` where a growth was refused.
pub fn may_begin(
    alloc: Global,
    step: &ResumeStep,
    settings: &Settings,
    now: Reading,
) -> Result<(), StartError>
    ensures may { OnOk result (MayBegin settings.now now step.now) }
    ensures refused { IfErr result (IsNoBeginning settings.now now step.now) }
{
    match step {
        ResumeStep::BeginFirst => may_open(settings),
        ResumeStep::GoOn(book) | ResumeStep::End(book) | ResumeStep::BeginNext(book) => {
            may_start(alloc, book, settings, now)
        }
    }
}

/// The book that goes on.
fn gone_on(alloc: Global, book: Book, settings: &Settings, now: Reading) -> Result<Book, StartError>
    ensures goes_on { IfOk result (IsGoneOn settings.now book now) }
    ensures refused { IfErr result (IsNotGoneOn settings.now book now) }
{
    may_start(alloc, &book, settings, now)?;
    match restart(book, now) {
        Ok(book) => Ok(book),
        Err(BookError::Memory) => Err(StartError::Memory),
        Err(error) => Err(StartError::Refused(error)),
    }
}

/// The closed book whose volume is to be followed.
fn followed(
    alloc: Global,
    book: Book,
    settings: &Settings,
    now: Reading,
) -> Result<Book, StartError>
    ensures followed { IfOk result (IsFollowed settings.now book now) }
    ensures refused { IfErr result (IsNotFollowed settings.now book now) }
{
    may_start(alloc, &book, settings, now)?;
    if book.can_roll() {
        Ok(book)
    } else {
        Err(StartError::NoVolumeFollows)
    }
}

/// What a server of these settings does at a start with what its folder led to, where its clock reads `now`.
///
/// The refusals, in their order: `Settings`, `ClockBehind`, then `Refused` of a book that would go on and
/// `NoVolumeFollows` of a closed one; `Memory` where a growth was refused. Where there is no volume `NoTransit` alone.
pub fn start_with(
    alloc: Global,
    step: ResumeStep,
    settings: &Settings,
    now: Reading,
) -> Result<StartAction, StartError>
    ensures start { IfOk result (IsStart settings.now now step) }
    ensures refused { IfErr result (IsNoStart settings.now now step) }
{
    match step {
        ResumeStep::BeginFirst => {
            may_open(settings)?;
            Ok(StartAction::First)
        }
        ResumeStep::GoOn(book) => Ok(StartAction::GoOn(gone_on(alloc, book, settings, now)?)),
        ResumeStep::End(book) => Ok(StartAction::End(followed(alloc, book, settings, now)?)),
        ResumeStep::BeginNext(book) => Ok(StartAction::Next(followed(alloc, book, settings, now)?)),
    }
}
