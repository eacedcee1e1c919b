//! Whether a server has a partner, by its settings and by its lines; and whether it goes on without `restart`.

ghost use Rattle.std.specs.Prelude.{◌≡◌, IsTrue, OnOk, false};
ghost use Rattle.order_book.specs.Replayed.{state_of};
ghost use Rattle.folder_start.specs.Pairing.{shows_partner, show_partner, shows_no_partner, is_alone};
ghost use Rattle.folder_start.specs.Pairing.{IsSurvivor, GoesOn, StepGoesOn, StartGoesOn, CanBeAnswered, StepCanBeAnswered};
ghost use Rattle.folder_start.specs.Pairing.{shows_lease, show_lease};
ghost use Rattle.folder_start.specs.declared.pairing.Pairing.TheVariants.{Alone};

use crate::failing::StartFailure;
use binding_rules::Counter;
use journal_lines::{Event, Line};
use order_book::Book;
use server_start::StartAction;
use volume_store::ResumeStep;

/// Whether a server has a partner.
#[derive(Clone, Copy, Debug, PartialEq, Eq)]
pub enum Pairing {
    Paired,
    /// Its settings say that it has none.
    Alone,
}

/// Returns whether a line shows that its server has had a partner: it sends or takes a message, or an earlier volume
/// did, or waits for an answer.
fn shows_partner(event: &Event) -> bool
    ensures { result ≡ shows_partner event.now }
{
    match event {
        Event::Send(_) | Event::Take(_) => true,
        Event::Base(numbers) => numbers.serial > Counter::ZERO || numbers.waiting,
        _ => false,
    }
}

/// Returns whether one of these lines shows a partner.
fn show_partner(lines: &[Line]) -> bool
    ensures { result ≡ show_partner lines.now }
{
    lines.iter().any(|line| shows_partner(&line.event))
}

/// Returns whether a book shows no partner: none of its lines does, and none is taken for down.
fn shows_no_partner(book: &Book) -> bool
    ensures { result ≡ shows_no_partner book.now }
{
    book.down().is_none() && !show_partner(book.journal())
}

/// Returns whether a server is alone with a book: it has no partner and never had one by its lines, so that nobody can
/// have taken it for down meanwhile.
fn is_alone(book: &Book, pairing: Pairing) -> bool
    ensures { result ≡ is_alone pairing book.now }
{
    match pairing {
        Pairing::Alone => shows_no_partner(book),
        Pairing::Paired => false,
    }
}

/// Returns whether a server with this book is a survivor: its partner is taken for down, or a unit is marked.
#[tactic(auto, using(crate::proofs::Surviving::by_down, crate::proofs::Surviving::by_mark, crate::proofs::Surviving::by_none))]
pub fn is_survivor(book: &Book) -> bool
    ensures yes { IsTrue result → IsSurvivor book.now }
    ensures no { result ≡ false → IsSurvivor book.now → ⊥ }
{
    match book.down() {
        Some(_) => true,
        None => match book.next_mark(0) {
            Some(_) => true,
            None => false,
        },
    }
}

/// Returns whether a server goes on with a book as it is: a survivor, or one that is alone.
#[tactic(auto, using(crate::proofs::Surviving::survivor_goes_on, crate::proofs::Surviving::alone_goes_on, crate::proofs::Surviving::neither_goes_on))]
fn goes_on(book: &Book, pairing: Pairing) -> bool
    ensures yes { IsTrue result → GoesOn pairing book.now }
    ensures no { result ≡ false → GoesOn pairing book.now → ⊥ }
{
    if is_survivor(book) {
        return true;
    }
    is_alone(book, pairing)
}

/// Returns whether a server goes on without `restart` with the open book that its folder leads to.
pub(crate) fn step_goes_on(step: &ResumeStep, pairing: Pairing) -> bool
    ensures yes { IsTrue result → StepGoesOn pairing step.now }
    ensures no { result ≡ false → StepGoesOn pairing step.now → ⊥ }
{
    match step {
        ResumeStep::GoOn(book) => goes_on(book, pairing),
        ResumeStep::BeginFirst | ResumeStep::End(_) | ResumeStep::BeginNext(_) => false,
    }
}

/// Returns whether the settings say that there is no partner.
fn is_lone(pairing: Pairing) -> bool
    ensures yes { IsTrue result → pairing ≡ Alone }
    ensures no { result ≡ false → pairing ≡ Alone → ⊥ }
{
    match pairing {
        Pairing::Alone => true,
        Pairing::Paired => false,
    }
}

/// Returns whether no line `restart` follows what a server begins with. A book that goes on has had its line.
pub(crate) fn start_goes_on(start: &StartAction, pairing: Pairing) -> bool
    ensures yes { IsTrue result → StartGoesOn pairing start.now }
    ensures no { result ≡ false → StartGoesOn pairing start.now → ⊥ }
{
    match start {
        StartAction::End(book) | StartAction::Next(book) => goes_on(book, pairing),
        StartAction::First => is_lone(pairing),
        StartAction::GoOn(_) => true,
    }
}

/// Returns whether a line shows that there may be leases: of its own volume, of one before, or of a partner that was
/// given units or talked to.
fn shows_lease(event: &Event) -> bool
    ensures { result ≡ shows_lease event.now }
{
    match event {
        Event::Grant(_) | Event::Carry(_) | Event::Unit(_) => true,
        Event::Backup(_) | Event::Send(_) | Event::Take(_) => true,
        _ => false,
    }
}

/// Returns whether one of these lines shows that there may be leases.
fn show_lease(lines: &[Line]) -> bool
    ensures { result ≡ show_lease lines.now }
{
    lines.iter().any(|line| shows_lease(&line.event))
}

/// Refuses a book that waits for its partner's answer: `NeverAnswered` where none of its lines shows that there may be
/// leases, else `WaitsForPartner`.
fn not_waiting(book: &Book) -> Result<(), StartFailure>
    ensures { OnOk result ((state_of book.now).waiting ≡ false) }
{
    if !book.waiting() {
        return Ok(());
    }
    if show_lease(book.journal()) {
        Err(StartFailure::WaitsForPartner)
    } else {
        Err(StartFailure::NeverAnswered)
    }
}

/// Refuses such a book to a server that has no partner.
fn answerable(book: &Book, pairing: Pairing) -> Result<(), StartFailure>
    ensures { OnOk result (CanBeAnswered pairing book.now) }
{
    match pairing {
        Pairing::Alone => not_waiting(book),
        Pairing::Paired => Ok(()),
    }
}

/// Refuses to go on with what a folder leads to where it waits for an answer that nobody can give.
pub(crate) fn step_answerable(step: &ResumeStep, pairing: Pairing) -> Result<(), StartFailure>
    ensures { OnOk result (StepCanBeAnswered pairing step.now) }
{
    match step {
        ResumeStep::BeginFirst => Ok(()),
        ResumeStep::GoOn(book) | ResumeStep::End(book) | ResumeStep::BeginNext(book) => {
            answerable(book, pairing)
        }
    }
}
