//! Standard input in chunks.

ghost use Rattle.std.specs.Prelude.{◌≡◌, ℕ, List, []};
ghost use Rattle.std.specs.Result.{ForOk};
ghost use Rattle.binding_rules.specs.declared.role.Role.TheVariants.{Primary as A, Secondary as B};
ghost use Rattle.journal_text.specs.Closed.{IsClosed};
ghost use Rattle.journal_text.specs.Faults.{journal_of_side};
ghost use Rattle.attribution_desk.specs.Input.{first_text, text_behind};
ghost use Rattle.attribution_desk.specs.Intake.{IntakeHasTaken};

use crate::chunk_sink::ChunkSink;
use crate::error::DeskError;
use crate::journal_intake::JournalIntake;
use binding_rules::Role;
use journal_text::{Journal, JournalFault, text_gives_what_it_spells, written_is_closed};
use std::alloc::Global;
use std::thread::Threads;

/// The input's three texts, journal A, journal B and what follows them, as far as they have come: the lines of the
/// journals, and the octets of the rest.
#[derive(Drop)]
pub struct Intake {
    primary: JournalIntake,
    secondary: JournalIntake,
    certificate: Vec<u8>,
}

/// The first two texts as journals, or their first faults, and the octets that follow.
#[derive(Drop)]
pub struct ReadInput {
    pub primary: Result<Journal, JournalFault>,
    pub secondary: Result<Journal, JournalFault>,
    pub rest: Vec<u8>,
}

impl Intake {
    /// An intake that has taken nothing.
    pub fn new(alloc: Global) -> Intake
        ensures { IntakeHasTaken result [] }
    {
        Intake {
            primary: JournalIntake::new(alloc, Role::Primary),
            secondary: JournalIntake::new(alloc, Role::Secondary),
            certificate: Vec::new(alloc),
        }
    }

    /// The journals of the input that was taken, and what follows them.
    pub fn finish(self) -> ReadInput
        // What was made by `new` and `take_chunk` has taken some input.
        requires { (input : List ℕ) × IntakeHasTaken self input }
        ensures primary { (input : List ℕ) → IntakeHasTaken self input
            → result.primary ≡ journal_of_side A (first_text input) }
        ensures secondary { (input : List ℕ) → IntakeHasTaken self input
            → result.secondary ≡ journal_of_side B (first_text (text_behind input)) }
        ensures rest { (input : List ℕ) → IntakeHasTaken self input
            → result.rest.items ≡ text_behind (text_behind input) }
        ensures primary_closed { ForOk result.primary (λ journal. IsClosed journal.lines) }
        ensures secondary_closed { ForOk result.secondary (λ journal. IsClosed journal.lines) }
    {
        text_gives_what_it_spells();
        written_is_closed();
        ReadInput {
            primary: self.primary.finish(),
            secondary: self.secondary.finish(),
            rest: self.certificate,
        }
    }
}

impl ChunkSink for Intake {
    ghost has_taken = { IntakeHasTaken };

    // A journal's fault is kept, and what follows is still taken.
    fn take_chunk<H: Threads + Sync>(
        self,
        rt: &H,
        halvings: u32,
        chunk: &[u8],
    ) -> Result<Intake, DeskError> {
        let mut intake = self;
        let primary = intake.primary.feed(rt, halvings, chunk)?;
        let rest = &chunk[primary..];
        let secondary = intake.secondary.feed(rt, halvings, rest)?;
        intake.certificate.extend_from_slice(&rest[secondary..])?;
        Ok(intake)
    }
}
