//! Two journals of the input, in chunks.

ghost use Rattle.std.specs.Prelude.{◌≡◌, List, ℕ, []};
ghost use Rattle.binding_rules.specs.declared.role.Role.TheVariants.{Primary as A, Secondary as B};
ghost use Rattle.journal_text.specs.Faults.{journal_of_side};
ghost use Rattle.attribution_desk.specs.Input.{first_text, text_behind};
ghost use Rattle.attribution_desk.specs.Intake.{HasTakenPair, TakesOn};

use crate::chunk_sink::ChunkSink;
use crate::error::DeskError;
use crate::journal_intake::{JournalIntake, read_on};
use binding_rules::Role;
use journal_text::{Journal, JournalFault, Reader};
use std::alloc::Global;
use std::thread::Threads;

/// Journal A and, behind it, journal B, as far as they have come: B's text is all that follows A's.
#[derive(Drop)]
pub struct PairIntake {
    primary: JournalIntake,
    secondary: Reader,
}

/// Two texts as journals, or their first faults.
#[derive(Drop)]
pub struct ReadPair {
    pub primary: Result<Journal, JournalFault>,
    pub secondary: Result<Journal, JournalFault>,
}

impl PairIntake {
    /// An intake that has taken nothing.
    pub fn new(alloc: Global) -> PairIntake
        ensures { HasTakenPair result [] }
    {
        PairIntake {
            primary: JournalIntake::new(alloc, Role::Primary),
            secondary: Reader::of_side(alloc, Role::Secondary),
        }
    }

    /// The journals of the input that was taken.
    pub fn finish(self) -> ReadPair
        ensures primary { (input : List ℕ) → HasTakenPair self input
            → result.primary ≡ journal_of_side A (first_text input) }
        ensures secondary { (input : List ℕ) → HasTakenPair self input
            → result.secondary ≡ journal_of_side B (text_behind input) }
    {
        ReadPair {
            primary: self.primary.finish(),
            secondary: self.secondary.finish(),
        }
    }
}

impl ChunkSink for PairIntake {
    ghost has_taken = { HasTakenPair };

    fn take_chunk<H: Threads + Sync>(
        self,
        rt: &H,
        halvings: u32,
        chunk: &[u8],
    ) -> Result<PairIntake, DeskError> {
        let mut intake = self;
        let primary = intake.primary.feed(rt, halvings, chunk)?;
        read_on(rt, halvings, &mut intake.secondary, &chunk[primary..])?;
        Ok(intake)
    }
}
