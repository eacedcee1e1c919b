//! What a search of two journals answers, as a value and as it is written.

ghost use Rattle.std.specs.Prelude.{◌≡◌, IfOk, IfErr};
ghost use Rattle.attribution_desk.specs.Searching.{answer_text, TellsAnswer, Tells, status_of, note_of};

use crate::error::DeskError;
use crate::finding::Finding;
use crate::search::Search;
use pair_judgement::{Judgement, judgement_line};
use std::alloc::Global;

/// What a search of two journals answers.
#[derive(Debug, Drop)]
pub enum SearchAnswer {
    /// This stands against the two journals, or against asking this of them.
    Refused(Judgement),
    /// This is found in them.
    Found(Finding),
}

impl SearchAnswer {
    /// 0 where evidence was found, else 1.
    pub fn status(&self) -> u8
        ensures { result ≡ status_of self.now }
    {
        match self {
            SearchAnswer::Refused(ruling) => pair_judgement::status_of(ruling),
            SearchAnswer::Found(found) => found.status(),
        }
    }

    /// A line for standard error where evidence was found that isn't given, else nothing.
    pub fn note(&self) -> &'static [u8]
        ensures { result.now ≡ note_of self.now }
    {
        match self {
            SearchAnswer::Refused(_) => b"",
            SearchAnswer::Found(found) => found.note(),
        }
    }

    /// What `find` prints of it. `Memory` where a growth was refused.
    pub fn evidence_text(&self, alloc: Global) -> Result<Vec<u8>, DeskError>
        ensures told { IfOk result (λ text. text.items ≡ answer_text self.now) }
        ensures refused { IfErr result (λ e. e ≡ DeskError.Memory) }
    {
        match self {
            SearchAnswer::Refused(ruling) => Ok(judgement_line(alloc, ruling)?),
            SearchAnswer::Found(found) => found.evidence_text(alloc),
        }
    }

    /// What `who` prints of it. `Memory` where a growth was refused.
    pub fn holder_text(&self, alloc: Global) -> Result<Vec<u8>, DeskError>
        ensures told { IfOk result (λ text. TellsAnswer self.now text.items) }
        ensures refused { IfErr result (λ e. e ≡ DeskError.Memory) }
    {
        match self {
            SearchAnswer::Refused(ruling) => Ok(judgement_line(alloc, ruling)?),
            SearchAnswer::Found(found) => found.holder_text(alloc),
        }
    }

    /// What is printed of it where this was searched for. `Memory` where a growth was refused.
    pub fn text(&self, alloc: Global, search: &Search) -> Result<Vec<u8>, DeskError>
        ensures told { IfOk result (λ text. Tells search.now self.now text.items) }
        ensures refused { IfErr result (λ e. e ≡ DeskError.Memory) }
    {
        match search {
            Search::Find(_) => self.evidence_text(alloc),
            Search::Who(_, _) => self.holder_text(alloc),
        }
    }
}
