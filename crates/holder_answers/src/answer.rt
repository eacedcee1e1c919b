//! The answer to who held a prefix, as a value and as it is written.

ghost use Rattle.std.specs.Prelude.{◌≡◌, IfOk, IfErr};
ghost use Rattle.attribution_desk.specs.Searching.{TellsAnswer, status_of, note_of};
ghost use Rattle.holder_answers.specs.HolderAnswers.{search_of};

use attribution_desk::{DeskError, held_text, none_line, over_limits};
use candidate_leases::{CandidateLease, NoHolderReason};
use causal_order::Certificate;
use pair_judgement::{Judgement, judgement_line};
use std::alloc::Global;

/// Why nobody is named.
#[derive(Debug, Drop)]
pub struct NoHolder {
    pub why: NoHolderReason,
    /// The delegations of addresses of the prefix near the moment.
    pub leases: Vec<CandidateLease>,
}

/// What the desk answers to who held a prefix at a moment.
#[derive(Debug, Drop)]
pub enum HolderAnswer {
    /// The client that this certificate names held it, as it shows.
    Held(Certificate),
    /// This stands against the two journals, or against asking this of them.
    Refused(Judgement),
    /// Nobody is shown to have held it.
    NotNamed(NoHolder),
    /// Evidence was found that has more lines than a certificate may have.
    TooLong(NoHolder),
}

impl HolderAnswer {
    /// 0 where a client is named, else 1.
    pub fn status(&self) -> u8
        ensures { result ≡ status_of (search_of self.now) }
    {
        match self {
            HolderAnswer::Held(_) => 0,
            HolderAnswer::Refused(ruling) => pair_judgement::status_of(ruling),
            HolderAnswer::NotNamed(_) => 1,
            HolderAnswer::TooLong(_) => 1,
        }
    }

    /// A line for standard error where evidence was found that isn't given, else nothing.
    pub fn note(&self) -> &'static [u8]
        ensures { result.now ≡ note_of (search_of self.now) }
    {
        match self {
            HolderAnswer::Held(_) => b"",
            HolderAnswer::Refused(_) => b"",
            HolderAnswer::NotNamed(_) => b"",
            HolderAnswer::TooLong(_) => over_limits(),
        }
    }

    /// What `who` prints: who held the prefix and when, in three lines, and the certificate behind them; or the line of
    /// what stands against it; or `none`. `Memory` where a growth was refused.
    pub fn text(&self, alloc: Global) -> Result<Vec<u8>, DeskError>
        ensures told { IfOk result (λ text. TellsAnswer (search_of self.now) text.items) }
        ensures refused { IfErr result (λ e. e ≡ DeskError.Memory) }
    {
        match self {
            HolderAnswer::Held(certificate) => held_text(alloc, certificate),
            HolderAnswer::Refused(ruling) => Ok(judgement_line(alloc, ruling)?),
            HolderAnswer::NotNamed(_) => Ok(none_line(alloc)?),
            HolderAnswer::TooLong(_) => Ok(none_line(alloc)?),
        }
    }
}
