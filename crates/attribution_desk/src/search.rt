//! What is searched for in two journals.

ghost use Rattle.std.specs.Prelude.{◌≡◌, IfOk, IfErr, MatchOption};
ghost use Rattle.attribution_desk.specs.Searching.{skew_of, transit_of, Forbids, Allows};
ghost use Rattle.attribution_desk.specs.Warnings.{WarnsOf};

use crate::error::DeskError;
use crate::outcome::warnings_on;
use crate::pair_intake::ReadPair;
use desk_args::SettingsCheck;
use evidence_search::{HolderQuery, Query};
use journal_lines::Journal;
use lead_time::{Skew, Transit};
use pair_judgement::{Judgement, objection};
use std::alloc::Global;

/// The kinds of searches of two journals.
#[derive(Clone, Copy, Debug)]
pub enum Search {
    /// The evidence of what is asked.
    Find(Query),
    /// The client that held a prefix at a moment; where the settings must agree, over journals that they tie together.
    Who(HolderQuery, SettingsCheck),
}

impl Search {
    /// The skew that is asked with.
    pub fn skew(&self) -> Skew
        ensures { result ≡ skew_of self.now }
    {
        match self {
            Search::Find(query) => query.skew,
            Search::Who(query, _) => query.skew,
        }
    }

    /// The transit that is asked with.
    pub fn transit(&self) -> Transit
        ensures { result ≡ transit_of self.now }
    {
        match self {
            Search::Find(query) => query.transit,
            Search::Who(query, _) => query.transit,
        }
    }

    /// Returns what forbids to ask this of the two journals.
    pub(crate) fn forbidden(&self, primary: &Journal, secondary: &Journal) -> Option<Judgement>
        ensures { MatchOption result (Allows self.now primary.now secondary.now)
            (Forbids self.now primary.now secondary.now) }
    {
        match self {
            Search::Who(query, SettingsCheck::MustAgree) => {
                objection(primary, secondary, query.skew, query.transit)
            }
            Search::Who(_, SettingsCheck::MayDiffer) => None,
            Search::Find(_) => None,
        }
    }

    /// The warnings for who asks this of what two texts are as journals. `Memory` where a growth was refused.
    pub fn warnings(&self, alloc: Global, pair: &ReadPair) -> Result<Vec<u8>, DeskError>
        ensures warned { IfOk result (λ text. WarnsOf self.now pair.now.primary pair.now.secondary text.items) }
        ensures refused { IfErr result (λ e. e ≡ DeskError.Memory) }
    {
        match self {
            Search::Find(query) => {
                warnings_on(
                    alloc,
                    &pair.primary,
                    &pair.secondary,
                    query.skew,
                    query.transit,
                )
            }
            Search::Who(_, _) => Ok(Vec::new(alloc)),
        }
    }
}
