//! Asking two journals who held a prefix.

ghost use Rattle.std.specs.Prelude.{◌≡◌, IfOk, IfErr};
ghost use Rattle.std.specs.Result.{ForOk};
ghost use Rattle.journal_text.specs.Closed.{IsClosed};
ghost use Rattle.attribution_desk.specs.Case.{IsCaseOf};
ghost use Rattle.attribution_desk.specs.declared.search.Search.TheVariants.{Who};
ghost use Rattle.attribution_desk.specs.Searching.{IsAsked};
ghost use Rattle.holder_answers.specs.HolderAnswers.{search_of, IsNoHolder, IsReasoned, IsAnswerOver, IsHolderAnswer};

use crate::answer::{HolderAnswer, NoHolder};
use attribution::Verdict;
use attribution_desk::{
    DeskError, Finding, IndexedPair, ReadPair, Search, SearchAnswer, search_open,
};
use binding_rules::Role;
use candidate_leases::{VolumeEnds, candidate_leases, no_holder_reason};
use desk_args::SettingsCheck;
use journal_lines::Journal;
use line_index::LineIndex;
use pair_judgement::Judgement;
use plain_search::HolderQuery;
use std::alloc::Global;
use std::thread::Threads;

/// Why nobody is named over an index of two journals.
fn no_holder(
    alloc: Global,
    index: &LineIndex,
    query: &HolderQuery,
    ends: VolumeEnds,
) -> Result<NoHolder, DeskError>
    ensures why { IfOk result (IsNoHolder index.now.journals query.now ends) }
    ensures refused { IfErr result (λ e. e ≡ DeskError.Memory) }
{
    let leases = candidate_leases(alloc, index, query)?;
    let why = no_holder_reason(index, &leases, query, ends);
    Ok(NoHolder { why, leases })
}

/// What a search answered over an index of two journals, and why nobody is named where it names nobody.
fn reasoned(
    alloc: Global,
    index: &LineIndex,
    answer: SearchAnswer,
    query: &HolderQuery,
    ends: VolumeEnds,
) -> Result<HolderAnswer, DeskError>
    ensures searched { IfOk result (λ reasoned. search_of reasoned ≡ answer) }
    ensures why { IfOk result (IsReasoned index.now.journals query.now ends) }
    ensures refused { IfErr result (λ e. e ≡ DeskError.Memory) }
{
    match answer {
        SearchAnswer::Refused(ruling) => Ok(HolderAnswer::Refused(ruling)),
        SearchAnswer::Found(Finding::Shown(certificate)) => Ok(HolderAnswer::Held(certificate)),
        SearchAnswer::Found(Finding::NoneFound) => {
            let none = no_holder(alloc, index, query, ends)?;
            Ok(HolderAnswer::NotNamed(none))
        }
        SearchAnswer::Found(Finding::TooLong) => {
            let none = no_holder(alloc, index, query, ends)?;
            Ok(HolderAnswer::TooLong(none))
        }
    }
}

/// Who held the prefix, by an index of two journals against which nothing stands: what forbids to ask this of them, or
/// what is found, or why nobody is named.
fn answer_open(
    alloc: Global,
    index: &LineIndex,
    primary: &Journal,
    secondary: &Journal,
    query: &HolderQuery,
    settings: SettingsCheck,
    ends: VolumeEnds,
) -> Result<HolderAnswer, DeskError>
    ensures asked { IfOk result (λ answer. IsAsked (Who query.now settings) primary.now secondary.now
        index.now.journals (search_of answer)) }
    ensures why { IfOk result (IsReasoned index.now.journals query.now ends) }
    ensures refused { IfErr result (λ e. e ≡ DeskError.Memory) }
{
    let search = Search::Who(*query, settings);
    let answer = search_open(alloc, index, primary, secondary, &search)?;
    reasoned(alloc, index, answer, query, ends)
}

/// Who held the prefix, over a case of the primary's journal and the secondary's that is built already. `ends` says
/// which of the journals are still being written. `Memory` where a growth was refused.
pub fn holder_answer_in(
    alloc: Global,
    case: &IndexedPair,
    primary: &Journal,
    secondary: &Journal,
    query: &HolderQuery,
    settings: SettingsCheck,
    ends: VolumeEnds,
) -> Result<HolderAnswer, DeskError>
    requires { IsCaseOf primary.now secondary.now query.now.skew case.now }
    ensures answer { IfOk result (IsAnswerOver primary.now secondary.now query.now settings ends) }
    ensures refused { IfErr result (λ e. e ≡ DeskError.Memory) }
{
    match case {
        IndexedPair::Open(index) => {
            answer_open(alloc, index, primary, secondary, query, settings, ends)
        }
        IndexedPair::Refused(ruling) => Ok(HolderAnswer::Refused(*ruling)),
    }
}

/// Who held the prefix, over the primary's journal and the secondary's, whose lines are indexed once. `ends` says which
/// of them are still being written. `Memory` where a growth was refused.
pub fn holder_answer_over(
    rt: &(impl Threads + Sync),
    alloc: Global,
    primary: &Journal,
    secondary: &Journal,
    query: &HolderQuery,
    settings: SettingsCheck,
    ends: VolumeEnds,
) -> Result<HolderAnswer, DeskError>
    requires primary_closed { IsClosed primary.now.lines }
    requires secondary_closed { IsClosed secondary.now.lines }
    ensures answer { IfOk result (IsAnswerOver primary.now secondary.now query.now settings ends) }
    ensures refused { IfErr result (λ e. e ≡ DeskError.Memory) }
{
    let case = IndexedPair::of(rt, alloc, primary, secondary, query.skew)?;
    holder_answer_in(alloc, &case, primary, secondary, query, settings, ends)
}

/// Who held the prefix, over two texts as journals: the first fault of these, or else what [`holder_answer_over`] says.
/// `Memory` where a growth was refused.
pub fn holder_answer(
    rt: &(impl Threads + Sync),
    alloc: Global,
    pair: &ReadPair,
    query: &HolderQuery,
    settings: SettingsCheck,
    ends: VolumeEnds,
) -> Result<HolderAnswer, DeskError>
    requires primary_closed { ForOk pair.now.primary (λ journal. IsClosed journal.lines) }
    requires secondary_closed { ForOk pair.now.secondary (λ journal. IsClosed journal.lines) }
    ensures answer { IfOk result (IsHolderAnswer pair.now.primary pair.now.secondary query.now settings ends) }
    ensures refused { IfErr result (λ e. e ≡ DeskError.Memory) }
{
    match (&pair.primary, &pair.secondary) {
        (Ok(primary), Ok(secondary)) => {
            holder_answer_over(rt, alloc, primary, secondary, query, settings, ends)
        }
        (Err(fault), _) => Ok(HolderAnswer::Refused(Judgement::Verdict(Verdict::Journal(
            Role::Primary,
            *fault,
        )))),
        (Ok(_), Err(fault)) => Ok(HolderAnswer::Refused(Judgement::Verdict(Verdict::Journal(
            Role::Secondary,
            *fault,
        )))),
    }
}
