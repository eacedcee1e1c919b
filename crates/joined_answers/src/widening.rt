//! Who held a prefix at a moment, over the volumes that show it and earlier ones.

ghost use Rattle.std.specs.Prelude.{◌≡◌, ◌↔◌, ◌<◌, ◌^◌, ℕ, IsTrue, IfOk, IfErr};
ghost use Rattle.archive_files.specs.Rereading.{IsReadingRefusal};
ghost use Rattle.volume_spans.specs.Reading.{IsSpanRead};
ghost use Rattle.volume_spans.specs.Spans.{ArePairRead};
ghost use Rattle.joined_answers.specs.Reach.{reach, MayBeginEarlier};
ghost use Rattle.joined_answers.specs.declared.answer.SpannedAnswer.{SpannedAnswer as AnswerValue};
ghost use Rattle.joined_answers.specs.Answers.{IsSpanAnswer};
ghost use Rattle.joined_answers.specs.Widening.{IsWidenedWithin, AreWidenedWithin, MayWidenWithin, IsWiderTry, IsWidest};
ghost use Rattle.joined_answers.specs.Widening.{IsReply, IsOverSpans};

use crate::answer::{SpanTry, SpannedAnswer, answer_over, asks_further, fitting};
use crate::reach::{may_begin_earlier, reach_over};
use crate::starting::{MomentSpans, spans_at};
use archive_files::{FilesError, JournalFiles};
use binding_rules::Role;
use desk_args::SettingsCheck;
use journal_archive::{Archive, CoverageGap, FiledVolume};
use plain_search::HolderQuery;
use std::alloc::Global;
use std::thread::Threads;
use volume_spans::{JoinRefusal, ReadSpans, SpanReader};

/// What volumes answer to who held a prefix at a moment.
#[derive(Debug, Drop)]
pub enum SpanReply {
    Answered(SpannedAnswer),
    /// No volume of this side shows the moment, and why.
    Lacking(Role, CoverageGap),
    /// The moment lies in a roll, and the two volumes of it aren't one journal.
    Refused(JoinRefusal),
}

/// What comes of taking one volume more in front of each side.
#[derive(Debug, Drop)]
pub(crate) enum WiderTry {
    /// The wider spans, and the answer over them.
    Answered(ReadSpans, SpannedAnswer),
    /// Something stands against them.
    Refused,
}

/// Takes one volume more in front of a side, where a lease may have begun before its span.
fn widened_within<F: JournalFiles>(
    alloc: Global,
    files: &F,
    shelf: &[FiledVolume],
    span: SpanReader,
    at: u64,
    reach: u64,
) -> Result<SpanReader, FilesError>
    requires read { IsSpanRead (F.had files.now) shelf.now span }
    requires fits { reach < 2 ^ 63 }
    ensures read { IfOk result (IsSpanRead (F.had files.now) shelf.now) }
    ensures widened { IfOk result (IsWidenedWithin at reach span) }
    ensures refused { IfErr result (IsReadingRefusal (F.had files.now)) }
{
    if may_begin_earlier(at, reach, &span) {
        return span.widened(alloc, files, shelf);
    }
    Ok(span)
}

/// Takes one volume more in front of each side, where a lease may have begun before its span. `OtherHead`, `Changed` and
/// `Memory` as of [`SpanReader::widened`].
pub fn both_widened<F: JournalFiles>(
    alloc: Global,
    files: &F,
    archive: &Archive,
    read: ReadSpans,
    query: &HolderQuery,
) -> Result<ReadSpans, FilesError>
    requires { ArePairRead (F.had files.now) archive.now read }
    ensures read { IfOk result (ArePairRead (F.had files.now) archive.now) }
    ensures widened { IfOk result (AreWidenedWithin query.now.at (reach query.now read) read) }
    ensures refused { IfErr result (IsReadingRefusal (F.had files.now)) }
{
    let at = query.at.milliseconds();
    let reach = reach_over(query, &read);
    let ReadSpans { primary, secondary } = read;
    let shelf = archive.primary.volumes();
    let primary = widened_within(alloc, files, shelf, primary, at, reach)?;
    let shelf = archive.secondary.volumes();
    let secondary = widened_within(alloc, files, shelf, secondary, at, reach)?;
    Ok(ReadSpans { primary, secondary })
}

/// Asks the journals of spans with one volume more in front of each side. `Changed` where a file isn't what the archive
/// knows of it, `Memory` where a growth was refused.
fn wider_try<F: JournalFiles>(
    rt: &(impl Threads + Sync),
    alloc: Global,
    files: &F,
    archive: &Archive,
    read: ReadSpans,
    query: &HolderQuery,
    settings: SettingsCheck,
) -> Result<WiderTry, FilesError>
    requires { ArePairRead (F.had files.now) archive.now read }
    ensures { IfOk result (IsWiderTry (F.had files.now) archive.now query.now settings read) }
{
    let wider = match both_widened(alloc, files, archive, read, query) {
        Ok(wider) => wider,
        Err(FilesError::OtherHead { .. }) => return Ok(WiderTry::Refused),
        Err(error) => return Err(error),
    };
    let tried = answer_over(rt, alloc, &wider, query, settings)?;
    match fitting(tried) {
        Some(answer) => Ok(WiderTry::Answered(wider, answer)),
        None => Ok(WiderTry::Refused),
    }
}

/// Returns whether a lease that may last at the moment may have begun before the span of a side.
pub fn may_widen(query: &HolderQuery, read: &ReadSpans) -> bool
    ensures { IsTrue result ↔ MayWidenWithin query.now.at (reach query.now read.now) read.now }
{
    let at = query.at.milliseconds();
    let reach = reach_over(query, read);
    may_begin_earlier(at, reach, &read.primary) || may_begin_earlier(at, reach, &read.secondary)
}

/// Widens spans for as long as earlier volumes may say more, and returns the last answer.
#[tactic(auto, using(crate::proofs::Walk::begun_so, crate::proofs::Walk::over_spans))]
fn widest<F: JournalFiles>(
    rt: &(impl Threads + Sync),
    alloc: Global,
    files: &F,
    archive: &Archive,
    begun: ReadSpans,
    first: SpannedAnswer,
    query: &HolderQuery,
    settings: SettingsCheck,
) -> Result<SpannedAnswer, FilesError>
    requires read { ArePairRead (F.had files.now) archive.now begun }
    requires answer { IsSpanAnswer begun query.now settings first }
    ensures widest { IfOk result (λ last. (times : ℕ)
        × IsWidest (F.had files.now) archive.now query.now settings times begun first last) }
    ensures over { IfOk result (IsOverSpans (F.had files.now) archive.now query.now settings) }
{
    let mut read = begun;
    let mut last = first;
    while asks_further(&last.answer) && may_widen(query, &read) {
        match wider_try(rt, alloc, files, archive, read, query, settings)? {
            WiderTry::Answered(wider, answer) => {
                read = wider;
                last = answer;
            }
            WiderTry::Refused => return Ok(last),
        }
    }
    Ok(last)
}

/// Who held the prefix at the moment: over the volumes that show it, and where nobody is named and a lease may have
/// begun before these over earlier ones too, one more of each side at a time. They are taken as far as a lease that
/// lasts at the moment may have begun by the settings of the volumes, and as long as nothing stands against them.
///
/// `OtherHead` where a volume that shows the moment, or the one after it, begins otherwise than the one before it names;
/// `Changed` where a file isn't what the archive knows of it, `Faulty` where a volume that shows the moment is no journal,
/// `Memory` where a growth was refused.
pub fn holder_over_spans<F: JournalFiles>(
    rt: &(impl Threads + Sync),
    alloc: Global,
    files: &F,
    archive: &Archive,
    query: &HolderQuery,
    settings: SettingsCheck,
) -> Result<SpanReply, FilesError>
    ensures reply { IfOk result (IsReply (F.had files.now) archive.now query.now settings) }
    // A name is given over the journals of spans that were read.
    ensures over { IfOk result (λ reply. (a : AnswerValue) → reply ≡ SpanReply.Answered a
        → IsOverSpans (F.had files.now) archive.now query.now settings a) }
{
    let read = match spans_at(alloc, files, archive, query)? {
        MomentSpans::Read(read) => read,
        MomentSpans::Lacking(side, gap) => return Ok(SpanReply::Lacking(side, gap)),
    };
    match answer_over(rt, alloc, &read, query, settings)? {
        SpanTry::Answered(first) => {
            let last = widest(rt, alloc, files, archive, read, first, query, settings)?;
            Ok(SpanReply::Answered(last))
        }
        SpanTry::Refused(refusal) => Ok(SpanReply::Refused(refusal)),
    }
}
