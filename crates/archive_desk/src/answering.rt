//! Answering a question over files.

ghost use Rattle.std.specs.Prelude.{◌≡◌, IfOk};
ghost use Rattle.archive_desk.specs.Answering.{agreement_for, agreement_of, IsAnswerOver, IsFilesAnswer};
ghost use Rattle.archive_desk.specs.Answering.{IsAnswerTold, IsTold};

use crate::certificates::{JudgedAnswer, audit, batch};
use crate::command_output::CommandOutput;
use crate::coverage_gaps::TimingBounds;
use crate::holding::{WhoAnswer, who};
use crate::newest::{TimelineAnswer, timeline};
use crate::passing::passed_over;
use crate::stretches::{FindAnswer, find};
use crate::unread::expect_read;
use access_records::AccessTexts;
use archive_files::{FilesError, JournalFiles, SettingsScope, SkippedFile, catalogue_of};
use desk_args::{NoteDetail, SettingsCheck, Workers};
use evidence_search::{HolderQuery, Query};
use journal_archive::Archive;
use lead_time::{Skew, Transit};
use std::alloc::Global;
use std::path::PathBuf;
use std::sync::Wait;
use std::thread::Threads;

/// What is asked over files.
#[derive(Clone, Copy, Debug)]
pub enum ArchiveQuestion<'a> {
    /// Who held a prefix at a moment; where the settings must agree, over journals that they tie together.
    Who(HolderQuery, SettingsCheck),
    /// The evidence that a client held a prefix over an interval.
    Find(Query),
    /// The lines of the newest pair of volumes.
    Timeline,
    /// The verdict on a text's one certificate.
    Audit(&'a [u8], Skew, Transit),
    /// The verdicts on the certificates of a text, one after another, by so many workers.
    Batch(&'a [u8], Skew, Transit, Workers),
}

/// What files answer, of one kind for each question.
#[derive(Debug, Drop)]
pub enum ArchiveAnswer {
    /// Who held a prefix at a moment.
    Who(WhoAnswer),
    /// The evidence of an interval, stretch by stretch.
    Find(FindAnswer),
    /// All lines of the newest pair of volumes, in one order.
    Timeline(TimelineAnswer),
    /// Certificates, judged one after another.
    Judged(JudgedAnswer),
}

/// What files answer, and which of them are no volumes.
#[derive(Debug, Drop)]
pub struct FilesAnswer {
    pub passed_over: Vec<SkippedFile>,
    pub answer: ArchiveAnswer,
}

/// A name is given where the settings of all volumes agree, unless whoever asks knows that the two servers' differ.
fn agreement_for(settings: SettingsCheck) -> SettingsScope
    ensures { result ≡ agreement_for settings }
{
    match settings {
        SettingsCheck::MustAgree => SettingsScope::OfBoth,
        SettingsCheck::MayDiffer => SettingsScope::OfEach,
    }
}

/// Which volumes' settings must agree before a question is asked. Where evidence is asked for, a warning tells whether
/// the two servers' do (K2).
fn agreement_of(question: &ArchiveQuestion) -> SettingsScope
    ensures { result ≡ agreement_of question.now }
{
    match question {
        ArchiveQuestion::Who(_, settings) => agreement_for(*settings),
        _ => SettingsScope::OfEach,
    }
}

/// The answer over the volumes of an archive.
fn answer_over<F: JournalFiles + AccessTexts>(
    rt: &(impl Threads + Wait + Sync),
    alloc: Global,
    files: &F,
    archive: &Archive,
    question: &ArchiveQuestion,
) -> Result<ArchiveAnswer, FilesError>
    ensures { IfOk result (IsAnswerOver (F.had files.now) (F.says files.now) archive.now question.now) }
{
    match question {
        ArchiveQuestion::Who(query, settings) => {
            let answer = who(rt, alloc, files, archive, query, *settings)?;
            Ok(ArchiveAnswer::Who(answer))
        }
        ArchiveQuestion::Find(query) => {
            let answer = find(rt, alloc, files, archive, query)?;
            Ok(ArchiveAnswer::Find(answer))
        }
        ArchiveQuestion::Timeline => {
            let answer = timeline(alloc, files, archive)?;
            Ok(ArchiveAnswer::Timeline(answer))
        }
        ArchiveQuestion::Audit(text, skew, transit) => {
            let bounds = TimingBounds {
                skew: *skew,
                transit: *transit,
            };
            let answer = audit(rt, alloc, files, archive, text, &bounds)?;
            Ok(ArchiveAnswer::Judged(answer))
        }
        ArchiveQuestion::Batch(texts, skew, transit, workers) => {
            let bounds = TimingBounds {
                skew: *skew,
                transit: *transit,
            };
            let answer = batch(rt, alloc, files, archive, texts, &bounds, *workers)?;
            Ok(ArchiveAnswer::Judged(answer))
        }
    }
}

/// Answers a question over the volumes that the files are, and names the files that are none. `OtherPair` or `Archive`
/// where the volumes can't be of one pair of servers, `Unread` where a file by the name of a volume's can't be read,
/// `Changed` or `Faulty` where a file isn't any longer what it was when it was looked at, `Memory` where a growth was
/// refused.
pub fn answer<F: JournalFiles + AccessTexts>(
    rt: &(impl Threads + Wait + Sync),
    alloc: Global,
    files: &F,
    names: &[PathBuf],
    question: &ArchiveQuestion,
) -> Result<FilesAnswer, FilesError>
    ensures { IfOk result
        (IsFilesAnswer (F.had files.now) (F.says files.now) (F.files files.now) names.now question.now) }
{
    let catalogue = catalogue_of(alloc, files, agreement_of(question))?;
    expect_read(names, &catalogue.passed_over)?;
    let answer = answer_over(rt, alloc, files, &catalogue.archive, question)?;
    Ok(FilesAnswer {
        passed_over: catalogue.passed_over,
        answer,
    })
}

impl ArchiveAnswer {
    /// What is told of it. `Memory` where a growth was refused.
    fn told(&self, alloc: Global, names: &[PathBuf]) -> Result<CommandOutput, FilesError>
        ensures { IfOk result (IsAnswerTold names.now self.now) }
    {
        match self {
            ArchiveAnswer::Who(answer) => answer.told(alloc, names),
            ArchiveAnswer::Find(answer) => answer.told(alloc, names),
            ArchiveAnswer::Timeline(answer) => Ok(answer.told(alloc, names)?),
            ArchiveAnswer::Judged(answer) => answer.told(alloc, names),
        }
    }
}

impl FilesAnswer {
    /// What is told of it; standard error says first which files are passed over. `Memory` where a growth was refused.
    pub fn told(
        &self,
        alloc: Global,
        names: &[PathBuf],
        detail: NoteDetail,
    ) -> Result<CommandOutput, FilesError>
        ensures { IfOk result (IsTold names.now self.now) }
    {
        let mut notes = passed_over(alloc, names, &self.passed_over, detail)?;
        let told = self.answer.told(alloc, names)?;
        notes.extend_from_slice(&told.notes)?;
        Ok(CommandOutput {
            text: told.text,
            status: told.status,
            notes,
        })
    }
}
