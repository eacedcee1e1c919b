//! The volumes of a side in files, put together.

ghost use Rattle.std.specs.Prelude.{◌≡◌, IfOk};
ghost use Rattle.join_desk.specs.Telling.{shelf_of, IsChosenTold, IsChoiceTold, IsJoinTold};

use crate::choosing::{VolumeChoice, choice_of};
use crate::putting::outcome_of;
use crate::telling::outcome_told;
use archive_desk::{CommandOutput, expect_read, passed_over};
use archive_files::{FilesError, JournalFiles, SettingsScope, catalogue_of};
use binding_rules::Role;
use desk_args::{JoinQuery, NoteDetail};
use joined_rulings::{missing_told, no_volume_told};
use journal_archive::{Archive, FiledVolume};
use std::alloc::Global;
use std::path::PathBuf;

/// The volumes of a side.
pub(crate) fn shelf_of(side: Role, archive: &Archive) -> &[FiledVolume]
    ensures { result.now ≡ shelf_of side archive.now }
{
    match side {
        Role::Primary => archive.primary.volumes(),
        Role::Secondary => archive.secondary.volumes(),
    }
}

/// What is told of chosen volumes, behind the files that are passed over.
fn chosen_told<F: JournalFiles>(
    alloc: Global,
    files: &F,
    names: &[PathBuf],
    passed: Vec<u8>,
    side: Role,
    chosen: &[FiledVolume],
) -> Result<CommandOutput, FilesError>
    ensures { IfOk result (IsChosenTold (F.had files.now) names.now passed.items side chosen.now) }
{
    match chosen {
        [first, later @ ..] => {
            let outcome = outcome_of(alloc, files, first, later)?;
            let told = outcome_told(alloc, names, passed, chosen, &outcome)?;
            Ok(told)
        }
        [] => Ok(no_volume_told(alloc, passed, side)?),
    }
}

/// What is told of a choice, behind the files that are passed over.
fn choice_told<F: JournalFiles>(
    alloc: Global,
    files: &F,
    names: &[PathBuf],
    passed: Vec<u8>,
    side: Role,
    choice: &VolumeChoice,
) -> Result<CommandOutput, FilesError>
    ensures { IfOk result (IsChoiceTold (F.had files.now) names.now passed.items side choice.now) }
{
    match choice {
        VolumeChoice::Chosen(chosen) => chosen_told(alloc, files, names, passed, side, chosen),
        VolumeChoice::NoVolume => Ok(no_volume_told(alloc, passed, side)?),
        VolumeChoice::Missing(number) => Ok(missing_told(alloc, passed, side, *number)?),
    }
}

/// Puts the volumes of a side together that are asked for: standard output gets the one journal that they are, standard
/// error says first which files are passed over, and then of which files it is, or what is lacking. Where they aren't
/// one journal standard output says why, and the status is 1.
///
/// `OtherPair` or `Archive` where the volumes can't be of one pair of servers, `Unread` where a file by the name of a
/// volume's can't be read, `Changed` or `Faulty` where a file isn't any longer what it was when it was looked at,
/// `Memory` where a growth was refused.
pub fn join_files<F: JournalFiles>(
    alloc: Global,
    files: &F,
    names: &[PathBuf],
    query: &JoinQuery,
    detail: NoteDetail,
) -> Result<CommandOutput, FilesError>
    ensures { IfOk result (IsJoinTold (F.had files.now) (F.files files.now) names.now query.now) }
{
    let catalogue = catalogue_of(alloc, files, SettingsScope::OfEach)?;
    expect_read(names, &catalogue.passed_over)?;
    let passed = passed_over(alloc, names, &catalogue.passed_over, detail)?;
    let volumes = shelf_of(query.side, &catalogue.archive);
    let choice = choice_of(alloc, volumes, query.from, query.to)?;
    let told = choice_told(alloc, files, names, passed, query.side, &choice)?;
    Ok(told)
}
