//! Whether volumes are of one pair of servers, by the settings that their first lines say.

ghost use Rattle.std.specs.Prelude.{◌≡◌, ◌↔◌, ℕ, List, Some, IsTrue, IfOk, OnOk, IfErr, option_map};
ghost use Rattle.journal_archive.specs.declared.settings.SettingLine.{SettingLine as SettingValue};
ghost use Rattle.archive_files.specs.declared.error.FilesError.TheVariants.{OtherPair};
ghost use Rattle.archive_files.specs.Alike.{IsNoArchives};
ghost use Rattle.archive_files.specs.Ties.{IsSetUp, SaysNoOther, IsOfSide, AreSetUp, AreTiedBy, AreOfTwoPairs};

use crate::error::FilesError;
use crate::files::{JournalFiles, Unreadable};
use binding_rules::Role;
use journal_archive::{FiledVolume, SettingLine, are_same_settings, settings_in};
use std::alloc::Global;

/// How many octets of a file's beginning are read for its settings: enough for those of sixteen pools, and the line
/// behind them.
const HEAD_OCTETS: u32 = 2048;

/// Which volumes must say the same settings.
#[derive(Clone, Copy, Debug, PartialEq, Eq)]
pub enum SettingsScope {
    /// All volumes of both sides.
    OfBoth,
    /// All volumes of each side: those of its partner may say others.
    OfEach,
}

/// The settings that a file says.
#[derive(Debug, Drop)]
struct FileSettings {
    file: usize,
    settings: Vec<SettingLine>,
}

/// The settings that a file says, or `None` where it has no line behind them yet. `Changed` where it can't be read.
fn settings_of<F: JournalFiles>(
    alloc: Global,
    files: &F,
    file: usize,
) -> Result<Option<Vec<SettingLine>>, FilesError>
    ensures told { IfOk result (λ told. IsSetUp (F.had files.now file) (option_map (λ v. v.items) told)) }
    ensures refused { IfErr result (λ e. (first second : ℕ) → e ≡ OtherPair first second → ⊥) }
    ensures others { IfErr result IsNoArchives }
{
    let beginning = match files.beginning(alloc, file, HEAD_OCTETS) {
        Ok(beginning) => beginning,
        Err(Unreadable::Device) => return Err(FilesError::Changed { file }),
        Err(Unreadable::Memory) => return Err(FilesError::Memory),
    };
    if let Some(settings) = settings_in(alloc, &beginning)? {
        return Ok(Some(settings));
    }
    let octets = match files.read(alloc, file) {
        Ok(octets) => octets,
        Err(Unreadable::Device) => return Err(FilesError::Changed { file }),
        Err(Unreadable::Memory) => return Err(FilesError::Memory),
    };
    let told = settings_in(alloc, &octets)?;
    Ok(told)
}

/// Asks of a file whether it says no other settings than these. `OtherPair` where it does.
fn says_no_other<F: JournalFiles>(
    alloc: Global,
    files: &F,
    known: &FileSettings,
    file: usize,
) -> Result<(), FilesError>
    requires { IsSetUp (F.had files.now known.now.file) (Some known.now.settings.items) }
    ensures same { OnOk result (SaysNoOther (F.had files.now file) known.now.settings.items) }
    ensures refused { IfErr result
        (λ e. (first second : ℕ) → e ≡ OtherPair first second → AreOfTwoPairs (F.had files.now) first second) }
    ensures others { IfErr result IsNoArchives }
{
    let Some(settings) = settings_of(alloc, files, file)? else {
        return Ok(());
    };
    if are_same_settings(&known.settings, &settings) {
        Ok(())
    } else {
        Err(FilesError::OtherPair {
            first: known.file,
            second: file,
        })
    }
}

fn is_of_side(volume: &FiledVolume, side: Option<Role>) -> bool
    ensures { IsTrue result ↔ IsOfSide side volume.now }
{
    match side {
        Some(side) => volume.outline.side == side,
        None => true,
    }
}

/// Asks of all of a side's volumes whether they say no other settings than these.
fn say_no_other<F: JournalFiles>(
    alloc: Global,
    files: &F,
    volumes: &[FiledVolume],
    side: Option<Role>,
    known: &FileSettings,
) -> Result<(), FilesError>
    requires { IsSetUp (F.had files.now known.now.file) (Some known.now.settings.items) }
    ensures same { OnOk result (AreSetUp (F.had files.now) side volumes.now known.now.settings.items) }
    ensures refused { IfErr result
        (λ e. (first second : ℕ) → e ≡ OtherPair first second → AreOfTwoPairs (F.had files.now) first second) }
    ensures others { IfErr result IsNoArchives }
{
    for volume in volumes {
        if is_of_side(volume, side) {
            says_no_other(alloc, files, known, volume.file)?;
        }
    }
    Ok(())
}

/// Asks of all volumes of a side, or of both, whether their settings are the same. `OtherPair` where they aren't,
/// `Changed` where a file can't be read again, `Memory` where a growth was refused.
fn say_the_same<F: JournalFiles>(
    alloc: Global,
    files: &F,
    volumes: &[FiledVolume],
    side: Option<Role>,
) -> Result<(), FilesError>
    ensures same { OnOk result ((settings : List SettingValue) × AreSetUp (F.had files.now) side volumes.now settings) }
    ensures refused { IfErr result
        (λ e. (first second : ℕ) → e ≡ OtherPair first second → AreOfTwoPairs (F.had files.now) first second) }
    ensures others { IfErr result IsNoArchives }
{
    for volume in volumes {
        if !is_of_side(volume, side) {
            continue;
        }
        if let Some(settings) = settings_of(alloc, files, volume.file)? {
            let known = FileSettings {
                file: volume.file,
                settings,
            };
            return say_no_other(alloc, files, volumes, side, &known);
        }
    }
    Ok(())
}

/// Asks whether the volumes are of one pair of servers, by their settings. `OtherPair` where they aren't, `Changed`
/// where a file can't be read again, `Memory` where a growth was refused.
pub(crate) fn check_settings<F: JournalFiles>(
    alloc: Global,
    files: &F,
    volumes: &[FiledVolume],
    agreement: SettingsScope,
) -> Result<(), FilesError>
    ensures tied { OnOk result (AreTiedBy (F.had files.now) agreement volumes.now) }
    ensures refused { IfErr result
        (λ e. (first second : ℕ) → e ≡ OtherPair first second → AreOfTwoPairs (F.had files.now) first second) }
    ensures others { IfErr result IsNoArchives }
{
    match agreement {
        SettingsScope::OfBoth => say_the_same(alloc, files, volumes, None),
        SettingsScope::OfEach => {
            say_the_same(alloc, files, volumes, Some(Role::Primary))?;
            say_the_same(alloc, files, volumes, Some(Role::Secondary))
        }
    }
}
