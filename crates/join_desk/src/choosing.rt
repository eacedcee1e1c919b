//! Which volumes of a side are put together.

ghost use Rattle.std.specs.Prelude.{◌≡◌, ◌≢◌, ◌≤◌, ◌^◌, [], IfOk, IfSome, None};
ghost use Rattle.journal_archive.specs.declared.outline.FiledVolume.{FiledVolume as FiledValue};
ghost use Rattle.archive_files.specs.Catalogues.{IsIn};
ghost use Rattle.join_desk.specs.Choosing.{least, greatest, first_asked, last_asked, HasNumber, IsChoice, IsRowOf};

use journal_archive::FiledVolume;
use std::alloc::{AllocError, Global};

/// Which volumes are put together.
#[derive(Debug, Drop)]
pub enum VolumeChoice {
    /// These, in the order of their numbers.
    Chosen(Vec<FiledVolume>),
    /// The side has none.
    NoVolume,
    /// No file has the volume of this number.
    Missing(u32),
}

fn least(volumes: &[FiledVolume]) -> u32
    ensures { result ≡ least volumes.now }
{
    match volumes.first() {
        Some(volume) => volume.outline.number,
        None => 0,
    }
}

fn greatest(volumes: &[FiledVolume]) -> u32
    ensures { result ≡ greatest volumes.now }
{
    match volumes.last() {
        Some(volume) => volume.outline.number,
        None => 0,
    }
}

/// The number of the first volume that is asked for.
pub(crate) fn first_asked(volumes: &[FiledVolume], from: Option<u32>, to: Option<u32>) -> u32
    ensures { result ≡ first_asked volumes.now from to }
{
    match (from, to) {
        (Some(from), _) => from,
        (None, Some(to)) => least(volumes).min(to),
        (None, None) => least(volumes),
    }
}

/// The number of the last.
fn last_asked(volumes: &[FiledVolume], from: Option<u32>, to: Option<u32>) -> u32
    ensures { result ≡ last_asked volumes.now from to }
{
    match (from, to) {
        (_, Some(to)) => to,
        (Some(from), None) => greatest(volumes).max(from),
        (None, None) => greatest(volumes),
    }
}

/// The volume of this number.
#[tactic(auto, using(crate::proofs::Rows::rest_more, crate::proofs::Rows::rest_all, crate::proofs::Rows::rest_found, crate::proofs::Rows::rest_none))]
fn volume_at(volumes: &[FiledVolume], number: u32) -> Option<FiledVolume>
    ensures found { IfSome result (λ v. IsIn volumes.now v × (v.outline.number ≡ number)) }
    ensures none { result ≡ None → HasNumber volumes.now number → ⊥ }
{
    let mut rest = volumes;
    while let [volume, behind @ ..] = rest {
        if volume.outline.number == number {
            return Some(*volume);
        }
        rest = behind;
    }
    None
}

/// The volumes from this number to that one, or the first that is missing.
#[tactic(auto, using(crate::proofs::Rows::row_more, crate::proofs::Rows::missing))]
fn row_of(
    alloc: Global,
    volumes: &[FiledVolume],
    from: u32,
    to: u32,
) -> Result<VolumeChoice, AllocError>
    ensures { IfOk result (IsRowOf volumes.now from to) }
{
    let mut chosen = Vec::new(alloc);
    let mut number = from;
    while number <= to {
        let volume = match volume_at(volumes, number) {
            Some(volume) => volume,
            None => return Ok(VolumeChoice::Missing(number)),
        };
        chosen.extend_from_slice(&[volume])?;
        let Some(next) = number.checked_add(1) else {
            return Ok(VolumeChoice::Chosen(chosen));
        };
        number = next;
    }
    Ok(VolumeChoice::Chosen(chosen))
}

/// The volumes of a side that are put together: those from `from` to `to`, where `from` and `to` that aren't named are
/// the first and the last that there are.
pub(crate) fn choice_of(
    alloc: Global,
    volumes: &[FiledVolume],
    from: Option<u32>,
    to: Option<u32>,
) -> Result<VolumeChoice, AllocError>
    ensures { IfOk result (IsChoice volumes.now from to) }
{
    if volumes.is_empty() {
        return Ok(VolumeChoice::NoVolume);
    }
    let first = first_asked(volumes, from, to);
    let last = last_asked(volumes, from, to);
    row_of(alloc, volumes, first, last)
}
