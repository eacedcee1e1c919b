//! What the head of one journal says.

ghost use Rattle.std.specs.Prelude.{◌≡◌, IfOk, IfSome};
ghost use Rattle.text_fields.specs.Parsing.{Finds};
ghost use Rattle.journal_heads.specs.Heads.{skew_of, transit_of, bounds_of, AreBoundsIn, SaysBounds};

use archive_files::{JournalFiles, Unreadable};
use desk_args::HeadBounds;
use journal_archive::{SettingLine, is_headed, settings_in};
use lead_time::{Skew, Transit};
use std::alloc::{AllocError, Global};

/// How many octets of a file's beginning are read for its settings: enough for those of sixteen pools, and the line
/// behind them.
const HEAD_OCTETS: u32 = 2048;

/// The skew of settings: that of their first open line, if they have one.
#[tactic(auto, unfolding(crate::specs::Heads::skew_of))]
fn skew_of(settings: &[SettingLine]) -> Option<Skew>
    ensures { Finds (λ skew. skew) result (skew_of settings.now) }
{
    let mut rest = settings;
    while let [setting, behind @ ..] = rest {
        if let SettingLine::Open { skew, .. } = setting {
            return Skew::new(*skew).ok();
        }
        rest = behind;
    }
    None
}

/// The transit of settings: that of their first transit line, or none.
#[tactic(auto, unfolding(crate::specs::Heads::transit_of))]
fn transit_of(settings: &[SettingLine]) -> Transit
    ensures { result ≡ transit_of settings.now }
{
    let mut rest = settings;
    while let [setting, behind @ ..] = rest {
        if let SettingLine::Transit(transit) = setting {
            return *transit;
        }
        rest = behind;
    }
    Transit::ZERO
}

/// The bounds that settings say.
fn bounds_of(settings: &[SettingLine]) -> Option<HeadBounds>
    ensures { Finds (λ bounds. bounds) result (bounds_of settings.now) }
{
    let skew = skew_of(settings)?;
    Some(HeadBounds {
        skew,
        transit: transit_of(settings),
    })
}

/// The bounds that the octets of a journal say, if a line stands behind its settings.
fn bounds_in(alloc: Global, octets: &[u8]) -> Result<Option<HeadBounds>, AllocError>
    ensures { IfOk result (λ found. IfSome found (AreBoundsIn octets.now)) }
{
    if !is_headed(octets) {
        return Ok(None);
    }
    match settings_in(alloc, octets)? {
        Some(settings) => Ok(bounds_of(&settings)),
        None => Ok(None),
    }
}

/// The bounds that a file says: none where it can't be read, is no journal, or has no line behind its settings yet.
/// `AllocError` where a growth was refused.
pub(crate) fn said_by<F: JournalFiles>(
    alloc: Global,
    files: &F,
    file: usize,
) -> Result<Option<HeadBounds>, AllocError>
    ensures { IfOk result (λ found. IfSome found (SaysBounds (F.had files.now file))) }
{
    let beginning = match files.beginning(alloc, file, HEAD_OCTETS) {
        Ok(beginning) => beginning,
        Err(Unreadable::Device) => return Ok(None),
        Err(Unreadable::Memory) => return Err(AllocError),
    };
    let found = bounds_in(alloc, &beginning)?;
    Ok(found)
}
