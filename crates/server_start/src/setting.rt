//! The settings that a journal fixes.

ghost use Rattle.std.specs.Prelude.{◌≡◌, ◌↔◌, IsTrue};
ghost use Rattle.server_start.specs.declared.setting.FixedSetting.{FixedSetting as SettingValue};
ghost use Rattle.server_start.specs.Agreement.{names, NamesThose};

use crate::opened_settings::OpenedSettings;
use book_state::Pool;
use server_settings::Settings;
use std::fmt;
use std::fmt::Write;

/// A setting that a server's journal fixes: it stays as it is as long as the book does.
#[derive(Clone, Copy, Debug, PartialEq, Eq)]
pub enum FixedSetting {
    Role,
    Pools,
    Skew,
    Mclt,
    Life,
    Transit,
}

impl FixedSetting {
    /// All of them, in their order.
    pub const ALL: [FixedSetting; 6] = [
        FixedSetting::Role,
        FixedSetting::Pools,
        FixedSetting::Skew,
        FixedSetting::Mclt,
        FixedSetting::Life,
        FixedSetting::Transit,
    ];
}

impl fmt::Display for FixedSetting {
    /// The key of a settings file.
    fn fmt<W: Write>(&self, f: &mut fmt::Formatter<W>) -> fmt::Result {
        f.write_str(match self {
            FixedSetting::Role => "role",
            FixedSetting::Pools => "pool",
            FixedSetting::Skew => "skew_ms",
            FixedSetting::Mclt => "mclt",
            FixedSetting::Life => "life",
            FixedSetting::Transit => "transit_ms",
        })
    }
}

/// Which settings of a server differ from those that its book was opened with.
#[derive(Clone, Copy, Debug, PartialEq, Eq)]
pub struct DifferingSettings {
    role: bool,
    pools: bool,
    skew: bool,
    mclt: bool,
    life: bool,
    transit: bool,
}

/// Returns whether the pools are the same, in the same order.
fn are_same_pools(one: &[Pool], other: &[Pool]) -> bool
    ensures { IsTrue result ↔ (one.now ≡ other.now) }
{
    one == other
}

impl DifferingSettings {
    /// Each setting that differs, and no other.
    pub fn of(settings: &Settings, opening: &OpenedSettings) -> DifferingSettings
        ensures { NamesThose settings.now opening.now result }
    {
        DifferingSettings {
            role: settings.role() != opening.role,
            pools: !are_same_pools(settings.pools(), &opening.pools),
            skew: settings.skew().milliseconds() != opening.skew,
            mclt: settings.mclt() != opening.mclt,
            life: settings.life() != opening.life,
            transit: settings.transit() != opening.transit,
        }
    }

    /// Returns whether it names a setting.
    pub fn names(&self, setting: FixedSetting) -> bool
        ensures { result ≡ names self.now setting }
    {
        match setting {
            FixedSetting::Role => self.role,
            FixedSetting::Pools => self.pools,
            FixedSetting::Skew => self.skew,
            FixedSetting::Mclt => self.mclt,
            FixedSetting::Life => self.life,
            FixedSetting::Transit => self.transit,
        }
    }

    /// Returns whether it names any.
    pub fn is_any(&self) -> bool
        ensures { IsTrue result ↔ ((x : SettingValue) × IsTrue (names self.now x)) }
    {
        self.role || self.pools || self.skew || self.mclt || self.life || self.transit
    }
}

impl fmt::Display for DifferingSettings {
    /// The keys, with commas between them.
    fn fmt<W: Write>(&self, f: &mut fmt::Formatter<W>) -> fmt::Result {
        let mut lead = "";
        for setting in FixedSetting::ALL {
            if self.names(setting) {
                write!(f, "{lead}{setting}")?;
                lead = ", ";
            }
        }
        Ok(())
    }
}
