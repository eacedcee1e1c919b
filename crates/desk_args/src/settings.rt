//! Whether a search may name a client where the journals' settings don't tie them together.

ghost use Rattle.std.specs.Prelude.{Some, codes};
ghost use Rattle.clap.specs.Words.{first_of, rows_of, found_of};
ghost use Rattle.desk_args.specs.Given.{IsSettings};

use clap::ArgMatches;

/// Whether a name is given where the two journals' settings differ, or say more than is asked with.
#[derive(Clone, Copy, Debug, PartialEq, Eq)]
pub enum SettingsCheck {
    /// Nobody is named: K2 and K3 refuse.
    MustAgree,
    /// Whoever asks knows that they differ.
    MayDiffer,
}

/// Returns what a flag's value says.
fn settings_in(word: &str) -> SettingsCheck
    ensures { IsSettings (Some word.now) result }
{
    if word == "true" {
        SettingsCheck::MayDiffer
    } else {
        SettingsCheck::MustAgree
    }
}

/// `--settings-differ`, or nothing of it.
pub(crate) fn settings_given(options: &ArgMatches) -> SettingsCheck
    ensures { IsSettings (first_of (codes "settings-differ") (rows_of (found_of options.now))) result }
{
    match options.get_str("settings-differ") {
        Some(word) => settings_in(word),
        None => SettingsCheck::MustAgree,
    }
}
