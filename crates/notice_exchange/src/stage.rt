//! How far an exchange of notices has come.

use link_notices::{ClockRange, SettingsDifference};

/// How far an exchange of notices has come.
#[derive(Clone, Copy, Debug, PartialEq, Eq)]
pub enum ExchangeStage {
    /// The partner has yet to say its settings, or what its clock shows.
    Asks,
    /// What it said keeps the two apart.
    Apart(KeptApart),
    /// The two may join.
    Joins,
}

/// What keeps two servers apart.
#[derive(Clone, Copy, Debug, PartialEq, Eq)]
pub enum KeptApart {
    /// A setting in which they have to agree.
    Settings(SettingsDifference),
    /// Their clocks: by so many milliseconds the partner's is ahead of this one.
    Clocks(ClockRange),
}
