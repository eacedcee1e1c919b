//! Files that lose power in memory, and the settings of servers as constant texts, for tests.
//!
//! A file in memory that can lose power, and a folder of such files, for tests.
//!
//! A [`TestFile`] is a [`disk_model::Device`] that keeps what the model of a disk keeps: what is written, how much of
//! it is on the disk for certain, and what lay there before the last cut. So many of its calls are answered, and the
//! next one fails. [`TestFile::left`] draws what a loss of power leaves, and its contract says that the model allows
//! it. Octets are drawn in runs: as written, as they were before a cut, or zero.
//!
//! A [`TestFolder`] is a [`disk_model::Folder`] of `TestFile`s, which count their calls together with it:
//! so any call of all may be the first that fails. [`TestFolder::left`] draws which of the names in doubt are there and
//! what is left of each file, and its contract says that the model of a folder allows it. What is drawn are the
//! [`disk_model::Files`] of the next start.
//!
//! ```text
//! let file = TestFile::new(alloc, b"", 7)?;     // its eighth call fails
//! // .. calls ..
//! let content = file.left(seed)?;               // one of the contents that a loss of power may leave
//!
//! let folder = TestFolder::new(alloc, 0, 40)?;  // the 41st call to it or to any of its files fails
//! // .. calls ..
//! let contents = folder.left(&files, seed)?;
//! ```
//!
//! The settings of servers as constant texts, for tests, by what differs.
//!
//! ```text
//! const PRIMARY: &str = pair_settings!("primary", "2001:db8::/48");
//! const OTHER: &str = settings!("primary", skew 500, mclt 3600, life 7200, "transit_ms = 250\n", "2001:db8::/48");
//! ```
#![tactic(auto)]

mod calls;
mod contents;
mod drawing;
mod error;
mod file;
mod folder;
mod names;
mod state;

pub use contents::Contents;
pub use error::DrawError;
pub use file::TestFile;
pub use folder::TestFolder;

/// The settings of a role: the skew in milliseconds, the MCLT and the lifetime in seconds, further lines, and pools of
/// which each unit is a /56.
#[macro_export]
macro_rules! settings {
    ($role:literal, skew $skew:literal, mclt $mclt:literal, life $life:literal, $lines:literal, $($pool:literal),+) => {
        concat!(
            "role = \"", $role, "\"\nduid = \"00030001020000000009\"\nskew_ms = ", $skew, "\nmclt = ", $mclt,
            "\nlife = ", $life, "\n", $lines, $("[[pool]]\nprefix = \"", $pool, "\"\nunit = 56\n",)+
        )
    };
}

/// The settings of a role with one pool: two seconds of skew, an hour of MCLT and of life.
#[macro_export]
macro_rules! pair_settings {
    ($role:literal, $pool:literal) => {
        $crate::settings!($role, skew 2000, mclt 3600, life 3600, "transit_ms = 2000\n", $pool)
    };
}
