//! Vectors from outside for what a loss of power leaves, and what a start makes of it.
//!
//! Contents of files, what is recovered of each, what a server then does at its start, and what it
//! owes while it runs.
//!
//! A server's volumes on disks that fail and lose power: three volumes of a book are written as the daemon writes them,
//! with rolls in between, each call to the folder or to a file fails in turn, and what is left is opened again; and a
//! real directory of them.
//!
//! Journals on disks that fail and lose power: the lines that are on the disk are found again; and files of the
//! operating system.
#![tactic(auto)]

#[cfg(test)]
mod contents;
#[cfg(test)]
mod directories;
#[cfg(test)]
mod disk_contents;
#[cfg(test)]
mod disk_losses;
#[cfg(test)]
mod disk_real;
#[cfg(test)]
mod folders;
#[cfg(test)]
mod losses;
#[cfg(test)]
mod real;
#[cfg(test)]
mod runs;
#[cfg(test)]
mod starts;
#[cfg(test)]
mod story;
#[cfg(test)]
mod texts;
#[cfg(test)]
mod upkeep;
#[cfg(test)]
mod writing;
