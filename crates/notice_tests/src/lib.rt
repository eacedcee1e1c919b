//! Notices from outside: texts written by hand, streams in chunks of every length, clocks at their bounds, and settings
//! that differ.
#![tactic(auto)]

#[cfg(test)]
mod clocks;
#[cfg(test)]
mod misspelled;
#[cfg(test)]
mod parting;
#[cfg(test)]
mod settings;
#[cfg(test)]
mod texts;
