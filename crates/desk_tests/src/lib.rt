//! Vectors from outside for what no command of the desk shows.
//!
//! Lines that break rules, sources of lines, searches over these, and texts written as they were read; audits by many
//! workers; archives of volumes, and files of journals that are still being written; access records; local times.
#![tactic(auto)]

#[cfg(test)]
mod access_pieces;
#[cfg(test)]
mod batches;
#[cfg(test)]
mod changes;
#[cfg(test)]
mod choosing;
#[cfg(test)]
mod copies;
#[cfg(test)]
mod findings;
#[cfg(test)]
mod foreign;
#[cfg(test)]
mod gates;
#[cfg(test)]
mod inputs;
#[cfg(test)]
mod judging;
#[cfg(test)]
mod pairs;
#[cfg(test)]
mod parallel_inputs;
#[cfg(test)]
mod pieces;
#[cfg(test)]
mod reasons;
#[cfg(test)]
mod releases;
#[cfg(test)]
mod round_trips;
#[cfg(test)]
mod sources;
#[cfg(test)]
mod texts;
#[cfg(test)]
mod three_texts;
#[cfg(test)]
mod together;
#[cfg(test)]
mod verdicts;
#[cfg(test)]
mod volume_inputs;
#[cfg(test)]
mod volumes;
#[cfg(test)]
mod zones;
