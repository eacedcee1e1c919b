//! Vectors from outside for the texts and the desk where no example can show them: texts in chunks and parts, devices
//! that fail, lines that no text gives, and what a certificate that was read is written as.
#![tactic(auto)]

#[cfg(test)]
mod certificates;
#[cfg(test)]
mod chunks;
#[cfg(test)]
mod devices;
#[cfg(test)]
mod inputs;
#[cfg(test)]
mod journal_chunks;
#[cfg(test)]
mod journals;
#[cfg(test)]
mod parted;
#[cfg(test)]
mod prefixes;
#[cfg(test)]
mod sequence;
