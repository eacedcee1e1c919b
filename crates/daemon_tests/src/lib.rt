//! What a daemon is told and what it says: its settings, the words of its command line and its control socket, its
//! status in three forms, what it says of its partner's notices, whether it serves and why not, its last syncs, and
//! lines of its log.
#![tactic(auto)]

#[cfg(test)]
mod clock_lines;
#[cfg(test)]
mod command_words;
#[cfg(test)]
mod documents;
#[cfg(test)]
mod forms;
#[cfg(test)]
mod log_lines;
#[cfg(test)]
mod notice_lines;
#[cfg(test)]
mod paper;
#[cfg(test)]
mod serving;
#[cfg(test)]
mod statuses;
#[cfg(test)]
mod syncs;
#[cfg(test)]
mod words;
