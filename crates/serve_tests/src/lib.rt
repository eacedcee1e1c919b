//! Two servers whose disks fail and lose power at each call in turn: they start again with what is left, and go on. In
//! the end the volumes of both are legal, fit each other, and have all that was ever told. No thread, socket or clock.
#![tactic(auto)]

#[cfg(test)]
mod clients;
#[cfg(test)]
mod clocks;
#[cfg(test)]
mod disk;
#[cfg(test)]
mod folder;
#[cfg(test)]
mod judging;
#[cfg(test)]
mod losses;
#[cfg(test)]
mod pair;
#[cfg(test)]
mod server;
