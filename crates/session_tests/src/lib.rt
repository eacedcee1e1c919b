//! Two servers talk in simulated time over wires that break, lose and repeat: stories of leases that the partner renews,
//! that end at both, and that outlive a server that was down, and walks by chance. Their journals show who held a unit.
//! There is no socket and no clock.
#![tactic(auto)]

#[cfg(test)]
mod dice;
#[cfg(test)]
mod evidence;
#[cfg(test)]
mod lives;
#[cfg(test)]
mod pair_servers;
#[cfg(test)]
mod pairs;
#[cfg(test)]
mod stories;
#[cfg(test)]
mod told_leases;
#[cfg(test)]
mod walks;
