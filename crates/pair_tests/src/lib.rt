//! Vectors from outside for worlds of two servers: what happens to them, step by step.
#![tactic(auto)]

#[cfg(test)]
mod chance;
#[cfg(test)]
mod dice;
#[cfg(test)]
mod down;
#[cfg(test)]
mod random;
#[cfg(test)]
mod rows;
#[cfg(test)]
mod steps;
#[cfg(test)]
mod story;
#[cfg(test)]
mod walks;
#[cfg(test)]
mod worlds;
