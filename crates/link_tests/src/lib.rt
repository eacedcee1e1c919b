//! The partner's link, authenticated: codes and octets as others make them, and strangers.
#![tactic(auto)]

#[cfg(test)]
mod codes;
#[cfg(test)]
mod ends;
#[cfg(test)]
mod entries;
#[cfg(test)]
mod keys;
#[cfg(test)]
mod strangers;
