//! How far the partner is.

/// Whether a server leaves to its partner what that may know, and it doesn't.
#[derive(Clone, Copy, Debug, PartialEq, Eq)]
pub enum PartnerReach {
    /// The two are joined, or they were within the last minute.
    Near,
    /// There is no partner, or the two have been apart for more than a minute.
    Apart,
}
