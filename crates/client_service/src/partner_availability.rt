//! What a server takes its partner for.

/// The state of the partner, as a server takes it.
#[derive(Clone, Copy, Debug, PartialEq, Eq)]
pub enum PartnerAvailability {
    /// It has its own units to give.
    Up,
    /// Its units may be taken over, once no lease of its own can last.
    Down,
}
