//! What a certificate is asked, in its order.

use binding_rules::Role;

/// A condition that an accepted certificate meets. Each has its own refusal.
#[derive(Clone, Copy, Debug, PartialEq, Eq)]
pub enum Condition {
    /// C4: the interval has a moment.
    Moment,
    /// C5: this side's journal was closed late enough to show all of the interval.
    Shown(Role),
    /// C6: the pieces lie end to end over the interval.
    Tiled,
    /// C7: each piece's grant is the holder's, and its bounds reach round the piece.
    Granted,
    /// C11: nothing of earlier volumes touches the interval but what these journals carry, and no release of theirs
    /// gives back what a piece's grant gave.
    Opened,
    /// C8: no release cuts a piece short.
    Discharged,
    /// C9: each line that grants or carries another client's delegation that touches the prefix is named by a foreign
    /// entry.
    Covered,
    /// C10: the reason of each foreign entry holds.
    Reasoned,
}

/// The conditions, in the order in which an auditor asks them.
pub const CONDITIONS: [Condition; 9] = [
    Condition::Moment,
    Condition::Shown(Role::Primary),
    Condition::Shown(Role::Secondary),
    Condition::Tiled,
    Condition::Granted,
    Condition::Opened,
    Condition::Discharged,
    Condition::Covered,
    Condition::Reasoned,
];
