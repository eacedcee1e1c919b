//! The kinds of calls.

/// The kind of a call, as [`crate::NameTrace`] notes it.
#[derive(Clone, Copy)]
pub(crate) enum NameCallKind {
    Held,
    Made,
    Removed,
    Settled,
    Refused,
}
