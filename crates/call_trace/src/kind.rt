//! The kinds of calls.

/// The kind of a call, as [`crate::CallTrace`] notes it.
#[derive(Clone, Copy)]
pub(crate) enum CallKind {
    Opened,
    Appended,
    Cut,
    Flushed,
    Failed,
}
