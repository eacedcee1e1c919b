//! By which policy a session judges what its partner sends.

/// Whose session it is. The two end a connection alike where the partner took what was never sent; they differ in
/// whether a message is taken that speaks of a change which this server never made.
#[derive(Clone, Copy, Debug, PartialEq, Eq)]
pub enum SessionPolicy {
    /// A run of a node, whose every message is taken.
    Run,
    /// A daemon's: such a message shows that a part of its journal was lost, and isn't taken.
    Serve,
}
