//! What came by a read of the wire.

/// What came by a read of the wire.
#[derive(Clone, Copy, Debug)]
pub enum LinkInput<'a> {
    /// Octets of the partner's.
    Octets(&'a [u8]),
    /// None for a while, in which the partner answers what it was sent.
    Idle,
    /// None, and a contact is due to the partner.
    HeartbeatDue,
    /// None, and none will come.
    Closed,
}
