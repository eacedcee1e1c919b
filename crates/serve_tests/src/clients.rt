//! What the clients ask, and what they are told.

/// A client's REQUEST for one delegated prefix.
pub(crate) fn request(client: u8) -> [u8; 48] {
    [
        3, 10, 11, 12, 0, 1, 0, 10, 0, 3, 0, 1, 2, 0, 0, 0, 0, client, 0, 2, 0, 10, 0, 3, 0, 1, 2,
        0, 0, 0, 0, 9, 0, 25, 0, 12, 0, 0, 0, 1, 0, 0, 0, 0, 0, 0, 0, 0,
    ]
}

/// The number that octets spell, the most significant first.
fn number_of(octets: &[u8]) -> u128 {
    let mut number = 0u128;
    for octet in octets {
        number = number << 8 | u128::from(*octet);
    }
    number
}

/// A delegation that a client was told of.
#[derive(Clone, Copy)]
pub(crate) struct PromisedLease {
    pub client: u8,
    pub address: u128,
    /// From when on and how long it may use the prefix, in milliseconds of true time.
    pub from: u64,
    pub valid: u64,
    /// The volume and the line of the server's that tell of it.
    pub volume: u32,
    pub line: u32,
}

impl PromisedLease {
    /// What a client is told at a moment, by a line of a volume. The answer to one request ends with an IA Prefix
    /// option: two lifetimes in seconds, the second one the valid one, the length and the address.
    pub fn new(
        octets: &[u8],
        client: u8,
        from: u64,
        volume: u32,
        line: u32,
    ) -> Option<PromisedLease> {
        let (_, lease) = octets.split_at(octets.len().checked_sub(25)?);
        Some(PromisedLease {
            client,
            address: number_of(&lease[9..25]),
            from,
            valid: u64::try_from(number_of(&lease[4..8]))
                .ok()?
                .saturating_mul(1000),
            volume,
            line,
        })
    }

    /// Returns whether one of two clients may still use a prefix when the other one is told of it.
    pub fn collides(&self, other: &PromisedLease) -> bool {
        self.client != other.client
            && self.address == other.address
            && self.from < other.from.saturating_add(other.valid)
            && other.from < self.from.saturating_add(self.valid)
    }
}
