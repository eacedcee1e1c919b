//! What clients were told that they have.

use client_id::Duid;
use prefix_range::Prefix;
use std::alloc::Global;
use std::test::Fail;

/// What a client was told: it has a prefix up to a moment of true time, in milliseconds.
#[derive(Clone, Copy)]
pub(crate) struct ToldLease {
    pub client: Duid,
    pub prefix: Prefix,
    pub until: u64,
}

impl ToldLease {
    /// Returns whether it is of this client and prefix.
    fn is_of(&self, client: &Duid, prefix: &Prefix) -> bool {
        self.client == *client && self.prefix == *prefix
    }

    /// Returns whether another client has the same prefix by it at a moment.
    fn is_in_the_way_of(&self, other: &ToldLease, moment: u64) -> bool {
        self.prefix == other.prefix && self.client != other.client && self.until > moment
    }
}

/// The last that each client was told of each prefix, the newest at the end.
#[derive(Drop)]
pub(crate) struct ToldLeases(Vec<ToldLease>);

impl ToldLeases {
    /// Nobody was told anything.
    pub fn new(alloc: Global) -> ToldLeases {
        ToldLeases(Vec::new(alloc))
    }

    /// A client is told so at a moment. Says whether no other client has the prefix then.
    pub fn tell(&mut self, moment: u64, lease: ToldLease) -> Result<bool, Fail> {
        let is_free = !self
            .0
            .iter()
            .any(|other| other.is_in_the_way_of(&lease, moment));
        self.forget(&lease.client, &lease.prefix);
        self.0.push(lease)?;
        Ok(is_free)
    }

    /// The prefix that a client was told of last.
    pub fn last_of(&self, client: &Duid) -> Option<Prefix> {
        let mut last = None;
        for lease in self.0.iter() {
            if lease.client == *client {
                last = Some(lease.prefix);
            }
        }
        last
    }

    /// A client gave a prefix back.
    pub fn forget(&mut self, client: &Duid, prefix: &Prefix) {
        self.0.retain(|lease| !lease.is_of(client, prefix));
    }
}
