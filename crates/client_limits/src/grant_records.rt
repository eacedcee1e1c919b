//! Of which grants there are access records.

ghost use Rattle.std.specs.Prelude.{◌≡◌, ◌==◌, ℕ, true, None, OnOk, IfErr, if◌then◌else◌};
ghost use Rattle.client_limits.specs.GrantRecords.{record_of, is_recorded, HasSameRecords};

use access_records::{Address, RelayPort};
use std::alloc::{AllocError, Global};
use std::collections::BTreeMap;

/// Of which units this server has an access record of its own last grant; and where nothing names the port, by which
/// link the unit was asked for.
#[derive(Drop)]
pub(crate) struct GrantRecords {
    /// By the address at which a unit begins the relay's link address, none where no relay was between.
    links: BTreeMap<u128, Option<u128>>,
}

impl GrantRecords {
    /// There is none yet.
    pub fn new(alloc: Global) -> GrantRecords
        ensures { (address : ℕ) → record_of result address ≡ None }
    {
        GrantRecords {
            links: BTreeMap::new(alloc),
        }
    }

    /// Returns whether there is a record of the last grant of the unit that begins at an address.
    pub fn has(&self, address: u128) -> bool
        ensures { result ≡ is_recorded self.now address }
    {
        self.links.get(&address).is_some()
    }

    /// The port of a record that has no identifier: none within where no relay was between.
    pub fn unnamed_port(&self, address: u128) -> Option<Option<RelayPort>> {
        match self.links.get(&address) {
            Some(Some(link)) => Some(Some(RelayPort {
                link: Address(*link),
                interface: None,
                remote: None,
            })),
            Some(None) => Some(None),
            None => None,
        }
    }

    /// Notes that there is a record of the last grant of the unit that begins at an address.
    pub fn note(&mut self, address: u128, port: Option<&RelayPort>) -> Result<(), AllocError>
        ensures noted { OnOk result ((a : ℕ) → is_recorded self.new a
            ≡ (if a == address then true else is_recorded self.old a)) }
        ensures refused { IfErr result (λ _. HasSameRecords self.old self.new) }
    {
        let link = match port {
            Some(port) => Some(port.link.0),
            None => None,
        };
        self.links.insert(address, link)?;
        Ok(())
    }

    /// Forgets that there is one.
    pub fn forget(&mut self, address: u128)
        ensures { (a : ℕ) → record_of self.new a ≡ (if a == address then None else record_of self.old a) }
    {
        self.links.remove(&address);
    }
}
