//! Who has which units.

ghost use Rattle.std.specs.Prelude.{◌≡◌, ◌++◌, ◌∷◌, ℕ, List, [], None, option_map, OnOk, IfErr, ◌⊎◌};
ghost use Rattle.client_limits.specs.Holders.{holder_of, units_of, IsGiven, IsForgotten, IsAdded, IsListed, IsAsItWas};

use crate::listing::without;
use prefix_range::Prefix;
use std::alloc::{AllocError, Global};
use std::collections::BTreeMap;

/// Who has which units: of each unit its holder, and of each holder its units.
#[derive(Drop)]
pub struct Holders {
    alloc: Global,
    /// By the address at which a unit begins.
    holders: BTreeMap<u128, Vec<u8>>,
    units: BTreeMap<Vec<u8>, Vec<Prefix>>,
}

impl Holders {
    /// Nobody has a unit yet.
    pub fn new(alloc: Global) -> Holders
        ensures holders { (address : ℕ) → holder_of result address ≡ None }
        ensures units { (holder : List ℕ) → units_of result holder ≡ [] }
    {
        Holders {
            alloc,
            holders: BTreeMap::new(alloc),
            units: BTreeMap::new(alloc),
        }
    }

    /// Returns who has the unit that begins at an address; none where it isn't known.
    pub fn holder(&self, address: u128) -> Option<&[u8]>
        ensures { option_map (λ octets. octets.now) result ≡ holder_of self.now address }
    {
        match self.holders.get(&address) {
            Some(holder) => Some(holder),
            None => None,
        }
    }

    /// Returns the units of a holder, in the order in which they were given.
    pub fn units(&self, holder: &[u8]) -> &[Prefix]
        ensures { result.now ≡ units_of self.now holder.now }
    {
        match self.units.get(holder) {
            Some(units) => units,
            None => &[],
        }
    }

    /// Lists the units of a holder anew.
    fn list(&mut self, holder: Vec<u8>, units: Vec<Prefix>) -> Result<(), AllocError>
        ensures listed { OnOk result (IsListed self.old self.new holder.items units.items) }
        ensures refused { IfErr result (λ _. IsAsItWas self.old self.new) }
    {
        if units.as_slice().is_empty() {
            self.units.remove(holder.as_slice());
        } else {
            self.units.insert(holder, units)?;
        }
        Ok(())
    }

    /// Forgets who has a unit. Of a refused growth all is as it was.
    pub fn forget(&mut self, unit: &Prefix) -> Result<(), AllocError>
        ensures forgotten { OnOk result (IsForgotten self.old self.new unit.now) }
        ensures refused { IfErr result (λ _. IsAsItWas self.old self.new) }
    {
        let address = unit.first();
        let Some(holder) = self.holders.get(&address) else {
            return Ok(());
        };
        let holder = holder.as_slice().to_vec(self.alloc)?;
        let rest = without(self.alloc, self.units(&holder), address)?;
        self.list(holder, rest)?;
        self.holders.remove(&address);
        Ok(())
    }

    /// Appends a unit to the list of a holder.
    fn append(&mut self, holder: &[u8], unit: Prefix) -> Result<(), AllocError>
        ensures listed { OnOk result
            (IsListed self.old self.new holder.now (units_of self.old holder.now ++ unit ∷ [])) }
        ensures refused { IfErr result (λ _. IsAsItWas self.old self.new) }
    {
        match self.units.get_mut(holder) {
            Some(units) => match units.push(unit) {
                Ok(()) => Ok(()),
                Err(error) => Err(error.into()),
            },
            None => {
                let units = vec![in self.alloc; unit]?;
                self.list(holder.to_vec(self.alloc)?, units)
            }
        }
    }

    /// Gives a unit, which nobody is known to have, to a holder.
    fn add(&mut self, unit: Prefix, holder: &[u8]) -> Result<(), AllocError>
        requires { holder_of self.old unit.address ≡ None }
        ensures added { OnOk result (IsAdded self.old self.new unit holder.now) }
        ensures refused { IfErr result (λ _. IsAsItWas self.old self.new) }
    {
        let name = holder.to_vec(self.alloc)?;
        self.holders.insert(unit.first(), name)?;
        match self.append(holder, unit) {
            Ok(()) => Ok(()),
            Err(error) => {
                self.holders.remove(&unit.first());
                Err(error)
            }
        }
    }

    /// Gives a unit to a holder: it leaves the list of who had it. Of a refused growth all is as it was, or nobody is
    /// known to have the unit.
    pub fn give(&mut self, unit: Prefix, holder: &[u8]) -> Result<(), AllocError>
        ensures given { OnOk result (IsGiven self.old self.new unit holder.now) }
        ensures refused { IfErr result (λ _. IsAsItWas self.old self.new ⊎ IsForgotten self.old self.new unit) }
    {
        self.forget(&unit)?;
        self.add(unit, holder)
    }
}
