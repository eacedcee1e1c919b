//! How often clients may be heard.

ghost use Rattle.std.specs.Prelude.{◌≡◌, ℕ, ◌/◌, List, IfOk, IfErr, OnOk, if◌then◌else◌};
ghost use Rattle.std.specs.Str.{bytes_eq};
ghost use Rattle.client_limits.specs.Rates.{IsHeard, IsCountedAsBefore, heard_in, count_in};

use lead_time::Reading;
use std::alloc::{AllocError, Global};
use std::collections::BTreeMap;

/// How many messages came in a second of the clock, by octets that name whom they are from.
#[derive(Drop)]
pub(crate) struct Rates {
    alloc: Global,
    second: u64,
    counts: BTreeMap<Vec<u8>, u32>,
}

impl Rates {
    /// None came yet.
    pub fn new(alloc: Global) -> Rates
        ensures { (second : ℕ) (name : List ℕ) → heard_in result second name ≡ 0 }
    {
        Rates {
            alloc,
            second: 0,
            counts: BTreeMap::new(alloc),
        }
    }

    /// Begins a second anew, unless it is the one that is counted.
    fn turn_to(&mut self, second: u64)
        ensures counts { (name : List ℕ) → count_in self.new.counts name ≡ heard_in self.old second name }
        ensures second { self.new.second ≡ second }
    {
        if self.second != second {
            self.second = second;
            self.counts.clear();
        }
    }

    /// Returns how many messages of this name were heard in the second that is counted.
    fn count(&self, name: &[u8]) -> u32
        ensures { result ≡ count_in self.now.counts name.now }
    {
        match self.counts.get(name) {
            Some(count) => *count,
            None => 0,
        }
    }

    /// Counts so many messages of this name.
    fn set(&mut self, name: Vec<u8>, count: u32) -> Result<(), AllocError>
        ensures second { self.new.second ≡ self.old.second }
        ensures set { OnOk result ((n : List ℕ) → count_in self.new.counts n
            ≡ (if bytes_eq name.items n then count else count_in self.old.counts n)) }
        ensures refused { IfErr result (λ _. (n : List ℕ) → count_in self.new.counts n ≡ count_in self.old.counts n) }
    {
        self.counts.insert(name, count)?;
        Ok(())
    }

    /// Returns whether another message of this name is heard in the second of a reading, which may be so many; and
    /// counts it, if it is. A rate of 0 hears all.
    pub fn allows(&mut self, rate: u32, now: Reading, name: &[u8]) -> Result<bool, AllocError>
        ensures heard { IfOk result (IsHeard self.old self.new rate (now / 1000) name.now) }
        ensures refused { IfErr result (λ _. IsCountedAsBefore self.old self.new (now / 1000)) }
    {
        self.turn_to(now.milliseconds() / 1000);
        if rate == 0 {
            return Ok(true);
        }
        let count = self.count(name);
        if count >= rate {
            return Ok(false);
        }
        self.set(name.to_vec(self.alloc)?, count + 1)?;
        Ok(true)
    }
}
