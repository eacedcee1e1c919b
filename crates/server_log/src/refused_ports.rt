//! Which relay ports a person was told of, where a quota refused something.

ghost use Rattle.std.specs.Prelude.{◌≡◌, ◌↔◌, ◌<◌, IsTrue, IfOk, OnErr};
ghost use Rattle.server_log.specs.RefusedPorts.{HasEnded, IsAdded, IsNoted, IsAnHourOver};

use crate::rate_limit::RateLimit;
use lead_time::Reading;
use std::alloc::{AllocError, Global};
use std::collections::BTreeSet;

/// Of how many ports a person is told in an hour, at most.
const MOST_TOLD: u64 = 64;

/// How many ports beside these are told apart in an hour, at most.
const MOST_OTHERS: u64 = 65_536;

/// Whether a person is told of a port now.
#[derive(Clone, Copy, Debug, PartialEq, Eq)]
pub(crate) enum PortNews {
    /// He is.
    Told,
    /// He was told of so many others within the hour: it is counted.
    Counted,
    /// It was seen within the hour already, or too many others were.
    Known,
}

/// The relay ports at which a quota refused something within an hour.
#[derive(Drop)]
pub(crate) struct RefusedPorts {
    alloc: Global,
    /// When the hour began; none before the first.
    hour: Option<RateLimit>,
    /// By their names; that of all that have no name is empty.
    ports: BTreeSet<Vec<u8>>,
    /// Of how many a person was told.
    told: u64,
    /// How many there were beside these.
    others: u64,
}

impl RefusedPorts {
    /// There is none yet.
    pub(crate) fn none(alloc: Global) -> RefusedPorts
        ensures told { result.told ≡ 0 }
        ensures others { result.others ≡ 0 }
    {
        RefusedPorts {
            alloc,
            hour: None,
            ports: BTreeSet::new(alloc),
            told: 0,
            others: 0,
        }
    }

    /// Returns whether the hour is over.
    fn is_hour_over(&self, now: Reading) -> bool
        ensures { IsTrue result ↔ IsAnHourOver self.now.hour now }
    {
        match self.hour {
            None => true,
            Some(mut hour) => hour.take_hour(now),
        }
    }

    /// Ends the hour, where it is over, and returns how many ports were counted in it; 0 where it isn't over.
    pub(crate) fn end_hour(&mut self, now: Reading) -> u64
        ensures { HasEnded self.old self.new now result }
    {
        if !self.is_hour_over(now) {
            return 0;
        }
        let others = self.others;
        self.hour = Some(RateLimit::told(now));
        self.ports = BTreeSet::new(self.alloc);
        self.told = 0;
        self.others = 0;
        others
    }

    /// Notes a port by its name.
    fn note(&mut self, name: Vec<u8>) -> Result<PortNews, AllocError>
        requires few { self.old.others < 65536 }
        ensures noted { IfOk result (λ news. IsNoted self.old self.new name news) }
        ensures refused { OnErr result ((self.new.told ≡ self.old.told) × (self.new.others ≡ self.old.others)) }
    {
        if !self.ports.insert(name)? {
            return Ok(PortNews::Known);
        }
        if self.told < MOST_TOLD {
            self.told += 1;
            return Ok(PortNews::Told);
        }
        self.others += 1;
        Ok(PortNews::Counted)
    }

    /// Notes a port by its name at which a quota refused something. Of the first 64 of an hour a person is told, and the
    /// others are counted. Where a growth is refused nothing is counted.
    #[tactic(auto, using(crate::proofs::Ports::added))]
    pub(crate) fn add(&mut self, name: Vec<u8>) -> Result<PortNews, AllocError>
        ensures added { IfOk result (λ news. IsAdded self.old self.new name news) }
        ensures refused { OnErr result ((self.new.told ≡ self.old.told) × (self.new.others ≡ self.old.others)) }
    {
        if self.others >= MOST_OTHERS {
            return Ok(PortNews::Known);
        }
        let news = self.note(name)?;
        Ok(news)
    }
}
