//! The delegations whose releases were asked for last.

ghost use Rattle.std.specs.Prelude.{◌≡◌, [], IsTrue, IfOk, IfSome, OnOk};
ghost use Rattle.plain_search.specs.Collected.{AreGivenBackAlike, IsRecent, IsPlaceOf};

use crate::collected::Releases;
use attribution::Delegation;
use auditor::LineSource;
use std::alloc::{AllocError, Global};

/// The releases of the delegations that were asked about last.
#[derive(Drop)]
pub struct ReleaseCache {
    pub collected: Vec<Releases>,
}

/// How many delegations are kept. The most that a client has at a time is one for each identity association.
const MOST_KEPT: usize = 256;

/// Returns whether the same lines give both back.
fn are_given_back_alike(one: &Delegation, other: &Delegation) -> bool
    ensures { IsTrue result → AreGivenBackAlike one.now other.now }
{
    one.client == other.client && one.iaid == other.iaid && one.prefix == other.prefix
}

impl ReleaseCache {
    /// Nothing yet.
    pub fn new(alloc: Global) -> ReleaseCache
        ensures { result.collected.items ≡ [] }
    {
        ReleaseCache {
            collected: Vec::new(alloc),
        }
    }

    fn place_of(&self, delegation: &Delegation) -> Option<usize>
        ensures { IfSome result (IsPlaceOf self.now delegation.now) }
    {
        for place in 0..self.collected.len() {
            if are_given_back_alike(&self.collected[place].delegation, delegation) {
                return Some(place);
            }
        }
        None
    }

    /// Collects them, and forgets the others where there are too many.
    fn collect<S: LineSource>(
        &mut self,
        alloc: Global,
        source: &S,
        delegation: &Delegation,
    ) -> Result<usize, AllocError>
        requires { IsRecent (S.journals source.now) self.old }
        ensures recent { OnOk result (IsRecent (S.journals source.now) self.new) }
        ensures place { IfOk result (IsPlaceOf self.new delegation.now) }
    {
        if self.collected.len() >= MOST_KEPT {
            self.collected = Vec::new(alloc);
        }
        let place = self.collected.len();
        let releases = Releases::of(alloc, source, delegation)?;
        self.collected.push(releases)?;
        Ok(place)
    }

    /// The place of the delegation's releases: of those collected before, where there are any.
    pub fn place_for<S: LineSource>(
        &mut self,
        alloc: Global,
        source: &S,
        delegation: &Delegation,
    ) -> Result<usize, AllocError>
        requires { IsRecent (S.journals source.now) self.old }
        ensures recent { OnOk result (IsRecent (S.journals source.now) self.new) }
        ensures place { IfOk result (IsPlaceOf self.new delegation.now) }
    {
        match self.place_of(delegation) {
            Some(place) => Ok(place),
            None => self.collect(alloc, source, delegation),
        }
    }
}
