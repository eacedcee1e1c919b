//! Where an auditor finds the lines that it needs.

ghost use Rattle.std.specs.Prelude.{◌≡◌, List};
ghost use Rattle.prefix_range.specs.Prefix.{Prefix as PrefixValue};
ghost use Rattle.causal_order.specs.declared.reference.Ref.{Ref as RefValue};
ghost use Rattle.causal_order.specs.Journals.{journal_of, volume_of};
ghost use Rattle.attribution.specs.declared.delegation.Delegation.{Delegation as DelegationValue};
ghost use Rattle.attribution.specs.Listing.{IsListing};
ghost use Rattle.auditor.specs.declared.walk.Walk.{Walk as WalkValue};
ghost use Rattle.auditor.specs.Closing.{ClosesAt};
ghost use Rattle.auditor.specs.Walks.{YieldsNext, AreReleases};

use crate::walk::Walk;
use attribution::Delegation;
use binding_rules::Role;
use causal_order::{Lines, Ref};
use lead_time::Reading;
use prefix_range::Prefix;

/// Two closed journals, whose lines can be asked for by number, by prefix and by delegation.
pub trait LineSource: Lines {
    /// What a walk over the lines that concern a prefix has yet to give.
    ghost left: { Self → PrefixValue → WalkValue → List RefValue };

    /// What a walk over the releases of a delegation has yet to give.
    ghost returned: { Self → DelegationValue → WalkValue → List RefValue };

    /// Returns what the clock showed when the side's journal was closed.
    fn close_reading(&self, side: Role) -> Reading
        ensures { ClosesAt (journal_of (Self.journals self.now) side) result };

    /// Returns which volume of all that the side's server wrote its journal is, from 1.
    fn volume(&self, side: Role) -> u32
        ensures { result ≡ volume_of (Self.journals self.now) side };

    /// A walk over the lines that concern the prefix: grants, carry lines and releases of prefixes that overlap it.
    fn overlaps(&self, prefix: &Prefix) -> Walk
        // Exactly the lines of both journals that concern the prefix, each once.
        ensures exact { IsListing (Self.journals self.now) prefix.now (left self.now prefix.now result) };

    /// The next line of that walk.
    fn next_overlap(&self, prefix: &Prefix, walk: &mut Walk) -> Option<Ref>
        ensures { YieldsNext result (left self.now prefix.now walk.old) (left self.now prefix.now walk.new) };

    /// A walk over the releases that give the delegation back.
    fn releases(&self, delegation: &Delegation) -> Walk
        // Exactly the lines of both journals that do.
        ensures exact { AreReleases (Self.journals self.now) delegation.now
            (returned self.now delegation.now result) };

    /// The next line of that walk.
    fn next_release(&self, delegation: &Delegation, walk: &mut Walk) -> Option<Ref>
        ensures { YieldsNext result (returned self.now delegation.now walk.old)
            (returned self.now delegation.now walk.new) };
}
