//! Whether a certificate names each delegation of another client, with a reason that holds.

ghost use Rattle.std.specs.Prelude.{◌↔◌, IsTrue, MatchOption};
ghost use Rattle.attribution.specs.Acceptance.{IsNamed, IsCovered};
ghost use Rattle.causal_order.specs.LineOrder.{IsLeast};
ghost use Rattle.attribution.specs.FirstRefusal.{IsUncovered};
ghost use Rattle.auditor.specs.Refusals.{IsOthers, AreReasoned, IsUnreasoned};

use crate::grants::{delegation_at, reason_holds};
use crate::order::comes_first;
use crate::source::LineSource;
use attribution::Delegation;
use causal_order::{Certificate, Lines, Ref};
use lead_time::{Skew, Transit};

/// Returns whether some foreign entry names the line.
fn is_named(certificate: &Certificate, at: Ref) -> bool
    ensures { IsTrue result ↔ IsNamed certificate.now at }
{
    !certificate.foreign.naming(at).is_empty()
}

/// Returns whether the delegation is another client's, of a prefix that overlaps the one asked of.
fn is_foreign(delegation: &Delegation, certificate: &Certificate) -> bool
    ensures { IsTrue result ↔ IsOthers delegation.now certificate.now }
{
    delegation.client != certificate.holder && delegation.prefix.overlaps(&certificate.prefix)
}

/// Returns whether the line tells of another client's delegation of a prefix that overlaps the one asked of, and no
/// foreign entry names it.
pub fn is_uncovered<L: Lines>(lines: &L, certificate: &Certificate, at: Ref) -> bool
    ensures { IsTrue result ↔ IsUncovered (L.journals lines.now) certificate.now at }
{
    match delegation_at(lines, at) {
        Some(delegation) => is_foreign(&delegation, certificate) && !is_named(certificate, at),
        None => false,
    }
}

/// The least line that tells of another client's delegation of a prefix that overlaps the one asked of, and that no
/// foreign entry names.
pub fn least_uncovered<S: LineSource>(source: &S, certificate: &Certificate) -> Option<Ref>
    ensures { MatchOption result (IsCovered (S.journals source.now) certificate.now)
        (IsLeast (IsUncovered (S.journals source.now) certificate.now)) }
{
    let mut least: Option<Ref> = None;
    let mut walk = source.overlaps(&certificate.prefix);
    while let Some(at) = source.next_overlap(&certificate.prefix, &mut walk) {
        if comes_first(at, least) && is_uncovered(source, certificate, at) {
            least = Some(at);
        }
    }
    least
}

/// The line of the first foreign entry whose reason doesn't hold.
pub fn first_unreasoned<S: LineSource>(
    source: &S,
    certificate: &Certificate,
    skew: Skew,
    transit: Transit,
) -> Option<Ref>
    ensures { MatchOption result (AreReasoned (S.journals source.now) skew transit certificate.now)
        (IsUnreasoned (S.journals source.now) skew transit certificate.now) }
{
    for entry in certificate.foreign.as_slice() {
        if !reason_holds(source, certificate, entry, skew, transit) {
            return Some(entry.grant);
        }
    }
    None
}
