//! Why a foreign entry's reason doesn't hold.

ghost use Rattle.std.specs.Prelude.{◌≡◌, ◌↔◌, IsTrue, MatchOption};
ghost use Rattle.causal_order.specs.Journals.{Journals};
ghost use Rattle.causal_order.specs.declared.certificate.Foreign.{Foreign as ForeignValue};
ghost use Rattle.attribution.specs.declared.delegation.Lasting.TheVariants.{For};
ghost use Rattle.attribution.specs.Acceptance.{IsNew, ReasonHolds};
ghost use Rattle.evidence_report.specs.Others.{IsForeignReport};
ghost use Rattle.evidence_report.specs.Faults.{FailsForeign, IsEndless, IsEndOf, EarlyHolds, IsEarlyFault, LateHolds};
ghost use Rattle.evidence_report.specs.Faults.{IsLateFault, IsOrdered, ReleasedHolds, IsReleasedFault};

use crate::faults::ForeignFault;
use crate::foreign_report::{ForeignEvidence, ForeignReport};
use crate::mark::{LineReading, OrderReport};
use attribution::Lasting;
use causal_order::Certificate;
use journal_lines::Lease;
use lead_time::{Reading, Skew, Transit};

/// When what was granted at this reading, for so many seconds, has surely ended; `None` where it never does.
fn end_of_grant(valid: u32, reading: Reading, skew: Skew, transit: Transit) -> Option<u64>
    ensures { MatchOption result (IsEndless (For valid)) (IsEndOf skew transit reading (For valid)) }
{
    if valid == Lease::INFINITE {
        return None;
    }
    let latest = reading.milliseconds() + skew.milliseconds();
    Some(latest + transit.milliseconds() + 1000 * u64::from(valid))
}

/// When what was told of at this reading has surely ended, in milliseconds; `None` where it never does.
fn end_of(lasting: Lasting, reading: Reading, skew: Skew, transit: Transit) -> Option<u64>
    ensures { MatchOption result (IsEndless lasting) (IsEndOf skew transit reading lasting) }
{
    match lasting {
        Lasting::For(valid) => end_of_grant(valid, reading, skew, transit),
        Lasting::Until(end) => {
            Some(end.milliseconds() + skew.milliseconds() + transit.milliseconds())
        }
    }
}

/// Returns whether it began where it is told of: what is carried began before.
fn is_new(lasting: Lasting) -> bool
    ensures { IsTrue result ↔ IsNew lasting }
{
    match lasting {
        Lasting::For(_) => true,
        Lasting::Until(_) => false,
    }
}

/// Why it isn't shown to have ended by the interval's beginning.
fn early_fault(
    latest: &Option<LineReading>,
    lasting: Lasting,
    from: Reading,
    skew: Skew,
    transit: Transit,
) -> Option<ForeignFault>
    ensures { MatchOption result (EarlyHolds latest.now lasting skew transit from)
        (IsEarlyFault latest.now lasting skew transit from) }
{
    let Some(mark) = latest else {
        return Some(ForeignFault::NoChain);
    };
    let Some(ends) = end_of(lasting, mark.reading, skew, transit) else {
        return Some(ForeignFault::Endless);
    };
    let from = from.milliseconds();
    if ends > from {
        return Some(ForeignFault::EndsLate { ends, from });
    }
    None
}

/// Why it isn't shown to have begun at the interval's end or later.
fn late_fault(
    earliest: &Option<LineReading>,
    lasting: Lasting,
    to: Reading,
    skew: Skew,
) -> Option<ForeignFault>
    ensures { MatchOption result (LateHolds earliest.now lasting skew to)
        (IsLateFault earliest.now lasting skew to) }
{
    let Some(mark) = earliest else {
        return Some(ForeignFault::NoChain);
    };
    if !is_new(lasting) {
        return Some(ForeignFault::Carried);
    }
    let needed = to.milliseconds() + skew.milliseconds();
    let shown = mark.reading.milliseconds();
    if needed > shown {
        return Some(ForeignFault::BeginsEarly { needed, shown });
    }
    None
}

/// Returns whether what is shown puts the one line before the other.
fn is_ordered(order: &OrderReport, skew: Skew) -> bool
    ensures { IsTrue result ↔ IsOrdered skew order.now }
{
    match order {
        OrderReport::Chain { leads, .. } => *leads,
        OrderReport::Clock {
            latest: Some(latest),
            earliest: Some(earliest),
            ..
        } => {
            latest.reading.milliseconds() + 2 * skew.milliseconds()
                < earliest.reading.milliseconds()
        }
        _ => false,
    }
}

/// Why it isn't shown to have been given back by the interval's beginning.
fn released_fault(
    gives_back: bool,
    order: &OrderReport,
    latest: &Option<LineReading>,
    from: Reading,
    skew: Skew,
) -> Option<ForeignFault>
    ensures { MatchOption result (ReleasedHolds latest.now order.now (IsTrue gives_back) skew from)
        (IsReleasedFault latest.now order.now (IsTrue gives_back) skew from) }
{
    let Some(mark) = latest else {
        return Some(ForeignFault::NoChain);
    };
    if !gives_back {
        return Some(ForeignFault::NotGivenBack);
    }
    if !is_ordered(order, skew) {
        return Some(ForeignFault::NotBehind);
    }
    let given = mark.reading.milliseconds() + skew.milliseconds();
    let from = from.milliseconds();
    if given > from {
        return Some(ForeignFault::GivenBackLate { given, from });
    }
    None
}

impl ForeignReport<'_> {
    /// Why the entry's reason doesn't hold for this certificate: the first comparison that fails, with its numbers.
    /// `None` where it does.
    pub fn fault(
        &self,
        certificate: &Certificate,
        skew: Skew,
        transit: Transit,
    ) -> Option<ForeignFault>
        ensures { (js : Journals) (f : ForeignValue) → IsForeignReport js f self.now
            → MatchOption result (ReasonHolds js skew transit certificate.now f)
            (FailsForeign js skew transit certificate.now f) }
    {
        let Some(told) = &self.told else {
            return Some(ForeignFault::NoDelegation);
        };
        let lasting = told.delegation.lasting;
        match &self.outside {
            ForeignEvidence::Early(_, latest) => {
                early_fault(latest, lasting, certificate.from, skew, transit)
            }
            ForeignEvidence::Late(_, earliest) => late_fault(
                earliest,
                lasting,
                certificate.to,
                skew,
            ),
            ForeignEvidence::Released {
                gives_back,
                order,
                latest,
                ..
            } => released_fault(*gives_back, order, latest, certificate.from, skew),
        }
    }
}
