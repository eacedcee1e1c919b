//! Which clocks fit two journals.

ghost use Rattle.std.specs.Prelude.{◌≡◌, ◌++◌, OnOk, IfOk};
ghost use Rattle.pair_judgement.specs.Clocked.{behind_text, least_text, IsClocked};

use attribution::{Verdict, push_place};
use auditor::{AuditError, Checked, check_pair, unbroken_is_short};
use journal_lines::Journal;
use journal_merge::{EarlyTake, LeastSkew, least_skew};
use std::alloc::{AllocError, Global};
use text_fields::push_number;

/// The finding on two journals' clocks.
#[derive(Clone, Copy, Debug, PartialEq, Eq)]
pub enum ClockJudgement {
    /// Clocks within this skew and no less fit the two, which keep the rules.
    Fit(LeastSkew),
    /// What refuses the two, whatever the skew.
    Refused(Verdict),
}

/// The least skew with which the primary's journal and the secondary's could have been written, or what `check_pair`
/// refuses of them. `Memory` where a growth was refused.
pub fn clock_pair(
    alloc: Global,
    primary: &Journal,
    secondary: &Journal,
) -> Result<ClockJudgement, AuditError>
    ensures { IfOk result (IsClocked primary.now secondary.now) }
{
    unbroken_is_short();
    if let Checked::Refused(verdict) = check_pair(alloc, primary, secondary)? {
        return Ok(ClockJudgement::Refused(verdict));
    }
    Ok(ClockJudgement::Fit(least_skew(alloc, primary, secondary)?))
}

/// `B3 behind A4` and a line feed, where a take needs the skew.
fn push_behind(out: &mut Vec<u8>, behind: Option<EarlyTake>) -> Result<(), AllocError>
    ensures { OnOk result (out.new.items ≡ out.old.items ++ behind_text behind) }
{
    let Some(behind) = behind else {
        return Ok(());
    };
    push_place(out, behind.take.side, behind.take.number)?;
    out.extend_from_slice(b" behind ")?;
    push_place(out, behind.send.side, behind.send.number)?;
    out.push(b'\n')?;
    Ok(())
}

/// `least-skew N`, in milliseconds, and where N isn't 0 the take that needs it and the send that it reads behind, on a
/// line each. `AllocError` where a growth was refused.
pub fn least_text(alloc: Global, least: &LeastSkew) -> Result<Vec<u8>, AllocError>
    ensures { IfOk result (λ text. text.items ≡ least_text least.now) }
{
    let mut text = Vec::new(alloc);
    text.extend_from_slice(b"least-skew ")?;
    push_number(&mut text, least.skew)?;
    text.push(b'\n')?;
    push_behind(&mut text, least.behind)?;
    Ok(text)
}
