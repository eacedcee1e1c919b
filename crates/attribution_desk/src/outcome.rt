//! What carrying out a command comes to.

ghost use Rattle.std.specs.Prelude.{◌≡◌, [], IfOk, IfErr};
ghost use Rattle.attribution_desk.specs.Warnings.{IsWarningOf};

use crate::error::DeskError;
use journal_lines::{Journal, JournalFault};
use lead_time::{Skew, Transit};
use pair_judgement::warnings;
use std::alloc::Global;

/// The status and the warnings that go with the answer that was written.
#[derive(Debug, Drop)]
pub struct DeskOutcome {
    /// 0 where everything was accepted or found, else 1.
    pub status: u8,
    /// Lines for standard error: what should tie the two journals and the question together, and doesn't (K2, K3).
    pub warnings: Vec<u8>,
}

impl DeskOutcome {
    /// This status, and no warning.
    pub(crate) fn quiet(alloc: Global, status: u8) -> DeskOutcome
        ensures status { result.status ≡ status }
        ensures quiet { result.warnings.items ≡ [] }
    {
        DeskOutcome {
            status,
            warnings: Vec::new(alloc),
        }
    }
}

/// The warnings on what two texts are as journals; none where one isn't. `Memory` where a growth was refused.
pub fn warnings_on(
    alloc: Global,
    a: &Result<Journal, JournalFault>,
    b: &Result<Journal, JournalFault>,
    skew: Skew,
    transit: Transit,
) -> Result<Vec<u8>, DeskError>
    ensures warned { IfOk result (λ text. IsWarningOf a.now b.now skew transit text.items) }
    ensures refused { IfErr result (λ e. e ≡ DeskError.Memory) }
{
    match (a, b) {
        (Ok(primary), Ok(secondary)) => {
            let text = warnings(alloc, primary, secondary, skew, transit)?;
            Ok(text)
        }
        (Ok(_), Err(_)) => Ok(Vec::new(alloc)),
        (Err(_), _) => Ok(Vec::new(alloc)),
    }
}
