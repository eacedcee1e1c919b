//! What a search for evidence comes to, as a value and as it is written.

ghost use Rattle.std.specs.Prelude.{◌≡◌, codes, IfOk, IfErr};
ghost use Rattle.attribution_desk.specs.Find.{over_limits, evidence_text, finding_status, finding_note};
ghost use Rattle.attribution_desk.specs.Who.{TellsHolder};

use crate::error::DeskError;
use crate::holding::held_text;
use causal_order::Certificate;
use std::alloc::{AllocError, Global};

/// What a search for evidence comes to.
#[derive(Debug, Drop)]
pub enum Finding {
    /// This certificate shows what is asked.
    Shown(Certificate),
    /// No evidence was found.
    NoneFound,
    /// Evidence was found that has more lines than a certificate may have.
    TooLong,
}

/// The line that tells a person why what was found isn't given.
const OVER_LIMITS: &[u8] =
    b"warning Length: the evidence that was found has more lines than a certificate may have, 65536\n";

/// The line that tells a person that evidence was found which has more lines than a certificate may have.
pub fn over_limits() -> &'static [u8]
    ensures { result.now ≡ over_limits }
{
    OVER_LIMITS
}

/// The line that says that nothing is found.
pub fn none_line(alloc: Global) -> Result<Vec<u8>, AllocError>
    ensures { IfOk result (λ line. line.items ≡ codes "none\n") }
{
    let mut line = Vec::new(alloc);
    line.extend_from_slice(b"none\n")?;
    Ok(line)
}

impl Finding {
    /// 0 where evidence was found, else 1.
    pub fn status(&self) -> u8
        ensures { result ≡ finding_status self.now }
    {
        match self {
            Finding::Shown(_) => 0,
            Finding::NoneFound => 1,
            Finding::TooLong => 1,
        }
    }

    /// A line for standard error where evidence was found that isn't given, else nothing.
    pub fn note(&self) -> &'static [u8]
        ensures { result.now ≡ finding_note self.now }
    {
        match self {
            Finding::Shown(_) => b"",
            Finding::NoneFound => b"",
            Finding::TooLong => over_limits(),
        }
    }

    /// The certificate's text, or `none`. `Memory` where a growth was refused.
    pub fn evidence_text(&self, alloc: Global) -> Result<Vec<u8>, DeskError>
        ensures spelled { IfOk result (λ text. text.items ≡ evidence_text self.now) }
        ensures refused { IfErr result (λ e. e ≡ DeskError.Memory) }
    {
        match self {
            Finding::Shown(certificate) => match certificate::write(alloc, certificate) {
                Ok(text) => Ok(text),
                Err(_) => Err(DeskError::Memory),
            },
            Finding::NoneFound => Ok(none_line(alloc)?),
            Finding::TooLong => Ok(none_line(alloc)?),
        }
    }

    /// Who held the prefix and when, in three lines, and the certificate behind them; or `none`. `Memory` where a
    /// growth was refused.
    pub fn holder_text(&self, alloc: Global) -> Result<Vec<u8>, DeskError>
        ensures spelled { IfOk result (λ text. TellsHolder self.now text.items) }
        ensures refused { IfErr result (λ e. e ≡ DeskError.Memory) }
    {
        match self {
            Finding::Shown(certificate) => held_text(alloc, certificate),
            Finding::NoneFound => Ok(none_line(alloc)?),
            Finding::TooLong => Ok(none_line(alloc)?),
        }
    }
}
