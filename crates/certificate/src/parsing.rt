//! A certificate's text, taken apart.

ghost use Rattle.std.specs.Prelude.{◌≡◌, suc, IfOk, IsOk, IsErrOf, OnOk, Ok};
ghost use Rattle.text_fields.specs.Parsing.{MovesOr, Gives};
ghost use Rattle.text_fields.specs.Cuts.{split};
ghost use Rattle.certificate.specs.Spelling.{IsWritten, certificate_text};
ghost use Rattle.certificate.specs.Faults.{fault_of, opening_at, claim_on, certificate_of};
ghost use Rattle.causal_order.specs.declared.certificate.Certificate.{Certificate as CertificateValue};
ghost use Rattle.certificate.specs.declared.stops.TheConstants.{LINE_FEED};

use crate::draft::Draft;
use crate::error::CertificateError;
use crate::line::{add_line, holder, interval, prefix};
use crate::text_lines::TextLines;
use causal_order::{Certificate, CertificateFault};
use std::alloc::Global;

/// The last line.
const END: &[u8] = b"end";

/// Returns what the first four lines say: a certificate without pieces and other clients' grants.
#[tactic(auto, unfolding(crate::specs::Faults::opening_at))]
fn opening(alloc: Global, lines: &mut TextLines<'_>) -> Result<Draft, CertificateFault>
    ensures opening { MovesOr (λ c. c) result lines.new.left (opening_at lines.old.left) }
    ensures count { OnOk result (lines.new.count ≡ 4) }
{
    lines.head()?;
    let holder = holder(lines.next_line()?).ok_or(CertificateFault::Form { line: 2 })?;
    let prefix = prefix(lines.next_line()?).ok_or(CertificateFault::Form { line: 3 })?;
    let (from, to) = interval(lines.next_line()?).ok_or(CertificateFault::Form { line: 4 })?;
    Ok(Draft::new(alloc, holder, prefix, from, to))
}

/// Adds what the lines that are left say, up to the end line.
#[tactic(auto, using(crate::proofs::Going::next_line))]
fn claim_on(
    alloc: Global,
    mut lines: TextLines<'_>,
    mut draft: Draft,
) -> Result<Certificate, CertificateError>
    ensures { Gives fault_of (λ c. c) result (claim_on (suc lines.entry.count) draft lines.entry.left) }
{
    loop {
        let line = lines.next_line()?;
        if line == END {
            return if lines.is_at_end() {
                Ok(draft.finish())
            } else {
                Err(CertificateError::Fault(CertificateFault::End))
            };
        }
        let number = lines.count();
        add_line(alloc, &mut draft, line).map_err(|e| e.at(number))?;
    }
}

/// Returns what a text is as a certificate.
fn parse(alloc: Global, text: &[u8]) -> Result<Certificate, CertificateError>
    ensures exact { Gives fault_of (λ c. c) result (certificate_of text.now) }
    ensures memory { IsErrOf result CertificateError.Memory → IsOk (opening_at (split LINE_FEED text.now)) }
{
    let mut lines = TextLines::new(text);
    let draft = opening(alloc, &mut lines)?;
    claim_on(alloc, lines, draft)
}

/// The certificate that a text spells, or its first fault from the front: `Head`, `Form` with the line, `End`;
/// `Memory` where a growth was refused.
#[tactic(auto, using(crate::proofs::TextLaws::is_found, crate::proofs::TextLaws::is_only))]
pub fn read(alloc: Global, text: &[u8]) -> Result<Certificate, CertificateError>
    // What is read is spelled so.
    ensures found { IfOk result (λ c. IsWritten c × (text.now ≡ certificate_text c)) }
    // What is spelled so is read.
    ensures only { (c : CertificateValue) → IsWritten c → text.now ≡ certificate_text c
        → Gives fault_of (λ c. c) result (Ok c) }
    // Otherwise it is the text's first fault.
    ensures exact { Gives fault_of (λ c. c) result (certificate_of text.now) }
    // Growths are made only behind the first four lines.
    ensures memory { IsErrOf result CertificateError.Memory → IsOk (opening_at (split LINE_FEED text.now)) }
{
    parse(alloc, text)
}
