//! The line that a verdict is printed as.

ghost use Rattle.std.specs.Prelude.{◌≡◌, ◌++◌, OnOk, IfOk};
ghost use Rattle.std.specs.Fmt.{decimal};
ghost use Rattle.attribution.specs.VerdictText.{side_text, place_text, journal_refusal, certificate_refusal};
ghost use Rattle.attribution.specs.VerdictText.{verdict_text, verdict_line as line_of};

use crate::verdict::Verdict;
use binding_rules::Role;
use causal_order::CertificateFault;
use journal_lines::JournalFault;
use std::alloc::{AllocError, Global};
use text_fields::push_number;

fn push_side(out: &mut Vec<u8>, side: Role) -> Result<(), AllocError>
    ensures { OnOk result (out.new.items ≡ out.old.items ++ side_text side) }
{
    match side {
        Role::Primary => out.extend_from_slice(b"A"),
        Role::Secondary => out.extend_from_slice(b"B"),
    }
}

/// Appends a side and the number of a line, as `A3`. `AllocError` where a growth was refused.
pub fn push_place(out: &mut Vec<u8>, side: Role, number: u32) -> Result<(), AllocError>
    ensures { OnOk result (out.new.items ≡ out.old.items ++ place_text side number) }
{
    push_side(out, side)?;
    push_number(out, u64::from(number))
}

/// These words and the side.
fn push_of_side(out: &mut Vec<u8>, words: &[u8], side: Role) -> Result<(), AllocError>
    ensures { OnOk result (out.new.items ≡ out.old.items ++ (words.now ++ side_text side)) }
{
    out.extend_from_slice(words)?;
    push_side(out, side)
}

/// These words and the line.
fn push_of_line(out: &mut Vec<u8>, words: &[u8], side: Role, line: u32) -> Result<(), AllocError>
    ensures { OnOk result (out.new.items ≡ out.old.items ++ (words.now ++ place_text side line)) }
{
    out.extend_from_slice(words)?;
    push_place(out, side, line)
}

/// These words and a number.
fn push_counted(out: &mut Vec<u8>, words: &[u8], number: u64) -> Result<(), AllocError>
    ensures { OnOk result (out.new.items ≡ out.old.items ++ (words.now ++ decimal number)) }
{
    out.extend_from_slice(words)?;
    push_number(out, number)
}

fn push_journal_refusal(
    out: &mut Vec<u8>,
    side: Role,
    fault: JournalFault,
) -> Result<(), AllocError>
    ensures { OnOk result (out.new.items ≡ out.old.items ++ journal_refusal side fault) }
{
    match fault {
        JournalFault::Head => push_of_side(out, b"J1 Head ", side),
        JournalFault::Form { line } => push_of_line(out, b"J2 Form ", side, line),
        JournalFault::Number { line } => push_of_line(out, b"J3 Number ", side, line),
        JournalFault::Reading { line } => push_of_line(out, b"J4 Reading ", side, line),
        JournalFault::End => push_of_side(out, b"J5 End ", side),
    }
}

fn push_certificate_refusal(out: &mut Vec<u8>, fault: CertificateFault) -> Result<(), AllocError>
    ensures { OnOk result (out.new.items ≡ out.old.items ++ certificate_refusal fault) }
{
    match fault {
        CertificateFault::Head => out.extend_from_slice(b"C1 Head"),
        CertificateFault::Form { line } => push_counted(out, b"C2 Form ", u64::from(line)),
        CertificateFault::End => out.extend_from_slice(b"C3 End"),
    }
}

fn push_verdict(out: &mut Vec<u8>, verdict: &Verdict) -> Result<(), AllocError>
    ensures { OnOk result (out.new.items ≡ out.old.items ++ verdict_text verdict.now) }
{
    match verdict {
        Verdict::Accepted => out.extend_from_slice(b"accepted"),
        Verdict::Journal(side, fault) => {
            out.extend_from_slice(b"refused ")?;
            push_journal_refusal(out, *side, *fault)
        }
        Verdict::Certificate(fault) => {
            out.extend_from_slice(b"refused ")?;
            push_certificate_refusal(out, *fault)
        }
        Verdict::Rule(side, line, rule) => {
            push_of_line(out, b"refused L1 Rule ", *side, *line)?;
            push_counted(out, b" ", u64::from(rule.number()))
        }
        Verdict::Unsent(at) => push_of_line(out, b"refused X1 Unsent ", at.side, at.number),
        Verdict::Differs(at) => push_of_line(out, b"refused X2 Differs ", at.side, at.number),
        Verdict::Circular => out.extend_from_slice(b"refused X3 Circular"),
        Verdict::EmptyInterval => out.extend_from_slice(b"refused C4 EmptyInterval"),
        Verdict::PastEnd(side) => push_of_side(out, b"refused C5 PastEnd ", *side),
        Verdict::PieceGap(number) => push_counted(out, b"refused C6 PieceGap ", *number),
        Verdict::PieceGrant(number) => push_counted(out, b"refused C7 PieceGrant ", *number),
        Verdict::BeforeOpen => out.extend_from_slice(b"refused C11 BeforeOpen"),
        Verdict::PieceRelease(number, at) => {
            push_counted(out, b"refused C8 PieceRelease ", *number)?;
            push_of_line(out, b" ", at.side, at.number)
        }
        Verdict::Uncovered(at) => push_of_line(out, b"refused C9 Uncovered ", at.side, at.number),
        Verdict::Reason(at) => push_of_line(out, b"refused C10 Reason ", at.side, at.number),
    }
}

/// The line that says the verdict, with its line feed.
pub fn verdict_line(alloc: Global, verdict: &Verdict) -> Result<Vec<u8>, AllocError>
    ensures { IfOk result (λ line. line.items ≡ line_of verdict.now) }
{
    let mut line = Vec::new(alloc);
    push_verdict(&mut line, verdict)?;
    line.push(b'\n')?;
    Ok(line)
}
