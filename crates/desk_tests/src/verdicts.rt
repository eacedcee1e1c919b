//! The lines of verdicts.

use attribution::{Verdict, verdict_line};
use binding_rules::Role;
use book_rules::Rule;
use causal_order::{CertificateFault, Ref};
use journal_lines::JournalFault;
use std::test::Fail;

/// The primary's third line.
const AT: Ref = Ref {
    side: Role::Primary,
    number: 3,
};

/// Verdicts, and the line of each.
const VERDICTS: [(Verdict, &[u8]); 18] = [
    (Verdict::Accepted, b"accepted\n"),
    (
        Verdict::Journal(Role::Secondary, JournalFault::Head),
        b"refused J1 Head B\n",
    ),
    (
        Verdict::Journal(Role::Primary, JournalFault::Form { line: 5 }),
        b"refused J2 Form A5\n",
    ),
    (
        Verdict::Journal(Role::Secondary, JournalFault::Number { line: 1 }),
        b"refused J3 Number B1\n",
    ),
    (
        Verdict::Journal(Role::Secondary, JournalFault::Reading { line: 12 }),
        b"refused J4 Reading B12\n",
    ),
    (
        Verdict::Journal(Role::Primary, JournalFault::End),
        b"refused J5 End A\n",
    ),
    (
        Verdict::Certificate(CertificateFault::Head),
        b"refused C1 Head\n",
    ),
    (
        Verdict::Certificate(CertificateFault::Form { line: 3 }),
        b"refused C2 Form 3\n",
    ),
    (
        Verdict::Certificate(CertificateFault::End),
        b"refused C3 End\n",
    ),
    (
        Verdict::Rule(Role::Secondary, 12, Rule::Seize),
        b"refused L1 Rule B12 20\n",
    ),
    (Verdict::EmptyInterval, b"refused C4 EmptyInterval\n"),
    (Verdict::PastEnd(Role::Secondary), b"refused C5 PastEnd B\n"),
    (Verdict::PieceGap(1), b"refused C6 PieceGap 1\n"),
    (Verdict::PieceGrant(2), b"refused C7 PieceGrant 2\n"),
    (Verdict::BeforeOpen, b"refused C11 BeforeOpen\n"),
    (
        Verdict::PieceRelease(1, AT),
        b"refused C8 PieceRelease 1 A3\n",
    ),
    (Verdict::Uncovered(AT), b"refused C9 Uncovered A3\n"),
    (Verdict::Reason(AT), b"refused C10 Reason A3\n"),
];

#[test]
fn says_verdicts(rt: HostRuntime) -> Result<(), Fail> {
    for (verdict, line) in &VERDICTS {
        assert_eq!(rt; verdict_line(rt.alloc(), verdict)?.as_slice(), *line);
    }
    Ok(())
}

/// The rules in the order of their numbers, from 1.
const RULES: [Rule; 20] = [
    Rule::Sequence,
    Rule::Opening,
    Rule::Pools,
    Rule::Unit,
    Rule::Waiting,
    Rule::Grant,
    Rule::Lifetime,
    Rule::Release,
    Rule::Expiry,
    Rule::Backup,
    Rule::Reclaim,
    Rule::Serial,
    Rule::Update,
    Rule::Reply,
    Rule::Contact,
    Rule::Down,
    Rule::Restart,
    Rule::Head,
    Rule::Transit,
    Rule::Seize,
];

#[test]
fn a_rule_is_printed_as_its_number(rt: HostRuntime) -> Result<(), Fail> {
    for (before, rule) in RULES.iter().enumerate() {
        let number = format!(in rt.alloc(); "{}", before + 1)?;
        assert_eq!(rt; format!(in rt.alloc(); "{rule}")?, number);
    }
    Ok(())
}
