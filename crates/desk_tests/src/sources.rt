//! The index of two journals gives the lines that a walk over them gives.

ghost use Rattle.std.specs.Prelude.{◌<◌, IfOk};
ghost use Rattle.journal_text.specs.Closed.{IsClosed};

use crate::pairs::{Pair, index_of, pair_of, plain_of};
use auditor::LineSource;
use binding_rules::Role;
use causal_order::Ref;
use prefix_range::{Prefix, push_prefix, read_canonical};
use std::alloc::{AllocError, Global};
use std::process::Abort;
use std::test::Fail;
use std::thread::Threads;
use text_fields::push_number;

/// The lines that a source gives for a prefix.
fn given<S: LineSource>(
    alloc: Global,
    source: &S,
    prefix: &Prefix,
) -> Result<Vec<Ref>, AllocError> {
    let mut refs = Vec::new(alloc);
    let mut walk = source.overlaps(prefix);
    while let Some(at) = source.next_overlap(prefix, &mut walk) {
        refs.push(at)?;
    }
    Ok(refs)
}

/// Grants, releases and a carry line: units of /56 side by side, a /48 and a /64 round and in the second, and the ends
/// of all addresses.
const PRIMARY: &str = "pd-journal 2 A 2
1 5 grant 00030001020000000001 00000001 2001:0db8:0000:0100:0000:0000:0000:0000/56 3600
2 5 carry 00030001020000000001 00000001 2001:0db8:0000:0100:0000:0000:0000:0000/56 3600000
3 5 grant 00030001020000000001 00000001 2001:0db8:0000:0000:0000:0000:0000:0000/48 3600
4 5 release 00030001020000000001 00000001 2001:0db8:0000:0200:0000:0000:0000:0000/56
5 5 expire 2001:0db8:0000:0100:0000:0000:0000:0000/56
6 5 grant 00030001020000000001 00000001 ffff:ffff:ffff:ffff:ffff:ffff:ffff:ffff/128 3600
7 5 close
end 7
";

const SECONDARY: &str = "pd-journal 1 B
1 5 release 00030001020000000001 00000001 2001:0db8:0000:0100:0000:0000:0000:0000/64
2 5 grant 00030001020000000001 00000001 0000:0000:0000:0000:0000:0000:0000:0000/0 3600
3 5 grant 00030001020000000001 00000001 2001:0db8:0000:0100:0000:0000:0000:0000/56 3600
4 5 grant 00030001020000000001 00000001 0000:0000:0000:0000:0000:0000:0000:0000/128 3600
5 5 close
end 5
";

/// Prefixes, and the lines that concern each, in the order of their prefixes' lengths and addresses.
const ASKED: [(&str, &str); 9] = [
    (
        "2001:0db8:0000:0100:0000:0000:0000:0000/56",
        "B2 A3 A1 A2 B3 B1",
    ),
    (
        "2001:0db8:0000:01ff:ffff:ffff:ffff:ffff/128",
        "B2 A3 A1 A2 B3",
    ),
    (
        "2001:0db8:0000:0100:0000:0000:0000:0000/128",
        "B2 A3 A1 A2 B3 B1",
    ),
    ("2001:0db8:0000:0200:0000:0000:0000:0000/64", "B2 A3 A4"),
    ("2001:0db8:0000:0300:0000:0000:0000:0000/56", "B2 A3"),
    ("2001:0db8:0001:0000:0000:0000:0000:0000/48", "B2"),
    (
        "2001:0db8:0000:0000:0000:0000:0000:0000/47",
        "B2 A3 A1 A2 B3 A4 B1",
    ),
    (
        "0000:0000:0000:0000:0000:0000:0000:0000/0",
        "B2 A3 A1 A2 B3 A4 B1 B4 A6",
    ),
    ("ffff:ffff:ffff:ffff:ffff:ffff:ffff:fffe/127", "B2 A6"),
];

/// References as text: `A1 B2 ..`.
fn spelled(alloc: Global, refs: &[Ref]) -> Result<Vec<u8>, AllocError> {
    let mut text = Vec::new(alloc);
    for at in refs {
        if !text.is_empty() {
            text.push(b' ')?;
        }
        text.push(match at.side {
            Role::Primary => b'A',
            Role::Secondary => b'B',
        })?;
        push_number(&mut text, u64::from(at.number))?;
    }
    Ok(text)
}

/// The lines that a source gives for a prefix, as text.
fn given_text<S: LineSource>(alloc: Global, source: &S, prefix: &str) -> Result<Vec<u8>, Fail> {
    let refs = given(alloc, source, &read_canonical(prefix.as_bytes())?)?;
    Ok(spelled(alloc, &refs)?)
}

/// That a source gives the lines that concern each prefix, in their order.
fn check_asked<S: LineSource>(rt: &impl Abort, alloc: Global, source: &S) -> Result<(), Fail> {
    for (prefix, lines) in &ASKED {
        let text = given_text(alloc, source, prefix)?;
        assert_eq!(rt; text.as_slice(), lines.as_bytes());
    }
    Ok(())
}

#[test]
fn finds_what_overlaps(rt: HostRuntime) -> Result<(), Fail> {
    let pair = pair_of(rt.alloc(), PRIMARY.as_bytes(), SECONDARY.as_bytes())?;
    let index = index_of(&rt, rt.alloc(), &pair)?;
    check_asked(&rt, rt.alloc(), &index)
}

/// Numbers that look random, the same in each run.
#[derive(Clone, Copy)]
struct Numbers {
    state: u64,
}

impl Numbers {
    /// The next, below this limit.
    fn below(&mut self, limit: u64) -> u64
        requires { 0 < limit }
        ensures { result < limit }
    {
        self.state = self
            .state
            .wrapping_mul(6_364_136_223_846_793_005)
            .wrapping_add(1_442_695_040_888_963_407);
        (self.state >> 33) % limit
    }

    /// A prefix of any length, one of few of that length.
    fn prefix(&mut self) -> Result<Prefix, Fail> {
        let mut address = 0x2001_0db8_u128 << 96;
        for place in [127_u32, 96, 79, 72, 71, 64, 63, 1, 0] {
            if self.below(3) == 0 {
                address ^= 1_u128.checked_shl(place).unwrap_or(0);
            }
        }
        let bits = self.below(129) as u32;
        let rest = 128 - bits;
        let address = address.checked_shr(rest).unwrap_or(0);
        Ok(Prefix::new(address.checked_shl(rest).unwrap_or(0), bits as u8)?)
    }
}

/// What stands before the prefix and behind it in a line that grants, gives back or carries it.
const KINDS: [(&str, &str); 3] = [
    (" 5 grant 000300 00000001 ", " 7\n"),
    (" 5 release 000300 00000001 ", "\n"),
    (" 5 carry 000300 00000001 ", " 7\n"),
];

/// Adds a line of this number that speaks of a prefix.
fn push_line(text: &mut Vec<u8>, numbers: &mut Numbers, number: u64) -> Result<(), Fail> {
    let (before, behind) = KINDS[numbers.below(3) as usize];
    let prefix = numbers.prefix()?;
    push_number(text, number)?;
    text.extend_from_slice(before.as_bytes())?;
    push_prefix(text, &prefix)?;
    text.extend_from_slice(behind.as_bytes())?;
    Ok(())
}

/// The text of a journal of so many lines that speak of prefixes, under this head line.
fn journal(alloc: Global, numbers: &mut Numbers, head: &str, count: u64) -> Result<Vec<u8>, Fail> {
    let last = count.saturating_add(1);
    let end = format!(in alloc; "{last} 5 close\nend {last}\n")?;
    let mut text = head.as_bytes().to_vec(alloc)?;
    for number in 1..=count {
        push_line(&mut text, numbers, number)?;
    }
    text.extend_from_slice(end.as_bytes())?;
    Ok(text)
}

/// A pair of journals of so many lines each.
fn random_pair(alloc: Global, numbers: &mut Numbers, first: u64, second: u64) -> Result<Pair, Fail>
    ensures primary_closed { IfOk result (λ pair. IsClosed pair.primary.lines) }
    ensures secondary_closed { IfOk result (λ pair. IsClosed pair.secondary.lines) }
{
    let primary = journal(alloc, numbers, "pd-journal 1 A\n", first)?;
    let secondary = journal(alloc, numbers, "pd-journal 2 B 2\n", second)?;
    pair_of(alloc, &primary, &secondary)
}

/// Returns whether two sources give the same lines for a prefix.
fn are_same<P: LineSource, I: LineSource>(
    alloc: Global,
    plain: &P,
    index: &I,
    prefix: &Prefix,
) -> Result<bool, AllocError> {
    let walked = given(alloc, plain, prefix)?;
    let found = given(alloc, index, prefix)?;
    Ok(walked.len() == found.len() && walked.iter().all(|at| found.contains(at)))
}

/// That two sources give the same lines for prefixes of every length.
fn check_prefixes<P: LineSource, I: LineSource>(
    rt: &impl Abort,
    alloc: Global,
    numbers: &mut Numbers,
    plain: &P,
    index: &I,
) -> Result<(), Fail> {
    for _ in 0..200 {
        let prefix = numbers.prefix()?;
        assert!(rt; are_same(alloc, plain, index, &prefix)?);
    }
    Ok(())
}

/// That the index of two journals of so many lines gives what a walk over them gives.
fn check_same(
    rt: &(impl Abort + Threads + Sync),
    alloc: Global,
    numbers: &mut Numbers,
    first: u64,
    second: u64,
) -> Result<(), Fail> {
    let pair = random_pair(alloc, numbers, first, second)?;
    let index = index_of(rt, alloc, &pair)?;
    check_prefixes(rt, alloc, numbers, &plain_of(&pair), &index)
}

/// How many lines each side has.
const LINES: [(u64, u64); 5] = [(0, 0), (1, 0), (0, 3), (40, 60), (150, 120)];

#[test]
fn gives_what_a_walk_gives(rt: HostRuntime) -> Result<(), Fail> {
    let mut numbers = Numbers { state: 19 };
    for (first, second) in &LINES {
        check_same(&rt, rt.alloc(), &mut numbers, *first, *second)?;
    }
    Ok(())
}
