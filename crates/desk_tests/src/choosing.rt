//! Which volumes show a moment.

use crate::volumes::{ClosedVolume, archive_of};
use binding_rules::Role;
use journal_archive::{Archive, ArchiveError, CoverageGap, CoverageSpan, PairLookup};
use lead_time::{Reading, Skew, Transit};
use std::alloc::Global;
use std::test::Fail;

/// A roll of the primary's, from its first volume to its second.
const ROLL: &[ClosedVolume] = &[
    (0, Role::Primary, 2, 10_000, 20_000),
    (1, Role::Secondary, 1, 900, 30_000),
    (2, Role::Primary, 1, 1000, 10_000),
];

/// What an archive shows from 5000 up to 25000.
fn spans_of(alloc: Global, archive: &Archive) -> Result<Vec<CoverageSpan>, Fail> {
    let skew = Skew::new(500)?;
    let from = Reading::new(5000)?;
    let to = Reading::new(25_000)?;
    Ok(archive.over(alloc, from, to, skew, Transit::ZERO)?)
}

/// Returns whether a span ends here, and the primary's volume in this file shows it.
fn is_shown(span: &CoverageSpan, to: u64, file: usize) -> bool {
    match span.answer {
        PairLookup::Shown(pair) => span.to == to && pair.primary.file == file,
        PairLookup::Lacking(..) => false,
    }
}

/// Why no volume of this side shows a moment; none where it isn't this side's that is lacking.
fn gap_of(answer: &PairLookup, side: Role) -> Option<CoverageGap> {
    match answer {
        PairLookup::Lacking(lacking, gap) if *lacking == side => Some(*gap),
        _ => None,
    }
}

#[test]
fn names_the_pair_and_the_gap_of_a_roll(rt: HostRuntime) -> Result<(), Fail> {
    let archive = archive_of(rt.alloc(), ROLL)??;
    let spans = spans_of(rt.alloc(), &archive)?;
    assert_eq!(rt; spans.len(), 4);
    assert!(rt; is_shown(&spans[0], 9500, 2));
    let roll = gap_of(&spans[1].answer, Role::Primary);
    assert!(rt; matches!(roll, Some(CoverageGap::Roll(..))));
    assert_eq!(rt; spans[1].to, 10_500);
    assert!(rt; is_shown(&spans[2], 19_500, 0));
    let end = gap_of(&spans[3].answer, Role::Primary);
    assert!(rt; matches!(end, Some(CoverageGap::Later(_))));
    Ok(())
}

const FIRST: ClosedVolume = (0, Role::Secondary, 1, 1000, 10_000);

const THIRD: ClosedVolume = (1, Role::Secondary, 3, 15_000, 20_000);

const PARTNER: ClosedVolume = (2, Role::Primary, 1, 1000, 30_000);

/// The third with another last reading.
const AGAIN: ClosedVolume = (3, Role::Secondary, 3, 15_000, 20_001);

/// A fourth that opens before the third ends.
const EARLY: ClosedVolume = (4, Role::Secondary, 4, 19_999, 25_000);

/// Volumes that are not of one pair of servers, and why.
const REFUSED: [(&[ClosedVolume], ArchiveError); 2] = [
    (
        &[FIRST, THIRD, AGAIN],
        ArchiveError::Differ {
            first: 1,
            second: 3,
        },
    ),
    (
        &[EARLY, THIRD],
        ArchiveError::OutOfOrder {
            earlier: 1,
            later: 4,
        },
    ),
];

#[test]
fn says_what_is_missing_and_what_cannot_be(rt: HostRuntime) -> Result<(), Fail> {
    let skew = Skew::new(500)?;
    let archive = archive_of(rt.alloc(), &[FIRST, THIRD, PARTNER])??;
    let gap = gap_of(&archive.at(12_000, skew, Transit::ZERO), Role::Secondary);
    assert!(rt; matches!(gap, Some(CoverageGap::Missing(..))));
    for (volumes, error) in &REFUSED {
        assert_eq!(rt; archive_of(rt.alloc(), *volumes)?.err(), Some(*error));
    }
    Ok(())
}
