//! What of a report is drawn.

ghost use Rattle.std.specs.Prelude.{◌≡◌, ◌++◌, map, OnOk, IfOk};
ghost use Rattle.std.specs.List.{flat_map};
ghost use Rattle.report_render.specs.Picture.{lease_bar, piece_bar, carried_until, foreign_end, foreign_bar, dot_of};
ghost use Rattle.report_render.specs.Picture.{bars_of, report_bars, IsPicture};

use crate::messages::messages_of;
use crate::picture::{LeaseBar, LineDot, Picture};
use attribution::Lasting;
use causal_order::Ref;
use evidence_report::{
    CitedLine, ForeignEvidence, ForeignReport, LineReading, PieceReport, Report, ReportedDelegation,
};
use lead_time::{Reading, Skew, Transit};
use std::alloc::{AllocError, Global};

/// The lease of a grant that was written between two marks.
fn lease_bar(
    skew: Skew,
    transit: Transit,
    at: Ref,
    valid: u32,
    earliest: &LineReading,
    latest: &LineReading,
) -> LeaseBar
    ensures { result ≡ lease_bar skew transit at valid earliest.now latest.now }
{
    let lifetime = 1000 * u64::from(valid);
    let begun = latest.reading.milliseconds() + skew.milliseconds() + transit.milliseconds();
    let earliest = earliest.reading.milliseconds();
    LeaseBar {
        at,
        earliest: earliest.saturating_sub(skew.milliseconds()),
        sure: Some((
            begun,
            (earliest + lifetime).saturating_sub(skew.milliseconds()),
        )),
        latest: begun + lifetime,
    }
}

/// The lease of a piece, where the report shows what its grant grants and when.
fn piece_bar(skew: Skew, transit: Transit, report: &PieceReport<'_>) -> Option<LeaseBar>
    ensures { result ≡ piece_bar skew transit report.now }
{
    match (&report.granted, &report.earliest, &report.latest) {
        (Some(granted), Some(earliest), Some(latest)) => {
            Some(lease_bar(
                skew,
                transit,
                report.piece.grant,
                granted.lease.valid,
                earliest,
                latest,
            ))
        }
        _ => None,
    }
}

/// By when what a line tells of had ended by itself.
fn carried_until(skew: Skew, transit: Transit, told: &ReportedDelegation) -> u64
    ensures { result ≡ carried_until skew transit told.now }
{
    let (skew, transit) = (skew.milliseconds(), transit.milliseconds());
    match told.delegation.lasting {
        Lasting::For(seconds) => {
            told.reading.milliseconds() + skew + transit + 1000 * u64::from(seconds)
        }
        Lasting::Until(end) => end.milliseconds() + skew + transit,
    }
}

/// By when it had ended at all events: it may have been given back.
fn foreign_end(
    skew: Skew,
    transit: Transit,
    told: &ReportedDelegation,
    outside: &ForeignEvidence<'_>,
) -> u64
    ensures { result ≡ foreign_end skew transit told.now outside.now }
{
    match outside {
        ForeignEvidence::Released {
            latest: Some(latest),
            ..
        } => latest.reading.milliseconds() + skew.milliseconds(),
        _ => carried_until(skew, transit, told),
    }
}

/// Another client's delegation, where the entry's line tells of one.
fn foreign_bar(skew: Skew, transit: Transit, report: &ForeignReport<'_>) -> Option<LeaseBar>
    ensures { result ≡ foreign_bar skew transit report.now }
{
    match &report.told {
        Some(told) => Some(LeaseBar {
            at: report.entry.grant,
            earliest: told
                .reading
                .milliseconds()
                .saturating_sub(skew.milliseconds()),
            sure: None,
            latest: foreign_end(skew, transit, told, &report.outside),
        }),
        None => None,
    }
}

fn push_bar(bars: &mut Vec<LeaseBar>, bar: &Option<LeaseBar>) -> Result<(), AllocError>
    ensures { OnOk result (bars.new.items ≡ bars.old.items ++ bars_of bar.now) }
{
    match bar {
        Some(bar) => bars.extend_from_slice(&[*bar]),
        None => Ok(()),
    }
}

fn push_pieces(
    bars: &mut Vec<LeaseBar>,
    skew: Skew,
    transit: Transit,
    pieces: &[PieceReport<'_>],
) -> Result<(), AllocError>
    ensures { OnOk result
        (bars.new.items ≡ bars.old.items ++ flat_map (λ p. bars_of (piece_bar skew transit p)) pieces.now) }
{
    for piece in pieces {
        push_bar(bars, &piece_bar(skew, transit, piece))?;
    }
    Ok(())
}

fn push_foreign(
    bars: &mut Vec<LeaseBar>,
    skew: Skew,
    transit: Transit,
    foreign: &[ForeignReport<'_>],
) -> Result<(), AllocError>
    ensures { OnOk result
        (bars.new.items ≡ bars.old.items ++ flat_map (λ f. bars_of (foreign_bar skew transit f)) foreign.now) }
{
    for entry in foreign {
        push_bar(bars, &foreign_bar(skew, transit, entry))?;
    }
    Ok(())
}

fn dots_of(alloc: Global, cited: &[CitedLine]) -> Result<Vec<LineDot>, AllocError>
    ensures { IfOk result (λ dots. dots.items ≡ map dot_of cited.now) }
{
    let mut dots = Vec::new(alloc);
    for line in cited {
        dots.push(LineDot {
            at: line.at,
            reading: line.line.reading.milliseconds(),
        })?;
    }
    Ok(dots)
}

/// The milliseconds of a moment, where there is one.
fn milliseconds_of(moment: Option<Reading>) -> Option<u64>
    ensures { result ≡ moment }
{
    match moment {
        Some(moment) => Some(moment.milliseconds()),
        None => None,
    }
}

/// The bars of a report: the pieces' before other clients'.
#[tactic(auto, unfolding(crate::specs::Picture::report_bars))]
fn report_bars(alloc: Global, report: &Report<'_>) -> Result<Vec<LeaseBar>, AllocError>
    ensures { IfOk result (λ bars. bars.items ≡ report_bars report.now) }
{
    let mut bars = Vec::new(alloc);
    push_pieces(&mut bars, report.skew, report.transit, &report.pieces)?;
    push_foreign(&mut bars, report.skew, report.transit, &report.foreign)?;
    Ok(bars)
}

/// What of a report is drawn, with the moment that was asked about, where it was one. `AllocError` where a growth was
/// refused.
pub fn picture_of(
    alloc: Global,
    report: &Report<'_>,
    asked: Option<Reading>,
) -> Result<Picture, AllocError>
    ensures { IfOk result (IsPicture report.now asked) }
{
    let bars = report_bars(alloc, report)?;
    let dots = dots_of(alloc, &report.cited)?;
    let arrows = messages_of(alloc, &dots, report)?;
    Ok(Picture {
        from: report.certificate.from.milliseconds(),
        to: report.certificate.to.milliseconds(),
        asked: milliseconds_of(asked),
        bars,
        dots,
        arrows,
    })
}
