//! Whether two journals are of one pair, and whether what is asked allows for what they say of themselves.

ghost use Rattle.std.specs.Prelude.{◌≡◌, ◌↔◌, ◌≤◌, ◌++◌, IsTrue, IfOk, OnOk, MatchOption, length, drop};
ghost use Rattle.std.specs.Prelude.{Some, slice_get};
ghost use Rattle.journal_lines.specs.declared.line.Line.{Line as LineValue};
ghost use Rattle.pair_judgement.specs.Ties.{is_setting, settings_of, unless};
ghost use Rattle.pair_judgement.specs.Ties.{AreOnePair, AreCovered, BothCovered, IsWithin, AreWithin};
ghost use Rattle.pair_judgement.specs.Ties.{AreTied, IsDoubted, IsWarning};

use crate::judging::Judgement;
use journal_lines::{Event, Journal, Line};
use lead_time::{Skew, Transit};
use std::alloc::{AllocError, Global};

/// Returns whether the event says how its server is set up.
fn is_setting(event: &Event) -> bool
    ensures { result ≡ is_setting event.now }
{
    matches!(
        event,
        Event::Open { .. } | Event::Pool { .. } | Event::Transit(_)
    )
}

/// The place of the first open, pool or transit line from this place on; the number of lines where none is left.
fn next_setting(lines: &[Line], from: usize) -> usize
    requires { from ≤ length lines.now }
    ensures within { result ≤ length lines.now }
    ensures onward { from ≤ result }
    ensures skipped { settings_of (drop from lines.now) ≡ settings_of (drop result lines.now) }
    ensures found { (line : LineValue) → slice_get lines.now result ≡ Some line → IsTrue (is_setting line.event) }
{
    let mut place = from;
    while place < lines.len() {
        if is_setting(&lines[place].event) {
            return place;
        }
        place += 1;
    }
    place
}

/// Returns whether two settings are the same.
fn say_the_same(first: &Event, second: &Event) -> bool
    requires { IsTrue (is_setting first.now) }
    ensures { IsTrue result ↔ (first.now ≡ second.now) }
{
    first == second
}

/// Returns whether the open, pool and transit lines say the same, in the same order.
fn are_alike(first: &[Line], second: &[Line]) -> bool
    ensures { IsTrue result ↔ (settings_of first.now ≡ settings_of second.now) }
{
    let mut i = next_setting(first, 0);
    let mut j = next_setting(second, 0);
    while i < first.len() && j < second.len() {
        if !say_the_same(&first[i].event, &second[j].event) {
            return false;
        }
        i = next_setting(first, i + 1);
        j = next_setting(second, j + 1);
    }
    i == first.len() && j == second.len()
}

/// Returns whether the event says no skew and no transit over these.
fn is_within(event: &Event, skew: Skew, transit: Transit) -> bool
    ensures { IsTrue result ↔ IsWithin event.now skew transit }
{
    match event {
        Event::Open { skew: own, .. } => *own <= skew.milliseconds(),
        Event::Transit(own) => own.milliseconds() <= transit.milliseconds(),
        _ => true,
    }
}

/// Returns whether no line says a skew or a transit over these.
#[tactic(auto, using(crate::proofs::Settings::one_more, crate::proofs::Settings::in_all, crate::proofs::Settings::all_seen,))]
fn are_within(lines: &[Line], skew: Skew, transit: Transit) -> bool
    ensures { IsTrue result ↔ AreWithin lines.now skew transit }
{
    for line in lines {
        if !is_within(&line.event, skew, transit) {
            return false;
        }
    }
    true
}

fn is_covered(journal: &Journal, skew: Skew, transit: Transit) -> bool
    ensures { IsTrue result ↔ AreCovered journal.now skew transit }
{
    are_within(journal.lines.as_slice(), skew, transit)
}

fn are_one_pair(primary: &Journal, secondary: &Journal) -> bool
    ensures { IsTrue result ↔ AreOnePair primary.now secondary.now }
{
    are_alike(primary.lines.as_slice(), secondary.lines.as_slice())
}

fn are_both_covered(primary: &Journal, secondary: &Journal, skew: Skew, transit: Transit) -> bool
    ensures { IsTrue result ↔ BothCovered primary.now secondary.now skew transit }
{
    is_covered(primary, skew, transit) && is_covered(secondary, skew, transit)
}

/// Returns what speaks against asking this of the two journals, K2 before K3: that their settings differ, or that one's
/// own line says a greater skew or transit. None where nothing does.
pub fn objection(
    primary: &Journal,
    secondary: &Journal,
    skew: Skew,
    transit: Transit,
) -> Option<Judgement>
    ensures { MatchOption result (AreTied primary.now secondary.now skew transit)
        (IsDoubted primary.now secondary.now skew transit) }
{
    if !are_one_pair(primary, secondary) {
        return Some(Judgement::Pair);
    }
    if !are_both_covered(primary, secondary, skew, transit) {
        return Some(Judgement::Skew);
    }
    None
}

/// Appends the note where something doesn't hold.
fn push_unless(out: &mut Vec<u8>, holds: bool, note: &[u8]) -> Result<(), AllocError>
    ensures { OnOk result (out.new.items ≡ out.old.items ++ unless holds note.now) }
{
    if !holds {
        out.extend_from_slice(note)?;
    }
    Ok(())
}

/// A line for each of K2 and K3 that speaks against asking this of the two journals. `AllocError` where a growth was
/// refused.
pub fn warnings(
    alloc: Global,
    primary: &Journal,
    secondary: &Journal,
    skew: Skew,
    transit: Transit,
) -> Result<Vec<u8>, AllocError>
    ensures { IfOk result (λ text. IsWarning primary.now secondary.now skew transit text.items) }
{
    let mut text = Vec::new(alloc);
    let alike = are_one_pair(primary, secondary);
    push_unless(
        &mut text,
        alike,
        b"warning K2 Pair: the journals' open, pool or transit lines differ: are they of one pair?\n",
    )?;
    let covered = are_both_covered(primary, secondary, skew, transit);
    push_unless(
        &mut text,
        covered,
        b"warning K3 Skew: a journal's own line says a greater skew or transit than is asked with\n",
    )?;
    Ok(text)
}
