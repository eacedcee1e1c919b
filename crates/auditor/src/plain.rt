//! Two journals as they were read.

ghost use Rattle.std.specs.Prelude.{◌≡◌, ◌+◌, ◌<◌, ◌^◌, [], ◌∷◌, length, drop, MatchOption};
ghost use Rattle.journal_lines.specs.Head.{volume_number};
ghost use Rattle.causal_order.specs.Journals.{journals_of, journal_of, volume_of, line_of};
ghost use Rattle.journal_text.specs.Closed.{IsClosed};
ghost use Rattle.auditor.specs.Closing.{ClosesAt};
ghost use Rattle.auditor.specs.Passing.{answers, passing_from, passing, left_of, returned_of};
ghost use Rattle.auditor.specs.Walks.{YieldsNext};

use crate::question::{EventQuestion, answers};
use crate::source::LineSource;
use crate::walk::Walk;
use attribution::Delegation;
use binding_rules::Role;
use causal_order::{Lines, Ref};
use journal_lines::{Journal, Line};
use lead_time::Reading;
use prefix_range::Prefix;
use std::marker::Model;

/// Two closed journals, looked through at each call. Contracts see both.
#[derive(Drop)]
pub struct PlainSource<'a> {
    primary: &'a Journal,
    secondary: &'a Journal,
}

impl<'a> Model for PlainSource<'a> {
    ghost use Rattle.causal_order.specs.Journals.{Journals, journals_of};
    ghost use Rattle.journal_text.specs.Closed.{IsClosed};

    ghost Value = { Journals };

    ghost view = { λ s. journals_of s.primary.now s.secondary.now };

    ghost invariant = { λ s. IsClosed s.primary.now.lines × IsClosed s.secondary.now.lines };
}

impl<'a> PlainSource<'a> {
    /// The source of these journals, the primary's first.
    pub fn new(primary: &'a Journal, secondary: &'a Journal) -> PlainSource<'a>
        requires primary_closed { IsClosed primary.now.lines }
        requires secondary_closed { IsClosed secondary.now.lines }
        ensures { result ≡ journals_of primary.now secondary.now }
    {
        PlainSource { primary, secondary }
    }

    fn journal_of(&self, side: Role) -> &'a Journal
        ensures volume { volume_number result.now.head ≡ volume_of self.now side }
        ensures lines { result.now.lines ≡ journal_of self.now side }
        ensures closed { IsClosed result.now.lines }
    {
        match side {
            Role::Primary => self.primary,
            Role::Secondary => self.secondary,
        }
    }

    fn lines_of(&self, side: Role) -> &'a [Line]
        ensures lines { result.now ≡ journal_of self.now side }
        ensures closed { IsClosed result.now }
    {
        self.journal_of(side).lines.as_slice()
    }

    /// The next line of a walk over those that answer the question.
    #[tactic(auto, using(crate::proofs::Given::first_given, crate::proofs::Given::second_given, crate::proofs::Given::none_given,))]
    fn next_line(&self, question: &EventQuestion, walk: &mut Walk) -> Option<Ref>
        ensures { YieldsNext result (passing (answers question.now) self.now walk.old.next walk.old.onward)
            (passing (answers question.now) self.now walk.new.next walk.new.onward) }
    {
        let primary = self.lines_of(Role::Primary);
        if let Some(at) = next_on(Role::Primary, primary, question, walk.next) {
            walk.next = at.number as usize;
            return Some(at);
        }
        walk.next = primary.len();
        let secondary = self.lines_of(Role::Secondary);
        let at = next_on(Role::Secondary, secondary, question, walk.onward)?;
        walk.onward = at.number as usize;
        Some(at)
    }
}

impl Lines for PlainSource<'_> {
    ghost journals = { λ s. s };

    fn line(&self, at: Ref) -> Option<Line> {
        let index = at.number.checked_sub(1)?;
        self.lines_of(at.side).get(index as usize).copied()
    }
}

impl LineSource for PlainSource<'_> {
    ghost left = { left_of };

    ghost returned = { returned_of };

    fn close_reading(&self, side: Role) -> Reading {
        let lines = self.lines_of(side);
        lines[lines.len() - 1].reading
    }

    fn volume(&self, side: Role) -> u32 {
        self.journal_of(side).head.volume()
    }

    fn overlaps(&self, _prefix: &Prefix) -> Walk {
        Walk::START
    }

    fn next_overlap(&self, prefix: &Prefix, walk: &mut Walk) -> Option<Ref> {
        self.next_line(&EventQuestion::Overlapping(*prefix), walk)
    }

    fn releases(&self, _delegation: &Delegation) -> Walk {
        Walk::START
    }

    fn next_release(&self, delegation: &Delegation, walk: &mut Walk) -> Option<Ref> {
        self.next_line(&EventQuestion::GivingBack(*delegation), walk)
    }
}

/// The first line of this side, from the index on, that answers the question.
#[tactic(auto, using(crate::proofs::Given::found_here, crate::proofs::Given::passed_by, crate::proofs::Given::none_behind,))]
fn next_on(side: Role, lines: &[Line], question: &EventQuestion, from: usize) -> Option<Ref>
    requires few { length lines.now < 2 ^ 32 }
    ensures { MatchOption result (passing_from (answers question.now) side (from + 1) (drop from lines.now) ≡ [])
        (λ r. passing_from (answers question.now) side (from + 1) (drop from lines.now)
        ≡ r ∷ passing_from (answers question.now) side (r.number + 1) (drop r.number lines.now)) }
{
    let mut index = from;
    while index < lines.len() {
        if answers(question, &lines[index].event) {
            return Some(Ref {
                side,
                number: index as u32 + 1,
            });
        }
        index += 1;
    }
    None
}
