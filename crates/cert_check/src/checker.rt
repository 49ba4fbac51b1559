//! The units of a certificate, and the calls of commands (docs/CHECKER.md, "Units").

ghost use Rattle.std.specs.Prelude.{◌≡◌, ◌≤◌, ◌+◌, [], length, Ok, Some, IfOk, OnErr, OnOk, MatchResult, option_map, slice_get};
ghost use Rattle.cert_check.specs.Subjects.{All, AreSound, Each, Finds, HasFewUses, HasRoom, IsCertified, IsEnd, IsHint, IsPieceOf, IsSound, IsStanding, Leads, Refused, Takes};
ghost use Rattle.cert_check.specs.Tours as tours;
ghost use Rattle.cert_check.specs.Units as rule;

use crate::course::Course;
use crate::limits::{MOST_COUNT, MOST_LOOPS};
use crate::making::{Loops, Unmade};
use crate::refusal::{Refusal, Walk};
use crate::scope::Scope;
use crate::tables::Tables;
use crate::tours::{Tour, Turning, turn_of};
use crate::turns::loop_checked;
use crate::units::{summary_checked, target_from};
use bst_meaning::condition::Cond;
use bst_meaning::value::Target;
use bv_base::memory::NoMemory;
use bv_base::place::Place;
use bv_base::seq::Seq;
use cert_format::cert::{Cert, Loop, Summary};
use name_table::names::NameId;
use name_table::style::Style;
use std::alloc::Global;
use std::marker::Model;
use straight_hints::Finding;
use sym_state::hint::{Hint, Hints};
use sym_state::piece::Piece;
use sym_state::state::State;

/// What a call came to whose hints are found and whose loops are made: the states at its end, those hints, and those loops.
#[derive(Drop)]
pub struct Called {
    pub given: Seq<State>,
    pub found: Seq<Hint>,
    pub loops: Seq<Loop>,
}

/// A style and a certificate that is checked for it.
#[derive(Drop)]
pub struct Checker<'a> {
    alloc: Global,
    style: &'a Style,
    cert: &'a Cert,
    tables: Tables,
}

impl<'a> Model for Checker<'a> {
    ghost use Rattle.cert_check.specs.Certified.{AreSound};
    ghost use Rattle.cert_check.specs.Tables.{AreTables};
    ghost use Rattle.cert_check.specs.Units as rule;

    ghost Value = { rule.Checked };

    ghost view = { λ c. record { style = c.style.now; cert = c.cert.now } };

    ghost invariant = { λ c. AreSound c.style.now c.cert.now × AreTables c.style.now c.cert.now c.tables };
}

impl<'a> Checker<'a> {
    /// A checker of a certificate that was read for the style.
    pub fn new(alloc: Global, style: &'a Style, cert: &'a Cert) -> Result<Checker<'a>, NoMemory>
        requires sound { IsSound style.now }
        requires certified { IsCertified style.now cert.now }
        ensures { IfOk result (λ checker. checker ≡ record { style = style.now; cert = cert.now }) }
    {
        Ok(Checker {
            alloc,
            style,
            cert,
            tables: Tables::new(alloc, style, cert)?,
        })
    }

    /// Checks the summary of a number: its body is walked from its pre, and each state at its end entails one of its posts.
    /// There is nothing to check where the certificate has none of that number.
    pub fn check_summary(&self, index: usize) -> Walk
        ensures { Takes (rule.checked_at self.now.style self.now.cert index) [] result }
    {
        match self.summary(index) {
            Some(summary) => summary_checked(&self.confined(&summary.writes), self.alloc, summary),
            None => Ok(()),
        }
    }

    /// Checks the loop of a number: each of its turns is walked from one of its cases, and ends with a case or leaves with an
    /// exit. There is nothing to check where the certificate has none of that number.
    pub fn check_loop(&self, index: usize) -> Walk
        ensures { Takes (rule.loop_checked_at self.now.style self.now.cert index) [] result }
    {
        match self.repetition(index) {
            Some(one) => loop_checked(&self.confined(&one.writes), self.alloc, one),
            None => Ok(()),
        }
    }

    /// Calls a target from states, one after the other: the states at its end. The hints behind those that it takes are
    /// left, and all of them where it isn't accepted.
    pub fn walk_call(
        &self,
        states: Vec<State>,
        target: Target,
        place: Place,
        hints: &mut Hints<'_>,
    ) -> Result<Vec<State>, Refusal>
        requires room { All (HasRoom self.now.style 64 0) states.items }
        requires proofs { All HasFewUses hints.old }
        ensures takes { MatchResult result
            (λ given. Leads (rule.call_walked self.now.style self.now.cert states.items target place hints.old) given.items hints.new)
            (Refused (rule.call_walked self.now.style self.now.cert states.items target place hints.old)) }
        ensures made { IfOk result (λ given. All (IsEnd self.now.style) given.items) }
        ensures proofs { All HasFewUses hints.new }
        ensures stays { OnErr result (hints.new ≡ hints.old) }
    {
        let scope = self.scope(None);
        let mut course = Course::new(self.alloc, hints.rest());
        let maker = Unmade::of(&scope);
        target_from(&scope, &maker, place, target, states, &mut course)?;
        *hints = Hints::new(course.rest());
        Ok(course.take_given())
    }

    /// Calls a target from states, where hints are found and not read: the states at its end, and those hints. No hint is found
    /// for a `while$` and for a function that has a summary: they are short there.
    pub fn find_call(
        &self,
        finding: Finding,
        states: Vec<State>,
        target: Target,
        place: Place,
    ) -> Result<(Vec<State>, Vec<Hint>), Refusal>
        requires room { All (HasRoom self.now.style 64 0) states.items }
        ensures finds { MatchResult result
            (λ p. Finds (rule.call_found finding self.now.style self.now.cert states.items target place) p.0.items p.1.items)
            (Refused (rule.call_found finding self.now.style self.now.cert states.items target place)) }
        ensures made { IfOk result (λ p. All (IsEnd self.now.style) p.0.items) }
        ensures written { IfOk result (λ p. Each IsHint p.1.items) }
    {
        let scope = self.scope(None);
        let mut course = Course::searching(self.alloc, finding);
        let maker = Unmade::of(&scope);
        target_from(&scope, &maker, place, target, states, &mut course)?;
        let found = course.take_found();
        Ok((course.take_given(), found))
    }

    /// Calls a target from states, where hints are found and loops are made: the states at its end, those hints, and those loops, which are
    /// numbered behind so many that stay.
    pub fn make_call<M: Loops>(
        &self,
        maker: &M,
        stay: usize,
        states: Vec<State>,
        target: Target,
        place: Place,
    ) -> Result<Called, Refusal>
        requires style { M.style maker.now ≡ self.now.style }
        requires stay { stay ≤ MOST_LOOPS }
        requires room { All (HasRoom self.now.style 64 0) states.items }
        ensures makes { MatchResult result
            (λ called. rule.call_made (M.made maker.now) self.now.style self.now.cert stay states.items target place ≡ Ok called)
            (Refused (rule.call_made (M.made maker.now) self.now.style self.now.cert stay states.items target place)) }
        ensures made { IfOk result (λ called. All (IsEnd self.now.style) called.given) }
        ensures written { IfOk result (λ called. Each IsHint called.found) }
        ensures stand { IfOk result (λ called. All (IsStanding self.now.style) called.loops) }
        ensures few { IfOk result (λ called. stay + length called.loops ≤ MOST_LOOPS) }
    {
        maker.makes();
        let scope = self.scope(None);
        let mut course = Course::making(self.alloc, stay);
        target_from(&scope, maker, place, target, states, &mut course)?;
        Ok(came_to(&mut course))
    }

    /// A turn from a case of a loop, by a certificate that has no such loop: the states that come to its ends, with the hints that are
    /// found. No hint is found for a `while$` and for a function that has a summary: they are short there.
    pub fn find_turn(&self, one: Turning, case: &Piece, tour: &mut Tour<'_>) -> Walk
        requires case { IsPieceOf self.now.style one.entry case.now }
        requires none { tours.GivesNone tour.old }
        ensures takes { Takes (tours.turn_of (rule.everywhere self.now.style self.now.cert) one case.now tour.old) tour.new result }
        ensures keeps { OnOk result (tours.KeepsTour self.now.style tour.old tour.new) }
    {
        let scope = self.scope(None);
        turn_of(&scope, self.alloc, one, case, tour)
    }

    /// The style.
    pub fn style(&self) -> &'a Style
        ensures style { result.now ≡ self.now.style }
        ensures sound { IsSound self.now.style }
    {
        self.style
    }

    /// The condition of the certificate.
    pub fn cond(&self) -> &'a Cond
        ensures cond { result.now ≡ self.now.cert.cond }
        ensures certified { IsCertified self.now.style self.now.cert }
    {
        &self.cert.cond
    }

    /// A walk of a unit that may write these variables.
    fn confined<'s>(&'s self, writes: &'s Seq<NameId>) -> Scope<'s>
        ensures scope { result ≡ record { style = self.now.style; cert = self.now.cert; writes = Some writes.now } }
        ensures sound { AreSound self.now.style self.now.cert }
    {
        self.scope(Some(writes.as_slice()))
    }

    /// A walk that may write these variables, or all where none is listed.
    fn scope<'s>(&'s self, writes: Option<&'s [NameId]>) -> Scope<'s>
        ensures scope { result ≡ record { style = self.now.style; cert = self.now.cert; writes = option_map (λ names. names.now) writes.entry } }
        ensures sound { AreSound self.now.style self.now.cert }
    {
        Scope::new(self.style, self.cert, writes, &self.tables)
    }

    /// The summary of a number.
    fn summary(&self, index: usize) -> Option<&'a Summary>
        ensures { option_map (λ summary. summary.now) result ≡ slice_get self.now.cert.summaries index }
    {
        self.cert.summaries.as_slice().get(index)
    }

    /// The loop of a number.
    fn repetition(&self, index: usize) -> Option<&'a Loop>
        ensures { option_map (λ one. one.now) result ≡ slice_get self.now.cert.loops index }
    {
        self.cert.loops.as_slice().get(index)
    }
}

/// What a course came to, which is taken from it.
fn came_to(course: &mut Course<'_>) -> Called
    ensures came { result ≡ rule.came_to course.old }
    ensures written { Each IsHint result.found }
    ensures few { course.old.stay + length result.loops ≤ MOST_LOOPS }
    ensures counted { course.old.count ≤ MOST_COUNT }
{
    Called {
        given: Seq::from_vec(course.take_given()),
        found: Seq::from_vec(course.take_found()),
        loops: Seq::from_vec(course.take_loops()),
    }
}
