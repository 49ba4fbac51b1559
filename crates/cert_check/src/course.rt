//! How far a walk has come.

ghost use Rattle.std.specs.Prelude.{◌≡◌, ◌≢◌, ◌<◌, ◌≤◌, ◌+◌, ◌*◌, ℕ, [], ◌∷◌, ◌++◌, length, reverse, true, false, None, Some, IfOk, OnOk, Ok, Err, MatchResult, MatchOption};
ghost use Rattle.std.specs.Global.{Global as Allocator};
ghost use Rattle.std.specs.List.{All};
ghost use Rattle.bv_base.specs.Answers.{then_do};
ghost use Rattle.sym_state.specs.Cases.{above_of};
ghost use Rattle.sym_state.specs.Demands.{HasFewUses, one_of, without};
ghost use Rattle.sym_state.specs.Effects as effects;
ghost use Rattle.sym_state.specs.Entailing.{line_count};
ghost use Rattle.sym_state.specs.Results as results;
ghost use Rattle.sym_state.specs.declared.demand.EffectFault.TheVariants.{NoMemory as WantOfMemoryThere};
ghost use Rattle.sym_state.specs.declared.hint.Hint.TheVariants.{Case as CaseHint, Loop as LoopHint};
ghost use Rattle.sym_state.specs.declared.symbol.Kinds.TheVariants.{Int as IntKind};
ghost use Rattle.cert_format.specs.declared.cert.Loop.{Loop};
ghost use Rattle.cert_check.specs.Courses as courses;
ghost use Rattle.straight_hints.specs.declared.finding.Finding.TheVariants.{Straight};
ghost use Rattle.cert_check.specs.Subjects.{AnswersAt, AreCases, AreWithin, CanEnd, Each, GoesOn, HasBounds, HasRoom, IsBounded, IsHint, Takes, here};
ghost use Rattle.cert_check.specs.Tours as tours;
ghost use Rattle.cert_check.specs.Units as units;
ghost use Rattle.cert_check.specs.Uses as uses;
ghost use Rattle.cert_check.specs.Walks as rule;
ghost use Rattle.cert_check.specs.declared.refusal.Reason.TheVariants.{NoMemory as WantOfMemory};

use crate::at::At;
use crate::choice::{Three, test_of};
use crate::limits::{MOST_CASES, MOST_COUNT, MOST_LOOPS};
use crate::making::Loops;
use crate::refusal::{Reason, Refusal, Walk};
use crate::scope::Scope;
use crate::units::all_end;
use crate::uses::{Passage, comes_by};
use bst_meaning::condition::Cond;
use builtin_effects::effect::effect;
use bv_base::memory::NoMemory;
use bv_base::place::Place;
use cert_format::cert::Loop;
use name_table::builtin::Builtin;
use name_table::names::NameId;
use refinements::{Test, above, split};
use std::alloc::Global;
use std::marker::Model;
use std::mem;
use straight_hints::{Finding, above_hints, plain_hints, test_hints};
use sym_state::demand::{Demand, DemandKind, EffectFault};
use sym_state::hint::{Hint, Hints};
use sym_state::operands::one;
use sym_state::piece::Piece;
use sym_state::state::State;
use sym_state::symbol::{Kinds, Sym};

/// The cases of an integer in a state, each with whether it is above 0 there, or the rule that fails.
type Cases = Result<Vec<(bool, State)>, Refusal>;

/// The states that the token in hand has given so far, the hints of the certificate that are left, and how much the unit's
/// walk has counted. Where hints are found and not read, how that is done, those that were found so far, and the loops that were made,
/// behind so many that stay from walks before.
#[derive(Drop)]
pub(crate) struct Course<'a> {
    alloc: Global,
    given: Vec<State>,
    hints: Hints<'a>,
    count: u32,
    finding: Option<Finding>,
    found: Vec<Hint>,
    stay: usize,
    loops: Vec<Loop>,
}

impl<'a> Model for Course<'a> {
    ghost use Rattle.std.specs.Prelude.{◌≤◌, ◌+◌, length};
    ghost use Rattle.std.specs.List.{All};
    ghost use Rattle.name_table.specs.Sound.{Each};
    ghost use Rattle.cert_format.specs.CertText.{IsHint};
    ghost use Rattle.sym_state.specs.Demands.{HasFewUses};
    ghost use Rattle.cert_check.specs.Courses as courses;
    ghost use Rattle.cert_check.specs.declared.limits.TheConstants.{MOST_COUNT, MOST_LOOPS};

    ghost Value = { courses.Course };

    ghost view = { λ c. record { given = c.given.items; hints = c.hints; count = c.count; finding = c.finding; found = c.found.items; stay = c.stay; loops = c.loops.items } };

    ghost invariant = { λ c. (c.count ≤ MOST_COUNT) × All HasFewUses c.hints × Each IsHint c.found.items × (c.stay + length c.loops.items ≤ MOST_LOOPS) };
}

impl<'a> Course<'a> {
    /// A walk that begins with these hints.
    pub(crate) fn new(alloc: Global, hints: &'a [Hint]) -> Course<'a>
        requires { All HasFewUses hints.now }
        ensures { result ≡ units.beginning hints.now }
    {
        Course {
            alloc,
            given: Vec::new(alloc),
            hints: Hints::new(hints),
            count: 0,
            finding: None,
            found: Vec::new(alloc),
            stay: 0,
            loops: Vec::new(alloc),
        }
    }

    /// A walk that finds its hints.
    pub(crate) fn searching(alloc: Global, finding: Finding) -> Course<'a>
        ensures { result ≡ units.searching finding }
    {
        Course {
            alloc,
            given: Vec::new(alloc),
            hints: Hints::new(&[]),
            count: 0,
            finding: Some(finding),
            found: Vec::new(alloc),
            stay: 0,
            loops: Vec::new(alloc),
        }
    }

    /// A walk that finds its hints and makes its loops, behind so many that stay.
    pub(crate) fn making(alloc: Global, stay: usize) -> Course<'a>
        requires few { stay ≤ MOST_LOOPS }
        ensures { result ≡ record (units.searching Straight) { stay = stay } }
    {
        Course {
            alloc,
            given: Vec::new(alloc),
            hints: Hints::new(&[]),
            count: 0,
            finding: Some(Finding::Straight),
            found: Vec::new(alloc),
            stay,
            loops: Vec::new(alloc),
        }
    }

    /// Counts.
    pub(crate) fn counts(&mut self, n: u32, place: Place) -> Walk
        ensures takes { Takes (courses.counts n place self.old) self.new result }
        ensures given { OnOk result (self.new.given ≡ self.old.given) }
    {
        if n > MOST_COUNT - self.count {
            return refuse(place, Reason::WalkTooLong);
        }
        self.count += n;
        Ok(())
    }

    /// The token in hand gives one state more.
    pub(crate) fn gives(&mut self, place: Place, state: State) -> Walk
        ensures takes { Takes (courses.gives place state self.old) self.new result }
    {
        if self.given.len() >= MOST_CASES {
            return refuse(place, Reason::TooManyCases);
        }
        put(place, &mut self.given, state)
    }

    /// It gives these states, one after the other.
    pub(crate) fn gives_all(&mut self, place: Place, states: Vec<State>) -> Walk
        ensures takes { Takes (courses.gives_all place states.items self.old) self.new result }
    {
        for state in states {
            self.gives(place, state)?;
        }
        Ok(())
    }

    /// The states that the last token gave, which the next one is taken from.
    pub(crate) fn take_given(&mut self) -> Vec<State>
        ensures given { result.items ≡ self.old.given }
        ensures left { self.new ≡ record self.old { given = [] } }
        ensures counted { self.old.count ≤ MOST_COUNT }
        ensures written { Each IsHint self.old.found }
    {
        mem::replace(&mut self.given, Vec::new(self.alloc))
    }

    /// A body is entered from a state. What the token in hand gave before is kept by the caller.
    pub(crate) fn begin(&mut self, place: Place, state: State) -> Result<Vec<State>, Refusal>
        ensures { MatchResult result (λ given. (given.items ≡ self.old.given) × (self.new ≡ record self.old { given = state ∷ [] }))
            (λ refusal. refusal.reason ≡ WantOfMemory) }
    {
        let mut first = Vec::new(self.alloc);
        match first.push(state) {
            Ok(()) => Ok(mem::replace(&mut self.given, first)),
            Err(_) => refuse(place, Reason::NoMemory),
        }
    }

    /// The body has ended: the token in hand gives the states at its end, beside those that it gave before.
    pub(crate) fn end(&mut self, place: Place, given: Vec<State>) -> Walk
        ensures takes { Takes (courses.gives_all place self.old.given (record self.old { given = given.items })) self.new result }
    {
        let inner = mem::replace(&mut self.given, given);
        self.gives_all(place, inner)
    }

    /// The next hint that is left, which is taken.
    pub(crate) fn next_hint(&mut self) -> Option<&'a Hint>
        ensures hint { MatchOption result ((self.old.hints ≡ []) × (self.new ≡ self.old))
            (λ hint. (self.old.hints ≡ hint.now ∷ self.new.hints) × (self.new ≡ record self.old { hints = self.new.hints })) }
        ensures counted { self.old.count ≤ MOST_COUNT }
    {
        self.hints.next_short()
    }

    /// The hints that are left.
    pub(crate) fn rest(&self) -> &'a [Hint]
        ensures rest { result.now ≡ self.now.hints }
        ensures few { All HasFewUses self.now.hints }
        ensures counted { self.now.count ≤ MOST_COUNT }
    {
        let _ = &self.count;
        self.hints.rest()
    }

    /// The hints that were found, which are taken.
    pub(crate) fn take_found(&mut self) -> Vec<Hint>
        ensures found { result.items ≡ self.old.found }
        ensures written { Each IsHint result.items }
        ensures counted { self.old.count ≤ MOST_COUNT }
        ensures rest { self.new ≡ record self.old { found = [] } }
    {
        mem::replace(&mut self.found, Vec::new(self.alloc))
    }

    /// How many loops stay and were made.
    pub(crate) fn loop_count(&self) -> usize
        ensures made { result ≡ courses.first_number self.now }
        ensures few { courses.first_number self.now ≤ MOST_LOOPS }
        ensures counted { self.now.count ≤ MOST_COUNT }
    {
        self.stay + self.loops.len()
    }

    /// The loops that were made for a token come behind those that were made before.
    pub(crate) fn makes(&mut self, place: Place, mut made: Vec<Loop>) -> Walk
        requires few { courses.first_number self.old + length made.items ≤ MOST_LOOPS }
        ensures { MatchResult result (λ _. self.new ≡ rule.all_made (record { made = made.items; course = self.old }))
            (λ refusal. refusal.reason ≡ WantOfMemory) }
    {
        match self.loops.append(&mut made) {
            Ok(()) => Ok(()),
            Err(_) => refuse(place, Reason::NoMemory),
        }
    }

    /// The loops that were made, which are taken.
    pub(crate) fn take_loops(&mut self) -> Vec<Loop>
        ensures loops { result.items ≡ self.old.loops }
        ensures few { self.old.stay + length self.old.loops ≤ MOST_LOOPS }
        ensures rest { self.new ≡ record self.old { loops = [] } }
    {
        mem::replace(&mut self.loops, Vec::new(self.alloc))
    }

    /// The hints by which a state comes to a loop that was made were found: its number, that of its case, and the steps.
    pub(crate) fn finds_loop(
        &mut self,
        place: Place,
        number: usize,
        case: usize,
        steps: Vec<Hint>,
    ) -> Walk
        requires number { number ≤ 65536 }
        requires case { case ≤ 65536 }
        requires written { Each IsHint steps.items }
        ensures { MatchResult result (λ _. self.new ≡ record self.old { found = self.old.found ++ LoopHint number ∷ (CaseHint case ∷ steps.items) })
            (λ refusal. refusal.reason ≡ WantOfMemory) }
    {
        let mut hints = Vec::new(self.alloc);
        if hints.push(Hint::Loop(number as u32)).is_err()
            || hints.push(Hint::Case(case as u32)).is_err()
        {
            return refuse(place, Reason::NoMemory);
        }
        self.finds(place, hints)?;
        self.finds(place, steps)
    }

    /// Where its lists are: there is one allocator.
    pub(crate) fn alloc(&self) -> Global
        ensures { (other : Allocator) → result ≡ other }
    {
        self.alloc
    }

    /// How hints are found, where they are.
    fn finding(&self) -> Option<Finding>
        ensures finding { result ≡ self.now.finding }
        ensures counted { self.now.count ≤ MOST_COUNT }
    {
        self.finding
    }

    /// Hints were found for a rule, behind those that were found before.
    fn finds(&mut self, place: Place, mut hints: Vec<Hint>) -> Walk
        requires written { Each IsHint hints.items }
        ensures { MatchResult result (λ _. self.new ≡ record self.old { found = self.old.found ++ hints.items })
            (λ refusal. refusal.reason ≡ WantOfMemory) }
    {
        match self.found.append(&mut hints) {
            Ok(()) => Ok(()),
            Err(_) => refuse(place, Reason::NoMemory),
        }
    }

    /// A state comes to a unit by its pre, which the next hints show.
    pub(crate) fn comes<M: Loops>(
        &mut self,
        at: &At<'_, M>,
        unit: &Passage<'_>,
        pre: &Piece,
        state: &State,
    ) -> Walk
        requires bounds { HasBounds state.now }
        requires rows { All IsBounded pre.now.rows }
        requires lines { line_count pre.now ≤ 2147483648 }
        ensures comes { AnswersAt at.now.place (uses.comes_by unit.now at.now.scope.now.cert.cond pre.now state.now self.old.hints) (λ _. self.new.hints) result }
        ensures rest { OnOk result (self.new ≡ record self.old { hints = self.new.hints }) }
        ensures few { OnOk result (length pre.now.stack ≤ length state.now.stack) }
    {
        placed(
            at.place,
            comes_by(unit, at.scope.cond(), pre, state, &mut self.hints),
        )
    }

    /// A built-in function that is neither a test nor enters a function gives one state.
    pub(crate) fn plain<M: Loops>(&mut self, at: &At<'_, M>, op: Builtin, state: &State) -> Walk
        requires plain { effects.is_plain op ≡ true }
        requires room { HasRoom at.now.scope.now.style 65 self.old.count state.now }
        ensures takes { Takes (rule.plain (here M.made at.now) op at.now.place state.now self.old) self.new result }
    {
        match self.finding() {
            None => self.plain_read(at, op, state),
            Some(finding) => self.plain_found(finding, at, op, state),
        }
    }

    /// The same by hints that are left.
    fn plain_read<M: Loops>(&mut self, at: &At<'_, M>, op: Builtin, state: &State) -> Walk
        requires reads { self.old.finding ≡ None }
        requires plain { effects.is_plain op ≡ true }
        requires room { HasRoom at.now.scope.now.style 65 self.old.count state.now }
        ensures takes { Takes (rule.plain (here M.made at.now) op at.now.place state.now self.old) self.new result }
    {
        let after = confined(at, op, state, &mut self.hints)?;
        self.gives(at.place, after)
    }

    /// By hints that are found.
    fn plain_found<M: Loops>(
        &mut self,
        finding: Finding,
        at: &At<'_, M>,
        op: Builtin,
        state: &State,
    ) -> Walk
        requires finds { self.old.finding ≡ Some finding }
        requires plain { effects.is_plain op ≡ true }
        requires bounds { HasBounds state.now }
        requires room { state.now.next < 4294967295 }
        ensures takes { Takes (rule.plain (here M.made at.now) op at.now.place state.now self.old) self.new result }
    {
        let hints = held(
            at.place,
            plain_hints(finding, at.scope.style(), state, at.scope.cond(), op),
        )?;
        let mut left = Hints::new(hints.as_slice());
        let after = confined(at, op, state, &mut left)?;
        self.finds(at.place, hints)?;
        self.gives(at.place, after)
    }

    /// A test gives the states of its cases.
    pub(crate) fn split<M: Loops>(&mut self, at: &At<'_, M>, test: Test, state: &State) -> Walk
        requires room { HasRoom at.now.scope.now.style 65 self.old.count state.now }
        ensures takes { Takes (rule.split (here M.made at.now) test at.now.place state.now self.old) self.new result }
    {
        match self.finding() {
            None => self.split_read(at, test, state),
            Some(finding) => self.split_found(finding, at, test, state),
        }
    }

    /// The same by hints that are left.
    fn split_read<M: Loops>(&mut self, at: &At<'_, M>, test: Test, state: &State) -> Walk
        requires reads { self.old.finding ≡ None }
        requires room { HasRoom at.now.scope.now.style 65 self.old.count state.now }
        ensures takes { Takes (rule.split (here M.made at.now) test at.now.place state.now self.old) self.new result }
    {
        let answer = split(state, at.scope.cond(), test, &mut self.hints);
        let states = placed(at.place, answer)?;
        self.gives_all(at.place, states)
    }

    /// By hints that are found.
    fn split_found<M: Loops>(
        &mut self,
        finding: Finding,
        at: &At<'_, M>,
        test: Test,
        state: &State,
    ) -> Walk
        requires finds { self.old.finding ≡ Some finding }
        requires bounds { HasBounds state.now }
        requires room { state.now.next < 4294967295 }
        ensures takes { Takes (rule.split (here M.made at.now) test at.now.place state.now self.old) self.new result }
    {
        let hints = held(at.place, test_hints(finding, state, at.scope.cond(), test))?;
        let mut left = Hints::new(hints.as_slice());
        let answer = split(state, at.scope.cond(), test, &mut left);
        let states = placed(at.place, answer)?;
        self.finds(at.place, hints)?;
        self.gives_all(at.place, states)
    }

    /// A built-in function that enters nothing.
    pub(crate) fn entering_nothing<M: Loops>(
        &mut self,
        at: &At<'_, M>,
        op: Builtin,
        state: &State,
    ) -> Walk
        requires nothing { rule.enters op ≡ false }
        requires room { HasRoom at.now.scope.now.style 65 self.old.count state.now }
        ensures takes { Takes (rule.entering_nothing (here M.made at.now) op (rule.test_of op) at.now.place state.now self.old) self.new result }
    {
        match test_of(op) {
            Some(test) => self.split(at, test, state),
            None => self.plain(at, op, state),
        }
    }

    /// The operands of `if$`, and the cases that are kept, each with whether the integer is above 0 there.
    pub(crate) fn chooses<M: Loops>(
        &mut self,
        at: &At<'_, M>,
        state: &State,
    ) -> Result<(Three, Vec<(bool, State)>), Refusal>
        requires room { HasRoom at.now.scope.now.style 65 self.old.count state.now }
        ensures takes { (enter : rule.Enter) (call : rule.Call)
            → GoesOn (rule.chosen (here M.made at.now) enter call at.now.place (reverse state.now.stack) state.now self.old)
            (λ chosen. rule.cases_entered (here M.made at.now) enter call at.now.place chosen.0 chosen.1.items self.new) result }
        ensures cases { (known : ℕ) → length state.now.stack ≤ known
            → IfOk result (λ chosen. AreWithin at.now.scope.now.style known self.new.count chosen.1.items) }
    {
        let three = Three::of(at.place, state)?;
        let cases = self.above(at, &three)?;
        Ok((three, cases))
    }

    /// The cases of whether the integer of an `if$` is above 0.
    fn above<M: Loops>(&mut self, at: &At<'_, M>, three: &Three) -> Cases
        requires bounds { HasBounds three.now.rest }
        requires room { three.now.rest.next + 65 ≤ 2147483648 + 65 * self.old.count }
        ensures takes { (enter : rule.Enter) (call : rule.Call) → GoesOn (rule.choice (here M.made at.now) enter call at.now.place three.now self.old)
            (λ cases. rule.cases_entered (here M.made at.now) enter call at.now.place three.now cases.items self.new) result }
        ensures cases { IfOk result (λ cases. AreCases at.now.scope.now.cert.cond three.now.rest three.now.lowest cases.items) }
        ensures counted { OnOk result (self.new.count ≡ self.old.count) }
    {
        self.sign(at, &three.rest, three.lowest)
    }

    /// The cases of whether an integer in a state is above 0.
    pub(crate) fn sign<M: Loops>(&mut self, at: &At<'_, M>, rest: &State, sym: Sym) -> Cases
        requires bounds { HasBounds rest.now }
        requires room { rest.now.next + 65 ≤ 2147483648 + 65 * self.old.count }
        ensures takes { GoesOn (tours.signed (here M.made at.now) at.now.place rest.now sym self.old)
            (λ cases. Ok (record { cases = cases.items; course = self.new })) result }
        ensures cases { IfOk result (λ cases. AreCases at.now.scope.now.cert.cond rest.now sym cases.items) }
        ensures counted { OnOk result (self.new.count ≡ self.old.count) }
    {
        match self.finding() {
            None => self.above_in(at, rest, sym),
            Some(finding) => self.sign_found(finding, at, rest, sym),
        }
    }

    /// The same by hints that are found.
    fn sign_found<M: Loops>(
        &mut self,
        finding: Finding,
        at: &At<'_, M>,
        rest: &State,
        sym: Sym,
    ) -> Cases
        requires finds { self.old.finding ≡ Some finding }
        requires bounds { HasBounds rest.now }
        requires room { rest.now.next < 4294967295 }
        ensures takes { GoesOn (tours.signed (here M.made at.now) at.now.place rest.now sym self.old)
            (λ cases. Ok (record { cases = cases.items; course = self.new })) result }
        ensures cases { IfOk result (λ cases. AreCases at.now.scope.now.cert.cond rest.now sym cases.items) }
        ensures counted { OnOk result (self.new.count ≡ self.old.count) }
    {
        let hints = held(at.place, above_hints(finding, rest, at.scope.cond(), sym))?;
        let mut left = Hints::new(hints.as_slice());
        let cases = sign_cases(at, rest, sym, &mut left)?;
        self.finds(at.place, hints)?;
        Ok(cases)
    }

    /// The cases of whether an integer in a state is above 0, by hints that are left.
    fn above_in<M: Loops>(&mut self, at: &At<'_, M>, state: &State, sym: Sym) -> Cases
        requires bounds { HasBounds state.now }
        requires room { state.now.next + 65 ≤ 2147483648 + 65 * self.old.count }
        ensures takes { GoesOn (courses.placed at.now.place (above_of at.now.scope.now.cert.cond state.now sym self.old.hints))
            (λ cases. Ok (record { cases = cases.items; hints = self.new.hints })) result }
        ensures rest { self.new ≡ record self.old { hints = self.new.hints } }
    {
        sign_cases(at, state, sym, &mut self.hints)
    }

    /// The integer on top is given up: the cases of whether it is above 0.
    pub(crate) fn signs<M: Loops>(&mut self, at: &At<'_, M>, state: &State) -> Cases
        requires room { HasRoom at.now.scope.now.style 65 self.old.count state.now }
        ensures takes { (turns : Loop) → GoesOn (units.tested (here M.made at.now) at.now.place turns state.now self.old)
            (λ cases. units.all_turned (here M.made at.now) at.now.place turns cases.items self.new) result }
        ensures rest { OnOk result (self.new ≡ record self.old { hints = self.new.hints }) }
        ensures cases { IfOk result (λ cases. All (λ case. HasRoom at.now.scope.now.style 64 self.old.count case.1) cases.items) }
    {
        let (operand, rest) = integer(at.place, state)?;
        self.above_in(at, &rest, operand)
    }

    /// Each of these states entails one of the pieces.
    pub(crate) fn all_entail<M: Loops>(
        &mut self,
        at: &At<'_, M>,
        pieces: &[Piece],
        states: &[State],
    ) -> Walk
        requires states { All HasBounds states.now }
        requires pieces { All CanEnd pieces.now }
        ensures takes { Takes (units.all_entail at.now.place at.now.scope.now.cert.cond pieces.now states.now self.old) self.new result }
        ensures rest { OnOk result (self.new ≡ record self.old { hints = self.new.hints }) }
    {
        placed(
            at.place,
            all_end(at.scope.cond(), 0, pieces, states, &mut self.hints),
        )
    }

    /// The unit ends: each state that it gave entails one of these pieces, and no hint is left.
    pub(crate) fn ends(&mut self, cond: &Cond, place: Place, kept: u32, pieces: &[Piece]) -> Walk
        requires states { All HasBounds self.old.given }
        requires pieces { All CanEnd pieces.now }
        ensures { Takes (then_do (courses.placed place (units.all_end cond.now kept pieces.now self.old.given self.old.hints)) (units.none_left place)) [] result }
    {
        let answer = all_end(cond, kept, pieces, self.given.as_slice(), &mut self.hints);
        placed(place, answer)?;
        self.none_left(place)
    }

    /// No hint is left at a unit's end.
    pub(crate) fn none_left(&self, place: Place) -> Walk
        ensures { Takes (units.none_left place self.now.hints) [] result }
    {
        if self.rest().is_empty() {
            Ok(())
        } else {
            refuse(place, Reason::HintsLeft)
        }
    }

    /// A variable or a field puts its symbol on top.
    pub(crate) fn variable(&mut self, name: NameId, place: Place, state: State) -> Walk
        ensures takes { Takes (rule.variable name place state self.old) self.new result }
    {
        match state.bound(name) {
            Some(sym) => {
                let after = held(place, with_top(state, sym))?;
                self.gives(place, after)
            }
            None => refuse(
                place,
                Reason::Demand(Demand {
                    kind: DemandKind::NoEntry,
                    operand: 0,
                }),
            ),
        }
    }
}

/// The integer on top, and the state without it.
pub(crate) fn integer(place: Place, state: &State) -> Result<(Sym, State), Refusal>
    ensures one { GoesOn (courses.placed place (one_of IntKind state.now)) (λ p. Ok (record { operand = p.0; rest = p.1 })) result }
    ensures rest { IfOk result (λ p. p.1 ≡ without 1 state.now) }
{
    let operand = placed(place, one(state, Kinds::Int))?;
    let rest = held(place, state.without(1))?;
    Ok((operand, rest))
}

/// The cases of whether an integer in a state is above 0.
fn sign_cases<M: Loops>(at: &At<'_, M>, state: &State, sym: Sym, hints: &mut Hints<'_>) -> Cases
    requires bounds { HasBounds state.now }
    requires room { state.now.next < 4294967295 }
    requires hints { All HasFewUses hints.old }
    ensures gives { GoesOn (courses.placed at.now.place (above_of at.now.scope.now.cert.cond state.now sym hints.old))
        (λ cases. Ok (record { cases = cases.items; hints = hints.new })) result }
    ensures few { All HasFewUses hints.new }
{
    let answer = above(state, at.scope.cond(), sym, hints);
    placed(at.place, answer)
}

/// Puts a state behind those that were given.
fn put(place: Place, given: &mut Vec<State>, state: State) -> Walk
    ensures { MatchResult result (λ _. given.new.items ≡ given.old.items ++ state ∷ []) (λ refusal. refusal.reason ≡ WantOfMemory) }
{
    match given.push(state) {
        Ok(()) => Ok(()),
        Err(_) => refuse(place, Reason::NoMemory),
    }
}

/// A rule fails at a place.
pub fn refuse<T>(place: Place, reason: Reason) -> Result<T, Refusal>
    ensures { result ≡ courses.refuses place reason }
{
    Err(Refusal { place, reason })
}

/// What a rule on states gives, where it is taken at a place.
pub fn placed<T>(place: Place, answer: Result<T, EffectFault>) -> Result<T, Refusal>
    ensures { result ≡ courses.placed place answer }
{
    match answer {
        Ok(value) => Ok(value),
        Err(fault) => refuse(place, reason_of(fault)),
    }
}

/// What is given where memory allows.
pub fn held<T>(place: Place, answer: Result<T, NoMemory>) -> Result<T, Refusal>
    ensures { MatchResult result (λ value. answer ≡ Ok value) (λ refusal. refusal.reason ≡ WantOfMemory) }
{
    match answer {
        Ok(value) => Ok(value),
        Err(_) => refuse(place, Reason::NoMemory),
    }
}

/// Why a rule on states fails.
fn reason_of(fault: EffectFault) -> Reason
    ensures { result ≡ courses.reason_of fault }
{
    match fault {
        EffectFault::Demand(demand) => Reason::Demand(demand),
        EffectFault::NotEntailed(line) => Reason::NotEntailed(line),
        EffectFault::HintsShort => Reason::HintsShort,
        EffectFault::WrongHint => Reason::WrongHint,
        EffectFault::NoMemory => Reason::NoMemory,
    }
}

/// A symbol that the state has is put on top.
fn with_top(mut state: State, sym: Sym) -> Result<State, NoMemory>
    ensures { IfOk result (λ after. after ≡ results.with_top sym state) }
{
    state.push(sym)?;
    Ok(state)
}

/// What a built-in function gives of a state, where the unit may write what it writes.
fn confined<M: Loops>(
    at: &At<'_, M>,
    op: Builtin,
    state: &State,
    hints: &mut Hints<'_>,
) -> Result<State, Refusal>
    requires bounds { HasBounds state.now }
    requires next { state.now.next < 4294967295 }
    requires plain { effects.is_plain op ≡ true }
    requires hints { All HasFewUses hints.old }
    ensures gives { GoesOn (courses.placed at.now.place (rule.confined (rule.is_within at.now.scope.now.writes (rule.written_by op state.now))
        (effects.effect_of at.now.scope.now.style at.now.scope.now.cert.cond state.now op hints.old)))
        (λ after. Ok (record { state = after; hints = hints.new })) result }
    ensures few { All HasFewUses hints.new }
{
    let may = is_within(at.scope, written_by(op, state));
    match effect(at.scope.style(), state, at.scope.cond(), op, hints) {
        Ok(after) => {
            if may {
                Ok(after)
            } else {
                refuse(at.place, Reason::NotEntailed(0))
            }
        }
        Err(fault) => refuse(at.place, reason_of(behind_demands(may, fault))),
    }
}

/// The variable that `:=` writes, which the exact function on top names.
fn written_by(op: Builtin, state: &State) -> Option<NameId>
    ensures { result ≡ rule.written_by op state.now }
{
    match (op, state.at(0)) {
        (Builtin::Assign, Some(sym)) => state.exact_name(sym),
        _ => None,
    }
}

/// Whether the unit may write what a built-in function writes.
fn is_within(scope: &Scope<'_>, written: Option<NameId>) -> bool
    ensures { result ≡ rule.is_within scope.now.writes written }
{
    match written {
        Some(name) => scope.may_write(name),
        None => true,
    }
}

/// A fault of a built-in function: where it would write what the unit may not write, that comes behind the demands.
fn behind_demands(may: bool, fault: EffectFault) -> EffectFault
    ensures wanting { fault ≡ WantOfMemoryThere → result ≡ WantOfMemoryThere }
    ensures behind { fault ≢ WantOfMemoryThere → rule.confined may (Err fault) ≡ Err result }
{
    match fault {
        EffectFault::NoMemory => EffectFault::NoMemory,
        EffectFault::Demand(demand) => EffectFault::Demand(demand),
        fault => {
            if may {
                fault
            } else {
                EffectFault::NotEntailed(0)
            }
        }
    }
}
