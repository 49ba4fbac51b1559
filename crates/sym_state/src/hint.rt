//! The hints of a certificate, and a cursor on them.

ghost use Rattle.std.specs.Prelude.{◌≡◌, [], ◌∷◌, IfSome, MatchOption};
ghost use Rattle.std.specs.List.{All};
ghost use Rattle.sym_state.specs.Demands.{HasFewUses};

use crate::proof::Proof;
use std::marker::Model;

/// What a certificate says at a choice of the walk.
#[derive(Debug, Drop)]
pub enum Hint {
    /// The summary of this number is used.
    Apply(u32),
    /// The body is walked.
    Walk,
    /// The loop of this number is used.
    Loop(u32),
    /// The piece of this number is entailed.
    Case(u32),
    /// The result is a new symbol of which the general rule says all.
    Plain,
    /// A case of a test is kept.
    Keep,
    /// A case of a test can't come about: the proof shows that -1 is at least 0.
    Drop(Proof),
    /// A row is shown.
    Step(Proof),
}

/// The hints that are left. Contracts see them as a list.
#[derive(Drop)]
pub struct Hints<'a> {
    rest: &'a [Hint],
}

impl<'a> Model for Hints<'a> {
    ghost use Rattle.std.specs.Prelude.{List};
    ghost use Rattle.sym_state.specs.declared.hint.Hint.{Hint};

    ghost Value = { List Hint };

    ghost view = { λ h. h.rest.now };
}

impl<'a> Hints<'a> {
    /// All hints of a list are left.
    pub fn new(list: &'a [Hint]) -> Hints<'a>
        ensures { result ≡ list.now }
    {
        Hints { rest: list }
    }

    /// The hints that are left.
    pub fn rest(&self) -> &'a [Hint]
        ensures { result.now ≡ self.now }
    {
        self.rest
    }

    /// Takes the first hint that is left. `None` comes exactly where none is.
    pub fn next(&mut self) -> Option<&'a Hint>
        ensures { MatchOption result ((self.old ≡ []) × (self.new ≡ [])) (λ hint. self.old ≡ hint.now ∷ self.new) }
    {
        match self.rest {
            [] => None,
            [first, rest @ ..] => {
                self.rest = rest;
                Some(first)
            }
        }
    }

    /// The same, where the proofs of all hints that are left are short.
    pub fn next_short(&mut self) -> Option<&'a Hint>
        requires { All HasFewUses self.old }
        ensures first { MatchOption result ((self.old ≡ []) × (self.new ≡ [])) (λ hint. self.old ≡ hint.now ∷ self.new) }
        ensures few { All HasFewUses self.new }
        ensures uses { IfSome result (λ hint. HasFewUses hint.now) }
    {
        match self.next() {
            Some(hint) => Some(hint),
            None => None,
        }
    }
}
