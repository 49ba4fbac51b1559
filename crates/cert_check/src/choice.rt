//! What a built-in function may enter (docs/CHECKER.md, "The walk").

ghost use Rattle.std.specs.Prelude.{◌≡◌, if◌then◌else◌, Ok, IfOk};
ghost use Rattle.sym_state.specs.Demands.{three_of};
ghost use Rattle.sym_state.specs.declared.symbol.Kinds.TheVariants.{Func as FuncKind, Int as IntKind};
ghost use Rattle.cert_check.specs.Courses as courses;
ghost use Rattle.cert_check.specs.Given.{GoesOn};
ghost use Rattle.cert_check.specs.Walks as rule;

use crate::course::{held, placed};
use crate::refusal::Refusal;
use bst_meaning::value::Target;
use bv_base::place::Place;
use name_table::builtin::Builtin;
use refinements::Test;
use std::marker::Model;
use sym_state::operands::three;
use sym_state::state::State;
use sym_state::symbol::{Kinds, Sym};

/// An integer and two functions, and the state without them.
#[derive(Drop)]
pub(crate) struct Three {
    pub(crate) lowest: Sym,
    middle: Sym,
    top: Sym,
    pub(crate) rest: State,
}

impl Model for Three {
    ghost use Rattle.sym_state.specs.Demands as demands;

    ghost Value = { demands.Three };

    ghost view = { λ t. record { lowest = t.lowest; middle = t.middle; top = t.top; rest = t.rest } };
}

impl Three {
    /// The operands of `if$` in a state.
    pub(crate) fn of(place: Place, state: &State) -> Result<Three, Refusal>
        ensures { GoesOn (courses.placed place (three_of IntKind FuncKind FuncKind state.now)) (λ three. Ok three) result }
    {
        let (lowest, middle, top) = placed(
            place,
            three(state, Kinds::Int, Kinds::Func, Kinds::Func),
        )?;
        let rest = held(place, state.without(3))?;
        Ok(Three {
            lowest,
            middle,
            top,
            rest,
        })
    }

    /// The function that is entered where the integer is above 0, or isn't.
    pub(crate) fn function(&self, above: bool) -> Sym
        ensures { result ≡ (if above then self.now.middle else self.now.top) }
    {
        if above { self.middle } else { self.top }
    }
}

/// The two functions of a `while$`, and the state without them.
#[derive(Drop)]
pub(crate) struct While {
    pub(crate) test: Target,
    pub(crate) body: Target,
    pub(crate) rest: State,
}

impl Model for While {
    ghost use Rattle.cert_check.specs.Walks.{While as WhileValue};

    ghost Value = { WhileValue };

    ghost view = { λ w. record { test = w.test; body = w.body; rest = w.rest } };
}

/// The test that a built-in function makes.
pub(crate) fn test_of(op: Builtin) -> Option<Test>
    ensures { result ≡ rule.test_of op }
{
    match op {
        Builtin::Empty => Some(Test::Empty),
        Builtin::Missing => Some(Test::Missing),
        Builtin::Equal => Some(Test::Equal),
        Builtin::Less => Some(Test::Less),
        Builtin::Greater => Some(Test::Greater),
        _ => None,
    }
}
