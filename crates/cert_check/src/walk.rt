//! The walk over tokens (docs/CHECKER.md, "The walk"): each token is taken from each state in order, and what it gives takes the
//! state's place.
//!
//! The functions call each other: a token may enter a body, and `if$` may enter another `if$`. Each walk of a body goes one
//! body deeper, and each `if$` takes three of the operands that are known where the token is taken.

ghost use Rattle.std.specs.Prelude.{◌≡◌, ◌+◌, ◌<◌, ◌≤◌, length, reverse};
ghost use Rattle.name_table.specs.Sound.{Each, IsTokenSound};
ghost use Rattle.bst_meaning.specs.StyleParts as parts;
ghost use Rattle.cert_check.specs.Here.{choosing, entering, here, inside};
ghost use Rattle.cert_check.specs.Subjects.{All, CanWalk, GivesRoom, HasRoom, IsCaseWithin, Takes};
ghost use Rattle.cert_check.specs.Walks as rule;

use crate::at::At;
use crate::choice::Three;
use crate::course::{Course, held, refuse};
use crate::literals::literal_state;
use crate::making::Loops;
use crate::refusal::{Reason, Walk};
use crate::summaries::comes_in;
use crate::targets::{exact_target, is_function};
use crate::types::types_entered;
use crate::whiles::{makes_for, while_in, whiles};
use bst_meaning::style_parts::{kind_of, tokens_of};
use bst_meaning::value::Target;
use name_table::builtin::Builtin;
use name_table::names::{Kind, NameId};
use name_table::style::{BodyId, Token, TokenAt};
use sym_state::state::State;

/// A body is walked that a token at a place enters, where so many more may be walked one in the other. The token gives the
/// states at the body's end.
#[cycle(walk)]
pub(crate) fn body_walked<M: Loops>(
    at: &At<'_, M>,
    body: BodyId,
    state: State,
    course: &mut Course<'_>,
) -> Walk
    requires sound { CanWalk at.now.scope.now (M.style at.now.maker.now) (M.made at.now.maker.now) }
    requires room { HasRoom at.now.scope.now.style 0 course.old.count state }
    ensures takes { Takes (rule.body_walked (here M.made at.now) at.now.more at.now.place body state course.old) course.new result }
{
    if at.more == 0 {
        return refuse(at.place, Reason::WalkTooDeep);
    }
    let given = course.begin(at.place, state)?;
    let below = At {
        more: at.more - 1,
        ..*at
    };
    walked(&below, tokens_of(at.scope.style(), body), course)?;
    course.end(at.place, given)
}

/// The tokens of a body, each from the states that the one before it gave.
#[cycle(walk)]
fn walked<M: Loops>(at: &At<'_, M>, tokens: &[TokenAt], course: &mut Course<'_>) -> Walk
    requires sound { CanWalk at.now.scope.now (M.style at.now.maker.now) (M.made at.now.maker.now) }
    requires tokens { Each (λ t. IsTokenSound at.now.scope.now.style.names at.now.scope.now.style.bodies at.now.scope.now.style.texts t.token) tokens.now }
    requires room { GivesRoom at.now.scope.now.style course.old }
    ensures takes { Takes (rule.walked (here M.made at.now) (inside M.made at.now) tokens.now course.old) course.new result }
{
    for token in tokens {
        let states = course.take_given();
        taken_from(at, token, states, course)?;
    }
    Ok(())
}

/// A token is taken from states: where it makes loops, from all at once.
#[cycle(walk)]
fn taken_from<M: Loops>(
    at: &At<'_, M>,
    token: &TokenAt,
    states: Vec<State>,
    course: &mut Course<'_>,
) -> Walk
    requires sound { CanWalk at.now.scope.now (M.style at.now.maker.now) (M.made at.now.maker.now) }
    requires token { IsTokenSound at.now.scope.now.style.names at.now.scope.now.style.bodies at.now.scope.now.style.texts token.now.token }
    requires room { All (HasRoom at.now.scope.now.style 0 course.old.count) states.items }
    ensures takes { Takes (rule.taken_from (here M.made at.now) (inside M.made at.now) token.now states.items course.old) course.new result }
{
    if makes_for(at, token.token) {
        let here = At {
            place: token.place,
            ..*at
        };
        whiles(&here, states.as_slice(), course)
    } else {
        each_taken(at, token, states, course)
    }
}

/// It is taken from each of them alone.
#[cycle(walk)]
fn each_taken<M: Loops>(
    at: &At<'_, M>,
    token: &TokenAt,
    states: Vec<State>,
    course: &mut Course<'_>,
) -> Walk
    requires sound { CanWalk at.now.scope.now (M.style at.now.maker.now) (M.made at.now.maker.now) }
    requires token { IsTokenSound at.now.scope.now.style.names at.now.scope.now.style.bodies at.now.scope.now.style.texts token.now.token }
    requires room { All (HasRoom at.now.scope.now.style 0 course.old.count) states.items }
    ensures takes { Takes (rule.each_taken (here M.made at.now) (inside M.made at.now) token.now states.items course.old) course.new result }
{
    for state in states {
        taken(at, token, state, course)?;
    }
    Ok(())
}

/// A token is taken from a state: it counts.
#[cycle(walk)]
fn taken<M: Loops>(at: &At<'_, M>, token: &TokenAt, state: State, course: &mut Course<'_>) -> Walk
    requires sound { CanWalk at.now.scope.now (M.style at.now.maker.now) (M.made at.now.maker.now) }
    requires room { HasRoom at.now.scope.now.style 0 course.old.count state }
    ensures takes { Takes (rule.taken (here M.made at.now) (inside M.made at.now) token.now state course.old) course.new result }
{
    let place = token.place;
    course.counts(1, place)?;
    if let Token::Call(name) = token.token {
        let known = state.stack_len();
        let here = At {
            place,
            known,
            ..*at
        };
        return named(&here, name, state, course);
    }
    let after = held(place, literal_state(at.scope.style(), token.token, state))?;
    course.gives(place, after)
}

/// A name is called, in a state of which so many operands may be known.
#[cycle(walk)]
pub(crate) fn named<M: Loops>(
    at: &At<'_, M>,
    name: NameId,
    state: State,
    course: &mut Course<'_>,
) -> Walk
    requires sound { CanWalk at.now.scope.now (M.style at.now.maker.now) (M.made at.now.maker.now) }
    requires room { HasRoom at.now.scope.now.style 65 course.old.count state }
    requires known { length state.stack ≤ at.now.known }
    ensures takes { Takes (rule.named (here M.made at.now) (inside M.made at.now) (choosing M.made at.now) (parts.kind_of at.now.scope.now.style name) name at.now.place state course.old)
        course.new result }
{
    match kind_of(at.scope.style(), name) {
        Some(Kind::Builtin(Builtin::IfElse)) => chosen_in(at, state, course),
        Some(Kind::Builtin(Builtin::WhileDo)) => while_in(at, &state, course),
        Some(Kind::Builtin(Builtin::CallType)) => typed(at, &state, course),
        Some(Kind::Builtin(op)) => course.entering_nothing(at, op, &state),
        Some(Kind::Wizard(body)) => body_entered(at, Target::Named(name), body, state, course),
        _ => course.variable(name, at.place, state),
    }
}

/// `call.type$`: the functions of the listed types in order, and then the default function where an entry may have another
/// type. Each is entered from the state.
#[cycle(walk)]
fn typed<M: Loops>(at: &At<'_, M>, state: &State, course: &mut Course<'_>) -> Walk
    requires sound { CanWalk at.now.scope.now (M.style at.now.maker.now) (M.made at.now.maker.now) }
    requires room { HasRoom at.now.scope.now.style 0 course.old.count state.now }
    ensures takes { Takes (rule.typed (here M.made at.now) (inside M.made at.now) at.now.place state.now course.old) course.new result }
{
    for name in types_entered(at, state)? {
        let one = held(at.place, state.branch())?;
        type_called(at, name, one, course)?;
    }
    Ok(())
}

/// A function that `call.type$` enters counts. One that isn't of the style is `skip$`, which changes nothing.
#[cycle(walk)]
fn type_called<M: Loops>(
    at: &At<'_, M>,
    name: NameId,
    state: State,
    course: &mut Course<'_>,
) -> Walk
    requires sound { CanWalk at.now.scope.now (M.style at.now.maker.now) (M.made at.now.maker.now) }
    requires room { HasRoom at.now.scope.now.style 0 course.old.count state }
    ensures takes { Takes (rule.type_called (here M.made at.now) (inside M.made at.now) at.now.place name state course.old) course.new result }
{
    course.counts(1, at.place)?;
    let target = Target::Named(name);
    if let Some(Kind::Wizard(body)) = kind_of(at.scope.style(), name) {
        return body_entered(at, target, body, state, course);
    }
    if comes_in(at, target, &state, course)? {
        course.gives(at.place, state)
    } else {
        Ok(())
    }
}

/// A body is entered: one without a summary is walked.
#[cycle(walk)]
pub(crate) fn body_entered<M: Loops>(
    at: &At<'_, M>,
    target: Target,
    body: BodyId,
    state: State,
    course: &mut Course<'_>,
) -> Walk
    requires sound { CanWalk at.now.scope.now (M.style at.now.maker.now) (M.made at.now.maker.now) }
    requires room { HasRoom at.now.scope.now.style 64 course.old.count state }
    ensures takes { Takes (rule.entered (here M.made at.now) at.now.place target (inside M.made at.now at.now.place body) state course.old) course.new result }
{
    if comes_in(at, target, &state, course)? {
        body_walked(at, body, state, course)
    } else {
        Ok(())
    }
}

/// `if$` in a state of which so many operands may be known.
#[cycle(walk)]
fn chosen_in<M: Loops>(at: &At<'_, M>, state: State, course: &mut Course<'_>) -> Walk
    requires sound { CanWalk at.now.scope.now (M.style at.now.maker.now) (M.made at.now.maker.now) }
    requires room { HasRoom at.now.scope.now.style 65 course.old.count state }
    requires known { length state.stack ≤ at.now.known }
    ensures takes { Takes (choosing M.made at.now state course.old) course.new result }
{
    let (three, cases) = course.chooses(at, &state)?;
    let known = at.known - 3;
    cases_entered(&At { known, ..*at }, &three, cases, course)
}

/// The function of each case is entered, in order: the first function where the integer is above 0, else the second.
#[cycle(walk)]
fn cases_entered<M: Loops>(
    at: &At<'_, M>,
    three: &Three,
    cases: Vec<(bool, State)>,
    course: &mut Course<'_>,
) -> Walk
    requires sound { CanWalk at.now.scope.now (M.style at.now.maker.now) (M.made at.now.maker.now) }
    requires cases { All (IsCaseWithin at.now.scope.now.style at.now.known course.old.count) cases.items }
    ensures takes { Takes (rule.cases_entered (here M.made at.now) (inside M.made at.now) (entering M.made at.now) at.now.place three.now cases.items course.old) course.new result }
{
    for (above, state) in cases {
        let function = three.function(above);
        let target = exact_target(at.scope, &state, function);
        function_entered(at, target, state, course)?;
    }
    Ok(())
}

/// What `if$` enters in a case: the exact function, of which a name counts.
#[cycle(walk)]
fn function_entered<M: Loops>(
    at: &At<'_, M>,
    target: Option<Target>,
    state: State,
    course: &mut Course<'_>,
) -> Walk
    requires sound { CanWalk at.now.scope.now (M.style at.now.maker.now) (M.made at.now.maker.now) }
    requires room { HasRoom at.now.scope.now.style 64 course.old.count state }
    requires known { length state.stack ≤ at.now.known }
    ensures takes { Takes (rule.function_entered (here M.made at.now) (inside M.made at.now) (entering M.made at.now) at.now.place target state course.old) course.new result }
{
    match target {
        Some(Target::Named(name)) => name_entered(at, name, state, course),
        Some(Target::Block(body)) => body_entered(at, Target::Block(body), body, state, course),
        None => refuse(at.place, Reason::UnknownFunction),
    }
}

/// A name is entered that counts. What isn't a function of the style takes the hint of a summary here, since its token takes
/// none.
#[cycle(walk)]
pub(crate) fn name_entered<M: Loops>(
    at: &At<'_, M>,
    name: NameId,
    state: State,
    course: &mut Course<'_>,
) -> Walk
    requires sound { CanWalk at.now.scope.now (M.style at.now.maker.now) (M.made at.now.maker.now) }
    requires room { HasRoom at.now.scope.now.style 0 course.old.count state }
    requires known { length state.stack ≤ at.now.known }
    ensures takes { Takes (entering M.made at.now name state course.old) course.new result }
{
    course.counts(1, at.place)?;
    if is_function(at.scope.style(), name) || comes_in(at, Target::Named(name), &state, course)? {
        named(at, name, state, course)
    } else {
        Ok(())
    }
}
