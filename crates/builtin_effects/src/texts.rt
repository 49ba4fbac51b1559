//! The built-in functions that give strings of strings.

ghost use Rattle.sym_state.specs.declared.hint.Hint.{Hint};
ghost use Rattle.std.specs.Prelude.{◌≡◌, ◌<◌, [], option_map, List, pos};
ghost use Rattle.std.specs.Option.{option_to_list};
ghost use Rattle.sym_state.specs.declared.symbol.Kinds.TheVariants.{Int, Str};
ghost use Rattle.sym_state.specs.Demands.{BothSteps, Gives as Given, IsReady, OneOperand, TwoOperands, fails, without};
ghost use Rattle.sym_state.specs.References as references;
ghost use Rattle.sym_state.specs.declared.demand.DemandKind.TheVariants.{BadNameIndex};
ghost use Rattle.lin_facts.specs.declared.row.Term.TheVariants.{Names, Value};
ghost use Rattle.sym_state.specs.Effects as rule;
ghost use Rattle.sym_state.specs.Results as results;
ghost use Rattle.builtin_effects.specs.Given.{Gives, outcome_at};

use crate::at::{At, Outcome};
use crate::results::{Said, part, with_result};
use crate::steps::both_steps;
use lin_facts::row::Term;
use name_split::pattern::pattern_ok;
use sym_state::demand::{DemandKind, EffectFault};
use sym_state::hint::Hints;
use sym_state::operands::{demand, one, three, two};
use sym_state::references::{at_least, exceeds};
use sym_state::results::sum_of_three;
use sym_state::symbol::{Fact, Kinds, Sym};

/// `*`
pub fn join(at: &At<'_>) -> Outcome
    requires { at.now.state.now.next < 4294967295 }
    ensures { (hints : List Hint) → Gives result hints (outcome_at at.now (rule.join at.now.state.now) hints) }
{
    let (a, b) = two(at.state, Kinds::Str, Kinds::Str)?;
    let alloc = at.state.alloc();
    let nonblank = at.state.is_known_nonblank(a) || at.state.is_known_nonblank(b);
    let (x, y) = (Term::Length(a.0), Term::Length(b.0));
    let r = Term::Length(at.state.next());
    let said = Said {
        fact: nonblank_where(nonblank, Sym(at.state.next())),
        first: Some(sum_of_three(alloc, 0, part(1, r), part(-1, x), part(-1, y))?),
        second: Some(sum_of_three(alloc, 0, part(-1, r), part(1, x), part(1, y))?),
    };
    Ok(with_result(at.state, 2, Kinds::Str, said)?)
}

/// `add.period$`
pub fn add_period(at: &At<'_>) -> Outcome
    requires { at.now.state.now.next < 4294967295 }
    ensures { (hints : List Hint) → Gives result hints (outcome_at at.now (rule.add_period at.now.state.now) hints) }
{
    let a = one(at.state, Kinds::Str)?;
    let alloc = at.state.alloc();
    let nonblank = at.state.is_known_nonblank(a);
    let length = Term::Length(a.0);
    let r = Term::Length(at.state.next());
    let said = Said {
        fact: nonblank_where(nonblank, Sym(at.state.next())),
        first: Some(exceeds(alloc, r, length, 0)?),
        second: Some(exceeds(alloc, length, r, -1)?),
    };
    Ok(with_result(at.state, 1, Kinds::Str, said)?)
}

/// A new string is nonblank where it has to be.
fn nonblank_where(known: bool, s: Sym) -> Option<Fact>
    ensures { option_to_list result ≡ rule.nonblank_where known s }
{
    if known { Some(Fact::Nonblank(s)) } else { None }
}

/// `purify$`
pub fn purify(at: &At<'_>) -> Outcome
    requires { at.now.state.now.next < 4294967295 }
    ensures { (hints : List Hint) → Gives result hints (outcome_at at.now (OneOperand Str rule.no_longer) hints) }
{
    let a = one(at.state, Kinds::Str)?;
    no_longer(at, 1, a)
}

/// `change.case$`
pub fn change_case(at: &At<'_>) -> Outcome
    requires { at.now.state.now.next < 4294967295 }
    ensures { (hints : List Hint) → Gives result hints (outcome_at at.now (rule.change_case at.now.state.now) hints) }
{
    let (a, c) = two(at.state, Kinds::Str, Kinds::Str)?;
    let known = is_mode(at.state.exact_text(c));
    demand(known, DemandKind::BadCase, 1)?;
    no_longer(at, 2, a)
}

/// Whether a text is a mode of `change.case$`.
fn is_mode(text: Option<&[u8]>) -> bool
    ensures { result ≡ rule.is_mode (option_map (λ t. t.now) text.entry) }
{
    match text {
        Some([b't' | b'T' | b'l' | b'L' | b'u' | b'U']) => true,
        _ => false,
    }
}

/// A new string that is no longer than another.
fn no_longer(at: &At<'_>, taken: usize, a: Sym) -> Outcome
    requires { at.now.state.now.next < 4294967295 }
    ensures { (hints : List Hint) → Gives result hints (outcome_at at.now (rule.no_longer a (without taken at.now.state.now)) hints) }
{
    let row = exceeds(
        at.state.alloc(),
        Term::Length(a.0),
        Term::Length(at.state.next()),
        0,
    )?;
    Ok(with_result(at.state, taken, Kinds::Str, Said::row(Some(row)))?)
}

/// `text.prefix$`
pub fn text_prefix(at: &At<'_>) -> Outcome
    requires { at.now.state.now.next < 4294967295 }
    ensures { (hints : List Hint) → Gives result hints (outcome_at at.now (TwoOperands Str Int (λ a n rest. Given (results.with_result Str [] [] rest))) hints) }
{
    two(at.state, Kinds::Str, Kinds::Int)?;
    Ok(with_result(at.state, 2, Kinds::Str, Said::row(None))?)
}

/// `format.name$`
pub fn format_name(at: &At<'_>, hints: &mut Hints<'_>) -> Outcome
    requires { IsReady at.now.state.now hints.old }
    ensures { Gives result hints.new (outcome_at at.now (rule.format_name at.now.state.now) hints.old) }
{
    let (s, i, p) = three(at.state, Kinds::Str, Kinds::Int, Kinds::Str)?;
    numbered(at, s, i, p, hints)
}

/// The name of a number by a pattern, where steps show that it is there.
fn numbered(at: &At<'_>, s: Sym, i: Sym, p: Sym, hints: &mut Hints<'_>) -> Outcome
    requires { IsReady at.now.state.now hints.old }
    ensures { Gives result hints.new (outcome_at at.now
        (BothSteps (references.at_least (Value i.0) (pos 1)) (references.exceeds (Names s.0) (Value i.0) (pos 0)) (fails BadNameIndex 2)
        (rule.named at.now.state.now s p (without 3 at.now.state.now))) hints.old) }
{
    let alloc = at.state.alloc();
    let number = Term::Value(i.0);
    let low = at_least(alloc, number, 1)?;
    let high = exceeds(alloc, Term::Names(s.0), number, 0)?;
    let fault = EffectFault::unmet(DemandKind::BadNameIndex, 2);
    both_steps(at, &low, &high, fault, hints)?;
    written(at, s, p)
}

/// A name that is there is written, where it and its pattern are well formed.
fn written(at: &At<'_>, s: Sym, p: Sym) -> Outcome
    requires { at.now.state.now.next < 4294967295 }
    ensures { (hints : List Hint) → Gives result hints (outcome_at at.now (rule.named at.now.state.now s p (without 3 at.now.state.now)) hints) }
{
    let formed = at.state.is_known(s, &Fact::Wellformed(s));
    demand(formed, DemandKind::BadName, 3)?;
    demand(
        is_pattern(at.state.exact_text(p)),
        DemandKind::BadPattern,
        1,
    )?;
    Ok(with_result(at.state, 3, Kinds::Str, Said::row(None))?)
}

/// Whether a text is a well-formed pattern.
fn is_pattern(text: Option<&[u8]>) -> bool
    ensures { result ≡ rule.is_pattern (option_map (λ t. t.now) text.entry) }
{
    match text {
        Some(pattern) => pattern_ok(pattern),
        None => false,
    }
}
