//! Steps that are taken at once: what is pushed is taken off again by the function that is called behind it.

ghost use Rattle.std.specs.Prelude.{◌≡◌, ◌+◌, ◌≤◌, true, None, IfOk, IfSome, IsOk, OnErr};
ghost use Rattle.bst_meaning.specs.declared.value.Target.TheVariants.{Named};
ghost use Rattle.bst_meaning.specs.declared.value.Value.TheVariants.{Func, Int, Str};
ghost use Rattle.bst_meaning.specs.Machine.{steps, with_value};
ghost use Rattle.bst_meaning.specs.StyleParts as parts;
ghost use Rattle.bst_step.specs.AtOnce as rule;
ghost use Rattle.bst_step.specs.AtOnce.{Assigns, Branches, Calls, Computes, HasNothing, IsWithin, Took};
ghost use Rattle.bst_step.specs.MarkRules.{marks_after_steps};
ghost use Rattle.bst_step.specs.Marks.{Lent, NoString, pushed};
ghost use Rattle.bst_step.specs.State.{config_of, HasRoom, LeavesRoom};

use crate::effects::entered_at;
use crate::held::Operand;
use crate::state::{Part, State};
use bst_meaning::style_parts::{kind_of, text_of, tokens_of};
use bst_meaning::value::{ENTRY_SIZE, GLOBAL_SIZE, Target};
use bv_base::memory::NoMemory;
use bv_base::place::Place;
use name_table::builtin::Builtin;
use name_table::names::{Kind, NameId};
use name_table::style::{Style, TextId, Token, TokenAt};

impl<'a> State<'a> {
    /// Pushes a function, and takes the steps that are taken with it, whose number is given.
    #[inline(always)]
    pub fn function_steps(
        &mut self,
        style: &'a Style,
        target: Target,
        left: u64,
    ) -> Result<u64, NoMemory>
        requires { (config_of self.old).stopped ≡ None }
        ensures moved { IfOk result (λ more. config_of self.new ≡ steps style.now more (with_value (Func target) (config_of self.old))) }
        ensures entries { OnErr result (self.new.values.entries ≡ self.old.values.entries) }
        ensures marks { IfOk result (λ more. self.new.values.marks ≡
            marks_after_steps style.now more (with_value (Func target) (config_of self.old)) (pushed NoString self.old.values.marks)) }
        ensures fits { HasRoom self.old → IsOk result }
        ensures room { IfOk result (λ more. LeavesRoom (more + 1) self.old self.new) }
        ensures few { IfOk result (λ more. IsWithin more left) }
    {
        if let Some(more) = self.branches(style, target, left)? {
            return Ok(more);
        }
        if let Some(more) = self.assigns(style, target, left) {
            return Ok(more);
        }
        self.push(Operand::Func(target))?;
        Ok(0)
    }

    /// Pushes an integer, and takes the steps that are taken with it, whose number is given.
    #[inline(always)]
    pub fn integer_steps(&mut self, style: &Style, n: i32, left: u64) -> Result<u64, NoMemory>
        requires { (config_of self.old).stopped ≡ None }
        ensures moved { IfOk result (λ more. config_of self.new ≡ steps style.now more (with_value (Int n) (config_of self.old))) }
        ensures entries { OnErr result (self.new.values.entries ≡ self.old.values.entries) }
        ensures marks { IfOk result (λ more. self.new.values.marks ≡
            marks_after_steps style.now more (with_value (Int n) (config_of self.old)) (pushed NoString self.old.values.marks)) }
        ensures fits { HasRoom self.old → IsOk result }
        ensures room { IfOk result (λ more. LeavesRoom (more + 1) self.old self.new) }
        ensures few { IfOk result (λ more. IsWithin more left) }
    {
        if let Some(more) = self.computes(style, n, left) {
            return Ok(more);
        }
        self.push(Operand::Int(n))?;
        Ok(0)
    }

    /// Pushes a text of the style, and takes the steps that are taken with it, whose number is given.
    #[inline(always)]
    pub fn text_steps(&mut self, style: &'a Style, text: TextId, left: u64) -> Result<u64, NoMemory>
        requires { (config_of self.old).stopped ≡ None }
        ensures moved { IfOk result (λ more. config_of self.new ≡
            steps style.now more (with_value (Str (parts.text_of style.now text)) (config_of self.old))) }
        ensures entries { OnErr result (self.new.values.entries ≡ self.old.values.entries) }
        ensures marks { IfOk result (λ more. self.new.values.marks ≡
            marks_after_steps style.now more (with_value (Str (parts.text_of style.now text)) (config_of self.old)) (pushed Lent self.old.values.marks)) }
        ensures fits { HasRoom self.old → IsOk result }
        ensures room { IfOk result (λ more. LeavesRoom (more + 1) self.old self.new) }
        ensures few { IfOk result (λ more. IsWithin more left) }
    {
        let bytes = text_of(style, text);
        if let Some(more) = self.gives(style, bytes, left) {
            return Ok(more);
        }
        self.push(Operand::Str(bytes))?;
        Ok(0)
    }

    /// Enters a function or another one that would be pushed behind it, where `if$` is called then and an integer is on top. One
    /// that is `skip$` or has nothing in it is left again.
    #[inline(always)]
    fn branches(
        &mut self,
        style: &'a Style,
        target: Target,
        left: u64,
    ) -> Result<Option<u64>, NoMemory>
        requires { (config_of self.old).stopped ≡ None }
        ensures took { IfOk result (λ more. Took style.now left more (with_value (Func target) (config_of self.old))
            (pushed NoString self.old.values.marks) self.old self.new) }
        ensures entries { OnErr result (self.new.values.entries ≡ self.old.values.entries) }
        ensures fits { HasRoom self.old → IsOk result }
    {
        if left <= 2 {
            return Ok(None);
        }
        let Some((other, place, later)) = branch_ahead(style, self.frames.tokens()) else {
            return Ok(None);
        };
        let Some(n) = self.values.top_integer() else {
            return Ok(None);
        };
        self.values.drop_top(1);
        self.frames.go_to(later);
        let chosen = if n > 0 { target } else { other };
        if left > 4 && is_skip(style, chosen) {
            return Ok(Some(4));
        }
        if left > 3 && has_nothing(style, chosen) {
            return Ok(Some(3));
        }
        self.enter(entered_at(style, chosen, place), place, Part::Whole)?;
        Ok(Some(2))
    }

    /// Assigns the top to the variable that a function names, where `:=` would be called then and assigns it as it is.
    #[inline(always)]
    fn assigns(&mut self, style: &'a Style, target: Target, left: u64) -> Option<u64>
        requires { (config_of self.old).stopped ≡ None }
        ensures { Took style.now left result (with_value (Func target) (config_of self.old)) (pushed NoString self.old.values.marks) self.old self.new }
    {
        let Target::Named(name) = target else {
            return None;
        };
        let Some((Builtin::Assign, later)) = call_ahead(style, self.frames.tokens()) else {
            return None;
        };
        if left < 2 || !self.takes_whole(style, name) {
            return None;
        }
        self.frames.go_to(later);
        self.assign_top(style, name);
        Some(1)
    }

    /// Gives a text to the variable of the whole style that would be named behind it, where `:=` is called then and cuts nothing.
    #[inline(always)]
    fn gives(&mut self, style: &'a Style, text: &'a [u8], left: u64) -> Option<u64>
        requires { (config_of self.old).stopped ≡ None }
        ensures { Took style.now left result (with_value (Str text.now) (config_of self.old)) (pushed Lent self.old.values.marks) self.old self.new }
    {
        if left <= 2 || text.len() > GLOBAL_SIZE as usize {
            return None;
        }
        let Some((name, later)) = assignment_ahead(style, self.frames.tokens()) else {
            return None;
        };
        let Some(Kind::StrGlobal) = kind_of(style, name) else {
            return None;
        };
        self.frames.go_to(later);
        self.values.give_lent(name, text);
        Some(2)
    }

    /// Computes with the integer on top and one that would be pushed, where a function on two integers is called then and gives one.
    #[inline(always)]
    fn computes(&mut self, style: &Style, n: i32, left: u64) -> Option<u64>
        requires { (config_of self.old).stopped ≡ None }
        ensures { Took style.now left result (with_value (Int n) (config_of self.old)) (pushed NoString self.old.values.marks) self.old self.new }
    {
        if left < 2 {
            return None;
        }
        let Some((function, later)) = call_ahead(style, self.frames.tokens()) else {
            return None;
        };
        let Some(m) = self.values.top_integer() else {
            return None;
        };
        let Some(value) = computed(function, m, n) else {
            return None;
        };
        self.frames.go_to(later);
        self.values.put(1, Operand::Int(value));
        Some(1)
    }

    /// Whether a variable takes the value on top as it is.
    #[inline(always)]
    fn takes_whole(&self, style: &Style, name: NameId) -> bool
        ensures { result ≡ true → rule.takes_whole (parts.kind_of style.now name) (rule.visits (config_of self.now)) self.now.values.stack ≡ true }
    {
        match (kind_of(style, name), self.values.top()) {
            (Some(Kind::IntGlobal), Some(Operand::Int(_))) => true,
            (Some(Kind::StrGlobal), Some(Operand::Str(bytes))) => bytes.len()
                <= GLOBAL_SIZE as usize,
            (Some(Kind::IntEntry), Some(Operand::Int(_))) => self.visits(),
            (Some(Kind::StrEntry), Some(Operand::Str(bytes))) => {
                bytes.len() <= ENTRY_SIZE as usize && self.visits()
            }
            _ => false,
        }
    }

    /// Whether an entry is visited.
    fn visits(&self) -> bool
        ensures { result ≡ rule.visits (config_of self.now) }
    {
        self.visited_entry().is_some()
    }
}

/// The function that a token pushes.
#[inline(always)]
fn function_of(token: Token) -> Option<Target>
    ensures { result ≡ rule.function_of token }
{
    match token {
        Token::Quote(name) => Some(Target::Named(name)),
        Token::Block(body) => Some(Target::Block(body)),
        _ => None,
    }
}

/// The kind of the name that a token calls.
#[inline(always)]
fn kind_called(style: &Style, token: Token) -> Option<Kind>
    ensures { result ≡ rule.kind_called style.now token }
{
    match token {
        Token::Call(name) => kind_of(style, name),
        _ => None,
    }
}

/// Another function, the place of a call of `if$` behind it, and the tokens that are left then.
#[inline(always)]
fn branch_ahead<'a>(style: &Style, tokens: &'a [TokenAt]) -> Option<(Target, Place, &'a [TokenAt])>
    ensures { IfSome result (λ branch. Branches style.now tokens.now branch.0 branch.1 branch.2.now) }
{
    let [first, second, later @ ..] = tokens else {
        return None;
    };
    let Some(other) = function_of(first.token) else {
        return None;
    };
    match kind_called(style, second.token) {
        Some(Kind::Builtin(Builtin::IfElse)) => Some((other, second.place, later)),
        _ => None,
    }
}

/// The built-in function that the first of these tokens calls, and the tokens that are left then.
#[inline(always)]
fn call_ahead<'a>(style: &Style, tokens: &'a [TokenAt]) -> Option<(Builtin, &'a [TokenAt])>
    ensures { IfSome result (λ call. Calls style.now tokens.now call.0 call.1.now) }
{
    let [first, later @ ..] = tokens else {
        return None;
    };
    match kind_called(style, first.token) {
        Some(Kind::Builtin(function)) => Some((function, later)),
        _ => None,
    }
}

/// The name that the first of these tokens quotes, where the second calls `:=`, and the tokens that are left then.
#[inline(always)]
fn assignment_ahead<'a>(style: &Style, tokens: &'a [TokenAt]) -> Option<(NameId, &'a [TokenAt])>
    ensures { IfSome result (λ assignment. Assigns style.now tokens.now assignment.0 assignment.1.now) }
{
    let [first, second, later @ ..] = tokens else {
        return None;
    };
    let Token::Quote(name) = first.token else {
        return None;
    };
    match kind_called(style, second.token) {
        Some(Kind::Builtin(Builtin::Assign)) => Some((name, later)),
        _ => None,
    }
}

/// Whether a function is `skip$`.
#[inline(always)]
fn is_skip(style: &Style, target: Target) -> bool
    ensures { result ≡ true → rule.is_skip style.now target ≡ true }
{
    match target {
        Target::Named(name) => matches!(kind_of(style, name), Some(Kind::Builtin(Builtin::Skip))),
        Target::Block(_) => false,
    }
}

/// Whether a function is a block with nothing in it.
#[inline(always)]
fn has_nothing(style: &Style, target: Target) -> bool
    ensures { result ≡ true → HasNothing style.now target }
{
    match target {
        Target::Named(_) => false,
        Target::Block(body) => tokens_of(style, body).is_empty(),
    }
}

/// What a built-in function makes of two integers, the lower one first.
#[inline(always)]
fn computed(function: Builtin, a: i32, b: i32) -> Option<i32>
    ensures { IfSome result (λ n. Computes function a b n) }
{
    match function {
        Builtin::Equal => Some(i32::from(a == b)),
        Builtin::Greater => Some(i32::from(a > b)),
        Builtin::Less => Some(i32::from(a < b)),
        Builtin::Plus => i32::try_from(i64::from(a) + i64::from(b)).ok(),
        Builtin::Minus => i32::try_from(i64::from(a) - i64::from(b)).ok(),
        _ => None,
    }
}
