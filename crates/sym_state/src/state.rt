//! Symbolic states.

ghost use Rattle.std.specs.Prelude.{◌≡◌, ◌+◌, ◌<◌, ◌≤◌, ◌^◌, ◌++◌, [], ◌∷◌, length, slice_get, reverse, drop, option_map, OnOk, OnErr, IfOk, IfSome, MatchOption};
ghost use Rattle.std.specs.Global.{Global as Allocator};
ghost use Rattle.std.specs.List.{All};
ghost use Rattle.std.specs.Option.{option_and_then};
ghost use Rattle.name_table.specs.declared.style.Style.{Style};
ghost use Rattle.sym_state.specs.Cases.{with_case};
ghost use Rattle.sym_state.specs.Changes as change;
ghost use Rattle.sym_state.specs.Decided as decided;
ghost use Rattle.sym_state.specs.Demands.{without};
ghost use Rattle.sym_state.specs.Fitting.{FactFits, RowFits};
ghost use Rattle.sym_state.specs.WellMade.{HasBounds, HasShortText, IsBounded, WellMade};

use crate::bindings::Bindings;
use crate::facts;
use crate::shared_list::SharedList;
use crate::symbol::{Bind, Fact, Kinds, Sym};
use bv_base::memory::NoMemory;
use bv_base::seq::Seq;
use lin_facts::row::Row;
use name_table::names::NameId;
use std::alloc::Global;
use std::marker::Model;

/// What the checker knows of a configuration of the machine (docs/STATES.md). Branches of a state share what they have in
/// common, so that a branch costs what lies on its stack. Contracts see the record of `specs/State.antt`. What is known stands
/// in a box, so that a state is moved as one word, and a function that holds several is proved in little time.
#[derive(Drop)]
pub struct State {
    known: Box<Known>,
}

impl Model for State {
    ghost use Rattle.sym_state.specs.State as record_of;

    ghost Value = { record_of.State };

    ghost view = { λ s. record {
      stack = s.known.value.stack;
      whole = s.known.value.whole;
      at_entry = s.known.value.at_entry;
      vars = s.known.value.vars;
      fields = s.known.value.fields;
      facts = s.known.value.facts;
      rows = s.known.value.rows;
      next = s.known.value.next;
    } };
}

/// What is known.
#[derive(Drop)]
struct Known {
    alloc: Global,
    stack: Seq<Sym>,
    whole: bool,
    at_entry: bool,
    vars: Bindings,
    fields: Bindings,
    facts: SharedList<Fact>,
    rows: SharedList<Row>,
    next: u32,
}

/// What a state is made of.
#[derive(Drop)]
pub struct Parts {
    /// The known top of the literal stack, its top last.
    pub stack: Seq<Sym>,
    /// Whether that is the whole literal stack.
    pub whole: bool,
    /// Whether an entry is visited.
    pub at_entry: bool,
    /// The global variables and, at an entry, its variables, upwards by id.
    pub vars: Seq<Bind>,
    /// At an entry its fields, upwards by id.
    pub fields: Seq<Bind>,
    pub facts: Seq<Fact>,
    pub rows: Seq<Row>,
    /// The symbols are those below this one.
    pub next: u32,
}

impl State {
    /// The state of these parts.
    pub fn from_parts(alloc: Global, parts: Parts) -> Result<State, NoMemory>
        ensures { IfOk result (λ state. state ≡ record {
          stack = parts.stack;
          whole = parts.whole;
          at_entry = parts.at_entry;
          vars = parts.vars;
          fields = parts.fields;
          facts = parts.facts;
          rows = parts.rows;
          next = parts.next;
        }) }
    {
        let Parts {
            stack,
            whole,
            at_entry,
            vars,
            fields,
            facts,
            rows,
            next,
        } = parts;
        let known = Known {
            alloc,
            stack,
            whole,
            at_entry,
            vars: Bindings::new(alloc, vars)?,
            fields: Bindings::new(alloc, fields)?,
            facts: SharedList::from_vec(alloc, facts.into_vec())?,
            rows: SharedList::from_vec(alloc, rows.into_vec())?,
            next,
        };
        Ok(State {
            known: Box::new(alloc, known)?,
        })
    }

    /// Where the state takes its memory: there is one allocator.
    pub fn alloc(&self) -> Global
        ensures { (other : Allocator) → result ≡ other }
    {
        self.known.alloc
    }

    /// How many symbols are known on the stack.
    pub fn stack_len(&self) -> u64
        ensures { result ≡ length self.now.stack }
    {
        self.known.stack.as_slice().len() as u64
    }

    /// The symbol so far below the top, which is at 0. `None` comes exactly where no symbol is known there.
    pub fn at(&self, from_top: u64) -> Option<Sym>
        ensures { result ≡ slice_get (reverse self.now.stack) from_top }
    {
        let stack = self.known.stack.as_slice();
        if from_top < stack.len() as u64 {
            Some(stack[stack.len() - 1 - from_top as usize])
        } else {
            None
        }
    }

    /// The known symbols of the stack, the top last.
    pub(crate) fn stack(&self) -> &[Sym]
        ensures { result.now ≡ self.now.stack }
    {
        self.known.stack.as_slice()
    }

    /// The symbols that are bound to variables.
    pub(crate) fn vars(&self) -> &Bindings
        ensures { result.now ≡ self.now.vars }
    {
        &self.known.vars
    }

    /// The symbols that are bound to fields.
    pub(crate) fn fields(&self) -> &Bindings
        ensures { result.now ≡ self.now.fields }
    {
        &self.known.fields
    }

    /// The symbol that is bound to a variable or a field. `None` comes exactly where the state binds neither.
    pub fn bound(&self, name: NameId) -> Option<Sym>
        ensures { result ≡ change.bound name self.now }
    {
        match self.known.vars.symbol(name) {
            Some(sym) => Some(sym),
            None => self.known.fields.symbol(name),
        }
    }

    /// How many facts there are.
    pub fn facts(&self) -> u64
        ensures { result ≡ length self.now.facts }
    {
        self.known.facts.len()
    }

    /// How many rows there are.
    pub fn rows(&self) -> u64
        ensures { result ≡ length self.now.rows }
    {
        self.known.rows.len()
    }

    /// The fact of a number, from 0. `None` comes exactly where there are no more.
    pub fn fact(&self, index: u64) -> Option<&Fact>
        ensures { option_map (λ fact. fact.now) result ≡ slice_get self.now.facts index }
    {
        self.known.facts.get(index)
    }

    /// The row of a number, from 0. `None` comes exactly where there are no more.
    pub fn row(&self, index: u64) -> Option<&Row>
        ensures { option_map (λ row. row.now) result ≡ slice_get self.now.rows index }
    {
        self.known.rows.get(index)
    }

    /// Whether the known stack is the whole literal stack.
    pub fn is_whole(&self) -> bool
        ensures { result ≡ self.now.whole }
    {
        self.known.whole
    }

    /// Whether an entry is visited.
    pub fn is_at_entry(&self) -> bool
        ensures { result ≡ self.now.at_entry }
    {
        self.known.at_entry
    }

    /// The number below which symbols are the state's.
    pub fn next(&self) -> u32
        ensures { result ≡ self.now.next }
    {
        self.known.next
    }

    /// The exact integer of a symbol.
    pub fn exact_integer(&self, sym: Sym) -> Option<i32>
        ensures { result ≡ decided.exact_integer self.now.facts sym.0 }
    {
        facts::exact_integer(&self.known.facts, sym)
    }

    /// The exact text of a symbol.
    pub fn exact_text(&self, sym: Sym) -> Option<&[u8]>
        ensures said { option_map (λ text. text.now) result ≡ decided.exact_text self.now.facts sym.0 }
        ensures short { All HasShortText self.now.facts → IfSome result (λ text. length text.now ≤ 2 ^ 45) }
    {
        facts::exact_text(&self.known.facts, sym)
    }

    /// The name of a symbol that is exactly the function of that name.
    pub fn exact_name(&self, sym: Sym) -> Option<NameId>
        ensures { result ≡ option_and_then decided.name_of (decided.exact_function self.now.facts sym.0) }
    {
        facts::exact_name(&self.known.facts, sym)
    }

    /// The number of the block that a symbol exactly is.
    pub fn exact_block(&self, sym: Sym) -> Option<u32>
        ensures { result ≡ option_and_then decided.number_of (decided.exact_function self.now.facts sym.0) }
    {
        facts::exact_block(&self.known.facts, sym)
    }

    /// What `empty$` gives for a symbol, true for 1, by the first fact on it that decides that.
    pub fn known_emptiness(&self, sym: Sym) -> Option<bool>
        ensures { result ≡ decided.first_said decided.emptiness_said sym.0 self.now.facts }
    {
        facts::known_emptiness(&self.known.facts, sym)
    }

    /// Whether the first fact on a symbol that decides `empty$` decides 0.
    pub fn is_known_nonblank(&self, sym: Sym) -> bool
        ensures { result ≡ decided.is_known_nonblank self.now.facts sym.0 }
    {
        facts::is_known_nonblank(&self.known.facts, sym)
    }

    /// The kind of a symbol.
    pub fn known_kind(&self, sym: Sym) -> Kinds
        ensures { result ≡ decided.known_kind self.now.facts sym.0 }
    {
        facts::known_kind(&self.known.facts, sym)
    }

    /// Whether a kind includes that of a symbol.
    pub fn is_of_kind(&self, kind: Kinds, sym: Sym) -> bool
        ensures { result ≡ decided.includes kind (decided.known_kind self.now.facts sym.0) }
    {
        facts::includes(kind, self.known_kind(sym))
    }

    /// Whether a fact follows for a symbol from one of the facts on it. That it is of some kind follows always.
    pub fn is_known(&self, sym: Sym, wanted: &Fact) -> bool
        ensures { result ≡ decided.is_known self.now.facts sym.0 wanted.now }
    {
        facts::is_known(&self.known.facts, sym, wanted)
    }

    /// Puts a symbol on top of the stack. A refusal leaves the state as it was.
    pub fn push(&mut self, sym: Sym) -> Result<(), NoMemory>
        ensures ok { OnOk result (self.new ≡ record self.old { stack = self.old.stack ++ sym ∷ [] }) }
        ensures err { OnErr result (self.new ≡ self.old) }
        ensures kept { (style : Style) → WellMade style self.old → sym.0 < self.old.next → WellMade style self.new }
    {
        self.known.stack.push(sym)
    }

    /// Takes the top symbol off the stack. `None` comes exactly where no symbol is known.
    pub fn pop(&mut self) -> Option<Sym>
        ensures popped { MatchOption result ((self.old.stack ≡ []) × (self.new ≡ self.old))
            (λ sym. self.old ≡ record self.new { stack = self.new.stack ++ sym ∷ [] }) }
        ensures kept { (style : Style) → WellMade style self.old → WellMade style self.new }
    {
        self.known.stack.pop()
    }

    /// Binds a variable or field that the state binds to another symbol. A refusal leaves the state as it was.
    pub fn bind(&mut self, name: NameId, sym: Sym) -> Result<(), NoMemory>
        ensures ok { OnOk result (self.new ≡ change.with_bind name sym self.old) }
        ensures err { OnErr result (self.new ≡ self.old) }
        ensures kept { (style : Style) → WellMade style self.old → sym.0 < self.old.next → WellMade style self.new }
    {
        let known = &mut *self.known;
        let vars = known.vars.rebound(name, sym)?;
        let fields = known.fields.rebound(name, sym)?;
        known.vars = vars;
        known.fields = fields;
        Ok(())
    }

    /// The next symbol, of this kind. A refusal leaves the state as it was.
    pub fn fresh(&mut self, kind: Kinds) -> Result<Sym, NoMemory>
        requires { self.old.next < 4294967295 }
        ensures symbol { IfOk result (λ sym. sym ≡ record { 0 = self.old.next }) }
        ensures ok { OnOk result (self.new ≡ change.with_fresh kind self.old) }
        ensures err { OnErr result (self.new ≡ self.old) }
        ensures kept { (style : Style) → WellMade style self.old → WellMade style self.new }
    {
        let known = &mut *self.known;
        let sym = Sym(known.next);
        let facts = with_kind(&known.facts, sym, kind)?;
        known.facts = facts;
        known.next += 1;
        Ok(sym)
    }

    /// Adds a fact. A refusal leaves the state as it was.
    pub fn add_fact(&mut self, fact: Fact) -> Result<(), NoMemory>
        ensures ok { OnOk result (self.new ≡ record self.old { facts = self.old.facts ++ fact ∷ [] }) }
        ensures err { OnErr result (self.new ≡ self.old) }
        ensures kept { (style : Style) → WellMade style self.old → FactFits style self.old.next fact → WellMade style self.new }
    {
        self.known.facts.push(fact)
    }

    /// Adds a row. A refusal leaves the state as it was.
    pub fn add_row(&mut self, row: Row) -> Result<(), NoMemory>
        ensures ok { OnOk result (self.new ≡ record self.old { rows = self.old.rows ++ row ∷ [] }) }
        ensures err { OnErr result (self.new ≡ self.old) }
        ensures bounds { IsBounded row → HasBounds self.old → OnOk result (HasBounds self.new) }
        ensures kept { (style : Style) → WellMade style self.old → RowFits self.old.next row → WellMade style self.new }
    {
        self.known.rows.push(row)
    }

    /// The state with the facts and rows that a case adds.
    pub fn with_case(self, facts: Vec<Fact>, rows: Vec<Row>) -> Result<State, NoMemory>
        ensures after { IfOk result (λ after. after ≡ with_case facts.items rows.items self) }
        ensures next { IfOk result (λ after. after.next ≡ self.next) }
        ensures bounds { HasBounds self → All HasShortText facts.items → All IsBounded rows.items → IfOk result HasBounds }
    {
        let mut after = self;
        let known = &mut *after.known;
        known.facts.append(facts)?;
        known.rows.append(rows)?;
        Ok(after)
    }

    /// The state with so many symbols more, of which nothing is known.
    pub fn with_symbols(self, more: u32) -> State
        requires { self.next + more < 4294967296 }
        ensures { result ≡ record self { next = self.next + more } }
    {
        let mut after = self;
        after.known.next += more;
        after
    }

    /// A state that is the same.
    pub fn branch(&self) -> Result<State, NoMemory>
        ensures { IfOk result (λ state. state ≡ self.now) }
    {
        self.over(self.known.stack.as_slice().to_vec(self.known.alloc)?)
    }

    /// A state that is the same without so many of its topmost operands.
    pub fn without(&self, taken: usize) -> Result<State, NoMemory>
        ensures left { IfOk result (λ state. state ≡ without taken self.now) }
        ensures next { IfOk result (λ state. state.next ≡ self.now.next) }
        ensures bounds { HasBounds self.now → IfOk result HasBounds }
    {
        self.over(front(self.known.alloc, self.known.stack.as_slice(), taken)?)
    }

    /// A state that is the same over an empty stack.
    pub fn emptied(&self) -> Result<State, NoMemory>
        ensures { IfOk result (λ state. state ≡ record self.now { stack = [] }) }
    {
        self.over(Vec::new(self.known.alloc))
    }

    /// A state that is the same over another stack.
    fn over(&self, stack: Vec<Sym>) -> Result<State, NoMemory>
        ensures { IfOk result (λ state. state ≡ record self.now { stack = stack.items }) }
    {
        let known = Known {
            alloc: self.known.alloc,
            stack: Seq::from_vec(stack),
            whole: self.known.whole,
            at_entry: self.known.at_entry,
            vars: self.known.vars.branch()?,
            fields: self.known.fields.branch()?,
            facts: self.known.facts.branch()?,
            rows: self.known.rows.branch()?,
            next: self.known.next,
        };
        Ok(State {
            known: Box::new(self.known.alloc, known)?,
        })
    }
}

/// The symbols below the topmost ones.
#[tactic(auto, using(crate::proofs::Fronts::front_left))]
fn front(alloc: Global, stack: &[Sym], taken: usize) -> Result<Vec<Sym>, NoMemory>
    ensures { IfOk result (λ left. left.items ≡ reverse (drop taken (reverse stack.now))) }
{
    let left = stack.len().saturating_sub(taken);
    Ok(stack[..left].to_vec(alloc)?)
}

/// The facts with that of the kind of a symbol.
fn with_kind(facts: &SharedList<Fact>, sym: Sym, kind: Kinds) -> Result<SharedList<Fact>, NoMemory>
    ensures { IfOk result (λ more. more ≡ facts.now ++ change.kind_facts sym kind) }
{
    let mut more = facts.branch()?;
    match kind {
        Kinds::Any => {}
        _ => more.push(Fact::Is(sym, kind))?,
    }
    Ok(more)
}
