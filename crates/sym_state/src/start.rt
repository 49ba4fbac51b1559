//! States that start from pieces (docs/STATES.md, "Start from pieces").

ghost use Rattle.std.specs.Prelude.{◌≡◌, ◌+◌, ◌<◌, ◌++◌, List, Some, length, map, nat_eq, OnOk, IfOk};
ghost use Rattle.std.specs.List.{All, filter, flat_map, list_any};
ghost use Rattle.bst_meaning.specs.StyleParts.{kind_of};
ghost use Rattle.sym_state.specs.Opening.{CanStart, StandsOpen};
ghost use Rattle.sym_state.specs.Starting as rule;
ghost use Rattle.sym_state.specs.Subjects.{Config, EntryList, Valuation, Value};
ghost use Rattle.sym_state.specs.WellMade as made;

use crate::bindings::symbol_at;
use crate::piece::Piece;
use crate::raising::joined;
use crate::references::at_most;
use crate::state::{Parts, State};
use crate::symbol::{Bind, Fact, Kinds, Sym};
use bst_meaning::condition::{Cond, NamesLine};
use bst_meaning::value::{ENTRY_SIZE, GLOBAL_SIZE};
use bv_base::memory::NoMemory;
use bv_base::seq::Seq;
use lin_facts::row::{Row, Term};
use name_table::names::{Kind, NameId};
use name_table::style::Style;
use std::alloc::Global;

/// The state that starts from pieces: their symbols numbered on, piece after piece, a symbol for each other variable and
/// field that has a value, the facts and rows of the pieces and then those that each variable and field gives. It stands
/// for each configuration of which the pieces hold, where each variable and field has a value of its kind.
pub fn start(
    alloc: Global,
    style: &Style,
    cond: &Cond,
    pieces: &[Piece],
    whole: bool,
    at_entry: bool,
) -> Result<State, NoMemory>
    requires numbered { All rule.IsNumbered pieces.now }
    requires few { rule.all_symbols pieces.now + length style.now.names < 4294967296 }
    ensures started { IfOk result (λ state. state ≡ rule.started style.now cond.now pieces.now whole at_entry) }
    ensures made { All (rule.IsFit style.now) pieces.now → IfOk result (made.WellMade style.now) }
    ensures stands { IfOk result (λ state. (list : EntryList) (v : Valuation) (c : Config) (below : List Value)
        → CanStart style.now cond.now list v pieces.now whole at_entry c below
        → StandsOpen style.now cond.now list v (rule.all_symbols pieces.now) state c below) }
{
    let from = joined(alloc, pieces)?;
    let names = names_in_play(alloc, style, at_entry)?;
    let (binds, next) = seats(alloc, from.binds.as_slice(), from.next, names.as_slice())?;
    let mut facts = from.facts;
    add_own_facts(&mut facts, style, cond, binds.as_slice())?;
    let mut rows = from.rows;
    add_own_rows(alloc, &mut rows, style, cond, binds.as_slice())?;
    let (variables, fields) = parted(alloc, style, at_entry, binds.as_slice())?;
    let parts = Parts {
        stack: Seq::from_vec(from.stack),
        whole,
        at_entry,
        vars: Seq::from_vec(variables),
        fields: Seq::from_vec(fields),
        facts: Seq::from_vec(facts),
        rows: Seq::from_vec(rows),
        next,
    };
    State::from_parts(alloc, parts)
}

/// The names that have a value, in the order of ids.
fn names_in_play(alloc: Global, style: &Style, at_entry: bool) -> Result<Vec<NameId>, NoMemory>
    ensures names { IfOk result (λ names. names.items ≡ rule.names_in_play style.now at_entry) }
    ensures within { IfOk result (λ names. All (λ name. name.0 < length style.now.names) names.items) }
{
    let mut names = Vec::new(alloc);
    for id in 0..style.names.len() {
        if takes_part(at_entry, style.names.kind(NameId(id))) {
            names.push(NameId(id))?;
        }
    }
    Ok(names)
}

/// Whether a name of a kind has a value.
fn takes_part(at_entry: bool, kind: Kind) -> bool
    ensures { result ≡ made.takes_part at_entry kind }
{
    is_variable(at_entry, kind) || is_field(at_entry, kind)
}

/// Whether a variable of a kind has a value.
fn is_variable(at_entry: bool, kind: Kind) -> bool
    ensures { result ≡ made.is_variable at_entry kind }
{
    match kind {
        Kind::IntGlobal | Kind::StrGlobal => true,
        Kind::IntEntry | Kind::StrEntry => at_entry,
        _ => false,
    }
}

/// Whether a field has a value.
fn is_field(at_entry: bool, kind: Kind) -> bool
    ensures { result ≡ made.is_field at_entry kind }
{
    match kind {
        Kind::Field => at_entry,
        _ => false,
    }
}

/// Each name with its symbol, that of a piece or the next new one, and the symbol after the last.
pub fn seats(
    alloc: Global,
    binds: &[Bind],
    first: u32,
    names: &[NameId],
) -> Result<(Vec<Bind>, u32), NoMemory>
    requires { first + length names.now < 4294967296 }
    ensures seats { IfOk result (λ found. found.0.items ≡ rule.seats binds.now first names.now) }
    ensures next { IfOk result (λ found. found.1 ≡ first + rule.unbound binds.now names.now) }
    ensures names { IfOk result (λ found. map (λ bind. bind.name) found.0.items ≡ names.now) }
{
    let mut all = Vec::new(alloc);
    let mut next = first;
    for name in names {
        match symbol_at(*name, binds) {
            Some(sym) => all.push(Bind { name: *name, sym })?,
            None => {
                all.push(Bind {
                    name: *name,
                    sym: Sym(next),
                })?;
                next += 1;
            }
        }
    }
    Ok((all, next))
}

/// The bindings of variables, and those of fields.
fn parted(
    alloc: Global,
    style: &Style,
    at_entry: bool,
    binds: &[Bind],
) -> Result<(Vec<Bind>, Vec<Bind>), NoMemory>
    requires { All (λ bind. bind.name.0 < length style.now.names) binds.now }
    ensures variables { IfOk result (λ found. found.0.items ≡ filter (rule.has_kind style.now (made.is_variable at_entry)) binds.now) }
    ensures fields { IfOk result (λ found. found.1.items ≡ filter (rule.has_kind style.now (made.is_field at_entry)) binds.now) }
{
    let mut variables = Vec::new(alloc);
    let mut fields = Vec::new(alloc);
    for bind in binds {
        let kind = style.names.kind(bind.name);
        if is_variable(at_entry, kind) {
            variables.push(*bind)?;
        }
        if is_field(at_entry, kind) {
            fields.push(*bind)?;
        }
    }
    Ok((variables, fields))
}

/// Adds the facts that each variable and field gives.
pub fn add_own_facts(
    facts: &mut Vec<Fact>,
    style: &Style,
    cond: &Cond,
    binds: &[Bind],
) -> Result<(), NoMemory>
    requires { All (λ bind. bind.name.0 < length style.now.names) binds.now }
    ensures { OnOk result (facts.new.items ≡ facts.old.items
        ++ flat_map (λ bind. rule.own_facts cond.now (kind_of style.now bind.name) bind) binds.now) }
{
    for bind in binds {
        push_facts(facts, cond, style.names.kind(bind.name), *bind)?;
    }
    Ok(())
}

/// Adds the facts that a variable or a field gives, by its kind.
fn push_facts(facts: &mut Vec<Fact>, cond: &Cond, kind: Kind, bind: Bind) -> Result<(), NoMemory>
    ensures { OnOk result (facts.new.items ≡ facts.old.items ++ rule.own_facts cond.now (Some kind) bind) }
{
    match kind {
        Kind::IntEntry | Kind::IntGlobal => facts.push(Fact::Is(bind.sym, Kinds::Int))?,
        Kind::StrEntry | Kind::StrGlobal => facts.push(Fact::Is(bind.sym, Kinds::Str))?,
        Kind::Field => push_field_facts(facts, cond, bind)?,
        _ => {}
    }
    Ok(())
}

/// Adds the facts that a field gives.
fn push_field_facts(facts: &mut Vec<Fact>, cond: &Cond, bind: Bind) -> Result<(), NoMemory>
    ensures { OnOk result (facts.new.items ≡ facts.old.items
        ++ (rule.field_kind (rule.is_nonblank cond.now bind.name) bind.sym ++ rule.name_facts (rule.most_names bind.name cond.now.names) bind.sym)) }
{
    if is_nonblank(cond.nonblank.as_slice(), bind.name) {
        facts.push(Fact::Is(bind.sym, Kinds::Str))?;
        facts.push(Fact::Nonblank(bind.sym))?;
    } else {
        facts.push(Fact::Is(bind.sym, Kinds::Optional))?;
    }
    if most_names(bind.name, cond.names.as_slice()).is_some() {
        facts.push(Fact::Wellformed(bind.sym))?;
    }
    Ok(())
}

/// Adds the rows that each variable and field gives.
pub fn add_own_rows(
    alloc: Global,
    rows: &mut Vec<Row>,
    style: &Style,
    cond: &Cond,
    binds: &[Bind],
) -> Result<(), NoMemory>
    requires { All (λ bind. bind.name.0 < length style.now.names) binds.now }
    ensures bounded { All made.IsBounded rows.old.items → OnOk result (All made.IsBounded rows.new.items) }
    ensures added { OnOk result (rows.new.items ≡ rows.old.items
        ++ flat_map (λ bind. rule.own_rows cond.now (kind_of style.now bind.name) bind) binds.now) }
{
    for bind in binds {
        push_rows(alloc, rows, cond, style.names.kind(bind.name), *bind)?;
    }
    Ok(())
}

/// Adds the rows that a variable or a field gives, by its kind.
fn push_rows(
    alloc: Global,
    rows: &mut Vec<Row>,
    cond: &Cond,
    kind: Kind,
    bind: Bind,
) -> Result<(), NoMemory>
    ensures bounded { All made.IsBounded rows.old.items → OnOk result (All made.IsBounded rows.new.items) }
    ensures added { OnOk result (rows.new.items ≡ rows.old.items ++ rule.own_rows cond.now (Some kind) bind) }
{
    let length = Term::Length(bind.sym.0);
    match kind {
        Kind::StrEntry => rows.push(at_most(alloc, length, ENTRY_SIZE as i64)?)?,
        Kind::StrGlobal => rows.push(at_most(alloc, length, GLOBAL_SIZE as i64)?)?,
        Kind::Field => {
            rows.push(at_most(alloc, length, cond.length as i64)?)?;
            push_name_row(alloc, rows, cond, bind)?;
        }
        _ => {}
    }
    Ok(())
}

/// Adds the row on the names of a field.
fn push_name_row(
    alloc: Global,
    rows: &mut Vec<Row>,
    cond: &Cond,
    bind: Bind,
) -> Result<(), NoMemory>
    ensures bounded { All made.IsBounded rows.old.items → OnOk result (All made.IsBounded rows.new.items) }
    ensures added { OnOk result (rows.new.items ≡ rows.old.items ++ rule.name_rows (rule.most_names bind.name cond.now.names) bind.sym) }
{
    if let Some(most) = most_names(bind.name, cond.names.as_slice()) {
        rows.push(at_most(alloc, Term::Names(bind.sym.0), most as i64)?)?;
    }
    Ok(())
}

/// Whether the condition says of a field that it isn't blank.
fn is_nonblank(lines: &[NameId], name: NameId) -> bool
    ensures { result ≡ list_any (λ other. nat_eq other.0 name.0) lines.now }
{
    lines.iter().any(|other| other.0 == name.0)
}

/// The number of names that the condition admits in a field.
fn most_names(name: NameId, lines: &[NamesLine]) -> Option<u32>
    ensures { result ≡ rule.most_names name lines.now }
{
    for line in lines {
        if line.field.0 == name.0 {
            return Some(line.most);
        }
    }
    None
}
