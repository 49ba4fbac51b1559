//! The condition under which a style is analysed where none is given (docs/ANALYSER.md, "The default condition").

ghost use Rattle.std.specs.Prelude.{◌≡◌, [], ◌∷◌, ◌++◌, map, is_some, IfOk, OnOk};
ghost use Rattle.name_table.specs.Sound.{IsSound};
ghost use Rattle.name_table.specs.TypeTarget.{type_function};
ghost use Rattle.cert_format.specs.CondText.{IsCond};
ghost use Rattle.infer.specs.DefaultCond as rule;

use bst_meaning::condition::{Cond, NamesLine};
use bv_base::memory::NoMemory;
use bv_base::seq::Seq;
use bv_base::text::Text;
use name_table::names::{Kind, NameId, Names};
use name_table::style::{Style, TypeTarget};
use std::alloc::Global;

/// The types of the standard styles, upwards by their bytes.
const STANDARD_TYPES: [&[u8]; 14] = [
    b"article",
    b"book",
    b"booklet",
    b"conference",
    b"inbook",
    b"incollection",
    b"inproceedings",
    b"manual",
    b"mastersthesis",
    b"misc",
    b"phdthesis",
    b"proceedings",
    b"techreport",
    b"unpublished",
];

/// The default condition of a style.
pub fn default_cond(alloc: Global, style: &Style) -> Result<Cond, NoMemory>
    requires sound { IsSound style.now }
    ensures exact { IfOk result (λ c. c ≡ rule.default_cond style.now) }
    ensures kept { IfOk result (λ c. IsCond style.now.names c) }
{
    Ok(Cond {
        entries: 10000,
        key: 250,
        preamble: 20000,
        length: 10000,
        names: Seq::from_vec(names_lines(alloc, &style.names)?),
        nonblank: Seq::new(alloc),
        types: Seq::from_vec(types(alloc, style)?),
        other: true,
    })
}

/// The lines for the names of a style, in the order of their ids.
fn names_lines(alloc: Global, names: &Names) -> Result<Vec<NamesLine>, NoMemory>
    ensures { IfOk result (λ lines. lines.items ≡ rule.names_lines 0 names.now) }
{
    let mut lines = Vec::new(alloc);
    for id in 0..names.len() {
        let name = NameId(id);
        push_line(&mut lines, name, names.text(name), names.kind(name))?;
    }
    Ok(lines)
}

/// Appends the line for a name: a field that holds names has at most 1000.
fn push_line(
    lines: &mut Vec<NamesLine>,
    field: NameId,
    name: &[u8],
    kind: Kind,
) -> Result<(), NoMemory>
    ensures { OnOk result (lines.new.items ≡ lines.old.items ++ rule.names_line field.0 name.now kind) }
{
    if kind == Kind::Field && holds_names(name) {
        lines.push(NamesLine { field, most: 1000 })?;
    }
    Ok(())
}

/// Whether a name is `author` or `editor`.
fn holds_names(name: &[u8]) -> bool
    ensures { result ≡ rule.holds_names name.now }
{
    name == b"author".as_slice() || name == b"editor".as_slice()
}

/// The types of the standard styles that a style defines before READ.
fn types(alloc: Global, style: &Style) -> Result<Vec<Text>, NoMemory>
    ensures { IfOk result (λ types. types.items ≡ rule.defined_types style.now rule.standard_types) }
{
    defined_types(alloc, style, &STANDARD_TYPES)
}

/// Those of some types that a style defines before READ.
fn defined_types(alloc: Global, style: &Style, names: &[&[u8]]) -> Result<Vec<Text>, NoMemory>
    ensures { IfOk result (λ types. types.items ≡ rule.defined_types style.now (map (λ name. name.now) names.now)) }
{
    let mut types = Vec::new(alloc);
    for name in names {
        push_type(&mut types, alloc, style, name)?;
    }
    Ok(types)
}

/// Appends a type, where the style defines it before READ.
fn push_type(
    types: &mut Vec<Text>,
    alloc: Global,
    style: &Style,
    name: &[u8],
) -> Result<(), NoMemory>
    ensures { OnOk result (types.new.items ≡ types.old.items ++ rule.defined_types style.now (name.now ∷ [])) }
{
    if is_defined(style, name) {
        types.push(Text::from_slice(alloc, name)?)?;
    }
    Ok(())
}

/// Whether a style defines the function of a type before READ.
fn is_defined(style: &Style, name: &[u8]) -> bool
    ensures { result ≡ is_some (type_function name.now style.now) }
{
    matches!(style.type_target(name), TypeTarget::Function(_))
}
