//! Citations and databases, joined by hand. A row is an `.aux` file, ` + `, a database, ` ->` and what they are joined to,
//! with `/` for a line end. What has no arrow is a heading.

ghost use Rattle.std.specs.Prelude.{◌≡◌, ◌≤◌, length, IfOk};
ghost use Rattle.std.specs.List.{list_all};
ghost use Rattle.aux_read.specs.Keys.{HaveKeys};
ghost use Rattle.bib_read.specs.Additions.{AreKeyed};
ghost use Rattle.entry_list.specs.Keys.{is_no_input};

use crate::tests::with_line_ends;
use aux_read::aux::AuxItem;
use bib_read::database::Database;
use bib_read::read::opening;
use bv_base::limits::DATA_BYTES;
use bv_base::memory::NoMemory;
use bv_base::seq::Seq;
use entry_list::join::join;
use entry_list::joined::Joined;
use entry_store::entry::Entry;
use name_table::names::{Kind, Names};
use name_table::style::Style;
use std::alloc::Global;
use std::process::Abort;
use std::test::Fail;

/// A style with the fields `title` and `note` beside `crossref`.
fn style(alloc: Global) -> Result<Style, Fail> {
    let mut names = Names::opening(alloc)?;
    names.define(b"title", Kind::Field)?;
    names.define(b"note", Kind::Field)?;
    Ok(Style {
        names,
        commands: Seq::new(alloc),
        bodies: Seq::new(alloc),
        texts: Seq::new(alloc),
        macros: Seq::new(alloc),
    })
}

/// Worked rows.
const WORKED: &str = r#"
\citation{c} + @inproceedings{c, crossref = {p}} @proceedings{p, title = {T}} -> c:inproceedings|-|T|-/
\citation{c,d} + @inproceedings{c, crossref = {p}} @proceedings{p, title = {T}} @misc{d, crossref = {p}, title = {U}} -> c:inproceedings|p|T|-/d:misc|p|U|-/p:proceedings|-|T|-/
\citation{C} + @misc{c, title = "a" # zz # { b }} -> C:misc|-|a b|-/
\citation{c} + @misc{c, crossref = {q}} -> c:misc|-|-|-/Warning--no parent q for c/
\citation{c} + @string{s = " and "} @misc{c, title = "a" # s # "b"} -> c:misc|-|a and b|-/
+ @misc{c,} ->
"#;

#[test]
fn worked_rows_are_joined(rt: HostRuntime) -> Result<(), Fail> {
    expect_joined(&rt, rt.alloc(), "", WORKED)
}

/// A database of three entries.
const THREE: &str = "@a{x, year = 3}@b{Y, title = 1}@c{z, note = 2}";

/// Citations of three entries.
const CITATIONS: &str = r#"
\citation{*} + -> x:a|-|-|-/Y:b|-|1|-/z:c|-|-|2/
\citation{z}/\citation{*} + -> z:c|-|-|2/x:a|-|-|-/Y:b|-|1|-/
\citation{*,X} + -> Y:b|-|1|-/z:c|-|-|2/X:a|-|-|-/
\citation{*,*} + -> x:a|-|-|-/Y:b|-|1|-/z:c|-|-|2/
\citation{y,*,Y} + -> y:b|-|1|-/x:a|-|-|-/z:c|-|-|2/
\citation{z,y,Z,Y} + -> z:c|-|-|2/y:b|-|1|-/
\citation{n,x,N} + -> x:a|-|-|-/Warning--no entry n/
\citation{M,*,n,m} + -> x:a|-|-|-/Y:b|-|1|-/z:c|-|-|2/Warning--no entry M/Warning--no entry n/
+ ->
"#;

#[test]
fn citations_choose_entries_in_order(rt: HostRuntime) -> Result<(), Fail> {
    expect_joined(&rt, rt.alloc(), THREE, CITATIONS)
}

/// Entries that name parents.
const PARENTS: &str = r#"
% A parent's parent lends nothing.
\citation{a} + @m{a,crossref={b}}@m{b,crossref={c}}@m{c,title=1} -> a:m|-|-|-/
% A parent that is cited stays named, as the child spells it.
\citation{a,p} + @m{a,crossref={P}}@m{p,title=1} -> a:m|P|1|-/p:m|-|1|-/
\citation{P,a} + @m{a,crossref={p}}@m{p,title=1} -> P:m|-|1|-/a:m|p|1|-/
% Two spellings name one parent, which isn't appended where it is cited.
\citation{a,b} + @m{a,crossref={P}}@m{b,crossref={p}}@m{p,note=1} -> a:m|P|-|1/b:m|p|-|1/p:m|-|-|1/
\citation{a,P,b} + @m{a,crossref={p}}@m{b,crossref={p}}@m{p,note=1} -> a:m|p|-|1/P:m|-|-|1/b:m|p|-|1/
\citation{a} + @m{a,crossref={a},note=1} -> a:m|a|-|1/
% A blank name is no entry's.
\citation{a} + @m{a,crossref={ }} -> a:m|-|-|-/Warning--no parent  for a/
% A field that is there stays, also where it is empty; what the style doesn't declare isn't lent.
\citation{a} + @m{a,crossref={p},title={}}@m{p,title=1,note=2,year=3} -> a:m|-||2/
% The crossref of an appended entry doesn't count, but lends.
\citation{c,d,e} + @m{c,crossref={p}}@m{d,crossref={p}}@m{e,crossref={g}}@m{p,crossref={g}}@m{g,title=1} -> c:m|p|-|-/d:m|p|-|-/e:m|-|1|-/p:m|-|1|-/
\citation{c,d,e,f} + @m{c,crossref={q}}@m{d,crossref={p}}@m{e,crossref={p}}@m{f,crossref={q}}@m{p,}@m{q,} -> c:m|q|-|-/d:m|p|-|-/e:m|p|-|-/f:m|q|-|-/q:m|-|-|-/p:m|-|-|-/
\citation{n,A,o,*} + @m{a,crossref={q}}@m{b,crossref={Q}} -> A:m|-|-|-/b:m|-|-|-/Warning--no entry n/Warning--no entry o/Warning--no parent q for A/Warning--no parent Q for b/
"#;

#[test]
fn parents_are_appended_and_lend_fields(rt: HostRuntime) -> Result<(), Fail> {
    expect_joined(&rt, rt.alloc(), "", PARENTS)
}

/// Expects the files and the databases of rows to be joined so, where some entries are in all of these databases.
fn expect_joined(rt: &impl Abort, alloc: Global, shared: &str, rows: &str) -> Result<(), Fail> {
    let style = style(alloc)?;
    for row in rows.lines() {
        if let Some((given, wanted)) = row.split_once(" ->") {
            let (aux, own) = given.split_once("+").unwrap_or((given, ""));
            let bib = format!(in alloc; "{shared}{own}")?;
            expect_row(
                rt,
                alloc,
                &style,
                aux.trim(),
                bib.as_str().trim(),
                wanted.trim_start(),
            )?;
        }
    }
    Ok(())
}

/// Expects an `.aux` file and a database to be joined to lines.
fn expect_row(
    rt: &impl Abort,
    alloc: Global,
    style: &Style,
    aux: &str,
    bib: &str,
    wanted: &str,
) -> Result<(), Fail> {
    let aux = with_line_ends(alloc, aux, b'/')?;
    let lines = joined(rt, alloc, style, aux.as_slice(), bib.as_bytes())?;
    assert_eq!(rt; lines.as_slice(), wanted.as_bytes());
    Ok(())
}

/// What an `.aux` file and a database are joined to, as lines.
fn joined(
    rt: &impl Abort,
    alloc: Global,
    style: &Style,
    aux: &[u8],
    bib: &[u8],
) -> Result<Vec<u8>, Fail> {
    assert!(rt; aux.len() <= DATA_BYTES);
    assert!(rt; bib.len() <= DATA_BYTES);
    let database = database(alloc, style, bib)?;
    let aux = aux_read::read::read(alloc, aux)?;
    lines_of(alloc, style, aux.items.as_slice(), &database)
}

/// A database after the style's macros.
fn database(alloc: Global, style: &Style, bib: &[u8]) -> Result<Database, Fail>
    requires { length bib.now ≤ DATA_BYTES }
    ensures { IfOk result (λ found. AreKeyed found.entries) }
{
    let opened = opening(alloc, style)?;
    Ok(bib_read::read::read(alloc, bib, opened)?)
}

/// What requests and a database are joined to, as lines.
fn lines_of(
    alloc: Global,
    style: &Style,
    items: &[AuxItem],
    database: &Database,
) -> Result<Vec<u8>, Fail>
    requires items { HaveKeys items.now }
    requires keys { AreKeyed database.now.entries }
{
    if !are_citations(items) {
        return Err(Fail::new("a further file"));
    }
    let joined = join(alloc, style, items, database)?;
    Ok(shown(alloc, &joined)?)
}

/// Whether no request is for a further file.
fn are_citations(items: &[AuxItem]) -> bool
    ensures { result ≡ list_all is_no_input items.now }
{
    items.iter().all(|item| is_no_input(item))
}

/// Whether a request is for no further file.
fn is_no_input(item: &AuxItem) -> bool
    ensures { result ≡ is_no_input item.now }
{
    match item {
        AuxItem::Input(_, _) => false,
        _ => true,
    }
}

/// Appends an entry as `KEY:TYPE`, and for each field a `|` and its value, or `-` where it is missing.
fn show(shown: &mut Vec<u8>, entry: &Entry<'_>) -> Result<(), NoMemory> {
    shown.extend_from_slice(entry.key())?;
    shown.push(b':')?;
    shown.extend_from_slice(entry.entry_type())?;
    for at in 0..entry.names().len() {
        shown.push(b'|')?;
        match entry.field(at) {
            Some(field) => shown.extend_from_slice(field.value.unwrap_or(b"-"))?,
            None => return Ok(()),
        }
    }
    shown.push(b'/')?;
    Ok(())
}

/// What was joined, as lines.
fn shown(alloc: Global, joined: &Joined) -> Result<Vec<u8>, NoMemory> {
    let mut shown = Vec::new(alloc);
    for at in 0..joined.list.len() {
        if let Some(entry) = joined.list.at(at) {
            show(&mut shown, &entry)?;
        }
    }
    for warning in joined.warnings.as_slice() {
        shown.extend_from_slice(warning.as_slice())?;
        shown.push(b'/')?;
    }
    Ok(shown)
}
