//! Small databases, worked out by hand. A row is a text, ` -> ` and what comes of it, with `|` for a line end. What has no
//! arrow is a heading.

use crate::tests::with_line_ends;
use bib_read::database::Database;
use bib_read::fault::BibFault;
use bib_read::raw_entry::RawEntry;
use bib_read::read::{opening, read};
use bv_base::limits::DATA_BYTES;
use bv_base::memory::NoMemory;
use bv_base::place::Place;
use bv_base::seq::Seq;
use bv_base::text::Text;
use name_table::names::Names;
use name_table::style::{Macro, Style};
use std::alloc::Global;
use std::process::Abort;
use std::test::Fail;

/// A style with the macro `jan`.
fn style(alloc: Global) -> Result<Style, NoMemory> {
    let mut macros = Seq::new(alloc);
    macros.push(Macro {
        name: Text::from_slice(alloc, b"jan")?,
        value: Text::from_slice(alloc, b"January")?,
    })?;
    Ok(Style {
        names: Names::opening(alloc)?,
        commands: Seq::new(alloc),
        bodies: Seq::new(alloc),
        texts: Seq::new(alloc),
        macros,
    })
}

/// The database before the first text.
fn before(alloc: Global) -> Result<Database, NoMemory> {
    let style = style(alloc)?;
    opening(alloc, &style)
}

/// Texts with a byte where another has to stand, and the place of that byte.
const EXPECTED: &str = r#"
@1 -> Expected 1:2
@{k} -> Expected 1:2
@ "misc"{k} -> Expected 1:3
@% -> Expected 1:2
@misc k -> Expected 1:7
@misc} -> Expected 1:6
@misc , -> Expected 1:7
@misc)k) -> Expected 1:6
@misc{} -> Expected 1:7
@misc{,} -> Expected 1:7
@misc(,) -> Expected 1:7
@misc(  ,) -> Expected 1:9
@misc{k a = 1} -> Expected 1:9
@misc{k ) -> Expected 1:9
@misc(k } -> Expected 1:9
@misc{k "a"} -> Expected 1:9
@misc{k { -> Expected 1:9
@misc{k,,} -> Expected 1:9
@misc{k,=1} -> Expected 1:9
@misc{k,) -> Expected 1:9
@misc(k,} -> Expected 1:9
@misc{k, 1a = 2} -> Expected 1:10
@misc{k, "a" = 2} -> Expected 1:10
@misc{k, a} -> Expected 1:11
@misc{k, a b = 1} -> Expected 1:12
@misc{k, a, b = 1} -> Expected 1:11
@misc{k, a # 1} -> Expected 1:12
@misc{k, a =} -> Expected 1:13
@misc{k, a = , b = 1} -> Expected 1:14
@misc{k, a = # 1} -> Expected 1:14
@misc{k, a == 1} -> Expected 1:13
@misc(k, a = ) -> Expected 1:14
@misc{k, a = 'x'} -> Expected 1:14
@misc{k, a = 1 % x|} -> Expected 1:16
@misc{k, a = 1a} -> Expected 1:15
@misc{k, a = 1 2} -> Expected 1:16
@misc{k, a = "x""y"} -> Expected 1:17
@misc{k, a = {x}{y}} -> Expected 1:17
@misc{k, a = jan feb} -> Expected 1:18
@misc{k, a = 1) -> Expected 1:15
@misc(k, a = 1} -> Expected 1:15
@misc{k, a = 1 # } -> Expected 1:18
@misc{k, a = 1 # # 2} -> Expected 1:18
@misc{k, a = 1 #, b = 2} -> Expected 1:17
@misc{k, a = 1, b = 2,| , c = 3} -> Expected 2:2
@string a -> Expected 1:9
@string{} -> Expected 1:9
@string{1 = 2} -> Expected 1:9
@string{a} -> Expected 1:10
@string{a "b"} -> Expected 1:11
@string{a = } -> Expected 1:13
@string{a = 1, } -> Expected 1:14
@string{a = 1) -> Expected 1:14
@string(a = 1} -> Expected 1:14
@string{a = 1 b = 2} -> Expected 1:15
@preamble "a" -> Expected 1:11
@preamble{} -> Expected 1:11
@preamble{"a" # } -> Expected 1:17
@preamble{"a",} -> Expected 1:14
@preamble("a"} -> Expected 1:14
@comment{"}|@misc{k}|@1 -> Expected 3:2
"#;

/// Texts that end within what an `@` began, and the place of their end.
const ENDS: &str = r#"
@ -> EndOfFile 1:2
a @ | -> EndOfFile 2:1
@misc -> EndOfFile 1:6
@misc[k]  -> EndOfFile 1:10
@misc{ -> EndOfFile 1:7
@misc{ |   -> EndOfFile 2:3
@misc{k -> EndOfFile 1:8
@misc(k) -> EndOfFile 1:9
@misc() -> EndOfFile 1:8
@misc{k) -> EndOfFile 1:9
@misc{k{  -> EndOfFile 1:10
@misc{k, -> EndOfFile 1:9
@misc{k, a -> EndOfFile 1:11
@misc{k, a = -> EndOfFile 1:13
@misc{k, a = {x -> EndOfFile 1:16
@misc{k, a = {x} -> EndOfFile 1:17
@misc{k, a = {x{y}} -> EndOfFile 1:20
@misc{k, a = "x -> EndOfFile 1:16
@misc{k, a = "{x"} -> EndOfFile 1:19
@misc{k, a = 12 -> EndOfFile 1:16
@misc{k, a = jan -> EndOfFile 1:17
@misc{k, a = 1 # -> EndOfFile 1:17
@misc{k, a = 1,|| -> EndOfFile 3:1
@misc(k, a = {)})|@misc(l, a = {)} -> EndOfFile 2:17
@string -> EndOfFile 1:8
@string{ -> EndOfFile 1:9
@string{a -> EndOfFile 1:10
@string{a = -> EndOfFile 1:12
@string{a = 1 -> EndOfFile 1:14
@preamble -> EndOfFile 1:10
@preamble( -> EndOfFile 1:11
@preamble{"a" -> EndOfFile 1:14
@comment{@ -> EndOfFile 1:11
@comment{@misc{k -> EndOfFile 1:17
"#;

/// Texts with a `}` within quotes that has no `{`, and its place.
const UNBALANCED: &str = r#"
@misc{k, a = "x}"} -> Unbalanced 1:16
@misc{k, a = "}{"} -> Unbalanced 1:15
@misc{k, a = "{x}|}"} -> Unbalanced 2:1
@misc{k, a = "{"}}"} -> Unbalanced 1:18
@string{a = 1 # "}"} -> Unbalanced 1:18
@preamble("}") -> Unbalanced 1:12
"#;

/// Texts with a key that is there, and the place where it stands again.
const REPEATED: &str = r#"
@misc{k}|@misc{K} -> RepeatedKey 2:7
@misc{k, a = 1}|@x{K -> RepeatedKey 2:4
@misc{Key}@misc( kEY , a = } -> RepeatedKey 1:18
@misc{k}|@misc{l}|@misc{k, a = "}"} -> RepeatedKey 3:7
@misc{a}b}@misc{a -> RepeatedKey 1:17
"#;

#[test]
fn the_fault_with_the_least_place_is_answered(rt: HostRuntime) -> Result<(), Fail> {
    let style = style(rt.alloc())?;
    for rows in [EXPECTED, ENDS, UNBALANCED, REPEATED] {
        expect(&rt, rt.alloc(), &style, rows)?;
    }
    Ok(())
}

/// Texts, and what a database has after them: `#` begins a macro, `@` an entry, `.` a field, `<` the preamble and `!` a
/// warning.
const READ: &str = r##"
 -> #jan=January|<>|
text } " { % # , without a mark -> #jan=January|<>|
% @misc{k} -> #jan=January|@misc k|<>|
@MISC{K, A = 1} -> #jan=January|@misc K|.a=1|<>|
@misc(k )@misc{l}x@ | misc | { | m | } -> #jan=January|@misc k|@misc l|@misc m|<>|
% Odd bytes in types, keys and fields.
@@misc{k} -> #jan=January|@@misc k|<>|
@comment@misc{k} -> #jan=January|@comment@misc k|<>|
@a-b*c[dü{k} -> #jan=January|@a-b*c[dü k|<>|
@misc{a:b/c"d#e%f'g=h{i~\é(j)} -> #jan=January|@misc a:b/c"d#e%f'g=h{i~\é(j)|<>|
@misc(a}b)c{ , x = 1) -> #jan=January|@misc a}b)c{|.x=1|<>|
% A comma before the closing byte.
@misc{k,}@misc{l , }@misc(m,)@misc(n|,|) -> #jan=January|@misc k|@misc l|@misc m|@misc n|<>|
@misc{k, a = 1,}@misc(l, a = 1 , ) -> #jan=January|@misc k|.a=1|@misc l|.a=1|<>|
% Braces and quotes.
@misc{k, a = {x {y} z}, b = {"}, c = {)}} -> #jan=January|@misc k|.a=x {y} z|.b="|.c=)|<>|
@misc{k, a = "x {"} y", b = "{{"}}", c = ")"} -> #jan=January|@misc k|.a=x {"} y|.b={{"}}|.c=)|<>|
@misc(k, a = {)}, b = ")", c = {}, d = "") -> #jan=January|@misc k|.a=)|.b=)|.c=|.d=|<>|
% Digits, macros and joined pieces.
@misc{k, a = 007, b = 1#2 # 3, c = {1}#"2"#3} -> #jan=January|@misc k|.a=007|.b=123|.c=123|<>|
@misc{k, a = jan, b = JAN # 1 # jan} -> #jan=January|@misc k|.a=January|.b=January1January|<>|
@misc{k, a = -1} -> #jan=January|@misc k|.a=|<>|!Warning--undefined macro -1!|
@misc{k, a = 1 # no # 2 # No} -> #jan=January|@misc k|.a=12|<>|!Warning--undefined macro no!|!Warning--undefined macro no!|
@string{jan = "J"}@misc{k, a = jan} -> #jan=J|@misc k|.a=J|<>|
@string{x = x} -> #jan=January|#x=|<>|!Warning--undefined macro x!|
@string(x = {p)q})@String{Y = x # x} -> #jan=January|#x=p)q|#y=p)qp)q|<>|
% White space.
@misc{k, a = " " # "x" # " " # { y } # " "} -> #jan=January|@misc k|.a=x y|<>|
@misc{k, a = " | "}@string{b = "  x  "} -> #jan=January|#b= x |@misc k|.a=|<>|
@preamble{"a  "}@preamble("  b" # jan)@preamble{{}} -> #jan=January|<a  bJanuary>|
% Fields that come again.
@misc{k, a = 1, A = 2} -> #jan=January|@misc k|.a=1|<>|!Warning--second field a in k!|
@misc{K, a = {}, b = 2, A = 3, a = 4} -> #jan=January|@misc K|.a=|.b=2|<>|!Warning--second field a in K!|!Warning--second field a in K!|
@misc{k,a=1,b=2,c=3,d=4,e=5,f=6,g=7,h=8,i=9,j=0,k=1,l=2,m=3,n=4,o=5,p=6,q=7,r=8,Q=9,A=0} -> #jan=January|@misc k|.a=1|.b=2|.c=3|.d=4|.e=5|.f=6|.g=7|.h=8|.i=9|.j=0|.k=1|.l=2|.m=3|.n=4|.o=5|.p=6|.q=7|.r=8|<>|!Warning--second field q in k!|!Warning--second field a in k!|
@misc{k, a = x, a = y} -> #jan=January|@misc k|.a=|<>|!Warning--undefined macro x!|!Warning--second field a in k!|!Warning--undefined macro y!|
% Comments.
@comment{x @misc{k}} } -> #jan=January|@misc k|<>|
@Comment @misc{k}@COMMENT{"@comment(@misc(l ) -> #jan=January|@misc k|@misc l|<>|
% Entries as they are joined later.
@inproceedings{c, crossref = {p}} @proceedings{p, title = {T}} -> #jan=January|@inproceedings c|.crossref=p|@proceedings p|.title=T|<>|
@misc{c, title = "a" # zz # { b }} -> #jan=January|@misc c|.title=a b|<>|!Warning--undefined macro zz!|
@string{s = " and "} @misc{c, title = "a" # s # "b"} -> #jan=January|#s= and |@misc c|.title=a and b|<>|
"##;

/// The same with bytes that aren't printed, or that are no UTF-8.
static ODD: [(&[u8], &[u8]); 2] = [
    (
        b"@misc{k, x-y.z:1+\xff = 1}",
        b"#jan=January|@misc k|.x-y.z:1+\xff=1|<>|",
    ),
    (
        b"@misc{k, a = {  x \n\t y\r\n }}",
        b"#jan=January|@misc k|.a=x y|<>|",
    ),
];

#[test]
fn texts_are_read(rt: HostRuntime) -> Result<(), Fail> {
    let style = style(rt.alloc())?;
    expect(&rt, rt.alloc(), &style, READ)?;
    for (source, wanted) in &ODD {
        expect_opened(&rt, rt.alloc(), &style, source, wanted)?;
    }
    Ok(())
}

#[test]
fn a_style_opens_with_its_macros(rt: HostRuntime) -> Result<(), Fail> {
    let before = before(rt.alloc())?;
    Ok(expect_shown(&rt, rt.alloc(), &before, b"#jan=January|<>|")?)
}

/// A text, and what a database has after another text and it.
const LATER: &[u8] = b"text @string{ A = \"x  y\" } @STRING(b = a # 1 # {{Z}\" })
@preamble{\" p \" # jan}@preamble{Q # \"\n\"}
@comment{ @Misc{ Key , Title = {  a {\"} \t b } # zz # \"c{\"}d\", title = unknown, year=1999 , } }
@misc(k} )@string{A = a # \"!\"}";

const BOTH: &[u8] =
    b"#jan=January|#a=x y!|#b=x y1{Z}\" |@a One|@misc Key|.title=a {\"} b c{\"}d|.year=1999|@misc k}|< p January >|!Warning--undefined macro q!|!Warning--undefined macro zz!|!Warning--second field title in Key!|!Warning--undefined macro unknown!|";

#[test]
fn texts_add_to_what_was_read_before(rt: HostRuntime) -> Result<(), Fail> {
    let before = before(rt.alloc())?;
    let first = read(rt.alloc(), b"@A{One,}", before)?;
    Ok(expect_read(&rt, rt.alloc(), first, LATER, BOTH)?)
}

/// Expects of the text of each row what the row tells.
fn expect(rt: &impl Abort, alloc: Global, style: &Style, rows: &str) -> Result<(), NoMemory> {
    for row in rows.lines() {
        if let Some((written, wanted)) = row.split_once(" -> ") {
            let source = with_line_ends(alloc, written, b'|')?;
            expect_opened(rt, alloc, style, source.as_slice(), wanted.as_bytes())?;
        }
    }
    Ok(())
}

/// Expects a text after a style's macros to be read so.
fn expect_opened(
    rt: &impl Abort,
    alloc: Global,
    style: &Style,
    source: &[u8],
    wanted: &[u8],
) -> Result<(), NoMemory> {
    let before = opening(alloc, style)?;
    expect_read(rt, alloc, before, source, wanted)
}

/// Expects a text to be read as this database or to have this fault.
fn expect_read(
    rt: &impl Abort,
    alloc: Global,
    before: Database,
    source: &[u8],
    wanted: &[u8],
) -> Result<(), NoMemory> {
    assert!(rt; source.len() <= DATA_BYTES);
    match read(alloc, source, before) {
        Ok(database) => expect_shown(rt, alloc, &database, wanted),
        Err(fault) => expect_fault(rt, alloc, fault, wanted),
    }
}

/// Expects a fault to have this name and place.
fn expect_fault(
    rt: &impl Abort,
    alloc: Global,
    fault: BibFault,
    wanted: &[u8],
) -> Result<(), NoMemory> {
    let (name, Place { line, column }) = (fault.name(), fault.place());
    let told = format!(in alloc; "{name} {line}:{column}")?;
    assert_eq!(rt; told.as_bytes(), wanted);
    Ok(())
}

/// Expects a database to be these lines.
fn expect_shown(
    rt: &impl Abort,
    alloc: Global,
    database: &Database,
    wanted: &[u8],
) -> Result<(), NoMemory> {
    let lines = shown(alloc, database)?;
    assert_eq!(rt; lines.as_slice(), wanted);
    Ok(())
}

/// Appends a line of a mark, a text, a second mark and a second text.
fn push_line(
    shown: &mut Vec<u8>,
    mark: u8,
    first: &[u8],
    between: u8,
    second: &[u8],
) -> Result<(), NoMemory> {
    shown.push(mark)?;
    shown.extend_from_slice(first)?;
    shown.push(between)?;
    shown.extend_from_slice(second)?;
    shown.push(b'|')?;
    Ok(())
}

/// Appends an entry and its fields as lines.
fn push_entry(shown: &mut Vec<u8>, entry: &RawEntry<'_>) -> Result<(), NoMemory> {
    push_line(shown, b'@', entry.entry_type(), b' ', entry.key())?;
    for at in 0..entry.len() {
        if let Some(field) = entry.field(at) {
            push_line(shown, b'.', field.name, b'=', field.value)?;
        }
    }
    Ok(())
}

/// A database as lines.
fn shown(alloc: Global, database: &Database) -> Result<Vec<u8>, NoMemory> {
    let mut shown = Vec::new(alloc);
    for one in database.macros.as_slice() {
        push_line(
            &mut shown,
            b'#',
            one.name.as_slice(),
            b'=',
            one.value.as_slice(),
        )?;
    }
    for at in 0..database.entries.len() {
        if let Some(entry) = database.entries.get(at) {
            push_entry(&mut shown, &entry)?;
        }
    }
    push_line(&mut shown, b'<', database.preamble.as_slice(), b'>', b"")?;
    for one in database.warnings.as_slice() {
        push_line(&mut shown, b'!', one.as_slice(), b'!', b"")?;
    }
    Ok(shown)
}
