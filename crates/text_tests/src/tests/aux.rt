//! Small `.aux` files, worked out by hand.

use aux_read::aux::{Aux, AuxItem};
use aux_read::fault::AuxFault;
use aux_read::read::read;
use bv_base::limits::DATA_BYTES;
use bv_base::memory::NoMemory;
use bv_base::place::Place;
use std::alloc::Global;
use std::process::Abort;
use std::test::Fail;

/// The faults, each at the first line.
const BAD: AuxFault = AuxFault::BadCommand(Place::START);

const STYLE: AuxFault = AuxFault::SecondStyle(Place::START);

const DATA: AuxFault = AuxFault::SecondData(Place::START);

/// Files, their fault, and the line at which it stands.
static FAULTS: [(&[u8], AuxFault, u32); 34] = [
    // A line without its brace.
    (b"\\citation{a", BAD, 1),
    (b"\\citation{a\n}", BAD, 1),
    (b"\\citation{a\r\n", BAD, 1),
    (b"\n\\bibdata{a", BAD, 2),
    (b"\\bibstyle{\n", BAD, 1),
    (b"a\n\\@input{", BAD, 2),
    // An empty item, or one with white space within.
    (b"\n\\citation{}", BAD, 2),
    (b"\\citation{ \t}", BAD, 1),
    (b"\\citation{a,,b}", BAD, 1),
    (b"\\citation{,a}", BAD, 1),
    (b"\\citation{a,}", BAD, 1),
    (b"\\citation{*,}", BAD, 1),
    (b"\\citation{a,b c}", BAD, 1),
    (b"\\citation{a\tb}", BAD, 1),
    (b"\\citation{* *}", BAD, 1),
    (b"\\bibdata{}", BAD, 1),
    (b"\\bibdata{a, }", BAD, 1),
    (b"\\bibdata{a b}", BAD, 1),
    (b"\\bibstyle{}", BAD, 1),
    (b"\\bibstyle{a, b}", BAD, 1),
    (b"\\@input{ }", BAD, 1),
    (b"x\n\n\\@input{a b}", BAD, 3),
    // A name of a file that isn't UTF-8.
    (b"\\bibdata{a,\xff}", BAD, 1),
    (b"\\bibstyle{\xff}", BAD, 1),
    (b"\\@input{\xc3}", BAD, 1),
    // A second style, or second databases.
    (b"\\bibstyle{a}\n\\bibstyle{a}", STYLE, 2),
    (b"\\bibdata{a}\n\n\\bibdata{a}", DATA, 3),
    (
        b"\\bibdata{a}\n\\bibstyle{b}\n\\bibdata{c}\n\\bibstyle{d}",
        DATA,
        3,
    ),
    (
        b"\\bibdata{a}\n\\bibstyle{b}\n\\bibstyle{c}\n\\bibdata{d}",
        STYLE,
        3,
    ),
    // The first line counts, and on one line what is wrong with it alone.
    (b"\\bibdata{a}\n\\bibdata{b}\n\\citation{}", DATA, 2),
    (b"\\bibstyle{a}\n\\citation{}\n\\bibstyle{b}", BAD, 2),
    (b"\\bibdata{a}\n\\bibdata{}", BAD, 2),
    (b"\\bibstyle{a}\n\\bibstyle{b", BAD, 2),
    (b"\\bibstyle{a}\n\\bibstyle{b c}\n\\bibstyle{d}", BAD, 2),
];

#[test]
fn the_first_line_at_fault_is_answered(rt: HostRuntime) -> Result<(), Fail> {
    expect_faults(&rt, rt.alloc(), &FAULTS);
    Ok(())
}

/// Expects faults at the starts of these lines.
fn expect_faults(rt: &impl Abort, alloc: Global, rows: &[(&[u8], AuxFault, u32)]) {
    for (source, fault, line) in rows {
        assert!(rt; source.len() <= DATA_BYTES);
        let want = moved(
            *fault,
            Place {
                line: *line,
                column: 1,
            },
        );
        assert!(rt; read(alloc, source).err() == Some(want));
    }
}

/// A fault of the same kind at a place.
fn moved(fault: AuxFault, place: Place) -> AuxFault {
    match fault {
        AuxFault::BadCommand(_) => AuxFault::BadCommand(place),
        AuxFault::SecondStyle(_) => AuxFault::SecondStyle(place),
        AuxFault::SecondData(_) => AuxFault::SecondData(place),
        AuxFault::NoMemory => AuxFault::NoMemory,
    }
}

/// Files, and what is read of them: a line for each request in order (`c` and a key, `*`, or `i`, a file and the number
/// of its line), then `s`, the style and the number of its line, and `d`, the databases and the number of theirs.
static READ: [(&[u8], &[u8]); 17] = [
    (b"", b"s 1\nd 1\n"),
    (
        b"x\\citation{a}\n \\citation{a}\n%\\citation{a}\n\\citation {a}\n",
        b"s 1\nd 1\n",
    ),
    (
        b"\\Citation{a}\n\\citations{a}\n\\bibcite{a}{1}\n\\relax",
        b"s 1\nd 1\n",
    ),
    (b"\\citation{a}\\citation{b} c} \xff", b"c a\ns 1\nd 1\n"),
    (
        b"\\citation{a}\n\\citation{A}\r\n\\citation{a}",
        b"c a\nc A\nc a\ns 1\nd 1\n",
    ),
    (
        b"\\citation{ a , b:c/d ,\t{e\"%#&~\\ }",
        b"c a\nc b:c/d\nc {e\"%#&~\\\ns 1\nd 1\n",
    ),
    (
        b"\\citation{\xc3\xa9,\xff}",
        b"c \xc3\xa9\nc \xff\ns 1\nd 1\n",
    ),
    (b"\\citation{*}\n\\citation{ * }", b"*\n*\ns 1\nd 1\n"),
    (b"\\citation{a,*,**}", b"c a\n*\nc **\ns 1\nd 1\n"),
    (
        b"\\@input{b.aux}\n\\citation{a}\n\\@input{ c } x}",
        b"i b.aux 1\nc a\ni c 3\ns 1\nd 1\n",
    ),
    (b"\n\n\\@input{*,b.aux,}", b"i *,b.aux, 3\ns 1\nd 1\n"),
    (b"\n\\bibstyle{ plain }", b"s plain 2\nd 1\n"),
    (b"\\bibstyle{a,b{c}\r\n", b"s a,b{c 1\nd 1\n"),
    (b"\\bibstyle{*}\n\\bibdata{*}", b"s * 1\nd * 2\n"),
    (b"\r\n\\bibdata{a, b.bib,a}", b"s 1\nd a b.bib a 2\n"),
    (
        b"\\bibdata{d}\n\\citation{a}\n\\bibstyle{s}",
        b"c a\ns s 3\nd d 1\n",
    ),
    (
        b"\\bibdata{\xc3\xa9}\n\\bibstyle{\xc3\xa9}\n\\@input{\xc3\xa9}",
        b"i \xc3\xa9 3\ns \xc3\xa9 2\nd \xc3\xa9 1\n",
    ),
];

#[test]
fn requests_come_in_their_order(rt: HostRuntime) -> Result<(), Fail> {
    expect_read(&rt, rt.alloc(), &READ)?;
    Ok(())
}

/// Expects files to be read so.
fn expect_read(rt: &impl Abort, alloc: Global, rows: &[(&[u8], &[u8])]) -> Result<(), Fail> {
    for (source, want) in rows {
        assert!(rt; source.len() <= DATA_BYTES);
        let aux = read(alloc, source)?;
        assert!(rt; shown(alloc, &aux)?.as_slice() == *want);
    }
    Ok(())
}

/// What was read, as lines.
fn shown(alloc: Global, aux: &Aux) -> Result<Vec<u8>, NoMemory> {
    let mut shown = Vec::new(alloc);
    for item in aux.items.as_slice() {
        push_item(alloc, &mut shown, item)?;
    }
    shown.push(b's')?;
    if let Some(style) = &aux.style {
        push_word(&mut shown, style.as_slice())?;
    }
    push_line_number(alloc, &mut shown, aux.style_place)?;
    shown.push(b'd')?;
    for database in aux.databases.as_slice() {
        push_word(&mut shown, database.as_slice())?;
    }
    push_line_number(alloc, &mut shown, aux.data_place)?;
    Ok(shown)
}

/// Appends a request as a line.
fn push_item(alloc: Global, shown: &mut Vec<u8>, item: &AuxItem) -> Result<(), NoMemory> {
    match item {
        AuxItem::Cite(key) => {
            shown.push(b'c')?;
            push_word(shown, key.as_slice())?;
            shown.push(b'\n')?;
        }
        AuxItem::All => shown.extend_from_slice(b"*\n")?,
        AuxItem::Input(name, place) => {
            shown.push(b'i')?;
            push_word(shown, name.as_slice())?;
            push_line_number(alloc, shown, *place)?;
        }
    }
    Ok(())
}

/// Appends a space and a word.
fn push_word(shown: &mut Vec<u8>, word: &[u8]) -> Result<(), NoMemory> {
    shown.push(b' ')?;
    shown.extend_from_slice(word)?;
    Ok(())
}

/// Appends a space, the number of a place's line, and a line end. The place is at the start of its line.
fn push_line_number(alloc: Global, shown: &mut Vec<u8>, place: Place) -> Result<(), NoMemory> {
    let Place { line, column } = place;
    let number = if column == 1 { line } else { 0 };
    let digits = format!(in alloc; " {number}\n")?.into_bytes();
    shown.extend_from_slice(digits.as_slice())?;
    Ok(())
}
