//! A certificate with every kind of line. A row changes one line of it, and says what comes of that: it is the line's number, `: `,
//! what stands there instead, ` -> ` and what comes of it. `/` is a line end, and what stands between `*` and a number stands
//! there so many times. Behind `%` stands a heading.

ghost use Rattle.name_table.specs.Sound.{IsSound};

use bst_parse::parse::parse;
use bv_base::limits::STYLE_BYTES;
use bv_base::memory::NoMemory;
use bv_base::place::Place;
use cert_format::fault::CertFault;
use cert_format::print::print;
use cert_format::read::read;
use name_table::style::Style;
use std::alloc::Global;
use std::process::Abort;
use std::test::Fail;

/// The style.
const STYLE: &str =
    "ENTRY{author title}{ie}{se} INTEGERS{n} STRINGS{s} FUNCTION{g}{pop$} FUNCTION{f}{\"a\" g {n} pop$} READ EXECUTE{f}";

/// The lines of the certificate, the first of which has the number 1.
static LINES: [&str; 47] = [
    "bstcert 1",
    "entries 9",
    "key 9",
    "preamble 9",
    "length 9",
    "names author 3",
    "nonblank author",
    "nonblank title",
    "type misc",
    "othertype yes",
    "end",
    "summary g",
    "entry",
    "whole",
    "writes n",
    "writes s",
    "pre",
    "stack 0",
    "var n 1",
    "field title 2",
    "is 0 str",
    "int 1 5",
    "text 0 6162",
    "call 0 f",
    "block 0 0",
    "row 4 -1 length:0 2 pos",
    "post",
    "stack 3 0",
    "hints",
    "use 0",
    "step 1 2:r0 1:v3 1:p",
    "case 0",
    "end",
    "loop g #0",
    "case",
    "stack 0",
    "exit",
    "hints",
    "end",
    "command 6",
    "after",
    "visit",
    "row 0 1 pos",
    "keeps",
    "hints",
    "end",
    "done",
];

/// Lines of the condition.
const CONDITION: &str = "0:  -> read
1: bstcert 2 -> 1:9 OutOfRange
1: bstcert 01 -> 1:9 NotCanonical
1: bstcer 1 -> 1:1 Syntax
1: bstcert -> 1:8 Syntax
2: entries 00 -> 2:9 NotCanonical
2: entries  0 -> 2:9 Syntax
2: entries 1000000 -> read
2: entries 1000001 -> 2:9 OutOfRange
2: entries 9  -> 2:11 Syntax
2: entries 9 9 -> 2:11 Syntax
2: entries -9 -> 2:9 Syntax
3: key 1073741824 -> read
3: key 1073741825 -> 3:5 OutOfRange
4: length 9 -> 4:1 Syntax
5:  -> 5:1 Syntax
6: names Author 3 -> 6:7 UnknownName
6: names n 3 -> 6:7 UnknownName
6: names author -> 6:13 Syntax
6: names author 03 -> 6:14 NotCanonical
7: nonblank n -> 7:10 UnknownName
8: nonblank author -> 8:10 NotCanonical
8: names title 1 -> 8:1 Syntax
9: type  -> 9:6 Syntax
9: type a\tb -> 9:6 Syntax
10: othertype maybe -> 10:11 Syntax
10: type misc -> 10:6 NotCanonical
11: ends -> 11:1 Syntax
11: end end -> 11:5 Syntax
47: done done -> 47:6 Syntax
47: don -> 47:1 Syntax
1: bstcert 1 1 -> 1:11 Syntax
3: key -> 3:4 Syntax
3: key 09 -> 3:5 NotCanonical
4: preamble 1073741825 -> 4:10 OutOfRange
4: preamble x -> 4:10 Syntax
4: preamble 00 -> 4:10 NotCanonical
5: length 1073741825 -> 5:8 OutOfRange
5: length 9 9 -> 5:10 Syntax
5: length 010 -> 5:8 NotCanonical
6: names author 1073741825 -> 6:14 OutOfRange
7: names author 4 -> 7:7 NotCanonical
7: nonblank -> 7:9 Syntax
7: nonblank Author -> 7:10 UnknownName
9: type misc misc -> 9:11 Syntax
10: othertype -> 10:10 Syntax";

/// Lines of pieces.
const PIECES: &str = "12: summary h -> 12:9 UnknownName
12: summary #0 -> read
12: summary #1 -> 12:9 OutOfRange
12: summary #00 -> 12:9 NotCanonical
12: summary # -> 12:9 Syntax
13: whole -> 14:1 Syntax
15: writes author -> 15:8 UnknownName
15: writes ie -> read
15: writes s -> 16:8 NotCanonical
17: post -> 17:1 Syntax
18: stack -> 18:6 Syntax
18: stack 1 -> 18:7 NotCanonical
18: stack 00 -> 18:7 NotCanonical
18: stack -0 -> 18:7 Syntax
18: stack* 0*64 -> read
18: stack* 0*65 -> 18:135 TooMany
19: var n 3 -> 19:7 NotCanonical
19: var title 1 -> 19:5 UnknownName
20: field n 2 -> 20:7 UnknownName
20: stack 0 -> 20:1 Syntax
21: is 3 str -> 21:4 OutOfRange
21: is 0 any -> 21:6 Syntax
22: int 1 2147483648 -> 22:7 OutOfRange
22: int 1 -2147483648 -> read
22: int 1 -0 -> 22:7 NotCanonical
22: int 1 +5 -> 22:7 Syntax
23: text 0 - -> read
23: text 0 6A -> 23:8 Syntax
23: text 0 616 -> 23:8 Syntax
24: call 0 h -> 24:8 UnknownName
25: block 0 1 -> 25:9 OutOfRange
26: row 1099511627777 -> 26:5 OutOfRange
26: row 4 0 length:0 -> 26:7 NotCanonical
26: row 4 1 -> 26:8 Syntax
26: row 4 1 value:9 -> 26:9 OutOfRange
26: row 4 1 names:0 1 length:0 -> 26:19 NotCanonical
28: stack 4 -> 28:7 NotCanonical
28: is 2 opt -> read
13: entry 0 -> 13:7 Syntax
14: whole whole -> 14:7 Syntax
15: writes -> 15:7 Syntax
15: writes n s -> 15:10 Syntax
17: pre 0 -> 17:5 Syntax
19: var n -> 19:6 Syntax
19: var n 01 -> 19:7 NotCanonical
20: field title 4 -> 20:13 NotCanonical
20: field title -> 20:12 Syntax
20: var n 2 -> 20:5 NotCanonical
21: field author 3 -> 21:7 NotCanonical
21: is 00 str -> 21:4 NotCanonical
22: int 9 5 -> 22:5 OutOfRange
22: int 1 -> 22:6 Syntax
23: text 9 - -> 23:6 OutOfRange
24: call 9 f -> 24:6 OutOfRange
24: call 0 skip$ -> read
24: call 0 -> 24:7 Syntax
25: block 9 0 -> 25:7 OutOfRange
25: block 0 00 -> 25:9 NotCanonical
25: block 0 #0 -> 25:9 Syntax
25: blank 0 -> read
25: blank 3 -> 25:7 OutOfRange
25: blank -> 25:6 Syntax
25: nonblank 1 -> read
25: nonblank 01 -> 25:10 NotCanonical
25: nonblank 0 0 -> 25:12 Syntax
25: wellformed 2 -> read
25: wellformed 3 -> 25:12 OutOfRange
25: wellformed x -> 25:12 Syntax
% Four facts stand before these, so that there are 64 and 65.
25: blank 0*/blank 0*59 -> read
25: blank 0*/blank 0*60 -> 85:1 TooMany
26: row -1099511627776 -> read
26: row -> 26:4 Syntax
26: row 04 -> 26:5 NotCanonical
26: row 4 1099511627777 length:0 -> 26:7 OutOfRange
26: row 4 1 width:0 -> 26:9 Syntax
26: row 4 1 pos 1 pos -> 26:15 NotCanonical
26: row 4 1 count 1 pos -> 26:17 NotCanonical
26: row 0*/row 0*63 -> read
26: row 0*/row 0*64 -> 90:1 TooMany
27: post post -> 27:6 Syntax
% With the pre there are 64 pieces and 65.
27: post*/post*62 -> read
27: post*/post*63 -> 90:1 TooMany
28: row 0 1 value:3 -> 28:9 OutOfRange
28: row 0 1 value:2 -> read";

/// Lines of hints, loops and commands.
const HINTS: &str = "30: use 1073741825 -> 30:5 OutOfRange
30: used 0 -> 30:1 Syntax
30: plain 0 -> 30:7 Syntax
31: step 0 2:r0 -> 31:6 OutOfRange
31: step 1 0:r0 -> 31:8 OutOfRange
31: step 4294967295 4294967295:r4294967295 -> read
31: step 1 1:r4294967296 -> 31:8 OutOfRange
31: step 1 1:r00 -> 31:8 NotCanonical
31: step 1 01:r0 -> 31:8 NotCanonical
31: step 1 1:x0 -> 31:8 Syntax
31: step 1 1:p0 -> 31:8 Syntax
31: step 1 1:r -> 31:8 Syntax
31: step 1* 1:p*64 -> read
31: step 1* 1:p*65 -> 31:264 TooMany
31: drop -> 31:5 Syntax
34: loop g -> 34:7 Syntax
34: summary g -> 35:1 Syntax
37: case -> read
40: command 7 -> 40:9 OutOfRange
40: loop g #0 -> 41:1 Syntax
42: row 0 1 pos -> 42:9 OutOfRange
43: var ie 0 -> read
44: visit -> 44:1 Syntax
46: hints -> 46:1 Syntax
29: hint -> 29:1 Syntax
30: use 00 -> 30:5 NotCanonical
30: use -> 30:4 Syntax
30: walk -> read
30: walk 0 -> 30:6 Syntax
30: plain -> read
30: keep -> read
30: keep 0 -> 30:6 Syntax
30: loop 1073741825 -> 30:6 OutOfRange
30: loop 1073741824 -> read
30: case -1 -> 30:6 Syntax
30: case 1073741825 -> 30:6 OutOfRange
30: case 01 -> 30:6 NotCanonical
31: step 4294967296 -> 31:6 OutOfRange
31: step 1 4294967296:p -> 31:8 OutOfRange
31: step 1 1 -> 31:8 Syntax
31: drop 1 1:z 1:o -> read
31: drop 0 -> 31:6 OutOfRange
31: drop 01 -> 31:6 NotCanonical
33: ends -> 33:1 Syntax
34: loop h #0 -> 34:6 UnknownName
34: loop g #1 -> 34:8 OutOfRange
34: loop #00 g -> 34:6 NotCanonical
% The loop is at no entry.
35: writes ie -> 35:8 OutOfRange
35: exit -> 35:1 Syntax
36: var ie 0 -> 36:5 OutOfRange
36: var se 0 -> 36:5 OutOfRange
36: field title 0 -> 36:7 OutOfRange
36: row 0 1 pos -> 36:9 OutOfRange
36: row 0 1 count -> read
% 32 terms and 33.
36: stack 0 1 2 3 4 5 6 7 8 9 10/row 0 1 value:0 1 value:1 1 value:2 1 value:3 1 value:4 1 value:5 1 value:6 1 value:7 1 value:8 1 value:9 1 value:10 1 length:0 1 length:1 1 length:2 1 length:3 1 length:4 1 length:5 1 length:6 1 length:7 1 length:8 1 length:9 1 length:10 1 names:0 1 names:1 1 names:2 1 names:3 1 names:4 1 names:5 1 names:6 1 names:7 1 names:8 1 names:9 -> read
36: stack 0 1 2 3 4 5 6 7 8 9 10/row 0 1 value:0 1 value:1 1 value:2 1 value:3 1 value:4 1 value:5 1 value:6 1 value:7 1 value:8 1 value:9 1 value:10 1 length:0 1 length:1 1 length:2 1 length:3 1 length:4 1 length:5 1 length:6 1 length:7 1 length:8 1 length:9 1 length:10 1 names:0 1 names:1 1 names:2 1 names:3 1 names:4 1 names:5 1 names:6 1 names:7 1 names:8 1 names:9 1 names:10 -> 37:340 TooMany
37: exit 0 -> 37:6 Syntax
% With the case before there are 64 pieces and 65.
37: case*/case*62 -> read
37: exit*/exit*63 -> 100:1 TooMany
40: command -> 40:8 Syntax
40: command 06 -> 40:9 NotCanonical
41: after 0 -> 41:7 Syntax
42: keeps -> 43:9 OutOfRange
43: field title 0 -> read
43: var author 0 -> 43:5 UnknownName
% Behind the last command.
46: end/command 6/hints/end -> 47:9 NotCanonical
46: end/command 5/hints/end -> 47:9 NotCanonical
46: end/loop g g/case/hints/end -> 47:1 Syntax
47: done/done -> 48:1 Syntax";

#[test]
fn lines_of_a_condition(rt: HostRuntime) -> Result<(), Fail> {
    expect(&rt, rt.alloc(), CONDITION)
}

#[test]
fn lines_of_pieces(rt: HostRuntime) -> Result<(), Fail> {
    expect(&rt, rt.alloc(), PIECES)
}

#[test]
fn lines_of_hints_loops_and_commands(rt: HostRuntime) -> Result<(), Fail> {
    expect(&rt, rt.alloc(), HINTS)
}

/// Expects of each row what it says.
fn expect(rt: &impl Abort, alloc: Global, rows: &str) -> Result<(), Fail> {
    let Ok(style) = parse(alloc, STYLE.as_bytes()) else {
        return Err(Fail::new("the style"));
    };
    for row in rows.lines() {
        if !row.starts_with("%") {
            expect_row(rt, alloc, &style, row)?;
        }
    }
    Ok(())
}

/// Expects of a row what it says.
fn expect_row(rt: &impl Abort, alloc: Global, style: &Style, row: &str) -> Result<(), Fail>
    requires { IsSound style.now }
{
    let row = row_of(row)?;
    let source = changed(alloc, row)?;
    Ok(expect_told(rt, alloc, style, source.as_slice(), row.told)?)
}

/// A line that is changed: its text, and what stands behind that, so many times.
#[derive(Clone, Copy)]
struct Row<'a> {
    line: usize,
    text: &'a str,
    more: &'a str,
    times: usize,
    told: &'a str,
}

/// A row as it is written.
fn row_of(row: &str) -> Result<Row<'_>, Fail> {
    let (line, change) = halves(row, ": ");
    let (change, told) = halves(change, " -> ");
    let (text, repeated) = halves(change, "*");
    let (more, times) = halves(repeated, "*");
    Ok(Row {
        line: number(line)?,
        text,
        more,
        times: if times.is_empty() { 0 } else { number(times)? },
        told,
    })
}

/// What stands before this and after it. Where it isn't there, nothing is after it.
fn halves<'a>(text: &'a str, between: &str) -> (&'a str, &'a str) {
    text.split_once(between).unwrap_or((text, ""))
}

fn number(text: &str) -> Result<usize, Fail> {
    match text.parse::<usize>() {
        Ok(number) => Ok(number),
        Err(_) => Err(Fail::new("no number")),
    }
}

/// The certificate with the line of a row changed.
fn changed(alloc: Global, row: Row<'_>) -> Result<Vec<u8>, NoMemory> {
    let mut source = Vec::new(alloc);
    for (index, line) in LINES.iter().enumerate() {
        if index + 1 == row.line {
            put_row(&mut source, row)?;
        } else {
            put(&mut source, line)?;
        }
        source.push(b'\n')?;
    }
    Ok(source)
}

/// Appends the text of a row.
fn put_row(source: &mut Vec<u8>, row: Row<'_>) -> Result<(), NoMemory> {
    put(source, row.text)?;
    for _ in 0..row.times {
        put(source, row.more)?;
    }
    Ok(())
}

/// Appends a text with a line end for each `/`.
fn put(source: &mut Vec<u8>, text: &str) -> Result<(), NoMemory> {
    for b in text.as_bytes() {
        source.push(if *b == b'/' { b'\n' } else { *b })?;
    }
    Ok(())
}

/// Expects a text to be read, and printed as it is, or to have this fault.
fn expect_told(
    rt: &impl Abort,
    alloc: Global,
    style: &Style,
    source: &[u8],
    told: &str,
) -> Result<(), NoMemory>
    requires { IsSound style.now }
{
    assert!(rt; source.len() <= STYLE_BYTES);
    match read(alloc, source, style) {
        Ok(cert) => {
            assert_eq!(rt; told, "read");
            let printed = print(alloc, &cert, style)?;
            assert_eq!(rt; printed.as_slice(), source);
        }
        Err(fault) => expect_fault(rt, alloc, fault, told)?,
    }
    Ok(())
}

/// Expects a fault to be told so.
fn expect_fault(
    rt: &impl Abort,
    alloc: Global,
    fault: CertFault,
    told: &str,
) -> Result<(), NoMemory> {
    let (name, Place { line, column }) = (fault.name(), fault.place());
    let text = format!(in alloc; "{line}:{column} {name}")?;
    assert_eq!(rt; text.as_str(), told);
    Ok(())
}
