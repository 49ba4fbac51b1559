//! Styles whose loops and pieces are found, and such for which none are.

use crate::command::command;
use crate::tests::found::compare_accepted;
use crate::tests::owned;
use crate::tests::run::NAMES;
use bv_base::mem_files::MemFiles;
use bv_base::mem_sink::MemSink;
use bv_base::status::Status;
use std::alloc::Global;
use std::process::Abort;
use std::test::Fail;

macro_rules! sought {
    ($style:expr, $cond:expr => $status:ident) => {
        ($style, $cond, Status::$status)
    };
}

/// Writes a letter for each entry.
const LETTERS: &str = "INTEGERS{n} ENTRY{}{}{} FUNCTION{init}{\"a\" chr.to.int$ 'n :=}
FUNCTION{next}{n int.to.chr$ write$ n #1 + 'n :=}
READ EXECUTE{init} ITERATE{next}
";

/// Nine fields that may be missing, in a style for which kinds aren't enough.
const WIDE: &str =
    "ENTRY{a b c d e f g h i}{}{} FUNCTION{o}{duplicate$ missing$ 'pop$ 'write$ if$} FUNCTION{p}{a o b o c o d o e o f o g o h o i o #1 #1 + pop$} READ ITERATE{p}";

#[test]
fn loops_and_visits_are_found(rt: HostRuntime) -> Result<(), Fail> {
    for (style, cond, status) in &SOUGHT {
        compare_sought(&rt, rt.alloc(), style, cond, *status)?;
    }
    Ok(())
}

/// A style and a condition, and whether a certificate is found.
static SOUGHT: [(&str, &str, Status); 6] = [
    // A field that is never cut has the names that the condition allows, and one that may be cut any number.
    sought!(NAMES, "entries 10000\nkey 250\npreamble 20000\nlength 20000\nnames author 1000\ntype misc\nothertype yes\nend\n" => Done),
    sought!(NAMES, "entries 10000\nkey 250\npreamble 20000\nlength 30000\nnames author 1000\ntype misc\nothertype yes\nend\n" => Unknown),
    // The letters from `a` on end behind the 31st.
    sought!(LETTERS, "entries 31\nkey 9\npreamble 0\nlength 0\nothertype yes\nend\n" => Done),
    sought!(LETTERS, "entries 32\nkey 9\npreamble 0\nlength 0\nothertype yes\nend\n" => Unknown),
    // A loop that never turns.
    sought!("ENTRY{}{}{} FUNCTION{f}{{#0} 'skip$ while$} READ EXECUTE{f}", "entries 9\nkey 9\npreamble 9\nlength 9\nothertype yes\nend\n" => Done),
    sought!(WIDE, "entries 9\nkey 9\npreamble 9\nlength 9\nothertype yes\nend\n" => Unknown),
];

/// Asserts for a style and a condition whether a certificate is found, and that it is accepted.
fn compare_sought(
    rt: &impl Abort,
    alloc: Global,
    style: &str,
    cond: &str,
    status: Status,
) -> Result<(), Fail> {
    let mut files = MemFiles::new(alloc);
    files.add("a.bst", style.as_bytes())?;
    files.add("c.cond", cond.as_bytes())?;
    compare_answer(rt, alloc, &mut files, status)
}

/// Asserts what is found for the style and the condition in these files.
fn compare_answer(
    rt: &impl Abort,
    alloc: Global,
    files: &mut MemFiles,
    status: Status,
) -> Result<(), Fail> {
    let words = owned(alloc, &["infer", "a.bst", "c.cond"])?;
    let mut out = MemSink::new(alloc);
    let mut err = MemSink::new(alloc);
    let answered = command(alloc, words.as_slice(), files, &mut out, &mut err);
    assert_eq!(rt; answered, status);
    if status == Status::Done {
        files.add("b.cert", out.bytes())?;
        compare_accepted(rt, alloc, files)?;
    } else {
        assert_eq!(rt; out.bytes(), b"".as_slice());
    }
    Ok(())
}
