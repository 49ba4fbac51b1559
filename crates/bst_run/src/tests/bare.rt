//! Styles that want no hint, under the default condition.

use crate::tests::found::{Found, compare_found};
use std::test::Fail;

#[test]
fn styles_without_hints_have_a_bare_certificate(rt: HostRuntime) -> Result<(), Fail> {
    compare_found(&rt, rt.alloc(), &BARE)
}

/// Styles that want no hint: the condition is the default one.
static BARE: [Found; 12] = [
    found!("", "" => ""),
    found!("ENTRY{}{}{} FUNCTION{f}{\"a\" \"b\" * write$ newline$} READ EXECUTE{f}", "" => ""),
    found!("ENTRY{title}{}{} FUNCTION{f}{title empty$ 'skip$ {title write$} if$} READ ITERATE{f}", "" => ""),
    found!("ENTRY{title}{}{} FUNCTION{f}{title duplicate$ missing$ 'pop$ 'write$ if$} READ ITERATE{f}", "" => ""),
    // Names of fields alone, by their ids, and types that are defined before READ alone, by their bytes.
    found!("ENTRY{editor author title}{}{} FUNCTION{misc}{} FUNCTION{article}{} FUNCTION{output}{} READ FUNCTION{book}{}", "names editor 1000\nnames author 1000\ntype article\ntype misc\n" => ""),
    found!("ENTRY{}{}{} FUNCTION{author}{} READ", "" => ""),
    found!("FUNCTION{misc}{}", "" => ""),
    // What no type enters isn't walked.
    found!("ENTRY{}{}{} FUNCTION{output}{write$ newline$} FUNCTION{misc}{\"x\" output} READ ITERATE{call.type$}", "type misc\n" => ""),
    found!("FUNCTION{f}{while$}", "" => ""),
    // A text of one byte is known.
    found!("ENTRY{}{}{} FUNCTION{f}{\"a\" chr.to.int$ pop$} READ EXECUTE{f}", "" => ""),
    // Both cases of an integer that isn't known are kept, and none of one that is.
    found!("ENTRY{}{}{} INTEGERS{n} FUNCTION{f}{n 'skip$ 'skip$ if$} READ ITERATE{f}", "" => "command 4\nhints\nkeep\nkeep\nend\n"),
    found!("ENTRY{}{}{} INTEGERS{n} FUNCTION{f}{n {pop$} 'skip$ if$} READ EXECUTE{f}", "" => ""),
];
