//! Conditions that are given for a certificate that is to be found.

use crate::tests::check::{BOTH, JOINS, NO_STYLE};
use crate::tests::{Example, Failing, File, compare};
use bv_base::status::Status;
use std::test::Fail;

/// What is answered for a style under this condition.
macro_rules! given {
    ($style:expr, $cond:expr => $status:ident, $out:expr, $err:expr) => {
        told!(["infer", "a.bst", "c.cond"], [file_of!("a.bst", $style), file_of!("c.cond", $cond)] => $status, $out, $err)
    };
}

/// What is answered for a style where this condition is kept: it, and these lines behind it.
macro_rules! kept {
    ($style:expr, $condition:literal => $lines:literal) => {
        given!($style, concat!($condition, "end\n") => Done, cert!($condition, $lines), "")
    };
}

/// Assigns a field to a global variable, in a style for which kinds aren't enough.
const ASSIGNS: &str =
    "ENTRY{t}{}{} STRINGS{s} FUNCTION{g}{+} FUNCTION{f}{t empty$ 'skip$ {t 's :=} if$} READ ITERATE{f}";

/// Assigns a key to a variable of the entry.
const KEEPS: &str = "ENTRY{}{}{m} FUNCTION{g}{+} FUNCTION{f}{cite$ 'm :=} READ ITERATE{f}";

/// Assigns the preamble to a global variable.
const HOLDS: &str =
    "ENTRY{}{}{} STRINGS{s} FUNCTION{g}{+} FUNCTION{f}{preamble$ 's :=} READ EXECUTE{f}";

/// Takes a value from an empty stack at each entry.
const TAKES: &str =
    "ENTRY{}{}{} INTEGERS{n} FUNCTION{g}{+} FUNCTION{f}{n {pop$} {pop$} if$} READ ITERATE{f}";

const WRITES: &str = "ENTRY{t}{}{} FUNCTION{f}{t write$} READ ITERATE{f}";

const NAMES: &str =
    "ENTRY{t}{}{} FUNCTION{f}{t empty$ 'skip$ {t #1 \"{ll}\" format.name$ write$} if$} READ ITERATE{f}";

const TYPES: &str = "ENTRY{}{}{} FUNCTION{misc}{pop$} READ ITERATE{call.type$}";

#[test]
fn a_condition_that_is_given_is_kept(rt: HostRuntime) -> Result<(), Fail> {
    compare(&rt, rt.alloc(), &GIVEN)
}

/// A condition that is given stands in the certificate as it is, and each of its lines is used.
static GIVEN: [Example; 15] = [
    kept!("ENTRY{t u}{}{} FUNCTION{misc}{} READ", "entries 9\nkey 8\npreamble 7\nlength 6\nnames t 5\nnonblank u\ntype misc\nothertype no\n" => ""),
    kept!(WRITES, "entries 9\nkey 9\npreamble 9\nlength 9\nnonblank t\nothertype yes\n" => ""),
    given!(WRITES, "entries 9\nkey 9\npreamble 9\nlength 9\nothertype yes\nend\n" => Unknown, "", "unknown 1:28 WrongKind 1\n"),
    kept!(NAMES, "entries 9\nkey 9\npreamble 9\nlength 9\nnames t 1\nothertype yes\n" => "command 3\nhints\nstep 1 1:e8\nstep 1 1:f8 1:c4\nend\n"),
    given!(NAMES, "entries 9\nkey 9\npreamble 9\nlength 9\nothertype yes\nend\n" => Unknown, "", "unknown 1:55 BadName 3\n"),
    kept!(ASSIGNS, "entries 9\nkey 9\npreamble 9\nlength 20000\nothertype yes\n" => "command 5\nhints\nstep 1 1:r2\nend\n"),
    kept!(ASSIGNS, "entries 9\nkey 9\npreamble 9\nlength 20001\nothertype yes\n" => "command 5\nhints\nplain\nend\n"),
    kept!(KEEPS, "entries 9\nkey 250\npreamble 9\nlength 9\nothertype yes\n" => "command 4\nhints\nstep 1 1:r3\nend\n"),
    kept!(KEEPS, "entries 9\nkey 251\npreamble 9\nlength 9\nothertype yes\n" => "command 4\nhints\nplain\nend\n"),
    kept!(HOLDS, "entries 9\nkey 9\npreamble 20000\nlength 9\nothertype yes\n" => "command 5\nhints\nstep 1 1:r1\nend\n"),
    kept!(HOLDS, "entries 9\nkey 9\npreamble 20001\nlength 9\nothertype yes\n" => "command 5\nhints\nplain\nend\n"),
    // Where no entry is let in nothing can come about at one.
    kept!(TAKES, "entries 0\nkey 9\npreamble 9\nlength 9\nothertype yes\n" => "command 5\nhints\ndrop 1 1:p 1:q 1:z\ndrop 1 1:p 1:q 1:z\nend\n"),
    // Before the first visit the integer is 0, and the second block is entered.
    given!(TAKES, "entries 1\nkey 9\npreamble 9\nlength 9\nothertype yes\nend\n" => Unknown, "", "unknown 1:62 EmptyPop 1\n"),
    kept!(TYPES, "entries 9\nkey 9\npreamble 9\nlength 9\nothertype no\n" => ""),
    given!(TYPES, "entries 9\nkey 9\npreamble 9\nlength 9\ntype misc\nothertype no\nend\n" => Unknown, "", "unknown 1:28 EmptyPop 1\n"),
];

#[test]
fn a_condition_is_read_by_its_grammar(rt: HostRuntime) -> Result<(), Fail> {
    compare(&rt, rt.alloc(), &BAD)?;
    compare(&rt, rt.alloc(), &FAILING)
}

/// What is no condition of the style, in the words of a certificate that is none.
static BAD: [Example; 8] = [
    given!(JOINS, "" => BadCert, "", "bad certificate 1:1 Syntax\n"),
    given!(JOINS, "bstcert 1\nentries 9\nkey 9\npreamble 9\nlength 9\nothertype yes\nend\ndone\n" => BadCert, "", "bad certificate 1:1 Syntax\n"),
    given!(JOINS, "entries 9\nkey 9\npreamble 9\nlength 9\nothertype yes\nend\ndone\n" => BadCert, "", "bad certificate 7:1 Syntax\n"),
    given!(JOINS, "entries 09\nkey 9\npreamble 9\nlength 9\nothertype yes\nend\n" => BadCert, "", "bad certificate 1:9 NotCanonical\n"),
    given!(JOINS, "entries 1000001\nkey 9\npreamble 9\nlength 9\nothertype yes\nend\n" => BadCert, "", "bad certificate 1:9 OutOfRange\n"),
    given!(JOINS, "entries 9\nkey 9\npreamble 9\nlength 9\nnames t 3\nothertype yes\nend\n" => BadCert, "", "bad certificate 5:7 UnknownName\n"),
    given!(JOINS, "entries 9\nkey 9\npreamble 9\nlength 9\ntype misc\ntype book\nothertype yes\nend\n" => BadCert, "", "bad certificate 6:6 NotCanonical\n"),
    // The style's grammar is decided before the condition's.
    given!("FOO", "" => BadStyle, "", "bad style 1:1 UnknownCommand\n"),
];

/// Files that aren't there, that can't be read, and sinks that fail. The second call reads the style, the third ends it, the fourth
/// begins the condition, and the fifth reads it.
static FAILING: [Example; 9] = [
    answered!(["infer", "a.bst"], &[], Failing::Nothing => NoFile, "", "no file a.bst\n"),
    answered!(["infer", "a.bst", "c.cond"], &[], Failing::Nothing => NoFile, "", "no file a.bst\n"),
    answered!(["infer", "a.bst", "c.cond"], BOTH, Failing::Nothing => NoFile, "", "no file c.cond\n"),
    answered!(["infer", "a.bst"], BOTH, Failing::Files(1) => ReadFailed, "", "read failed a.bst\n"),
    answered!(["infer", "a.bst"], BOTH, Failing::Files(3) => ReadFailed, "", "read failed a.bst\n"),
    answered!(["infer", "a.bst", "b.cert"], BOTH, Failing::Files(4) => ReadFailed, "", "read failed b.cert\n"),
    answered!(["infer", "a.bst", "b.cert"], BOTH, Failing::Files(5) => ReadFailed, "", "read failed b.cert\n"),
    answered!(["infer", "a.bst"], BOTH, Failing::Out => WriteFailed, "", ""),
    answered!(["infer", "a.bst"], NO_STYLE, Failing::Err => WriteFailed, "", ""),
];
