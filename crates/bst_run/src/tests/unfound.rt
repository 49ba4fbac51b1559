//! Styles for which no certificate is found.

use crate::tests::{Example, Failing, File, compare};
use bv_base::status::Status;
use std::test::Fail;

/// What is answered for a style under the default condition.
macro_rules! unfound {
    ($style:expr => $status:ident, $err:expr) => {
        told!(["infer", "a.bst"], [file_of!("a.bst", $style)] => $status, "", $err)
    };
}

#[test]
fn no_certificate_is_found_for_a_reason(rt: HostRuntime) -> Result<(), Fail> {
    compare(&rt, rt.alloc(), &UNFOUND)
}

/// Styles for which no certificate is found, with the place and the reason.
static UNFOUND: [Example; 26] = [
    unfound!("READ" => BadStyle, "bad style 1:1 ReadBeforeEntry\n"),
    // Operands and kinds.
    unfound!("ENTRY{title}{}{} FUNCTION{f}{title write$} READ ITERATE{f}" => Unknown, "unknown 1:36 WrongKind 1\n"),
    unfound!("ENTRY{}{}{} FUNCTION{f}{\"a\" *} READ EXECUTE{f}" => Unknown, "unknown 1:29 EmptyPop 2\n"),
    unfound!("ENTRY{}{}{} FUNCTION{f}{\"a\"} READ EXECUTE{f}" => Unknown, "unknown 1:35 StackLeft\n"),
    unfound!("ENTRY{}{}{} FUNCTION{misc}{pop$} READ ITERATE{call.type$}" => Unknown, "unknown 1:28 EmptyPop 1\n"),
    unfound!("ENTRY{title}{}{} FUNCTION{f}{title write$} READ EXECUTE{f}" => Unknown, "unknown 1:30 NoEntry\n"),
    unfound!("ENTRY{}{}{} FUNCTION{f}{#1 'skip$ :=} READ EXECUTE{f}" => Unknown, "unknown 1:35 NotVariable 1\n"),
    unfound!("ENTRY{}{}{} INTEGERS{n} FUNCTION{f}{\"a\" 'n :=} READ EXECUTE{f}" => Unknown, "unknown 1:44 WrongKind 2\n"),
    unfound!("ENTRY{}{}{} FUNCTION{f}{\"a\" \"x\" change.case$ pop$} READ EXECUTE{f}" => Unknown, "unknown 1:33 BadCase 1\n"),
    // Steps without a straight proof.
    unfound!("ENTRY{}{}{} FUNCTION{f}{#2147483647 #1 + pop$} READ EXECUTE{f}" => Unknown, "unknown 1:40 IntRange\n"),
    unfound!("ENTRY{}{}{} FUNCTION{f}{#128 int.to.chr$ pop$} READ EXECUTE{f}" => Unknown, "unknown 1:30 NotAscii 1\n"),
    unfound!("ENTRY{}{}{} FUNCTION{f}{#0 #1 - int.to.chr$ pop$} READ EXECUTE{f}" => Unknown, "unknown 1:33 NotAscii 1\n"),
    unfound!("ENTRY{}{}{} FUNCTION{f}{\"ab\" chr.to.int$ pop$} READ EXECUTE{f}" => Unknown, "unknown 1:30 NotOneByte 1\n"),
    unfound!("ENTRY{t}{}{} FUNCTION{f}{t missing$ 'skip$ {t #1 #1 substring$ chr.to.int$ pop$} if$} READ ITERATE{f}" => Unknown, "unknown 1:64 NotOneByte 1\n"),
    unfound!("ENTRY{}{}{} FUNCTION{f}{\"ab\" #9 text.prefix$ num.names$ pop$} READ EXECUTE{f}" => Unknown, "unknown 1:46 IntRange\n"),
    unfound!("ENTRY{}{}{} FUNCTION{f}{\"ab\" #9 text.prefix$ text.length$ pop$} READ EXECUTE{f}" => Unknown, "unknown 1:46 IntRange\n"),
    // No list of eight references shows a row with a coefficient of 1028.
    unfound!("ENTRY{}{}{} FUNCTION{f}{\"ab\" width$ pop$} READ EXECUTE{f}" => Unknown, "unknown 1:30 IntRange\n"),
    unfound!("ENTRY{author}{}{} FUNCTION{f}{author empty$ 'skip$ {author #2 \"{ll}\" format.name$ write$} if$} READ ITERATE{f}" => Unknown, "unknown 1:70 BadNameIndex 2\n"),
    unfound!("ENTRY{title}{}{} FUNCTION{f}{title empty$ 'skip$ {title #1 \"{ll}\" format.name$ write$} if$} READ ITERATE{f}" => Unknown, "unknown 1:67 BadName 3\n"),
    unfound!("ENTRY{}{}{} FUNCTION{f}{\"A B\" #1 \"{ff~}{xx}\" format.name$ write$} READ EXECUTE{f}" => Unknown, "unknown 1:46 BadPattern 1\n"),
    // The first command at fault is told, and of it the first token.
    unfound!("ENTRY{}{}{} FUNCTION{f}{*} FUNCTION{g}{\"a\"} READ EXECUTE{g} EXECUTE{f}" => Unknown, "unknown 1:50 StackLeft\n"),
    // Loops, and functions that are still running.
    unfound!("ENTRY{}{}{} FUNCTION{f}{{#1} {\"a\"} while$} READ EXECUTE{f}" => Unknown, "unknown 1:36 Loop\n"),
    unfound!("ENTRY{}{}{} READ EXECUTE{while$}" => Unknown, "unknown 1:18 EmptyPop 1\n"),
    unfound!("ENTRY{}{}{} FUNCTION{misc}{call.type$} READ ITERATE{call.type$}" => Unknown, "unknown 1:28 WalkTooDeep\n"),
    // Nine fields that may be missing are 512 cases, and eight are 256.
    unfound!("ENTRY{a b c d e f g h i}{}{} FUNCTION{o}{duplicate$ missing$ 'pop$ 'write$ if$} FUNCTION{p}{a o b o c o d o e o f o g o h o i o} READ ITERATE{p}" => Unknown, "unknown 1:127 TooManyCases\n"),
    unfound!("ENTRY{a b c d e f g h}{}{} FUNCTION{o}{duplicate$ missing$ 'pop$ 'write$ if$} FUNCTION{p}{a o b o c o d o e o f o g o h o pop$} READ ITERATE{p}" => Unknown, "unknown 1:123 EmptyPop 1\n"),
];
