//! Styles and certificates that are checked.

use crate::tests::{Example, Failing, File, compare, compare_long};
use bv_base::limits::STYLE_BYTES;
use bv_base::status::Status;
use std::test::Fail;

/// A straight style that joins two texts and writes them.
pub const JOINS: &str = "ENTRY{}{}{} FUNCTION{f}{\"a\" \"b\" * write$ newline$} READ EXECUTE{f}";

/// The certificate under which no entry is let in.
pub const NO_ENTRIES: &str = zeros!("");

const ACCEPTED: &str =
    "accepted\nlist 1\nentries 0\nkey 0\npreamble 0\nlength 0\nothertype no\nend\n";

const ACCEPTED_NINE: &str =
    "accepted\nlist 1\nentries 9\nkey 9\npreamble 9\nlength 9\nothertype yes\nend\n";

/// The certificate of nines, which lets in entries of every type.
pub const NINES: &str = nines!("");

/// What is answered for a style and a certificate that isn't one of its own. Where none is named the style joins two texts.
macro_rules! misread {
    ($cert:expr => $fault:literal) => {
        misread!(JOINS, $cert => $fault)
    };
    ($style:expr, $cert:expr => $fault:literal) => {
        checked!($style, $cert => BadCert, "", concat!("bad certificate ", $fault, "\n"))
    };
}

#[test]
fn check_gives_the_worked_answers(rt: HostRuntime) -> Result<(), Fail> {
    compare(&rt, rt.alloc(), &CHECKS)
}

/// Styles with the certificate under which no entry is let in.
static CHECKS: [Example; 36] = [
    checked!(JOINS, NO_ENTRIES => Done, ACCEPTED, ""),
    checked!("", NO_ENTRIES => Done, ACCEPTED, ""),
    checked!("ENTRY{}{}{} FUNCTION{f}{\"a\" *} READ EXECUTE{f}", NO_ENTRIES => Refused, "", "refused 1:29 EmptyPop 2\n"),
    checked!("ENTRY{}{}{} FUNCTION{f}{write$} READ EXECUTE{f}", NO_ENTRIES => Refused, "", "refused 1:25 EmptyPop 1\n"),
    checked!("ENTRY{}{}{} FUNCTION{f}{\"a\"} READ EXECUTE{f}", NO_ENTRIES => Refused, "", "refused 1:35 StackLeft\n"),
    // A function that no command enters isn't walked.
    checked!("FUNCTION{f}{* *}", NO_ENTRIES => Done, ACCEPTED, ""),
    // Comments and names in capitals are part of the language.
    checked!("% a comment\nentry{}{}{} Function{F}{\"a\" WRITE$}\nread execute{f}", NO_ENTRIES => Done, ACCEPTED, ""),
    // Fields, other built-in functions and blocks.
    checked!("ENTRY{title}{}{} READ", NO_ENTRIES => Done, ACCEPTED, ""),
    checked!("FUNCTION{f}{skip$}", NO_ENTRIES => Done, ACCEPTED, ""),
    checked!("FUNCTION{f}{{}}", NO_ENTRIES => Done, ACCEPTED, ""),
    checked!("ENTRY{}{}{} FUNCTION{f}{#2147483647 #1 + pop$} READ EXECUTE{f}", NO_ENTRIES => Refused, "", "refused 1:40 IntRange\n"),
    checked!("ENTRY{}{}{} FUNCTION{f}{#2147483646 #1 + pop$} READ EXECUTE{f}", NO_ENTRIES => Done, ACCEPTED, ""),
    checked!("ENTRY{}{}{} FUNCTION{f}{\"a\" 'skip$ 'skip$ if$} READ EXECUTE{f}", NO_ENTRIES => Refused, "", "refused 1:43 WrongKind 3\n"),
    checked!("ENTRY{title}{}{} FUNCTION{f}{title write$} READ EXECUTE{f}", NINES => Refused, "", "refused 1:30 NoEntry\n"),
    checked!("READ", NO_ENTRIES => BadStyle, "", "bad style 1:1 ReadBeforeEntry\n"),
    checked!("FOO", NO_ENTRIES => BadStyle, "", "bad style 1:1 UnknownCommand\n"),
    checked!("EXECUTE{skip$}", NO_ENTRIES => BadStyle, "", "bad style 1:1 CommandBeforeRead\n"),
    checked!("FUNCTION{f}{f}", NO_ENTRIES => BadStyle, "", "bad style 1:13 SelfUse\n"),
    checked!("FUNCTION{f}{g}", NO_ENTRIES => BadStyle, "", "bad style 1:13 UnknownName\n"),
    checked!("ENTRY{}{}{} ENTRY{}{}{}", NO_ENTRIES => BadStyle, "", "bad style 1:13 SecondEntry\n"),
    checked!("ENTRY{}{}{} READ EXECUTE{sort.key$}", NO_ENTRIES => BadStyle, "", "bad style 1:26 NotCallable\n"),
    checked!("FUNCTION{f}{#}", NO_ENTRIES => BadStyle, "", "bad style 1:13 BadInteger\n"),
    checked!("MACRO{a}{\"x\"} MACRO{a}{\"y\"}", NO_ENTRIES => BadStyle, "", "bad style 1:21 AlreadyDefined\n"),
    checked!("FUNCTION{f}{\"a", NO_ENTRIES => BadStyle, "", "bad style 1:13 NoEndQuote\n"),
    checked!("ENTRY{}{}{} FUNCTION{f}{#2147483648 #1 + pop$} READ EXECUTE{f}", NO_ENTRIES => BadStyle, "", "bad style 1:25 IntegerRange\n"),
    checked!("ENTRY{a,b}{}{}", NO_ENTRIES => BadStyle, "", "bad style 1:7 Expected\n"),
    checked!("FUNCTION{f}{", NO_ENTRIES => BadStyle, "", "bad style 1:13 EndOfFile\n"),
    // The style's grammar is decided before the certificate's.
    checked!("FOO", "" => BadStyle, "", "bad style 1:1 UnknownCommand\n"),
    misread!("ENTRY{}{}{} READ SORT", "" => "1:1 Syntax"),
    checked!("ENTRY{}{}{} FUNCTION{f}{*} READ EXECUTE{f} SORT", NO_ENTRIES => Refused, "", "refused 1:25 EmptyPop 1\n"),
    // What is entered by no command is accepted, and what a command calls is called at its place.
    checked!("FUNCTION{f}{while$}", NO_ENTRIES => Done, ACCEPTED, ""),
    checked!("FUNCTION{f}{{'CALL.TYPE$}}", NO_ENTRIES => Done, ACCEPTED, ""),
    checked!("ENTRY{}{}{} READ EXECUTE{while$}", NO_ENTRIES => Refused, "", "refused 1:18 EmptyPop 1\n"),
    checked!("ENTRY{}{}{} READ EXECUTE{call.type$}", NO_ENTRIES => Refused, "", "refused 1:18 NoEntry\n"),
    checked!("ENTRY{}{}{} READ ITERATE{skip$}", NO_ENTRIES => Done, ACCEPTED, ""),
    checked!("ENTRY{}{}{} READ REVERSE{skip$} SORT", NO_ENTRIES => Done, ACCEPTED, ""),
];

/// A style with two fields.
const FIELDS: &str = "ENTRY{author title}{}{} READ";

/// What is answered for a style and the certificate of this condition: the condition.
macro_rules! kept {
    ($style:expr, $condition:literal) => {
        checked!($style, cert!($condition, "") => Done, concat!("accepted\nlist 1\n", $condition, "end\n"), "")
    };
}

#[test]
fn conditions_have_one_spelling_and_are_printed_so(rt: HostRuntime) -> Result<(), Fail> {
    compare(&rt, rt.alloc(), &CONDITIONS)
}

/// Certificates with the style that joins two texts, and with lines on names, fields and types.
static CONDITIONS: [Example; 10] = [
    kept!(
        JOINS,
        "entries 1000000\nkey 1073741824\npreamble 10\nlength 9\nothertype yes\n"
    ),
    misread!("" => "1:1 Syntax"),
    misread!("bstcert 1\nentries 1000001\nkey 0\npreamble 0\nlength 0\nothertype no\nend\ndone\n" => "2:9 OutOfRange"),
    misread!("bstcert 1\nentries 0\nkey 1073741825\npreamble 0\nlength 0\nothertype no\nend\ndone\n" => "3:5 OutOfRange"),
    misread!("bstcert 1\nentries 00\nkey 0\npreamble 0\nlength 0\nothertype no\nend\ndone\n" => "2:9 NotCanonical"),
    misread!("bstcert 1\nentries  0\nkey 0\npreamble 0\nlength 0\nothertype no\nend\ndone\n" => "2:9 Syntax"),
    misread!("bstcert 1\nentries 0\nkey 0\npreamble 0\nlength 0\nothertype no\nend\n" => "8:1 Syntax"),
    kept!(
        FIELDS,
        "entries 9\nkey 9\npreamble 9\nlength 9\nnames author 3\nnames title 1\nnonblank title\ntype article\ntype misc\nothertype no\n"
    ),
    misread!(FIELDS, "bstcert 1\nentries 9\nkey 9\npreamble 9\nlength 9\nnames year 3\nothertype no\nend\ndone\n" => "6:7 UnknownName"),
    misread!(FIELDS, "bstcert 1\nentries 9\nkey 9\npreamble 9\nlength 9\nnonblank title\nnonblank author\nothertype no\nend\ndone\n" => "7:10 NotCanonical"),
];

/// Writes a name by a pattern that is well formed.
const PATTERN: &str =
    "ENTRY{}{}{} FUNCTION{f}{\"A B\" #1 \"{ff~}{ll}\" format.name$ write$} READ EXECUTE{f}";

/// The name that is wanted is there, as the symbols of that style say it, and of one whose variable holds the pattern.
const ONE_NAME: &str = nines!("command 3\nhints\nstep 1 1:e3\nstep 1 1:c2 1:f3\nend\n");

const ONE_NAME_HELD: &str = nines!("command 4\nhints\nstep 1 1:e6\nstep 1 1:c5 1:f6\nend\n");

/// Drops a text in a function of its own.
const DROPS: &str = "ENTRY{}{}{} FUNCTION{g}{pop$} FUNCTION{f}{\"a\" g} READ EXECUTE{f}";

#[test]
fn hints_and_summaries_decide(rt: HostRuntime) -> Result<(), Fail> {
    compare(&rt, rt.alloc(), &HINTED)
}

/// Certificates with hints and summaries.
static HINTED: [Example; 11] = [
    // A pattern with a wrong letter, and one without.
    checked!("ENTRY{}{}{} FUNCTION{f}{\"A B\" #1 \"{ff~}{xx}\" format.name$ write$} READ EXECUTE{f}", ONE_NAME => Refused, "", "refused 1:46 BadPattern 1\n"),
    checked!(PATTERN, ONE_NAME => Done, ACCEPTED_NINE, ""),
    // The same by a variable that holds it.
    checked!("STRINGS{s} ENTRY{}{}{} FUNCTION{f}{\"{ff~}{xx}\" 's := \"A B\" #1 s format.name$ write$} READ EXECUTE{f}", ONE_NAME_HELD => Refused, "", "refused 1:65 BadPattern 1\n"),
    checked!("STRINGS{s} ENTRY{}{}{} FUNCTION{f}{\"{ff~}{ll}\" 's := \"A B\" #1 s format.name$ write$} READ EXECUTE{f}", ONE_NAME_HELD => Done, ACCEPTED_NINE, ""),
    checked!(JOINS, nines!("command 3\nhints\nkeep\nend\n") => Refused, "", "refused 1:57 HintsLeft\n"),
    // Without its hints the first step is missing.
    checked!(PATTERN, NINES => Refused, "", "refused 1:46 HintsShort\n"),
    checked!(DROPS, nines!("summary g\npre\nstack 0\npost\nhints\ncase 0\nend\ncommand 4\nhints\nuse 0\nend\n") => Done, ACCEPTED_NINE, ""),
    // The place of a summary is that of its body's opening brace.
    checked!(DROPS, nines!("summary g\npre\nstack 0\npost\nhints\nend\ncommand 4\nhints\nuse 0\nend\n") => Refused, "", "refused 1:24 HintsShort\n"),
    // A loop is checked though nothing uses it: its test leaves no integer.
    checked!(JOINS, zeros!("loop f f\ncase\nhints\nend\n") => Refused, "", "refused 1:24 EmptyPop 1\n"),
    // A piece that says nothing holds after EXECUTE, which has none before a visit.
    checked!(JOINS, zeros!("command 3\nafter\nhints\nend\n") => Done, ACCEPTED, ""),
    checked!(JOINS, zeros!("command 3\nvisit\nkeeps\nhints\nend\n") => Refused, "", "refused 1:57 CommandShape\n"),
];

/// The style that joins two texts, and the certificate.
pub const BOTH: &[File] = &[file_of!("a.bst", JOINS), file_of!("b.cert", NO_ENTRIES)];

/// No style, and the certificate.
pub const NO_STYLE: &[File] = &[file_of!("a.bst", "FOO"), file_of!("b.cert", NO_ENTRIES)];

/// What is answered to a check over these files, where this fails.
macro_rules! failed {
    ($files:expr, $failing:expr => $status:ident, $err:expr) => {
        answered!(["check", "a.bst", "b.cert"], $files, $failing => $status, "", $err)
    };
}

#[test]
fn failing_files_and_sinks_of_a_check_are_named(rt: HostRuntime) -> Result<(), Fail> {
    compare(&rt, rt.alloc(), &FAILING_CHECKS)
}

/// The second call reads the style, the third ends it, the fourth begins the certificate, and the fifth reads it. Then
/// come the text that accepts, and the line that refuses.
static FAILING_CHECKS: [Example; 7] = [
    failed!(BOTH, Failing::Files(1) => ReadFailed, "read failed a.bst\n"),
    failed!(BOTH, Failing::Files(2) => ReadFailed, "read failed a.bst\n"),
    failed!(BOTH, Failing::Files(3) => ReadFailed, "read failed a.bst\n"),
    failed!(BOTH, Failing::Files(4) => ReadFailed, "read failed b.cert\n"),
    failed!(BOTH, Failing::Files(5) => ReadFailed, "read failed b.cert\n"),
    failed!(BOTH, Failing::Out => WriteFailed, ""),
    failed!(NO_STYLE, Failing::Err => WriteFailed, ""),
];

#[test]
fn long_styles_are_refused_by_their_length(rt: HostRuntime) -> Result<(), Fail> {
    compare_long(&rt, rt.alloc(), &LONG_STYLES)
}

/// Lengths of styles of spaces alone.
static LONG_STYLES: [(usize, Example); 2] = [
    (
        STYLE_BYTES,
        answered!(["check", "a.bst", "b.cert"], &[], Failing::Nothing => Done, ACCEPTED, ""),
    ),
    (
        STYLE_BYTES + 1,
        answered!(["check", "a.bst", "b.cert"], &[], Failing::Nothing => TooLong, "", "too long a.bst\n"),
    ),
];
