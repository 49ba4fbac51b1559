//! Hints, and pieces that are entailed. Each is accepted or refused by a rule on units and calls, with its place; the condition has
//! a nine for each number.

use crate::tests::{Judged, compare_judged};
use std::test::Fail;

#[test]
fn hints_and_entailment_have_their_places(rt: HostRuntime) -> Result<(), Fail> {
    compare_judged(&rt, rt.alloc(), &UNITS)
}

static UNITS: [Judged; 24] = [
    // No hint is left for a name that has a summary.
    judged!("ENTRY{}{}{} FUNCTION{g}{pop$} FUNCTION{f}{\"a\" g} READ EXECUTE{f}", "summary g\npre\nstack 0\npost\nhints\ncase 0\nend\n" => "refused 1:47 HintsShort"),
    // A name that has a summary takes another hint.
    judged!("ENTRY{}{}{} FUNCTION{g}{pop$} FUNCTION{f}{\"a\" g} READ EXECUTE{f}", "summary g\npre\nstack 0\npost\nhints\ncase 0\nend\ncommand 4\nhints\ncase 0\nend\n" => "refused 1:47 WrongHint"),
    // A summary that is walked around.
    judged!("ENTRY{}{}{} FUNCTION{g}{pop$} FUNCTION{f}{\"a\" g} READ EXECUTE{f}", "summary g\npre\nstack 0\npost\nhints\ncase 0\nend\ncommand 4\nhints\nwalk\nend\n" => "accepted"),
    // A summary of a number that isn't there.
    judged!("ENTRY{}{}{} FUNCTION{g}{pop$} FUNCTION{f}{\"a\" g} READ EXECUTE{f}", "summary g\npre\nstack 0\npost\nhints\ncase 0\nend\ncommand 4\nhints\nuse 1\nend\n" => "refused 1:47 NoSummary"),
    // A summary of another function.
    judged!("ENTRY{}{}{} FUNCTION{h}{pop$} FUNCTION{g}{pop$} FUNCTION{f}{\"a\" g} READ EXECUTE{f}", "summary h\npre\nstack 0\npost\nhints\ncase 0\nend\nsummary g\npre\nstack 0\npost\nhints\ncase 0\nend\ncommand 5\nhints\nuse 0\nend\n" => "refused 1:65 NoSummary"),
    // A summary that is used twice.
    judged!("ENTRY{}{}{} FUNCTION{g}{pop$} FUNCTION{f}{\"a\" \"b\" g g} READ EXECUTE{f}", "summary g\npre\nstack 0\npost\nhints\ncase 0\nend\ncommand 4\nhints\nuse 0\nuse 0\nend\n" => "accepted"),
    // A hint is left behind a summary's cases.
    judged!("ENTRY{}{}{} FUNCTION{g}{pop$} FUNCTION{f}{\"a\" g} READ EXECUTE{f}", "summary g\npre\nstack 0\npost\nhints\ncase 0\ncase 0\nend\ncommand 4\nhints\nuse 0\nend\n" => "refused 1:24 HintsLeft"),
    // A hint is left behind a call.
    judged!("ENTRY{}{}{} FUNCTION{g}{pop$} FUNCTION{f}{\"a\" g} READ EXECUTE{f}", "summary g\npre\nstack 0\npost\nhints\ncase 0\nend\ncommand 4\nhints\nuse 0\nuse 0\nend\n" => "refused 1:55 HintsLeft"),
    // A summary's end takes its case.
    judged!("ENTRY{}{}{} FUNCTION{g}{pop$} FUNCTION{f}{\"a\" g} READ EXECUTE{f}", "summary g\npre\nstack 0\npost\nhints\nwalk\nend\ncommand 4\nhints\nuse 0\nend\n" => "refused 1:24 WrongHint"),
    // A case that isn't there.
    judged!("ENTRY{}{}{} FUNCTION{g}{pop$} FUNCTION{f}{\"a\" g} READ EXECUTE{f}", "summary g\npre\nstack 0\npost\nhints\ncase 1\nend\ncommand 4\nhints\nuse 0\nend\n" => "refused 1:24 NotEntailed 0"),
    // A post with another length of the stack.
    judged!("ENTRY{}{}{} FUNCTION{g}{skip$} FUNCTION{f}{\"a\" g} READ EXECUTE{f}", "summary g\npre\nstack 0\npost\nhints\ncase 0\nend\ncommand 4\nhints\nuse 0\nend\n" => "refused 1:24 NotEntailed 0"),
    // Too few symbols for a pre.
    judged!("ENTRY{}{}{} FUNCTION{g}{pop$} FUNCTION{f}{g} READ EXECUTE{f}", "summary g\npre\nstack 0\npost\nhints\ncase 0\nend\ncommand 4\nhints\nuse 0\nend\n" => "refused 1:43 NotEntailed 0"),
    // Another kind.
    judged!("ENTRY{}{}{} FUNCTION{g}{pop$} FUNCTION{f}{\"a\" g} READ EXECUTE{f}", "summary g\npre\nstack 0\nis 0 int\npost\nhints\ncase 0\nend\ncommand 4\nhints\nuse 0\nend\n" => "refused 1:47 NotEntailed 2"),
    // A row that a step shows.
    judged!("ENTRY{}{}{} FUNCTION{g}{pop$} FUNCTION{f}{\"a\" g} READ EXECUTE{f}", "summary g\npre\nstack 0\nrow -1 1 length:0\npost\nhints\ncase 0\nend\ncommand 4\nhints\nuse 0\nstep 1 1:t2\nend\n" => "accepted"),
    // A row that no step shows.
    judged!("ENTRY{}{}{} FUNCTION{g}{pop$} FUNCTION{f}{\"a\" g} READ EXECUTE{f}", "summary g\npre\nstack 0\nrow -2 1 length:0\npost\nhints\ncase 0\nend\ncommand 4\nhints\nuse 0\nstep 1 1:t2\nend\n" => "refused 1:47 NotEntailed 2"),
    // The last of two rows isn't shown.
    judged!("ENTRY{}{}{} FUNCTION{g}{pop$} FUNCTION{f}{\"a\" g} READ EXECUTE{f}", "summary g\npre\nstack 0\nrow -1 1 length:0\nrow 0 -1 length:0\npost\nhints\ncase 0\nend\ncommand 4\nhints\nuse 0\nstep 1 1:t2\nstep 1 1:u2\nend\n" => "refused 1:47 NotEntailed 3"),
    // A row wants a step.
    judged!("ENTRY{}{}{} FUNCTION{g}{pop$} FUNCTION{f}{\"a\" g} READ EXECUTE{f}", "summary g\npre\nstack 0\nrow -1 1 length:0\npost\nhints\ncase 0\nend\ncommand 4\nhints\nuse 0\nplain\nend\n" => "refused 1:47 WrongHint"),
    // A row's step is missing.
    judged!("ENTRY{}{}{} FUNCTION{g}{pop$} FUNCTION{f}{\"a\" g} READ EXECUTE{f}", "summary g\npre\nstack 0\nrow -1 1 length:0\npost\nhints\ncase 0\nend\ncommand 4\nhints\nuse 0\nend\n" => "refused 1:47 HintsShort"),
    // Two places of a pre with one symbol, and two values.
    judged!("ENTRY{}{}{} FUNCTION{g}{pop$ pop$} FUNCTION{f}{#1 #1 g} READ EXECUTE{f}", "summary g\npre\nstack 0 0\npost\nhints\ncase 0\nend\ncommand 4\nhints\nuse 0\nend\n" => "refused 1:54 NotEntailed 1"),
    // One value in both places.
    judged!("ENTRY{}{}{} FUNCTION{g}{pop$ pop$} FUNCTION{f}{#1 duplicate$ g} READ EXECUTE{f}", "summary g\npre\nstack 0 0\npost\nhints\ncase 0\nend\ncommand 4\nhints\nuse 0\nend\n" => "accepted"),
    // A variable with another value than the one on the stack.
    judged!("ENTRY{}{}{} INTEGERS{n} FUNCTION{g}{pop$} FUNCTION{f}{#1 g} READ EXECUTE{f}", "summary g\npre\nstack 0\nvar n 0\npost\nhints\ncase 0\nend\ncommand 5\nhints\nuse 0\nend\n" => "refused 1:58 NotEntailed 2"),
    // The variable's value is on the stack.
    judged!("ENTRY{}{}{} INTEGERS{n} FUNCTION{g}{pop$} FUNCTION{f}{n g} READ EXECUTE{f}", "summary g\npre\nstack 0\nvar n 0\npost\nhints\ncase 0\nend\ncommand 5\nhints\nuse 0\nend\n" => "accepted"),
    // A variable with another value than the pre says.
    judged!("ENTRY{}{}{} INTEGERS{n} FUNCTION{g}{} FUNCTION{f}{#1 'n := g} READ EXECUTE{f}", "summary g\npre\nvar n 0\nint 0 5\npost\nhints\ncase 0\nend\ncommand 5\nhints\nuse 0\nend\n" => "refused 1:60 NotEntailed 2"),
    // A call of the certificate's second summary of a function.
    judged!("ENTRY{}{}{} FUNCTION{g}{pop$} FUNCTION{f}{#1 g} READ EXECUTE{f}", "summary g\npre\nstack 0\nis 0 str\npost\nhints\ncase 0\nend\nsummary g\npre\nstack 0\nis 0 int\npost\nhints\ncase 0\nend\ncommand 4\nhints\nuse 1\nend\n" => "accepted"),
];
