//! What a `while$` asks of a state: loops in summaries, in loops and in the function that they enter, the hints, and the case by
//! which a state comes. Each is accepted or refused by a rule on loops, with its place; the condition has a nine for each number.
//! In the loops of one block on another block 0 is the test and block 1 the body, whose opening brace is the loop's place.

use crate::tests::{Judged, compare_judged};
use std::test::Fail;

#[test]
fn a_state_comes_to_a_loop_by_a_case(rt: HostRuntime) -> Result<(), Fail> {
    compare_judged(&rt, rt.alloc(), &AROUND)
}

static AROUND: [Judged; 26] = [
    // A loop in a summary that two calls and two commands use.
    judged!("ENTRY{}{}{} INTEGERS{n} FUNCTION{g}{#3 'n := {n} {n #1 - 'n :=} while$} FUNCTION{f}{g g} READ EXECUTE{f} EXECUTE{g}", "summary g\nwrites n\npre\npost\nvar n 0\nrow 0 -1 value:0\nhints\nloop 0\ncase 0\ncase 0\nstep 1 1:r0\nend\nloop #0 #1\nwrites n\ncase\nvar n 0\nexit\nvar n 0\nrow 0 -1 value:0\nhints\nkeep\nkeep\nstep 1 1:r0 1:f3\nstep 1 1:w0 1:e3\ncase 0\ncase 0\nstep 1 1:r0\nend\ncommand 5\nhints\nuse 0\nuse 0\nend\ncommand 6\nhints\nuse 0\nend\n" => "accepted"),
    // Two calls walk the same body, and each uses the loop.
    judged!("ENTRY{}{}{} INTEGERS{n} FUNCTION{g}{#3 'n := {n} {n #1 - 'n :=} while$} FUNCTION{f}{g g} READ EXECUTE{f} EXECUTE{g}", "loop #0 #1\nwrites n\ncase\nvar n 0\nexit\nhints\nkeep\nkeep\nstep 1 1:r0 1:f3\nstep 1 1:w0 1:e3\ncase 0\ncase 0\nend\ncommand 5\nhints\nloop 0\ncase 0\nloop 0\ncase 0\nend\ncommand 6\nhints\nloop 0\ncase 0\nend\n" => "accepted"),
    // The summary doesn't list what the loop may write.
    judged!("ENTRY{}{}{} INTEGERS{n} FUNCTION{g}{{n} {n #1 - 'n :=} while$} FUNCTION{f}{g} READ EXECUTE{f}", "summary g\npre\npost\nhints\nloop 0\ncase 0\ncase 0\nend\nloop #0 #1\nwrites n\ncase\nvar n 0\nexit\nhints\nkeep\nkeep\nstep 1 1:r0 1:f3\nstep 1 1:w0 1:e3\ncase 0\ncase 0\nend\ncommand 5\nhints\nuse 0\nend\n" => "refused 1:56 NotEntailed 0"),
    // A loop in the body of another.
    judged!("ENTRY{}{}{} INTEGERS{m n} FUNCTION{f}{#3 'n := {n} {n #1 - 'n := #2 'm := {m} {m #1 - 'm :=} while$} while$} READ EXECUTE{f}", "loop #2 #3\nwrites m\ncase\nvar m 0\nexit\nhints\nkeep\nkeep\nstep 1 1:r0 1:f4\nstep 1 1:w0 1:e4\ncase 0\ncase 0\nend\nloop #0 #1\nwrites m\nwrites n\ncase\nvar n 0\nexit\nhints\nkeep\nkeep\nstep 1 1:r0 1:f4\nstep 1 1:w0 1:e4\nloop 0\ncase 0\ncase 0\ncase 0\nend\ncommand 4\nhints\nloop 1\ncase 0\nend\n" => "accepted"),
    // The outer one doesn't list what the inner one may write.
    judged!("ENTRY{}{}{} INTEGERS{m n} FUNCTION{f}{#3 'n := {n} {n #1 - 'n := {m} {m #1 - 'm :=} while$} while$} READ EXECUTE{f}", "loop #2 #3\nwrites m\ncase\nvar m 0\nexit\nhints\nkeep\nkeep\nstep 1 1:r0 1:f4\nstep 1 1:w0 1:e4\ncase 0\ncase 0\nend\nloop #0 #1\nwrites n\ncase\nvar n 0\nexit\nhints\nkeep\nkeep\nstep 1 1:r0 1:f4\nstep 1 1:w0 1:e4\nloop 0\ncase 0\ncase 0\ncase 0\nend\ncommand 4\nhints\nloop 1\ncase 0\nend\n" => "refused 1:85 NotEntailed 0"),
    // A loop enters the function that it stands in, whose summary is used there.
    judged!("ENTRY{}{n}{} FUNCTION{default.type}{{n} {n #1 - 'n := call.type$} while$} READ ITERATE{call.type$}", "summary default.type\nentry\nwrites n\npre\npost\nhints\nloop 0\ncase 0\ncase 0\nend\nloop #0 #1\nentry\nwrites n\ncase\nvar n 0\nexit\nhints\nkeep\nkeep\nstep 1 1:r2 1:f5\nstep 1 1:w0 1:e5\nuse 0\ncase 0\ncase 0\nend\ncommand 3\nhints\nuse 0\nend\n" => "accepted"),
    // Entered again without its summary's hint.
    judged!("ENTRY{}{n}{} FUNCTION{default.type}{{n} {n #1 - 'n := call.type$} while$} READ ITERATE{call.type$}", "summary default.type\nentry\nwrites n\npre\npost\nhints\nloop 0\ncase 0\ncase 0\nend\nloop #0 #1\nentry\nwrites n\ncase\nvar n 0\nexit\nhints\nkeep\nkeep\nstep 1 1:r2 1:f5\nstep 1 1:w0 1:e5\ncase 0\ncase 0\nend\ncommand 3\nhints\nuse 0\nend\n" => "refused 1:55 WrongHint"),
    // Without a summary it is walked again, and uses the loop whose turn it is.
    judged!("ENTRY{}{n}{} FUNCTION{default.type}{{n} {n #1 - 'n := call.type$} while$} READ ITERATE{call.type$}", "loop #0 #1\nentry\nwrites n\ncase\nvar n 0\nexit\nhints\nkeep\nkeep\nstep 1 1:r2 1:f5\nstep 1 1:w0 1:e5\nloop 0\ncase 0\ncase 0\ncase 0\nend\ncommand 3\nhints\nloop 0\ncase 0\nend\n" => "accepted"),
    // Two variables of the case have one symbol, and the state's have two.
    judged!("ENTRY{}{}{} INTEGERS{m n} FUNCTION{f}{{#1} {m 'm :=} while$} READ EXECUTE{f}", "loop #0 #1\nwrites m\ncase\nvar m 0\nvar n 0\nhints\ncase 0\nend\ncommand 4\nhints\nloop 0\ncase 0\nend\n" => "refused 1:54 NotEntailed 2"),
    // No hint is left for a `while$`.
    judged!("ENTRY{}{}{} INTEGERS{n} FUNCTION{f}{#3 'n := {n} {n #1 - 'n :=} while$} READ EXECUTE{f}", "loop #0 #1\nwrites n\ncase\nvar n 0\nexit\nhints\nkeep\nkeep\nstep 1 1:r0 1:f3\nstep 1 1:w0 1:e3\ncase 0\ncase 0\nend\n" => "refused 1:65 HintsShort"),
    // Another hint for it.
    judged!("ENTRY{}{}{} INTEGERS{n} FUNCTION{f}{#3 'n := {n} {n #1 - 'n :=} while$} READ EXECUTE{f}", "loop #0 #1\nwrites n\ncase\nvar n 0\nexit\nhints\nkeep\nkeep\nstep 1 1:r0 1:f3\nstep 1 1:w0 1:e3\ncase 0\ncase 0\nend\ncommand 4\nhints\ncase 0\nend\n" => "refused 1:65 WrongHint"),
    // A loop of a number that isn't there.
    judged!("ENTRY{}{}{} INTEGERS{n} FUNCTION{f}{#3 'n := {n} {n #1 - 'n :=} while$} READ EXECUTE{f}", "loop #0 #1\nwrites n\ncase\nvar n 0\nexit\nhints\nkeep\nkeep\nstep 1 1:r0 1:f3\nstep 1 1:w0 1:e3\ncase 0\ncase 0\nend\ncommand 4\nhints\nloop 1\ncase 0\nend\n" => "refused 1:65 NoInvariant"),
    // A loop of another test.
    judged!("ENTRY{}{}{} INTEGERS{n} FUNCTION{f}{#3 'n := {n} {n #1 - 'n :=} while$} READ EXECUTE{f}", "loop n #1\nwrites n\ncase\nvar n 0\nexit\nhints\nkeep\nkeep\nstep 1 1:r0 1:f3\nstep 1 1:w0 1:e3\ncase 0\ncase 0\nend\ncommand 4\nhints\nloop 0\ncase 0\nend\n" => "refused 1:65 NoInvariant"),
    // A loop of another body.
    judged!("ENTRY{}{}{} INTEGERS{n} FUNCTION{f}{#3 'n := {n} {n #1 - 'n :=} while$} READ EXECUTE{f}", "loop #0 skip$\nwrites n\ncase\nexit\nhints\nkeep\nkeep\ncase 0\ncase 0\nend\ncommand 4\nhints\nloop 0\ncase 0\nend\n" => "refused 1:65 NoInvariant"),
    // No hint is left for the loop's case.
    judged!("ENTRY{}{}{} INTEGERS{n} FUNCTION{f}{#3 'n := {n} {n #1 - 'n :=} while$} READ EXECUTE{f}", "loop #0 #1\nwrites n\ncase\nvar n 0\nexit\nhints\nkeep\nkeep\nstep 1 1:r0 1:f3\nstep 1 1:w0 1:e3\ncase 0\ncase 0\nend\ncommand 4\nhints\nloop 0\nend\n" => "refused 1:65 HintsShort"),
    // Another hint for it.
    judged!("ENTRY{}{}{} INTEGERS{n} FUNCTION{f}{#3 'n := {n} {n #1 - 'n :=} while$} READ EXECUTE{f}", "loop #0 #1\nwrites n\ncase\nvar n 0\nexit\nhints\nkeep\nkeep\nstep 1 1:r0 1:f3\nstep 1 1:w0 1:e3\ncase 0\ncase 0\nend\ncommand 4\nhints\nloop 0\nkeep\nend\n" => "refused 1:65 WrongHint"),
    // A case that isn't there.
    judged!("ENTRY{}{}{} INTEGERS{n} FUNCTION{f}{#3 'n := {n} {n #1 - 'n :=} while$} READ EXECUTE{f}", "loop #0 #1\nwrites n\ncase\nvar n 0\nexit\nhints\nkeep\nkeep\nstep 1 1:r0 1:f3\nstep 1 1:w0 1:e3\ncase 0\ncase 0\nend\ncommand 4\nhints\nloop 0\ncase 1\nend\n" => "refused 1:65 NotEntailed 0"),
    // A hint is left behind a loop.
    judged!("ENTRY{}{}{} INTEGERS{n} FUNCTION{f}{#3 'n := {n} {n #1 - 'n :=} while$} READ EXECUTE{f}", "loop #0 #1\nwrites n\ncase\nvar n 0\nexit\nhints\nkeep\nkeep\nstep 1 1:r0 1:f3\nstep 1 1:w0 1:e3\ncase 0\ncase 0\nend\ncommand 4\nhints\nloop 0\ncase 0\ncase 0\nend\n" => "refused 1:78 HintsLeft"),
    // A case wants one value more than is known.
    judged!("ENTRY{}{}{} FUNCTION{f}{{#0} 'skip$ while$} READ EXECUTE{f}", "loop #0 skip$\ncase\nstack 0\nexit\nstack 0\nhints\ncase 0\nend\ncommand 3\nhints\nloop 0\ncase 0\nend\n" => "refused 1:37 NotEntailed 0"),
    // A fact of the case isn't known.
    judged!("ENTRY{}{}{} FUNCTION{f}{\"a\" {#0} 'skip$ while$ write$} READ EXECUTE{f}", "loop #0 skip$\ncase\nstack 0\nis 0 int\nexit\nstack 0\nhints\ncase 0\nend\ncommand 3\nhints\nloop 0\ncase 0\nend\n" => "refused 1:41 NotEntailed 2"),
    // A row of the case takes a step, and it isn't shown.
    judged!("ENTRY{}{}{} INTEGERS{n} FUNCTION{f}{#3 'n := {n} {n #1 - 'n :=} while$} READ EXECUTE{f}", "loop #0 #1\nwrites n\ncase\nvar n 0\nis 0 int\nrow 0 1 value:0\nexit\nvar n 0\nrow 0 1 value:0\nrow 0 -1 value:0\nhints\nkeep\nkeep\nstep 1 1:r1 1:f3\nstep 1 1:w0 1:e3\ncase 0\nstep 1 1:r1 1:r2 1:f3\ncase 0\nstep 1 1:r0\nstep 1 1:r1\nend\ncommand 4\nhints\nloop 0\ncase 0\nstep 1 1:v3\nend\n" => "refused 1:65 NotEntailed 3"),
    // A loop at an entry, where none is visited.
    judged!("ENTRY{}{}{} FUNCTION{f}{{#0} 'skip$ while$} READ EXECUTE{f}", "loop #0 skip$\nentry\ncase\nexit\nhints\ncase 0\nend\ncommand 3\nhints\nloop 0\ncase 0\nend\n" => "refused 1:37 NotEntailed 0"),
    // A loop that has the whole stack, with a value below it.
    judged!("ENTRY{}{}{} FUNCTION{f}{\"a\" {#0} 'skip$ while$ pop$} READ EXECUTE{f}", "loop #0 skip$\nwhole\ncase\nexit\nhints\ncase 0\nend\ncommand 3\nhints\nloop 0\ncase 0\nend\n" => "refused 1:41 NotEntailed 0"),
    // What lies below a case stays.
    judged!("ENTRY{}{}{} FUNCTION{f}{\"a\" {#0} 'skip$ while$ pop$} READ EXECUTE{f}", "loop #0 skip$\ncase\nexit\nhints\ncase 0\nend\ncommand 3\nhints\nloop 0\ncase 0\nend\n" => "accepted"),
    // The test empties the stack, which the loop has whole.
    judged!("ENTRY{}{}{} FUNCTION{f}{{stack$ #0} 'skip$ while$} READ EXECUTE{f}", "loop #0 skip$\nwhole\ncase\nexit\nhints\ncase 0\nend\ncommand 3\nhints\nloop 0\ncase 0\nend\n" => "accepted"),
    // It isn't known to be whole.
    judged!("ENTRY{}{}{} FUNCTION{f}{{stack$ #0} 'skip$ while$} READ EXECUTE{f}", "loop #0 skip$\ncase\nexit\nhints\ncase 0\nend\ncommand 3\nhints\nloop 0\ncase 0\nend\n" => "refused 1:26 WholeStack"),
];
