//! A loop's own check: the test's integer, the end of each turn, the first line of a case or an exit that isn't entailed, cases of
//! several depths of the stack, and what names that the check enters come to. Each is accepted or refused by a rule on loops, with
//! its place; the condition has a nine for each number. In the loops of one block on another block 0 is the test and block 1 the
//! body, whose opening brace is the loop's place.

use crate::tests::{Judged, compare_judged};
use std::test::Fail;

#[test]
fn loops_are_checked_turn_by_turn(rt: HostRuntime) -> Result<(), Fail> {
    compare_judged(&rt, rt.alloc(), &TURNS)
}

static TURNS: [Judged; 42] = [
    // A test that gives 0 at once.
    judged!("ENTRY{}{}{} FUNCTION{f}{{#0} 'skip$ while$} READ EXECUTE{f}", "loop #0 skip$\ncase\nexit\nhints\ncase 0\nend\ncommand 3\nhints\nloop 0\ncase 0\nend\n" => "accepted"),
    // Its exit takes no hint: the place of a loop on a built-in function is 1:1.
    judged!("ENTRY{}{}{} FUNCTION{f}{{#0} 'skip$ while$} READ EXECUTE{f}", "loop #0 skip$\ncase\nexit\nhints\nend\ncommand 3\nhints\nloop 0\ncase 0\nend\n" => "refused 1:1 HintsShort"),
    // The test's integer is split: above 0 the body is entered, else the loop ends.
    judged!("ENTRY{}{}{} INTEGERS{n} FUNCTION{f}{#3 'n := {n} {n #1 - 'n :=} while$} READ EXECUTE{f}", "loop #0 #1\nwrites n\ncase\nvar n 0\nexit\nhints\nkeep\nkeep\nstep 1 1:r0 1:f3\nstep 1 1:w0 1:e3\ncase 0\ncase 0\nend\ncommand 4\nhints\nloop 0\ncase 0\nend\n" => "accepted"),
    // Each case of the integer takes its hint.
    judged!("ENTRY{}{}{} INTEGERS{n} FUNCTION{f}{#3 'n := {n} {n #1 - 'n :=} while$} READ EXECUTE{f}", "loop #0 #1\nwrites n\ncase\nvar n 0\nexit\nhints\nkeep\nend\ncommand 4\nhints\nloop 0\ncase 0\nend\n" => "refused 1:50 HintsShort"),
    // Another hint for a case of the integer.
    judged!("ENTRY{}{}{} INTEGERS{n} FUNCTION{f}{#3 'n := {n} {n #1 - 'n :=} while$} READ EXECUTE{f}", "loop #0 #1\nwrites n\ncase\nvar n 0\nexit\nhints\nkeep\nplain\nstep 1 1:r0 1:f3\nstep 1 1:w0 1:e3\ncase 0\ncase 0\nend\ncommand 4\nhints\nloop 0\ncase 0\nend\n" => "refused 1:50 WrongHint"),
    // A case of the integer is left out that may come about.
    judged!("ENTRY{}{}{} INTEGERS{n} FUNCTION{f}{#3 'n := {n} {n #1 - 'n :=} while$} READ EXECUTE{f}", "loop #0 #1\nwrites n\ncase\nvar n 0\nexit\nhints\nkeep\ndrop 1 1:r0\nstep 1 1:r0 1:f3\nstep 1 1:w0 1:e3\ncase 0\nend\ncommand 4\nhints\nloop 0\ncase 0\nend\n" => "refused 1:50 NotEntailed 0"),
    // The test leaves a text.
    judged!("ENTRY{}{}{} FUNCTION{f}{{\"a\"} 'newline$ while$} READ EXECUTE{f}", "loop #0 newline$\ncase\nhints\nend\n" => "refused 1:1 WrongKind 1"),
    // The test leaves nothing.
    judged!("ENTRY{}{}{} FUNCTION{f}{{} {#1} while$} READ EXECUTE{f}", "loop #0 #1\ncase\nhints\nend\n" => "refused 1:28 EmptyPop 1"),
    // The test leaves two values: the body takes the lower one, and an exit has it.
    judged!("ENTRY{}{}{} INTEGERS{n} FUNCTION{f}{#3 'n := {n n} {#1 - 'n :=} while$ pop$} READ EXECUTE{f}", "loop #0 #1\nwrites n\ncase\nvar n 0\nexit\nstack 0\nhints\nkeep\nkeep\nstep 1 1:r0 1:f3\nstep 1 1:w0 1:e3\ncase 0\ncase 0\nend\ncommand 4\nhints\nloop 0\ncase 0\nend\n" => "accepted"),
    // The body leaves the lower one, and no case has it.
    judged!("ENTRY{}{}{} INTEGERS{n} FUNCTION{f}{#3 'n := {n n} {skip$} while$ pop$} READ EXECUTE{f}", "loop #0 #1\nwrites n\ncase\nvar n 0\nexit\nstack 0\nhints\nkeep\nkeep\ncase 0\ncase 0\nend\ncommand 4\nhints\nloop 0\ncase 0\nend\n" => "refused 1:52 NotEntailed 0"),
    // An exit doesn't have it.
    judged!("ENTRY{}{}{} INTEGERS{n} FUNCTION{f}{#3 'n := {n n} {#1 - 'n :=} while$ pop$} READ EXECUTE{f}", "loop #0 #1\nwrites n\ncase\nvar n 0\nexit\nhints\nkeep\nkeep\nstep 1 1:r0 1:f3\nstep 1 1:w0 1:e3\ncase 0\ncase 0\nend\ncommand 4\nhints\nloop 0\ncase 0\nend\n" => "refused 1:52 NotEntailed 0"),
    // No hint is left for a turn's end.
    judged!("ENTRY{}{}{} INTEGERS{n} FUNCTION{f}{#3 'n := {n} {n #1 - 'n :=} while$} READ EXECUTE{f}", "loop #0 #1\nwrites n\ncase\nvar n 0\nexit\nhints\nkeep\nkeep\nstep 1 1:r0 1:f3\nstep 1 1:w0 1:e3\nend\ncommand 4\nhints\nloop 0\ncase 0\nend\n" => "refused 1:50 HintsShort"),
    // Another hint at a turn's end.
    judged!("ENTRY{}{}{} INTEGERS{n} FUNCTION{f}{#3 'n := {n} {n #1 - 'n :=} while$} READ EXECUTE{f}", "loop #0 #1\nwrites n\ncase\nvar n 0\nexit\nhints\nkeep\nkeep\nstep 1 1:r0 1:f3\nstep 1 1:w0 1:e3\nkeep\ncase 0\nend\ncommand 4\nhints\nloop 0\ncase 0\nend\n" => "refused 1:50 WrongHint"),
    // A turn's end names an exit.
    judged!("ENTRY{}{}{} INTEGERS{n} FUNCTION{f}{#3 'n := {n} {n #1 - 'n :=} while$} READ EXECUTE{f}", "loop #0 #1\nwrites n\ncase\nvar n 0\nexit\nexit\nhints\nkeep\nkeep\nstep 1 1:r0 1:f3\nstep 1 1:w0 1:e3\ncase 1\ncase 0\nend\ncommand 4\nhints\nloop 0\ncase 0\nend\n" => "refused 1:50 NotEntailed 0"),
    // A loop's end names a case.
    judged!("ENTRY{}{}{} INTEGERS{n} FUNCTION{f}{#3 'n := {n} {n #1 - 'n :=} while$} READ EXECUTE{f}", "loop #0 #1\nwrites n\ncase\nvar n 0\ncase\nvar n 0\nexit\nhints\nkeep\nkeep\nstep 1 1:r0 1:f3\nstep 1 1:w0 1:e3\ncase 1\ncase 1\nend\ncommand 4\nhints\nloop 0\ncase 0\nend\n" => "refused 1:50 NotEntailed 0"),
    // A hint is left behind the last turn.
    judged!("ENTRY{}{}{} INTEGERS{n} FUNCTION{f}{#3 'n := {n} {n #1 - 'n :=} while$} READ EXECUTE{f}", "loop #0 #1\nwrites n\ncase\nvar n 0\nexit\nhints\nkeep\nkeep\nstep 1 1:r0 1:f3\nstep 1 1:w0 1:e3\ncase 0\ncase 0\ncase 0\nend\ncommand 4\nhints\nloop 0\ncase 0\nend\n" => "refused 1:50 HintsLeft"),
    // A hint is left behind a turn from the first of two cases: the next turn takes it.
    judged!("ENTRY{}{}{} INTEGERS{n} FUNCTION{f}{#3 'n := {n} {n #1 - 'n :=} while$} READ EXECUTE{f}", "loop #0 #1\nwrites n\ncase\nvar n 0\ncase\nvar n 0\nexit\nhints\nkeep\nkeep\nstep 1 1:r0 1:f3\nstep 1 1:w0 1:e3\ncase 0\ncase 0\ncase 0\nkeep\nkeep\nstep 1 1:r0 1:f3\nstep 1 1:w0 1:e3\ncase 1\ncase 0\nend\ncommand 4\nhints\nloop 0\ncase 0\nend\n" => "refused 1:50 WrongHint"),
    // Each of two cases has its turn.
    judged!("ENTRY{}{}{} INTEGERS{n} FUNCTION{f}{#3 'n := {n} {n #1 - 'n :=} while$} READ EXECUTE{f}", "loop #0 #1\nwrites n\ncase\nvar n 0\ncase\nvar n 0\nexit\nhints\nkeep\nkeep\nstep 1 1:r0 1:f3\nstep 1 1:w0 1:e3\ncase 0\ncase 0\nkeep\nkeep\nstep 1 1:r0 1:f3\nstep 1 1:w0 1:e3\ncase 1\ncase 0\nend\ncommand 4\nhints\nloop 0\ncase 0\nend\n" => "accepted"),
    // A body leaves more than it took.
    judged!("ENTRY{}{}{} FUNCTION{f}{\"a\" {#1} {\"b\"} while$} READ EXECUTE{f}", "loop #0 #1\ncase\nstack 0\nhints\ncase 0\nend\n" => "refused 1:34 NotEntailed 0"),
    // A body leaves less.
    judged!("ENTRY{}{}{} FUNCTION{f}{\"a\" {#1} {pop$} while$} READ EXECUTE{f}", "loop #0 #1\ncase\nstack 0\nhints\ncase 0\nend\n" => "refused 1:34 NotEntailed 0"),
    // A body takes what no case has.
    judged!("ENTRY{}{}{} FUNCTION{f}{\"a\" {#1} {pop$} while$} READ EXECUTE{f}", "loop #0 #1\ncase\nhints\ncase 0\nend\n" => "refused 1:35 EmptyPop 1"),
    // Two places of the stack have one symbol, and a turn leaves two.
    judged!("ENTRY{}{}{} FUNCTION{f}{\"a\" duplicate$ {#1} {pop$ \"a\"} while$} READ EXECUTE{f}", "loop #0 #1\ncase\nstack 0 0\nhints\ncase 0\nend\n" => "refused 1:45 NotEntailed 1"),
    // Two variables have one symbol, and a turn keeps it.
    judged!("ENTRY{}{}{} INTEGERS{m n} FUNCTION{f}{{#1} {m 'm :=} while$} READ", "loop #0 #1\nwrites m\ncase\nvar m 0\nvar n 0\nhints\ncase 0\nend\n" => "accepted"),
    // A turn gives one of them another.
    judged!("ENTRY{}{}{} INTEGERS{m n} FUNCTION{f}{{#1} {#7 'm :=} while$} READ EXECUTE{f}", "loop #0 #1\nwrites m\ncase\nvar m 0\nvar n 0\nhints\ncase 0\nend\n" => "refused 1:44 NotEntailed 2"),
    // A fact of the case isn't kept by a turn.
    judged!("ENTRY{}{}{} INTEGERS{n} FUNCTION{f}{#3 'n := {n} {n #1 - 'n :=} while$} READ EXECUTE{f}", "loop #0 #1\nwrites n\ncase\nvar n 0\nint 0 3\nhints\ncase 0\nend\ncommand 4\nhints\nloop 0\ncase 0\nend\n" => "refused 1:50 NotEntailed 2"),
    // A row of the case is kept, and an exit says 0.
    judged!("ENTRY{}{}{} INTEGERS{n} FUNCTION{f}{#3 'n := {n} {n #1 - 'n :=} while$} READ EXECUTE{f}", "loop #0 #1\nwrites n\ncase\nvar n 0\nis 0 int\nrow 0 1 value:0\nexit\nvar n 0\nrow 0 1 value:0\nrow 0 -1 value:0\nhints\nkeep\nkeep\nstep 1 1:r1 1:f3\nstep 1 1:w0 1:e3\ncase 0\nstep 1 1:r1 1:r2 1:f3\ncase 0\nstep 1 1:r0\nstep 1 1:r1\nend\ncommand 4\nhints\nloop 0\ncase 0\nstep 1 1:e3\nend\n" => "accepted"),
    // A row of the case isn't kept by a turn.
    judged!("ENTRY{}{}{} INTEGERS{n} FUNCTION{f}{#3 'n := {n} {n #1 - 'n :=} while$} READ EXECUTE{f}", "loop #0 #1\nwrites n\ncase\nvar n 0\nis 0 int\nrow -1 1 value:0\nexit\nvar n 0\nrow 0 1 value:0\nrow 0 -1 value:0\nhints\nkeep\nkeep\nstep 1 1:r1 1:f3\nstep 1 1:w0 1:e3\ncase 0\nstep 1 1:r1 1:r2 1:f3\ncase 0\nstep 1 1:r0\nstep 1 1:r1\nend\ncommand 4\nhints\nloop 0\ncase 0\nstep 1 1:e3\nend\n" => "refused 1:50 NotEntailed 3"),
    // A turn's row takes another hint.
    judged!("ENTRY{}{}{} INTEGERS{n} FUNCTION{f}{#3 'n := {n} {n #1 - 'n :=} while$} READ EXECUTE{f}", "loop #0 #1\nwrites n\ncase\nvar n 0\nis 0 int\nrow 0 1 value:0\nexit\nvar n 0\nrow 0 1 value:0\nrow 0 -1 value:0\nhints\nkeep\nkeep\nstep 1 1:r1 1:f3\nstep 1 1:w0 1:e3\ncase 0\nkeep\nend\ncommand 4\nhints\nloop 0\ncase 0\nstep 1 1:e3\nend\n" => "refused 1:50 WrongHint"),
    // An exit's row isn't shown.
    judged!("ENTRY{}{}{} INTEGERS{n} FUNCTION{f}{#3 'n := {n} {n #1 - 'n :=} while$} READ EXECUTE{f}", "loop #0 #1\nwrites n\ncase\nvar n 0\nis 0 int\nrow 0 1 value:0\nexit\nvar n 0\nrow 0 1 value:0\nrow 0 -1 value:0\nhints\nkeep\nkeep\nstep 1 1:r1 1:f3\nstep 1 1:w0 1:e3\ncase 0\nstep 1 1:r1 1:r2 1:f3\ncase 0\nstep 1 1:r0\nstep 1 1:r0\nend\ncommand 4\nhints\nloop 0\ncase 0\nstep 1 1:e3\nend\n" => "refused 1:50 NotEntailed 3"),
    // An exit's fact isn't known.
    judged!("ENTRY{}{}{} INTEGERS{n} FUNCTION{f}{#3 'n := {n} {n #1 - 'n :=} while$} READ EXECUTE{f}", "loop #0 #1\nwrites n\ncase\nvar n 0\nexit\nvar n 0\nint 0 0\nhints\nkeep\nkeep\nstep 1 1:r0 1:f3\nstep 1 1:w0 1:e3\ncase 0\ncase 0\nend\ncommand 4\nhints\nloop 0\ncase 0\nend\n" => "refused 1:50 NotEntailed 2"),
    // The stack is one deeper where n isn't above 0: what can't come about is dropped from each case.
    judged!("ENTRY{}{}{} INTEGERS{n} FUNCTION{f}{#1 'n := {n #0 >} {#0 'n := \"a\"} while$ pop$} READ EXECUTE{f}", "loop #0 #1\nwrites n\ncase\nvar n 0\nrow -1 1 value:0\ncase\nstack 0\nvar n 1\nrow 0 -1 value:1\nexit\nstack 0\nhints\nkeep\ndrop 1 1:r0 1:r1 1:f3\ncase 1\nstep 1 1:f5\ndrop 1 1:r0 1:r1 1:e4\nkeep\ncase 0\nend\ncommand 4\nhints\nloop 0\ncase 0\nstep 1 1:e3\nend\n" => "accepted"),
    // The drop of the first case's end isn't shown: it stands at the test's token.
    judged!("ENTRY{}{}{} INTEGERS{n} FUNCTION{f}{#1 'n := {n #0 >} {#0 'n := \"a\"} while$ pop$} READ EXECUTE{f}", "loop #0 #1\nwrites n\ncase\nvar n 0\nrow -1 1 value:0\ncase\nstack 0\nvar n 1\nrow 0 -1 value:1\nexit\nstack 0\nhints\nkeep\ndrop 1 1:r0 1:r1\ncase 1\nstep 1 1:f5\ndrop 1 1:r0 1:r1 1:e4\nkeep\ncase 0\nend\ncommand 4\nhints\nloop 0\ncase 0\nstep 1 1:e3\nend\n" => "refused 1:52 NotEntailed 0"),
    // Neither is that of a further turn from the second.
    judged!("ENTRY{}{}{} INTEGERS{n} FUNCTION{f}{#1 'n := {n #0 >} {#0 'n := \"a\"} while$ pop$} READ EXECUTE{f}", "loop #0 #1\nwrites n\ncase\nvar n 0\nrow -1 1 value:0\ncase\nstack 0\nvar n 1\nrow 0 -1 value:1\nexit\nstack 0\nhints\nkeep\ndrop 1 1:r0 1:r1 1:f3\ncase 1\nstep 1 1:f5\ndrop 1 1:r0 1:e4\nkeep\ncase 0\nend\ncommand 4\nhints\nloop 0\ncase 0\nstep 1 1:e3\nend\n" => "refused 1:52 NotEntailed 0"),
    // It is kept, and its turn leaves two values.
    judged!("ENTRY{}{}{} INTEGERS{n} FUNCTION{f}{#1 'n := {n #0 >} {#0 'n := \"a\"} while$ pop$} READ EXECUTE{f}", "loop #0 #1\nwrites n\ncase\nvar n 0\nrow -1 1 value:0\ncase\nstack 0\nvar n 1\nrow 0 -1 value:1\nexit\nstack 0\nhints\nkeep\ndrop 1 1:r0 1:r1 1:f3\ncase 1\nstep 1 1:f5\nkeep\nkeep\ncase 1\nend\ncommand 4\nhints\nloop 0\ncase 0\nstep 1 1:e3\nend\n" => "refused 1:55 NotEntailed 0"),
    // An end of the first case is kept, and has no exit of its depth.
    judged!("ENTRY{}{}{} INTEGERS{n} FUNCTION{f}{#1 'n := {n #0 >} {#0 'n := \"a\"} while$ pop$} READ EXECUTE{f}", "loop #0 #1\nwrites n\ncase\nvar n 0\nrow -1 1 value:0\ncase\nstack 0\nvar n 1\nrow 0 -1 value:1\nexit\nstack 0\nhints\nkeep\nkeep\ncase 1\nstep 1 1:f5\ncase 0\nend\ncommand 4\nhints\nloop 0\ncase 0\nstep 1 1:e3\nend\n" => "refused 1:55 NotEntailed 0"),
    // Each depth has an exit of its own, and nothing is dropped.
    judged!("ENTRY{}{}{} INTEGERS{n} FUNCTION{f}{#1 'n := {n #0 >} {#0 'n := \"a\"} while$ stack$} READ EXECUTE{f}", "loop #0 #1\nwrites n\ncase\nvar n 0\ncase\nstack 0\nvar n 1\nint 1 0\nexit\nexit\nstack 0\nhints\nkeep\nkeep\ncase 1\ncase 0\ncase 1\nend\ncommand 4\nhints\nloop 0\ncase 0\nend\n" => "accepted"),
    // The integer itself is what the test leaves: the drops stand in the loop's own split.
    judged!("ENTRY{}{}{} INTEGERS{n} FUNCTION{f}{#1 'n := {n} {#0 'n := \"a\"} while$ pop$} READ EXECUTE{f}", "loop #0 #1\nwrites n\ncase\nvar n 0\nrow -1 1 value:0\ncase\nstack 0\nvar n 1\nrow 0 -1 value:1\nexit\nstack 0\nhints\nkeep\ndrop 1 1:r0 1:r1\ncase 1\nstep 1 1:f3\ndrop 1 1:r0 1:r1\nkeep\ncase 0\nend\ncommand 4\nhints\nloop 0\ncase 0\nstep 1 1:e3\nend\n" => "accepted"),
    // A test that is `if$` gives 257 states at the loop's place.
    judged!("ENTRY{}{}{} FUNCTION{g}{preamble$ empty$ pop$ preamble$ empty$ pop$ preamble$ empty$ pop$ preamble$ empty$ pop$ preamble$ empty$ pop$ preamble$ empty$ pop$ preamble$ empty$ pop$ preamble$ empty$ pop$ } FUNCTION{f}{{}} READ", "loop if$ #0\ncase\nstack 0 1 2\nis 0 int\ncall 1 g\ncall 2 skip$\nhints\nkeep\nkeep\nend\n" => "refused 1:215 TooManyCases"),
    // A test that enters itself without end.
    judged!("ENTRY{}{}{} FUNCTION{default.type}{call.type$} FUNCTION{f}{} READ", "loop default.type f\nentry\ncase\nhints\nend\n" => "refused 1:36 WalkTooDeep"),
    // A name that the check enters fails at the loop's place, too: no entry is visited.
    judged!("ENTRY{}{}{} FUNCTION{f}{{}} READ", "loop cite$ #0\ncase\nhints\nend\n" => "refused 1:25 NoEntry"),
    // A test that is `if$` on functions that aren't known exactly.
    judged!("ENTRY{}{}{} FUNCTION{f}{{}} READ", "loop if$ #0\ncase\nstack 0 1 1\nis 0 int\nis 1 func\nhints\nkeep\nkeep\nend\n" => "refused 1:25 UnknownFunction"),
    // A test that is `while$`, with a loop of other functions.
    judged!("ENTRY{}{}{} FUNCTION{f}{{}} READ", "loop while$ #0\ncase\nstack 0 0\ncall 0 skip$\nhints\nloop 0\nend\n" => "refused 1:25 NoInvariant"),
];
