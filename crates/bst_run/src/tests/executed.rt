//! What holds of the global variables behind EXECUTE. Each is accepted or refused by a rule on commands, with its place; where
//! nothing else is said the condition has a nine for each number.

use crate::tests::{Judged, compare_judged};
use std::test::Fail;

#[test]
fn what_a_call_says_is_known_behind_it(rt: HostRuntime) -> Result<(), Fail> {
    compare_judged(&rt, rt.alloc(), &EXECUTED)
}

static EXECUTED: [Judged; 7] = [
    // Before the first command each variable has the value with which it opens.
    judged!("ENTRY{}{}{} INTEGERS{n} FUNCTION{f}{n {pop$} 'skip$ if$} READ EXECUTE{f}", "" => "accepted"),
    // The numbers of bytes that strings may have are variables too.
    judged!("ENTRY{}{}{} FUNCTION{f}{entry.max$ #250 = 'skip$ {#1 #1 *} if$ global.max$ #20000 = 'skip$ {#1 #1 *} if$} READ EXECUTE{f}", "" => "accepted"),
    // Behind EXECUTE nothing is known that it doesn't say.
    judged!("ENTRY{}{}{} INTEGERS{n} FUNCTION{f}{n {pop$} 'skip$ if$} READ EXECUTE{f} EXECUTE{f}", "" => "refused 1:53 HintsShort"),
    // What holds after EXECUTE is there for the next command.
    judged!("ENTRY{}{}{} INTEGERS{n} FUNCTION{f}{n {pop$} 'skip$ if$} READ EXECUTE{f} EXECUTE{f}", "command 4\nafter\nvar n 0\nint 0 0\nhints\nend\n" => "accepted"),
    // A row that holds after EXECUTE.
    judged!("ENTRY{}{}{} INTEGERS{n} FUNCTION{g}{#5 'n :=} FUNCTION{f}{n int.to.chr$ pop$} READ EXECUTE{g} EXECUTE{f}", "command 5\nafter\nvar n 0\nrow 0 1 value:0\nrow 9 -1 value:0\nhints\nstep 1 1:e3\nstep 1 1:f3\nend\ncommand 6\nhints\nstep 1 1:r0\nstep 1 1:r1\nend\n" => "accepted"),
    // What doesn't hold after EXECUTE.
    judged!("ENTRY{}{}{} INTEGERS{n} FUNCTION{f}{#1 'n :=} READ EXECUTE{f}", "command 4\nafter\nvar n 0\nint 0 0\nhints\nend\n" => "refused 1:52 NotEntailed 2"),
    // What holds in the first state after EXECUTE alone.
    judged!("ENTRY{}{}{} INTEGERS{n} FUNCTION{f}{preamble$ empty$ {#1 'n :=} {#2 'n :=} if$} READ EXECUTE{f}", "command 4\nafter\nvar n 0\nint 0 1\nhints\nend\n" => "refused 1:86 NotEntailed 2"),
];
