//! What is entered at a `while$` and in a loop's own check, what an exit leaves, what a loop may write, and the loop over names.
//! Each is accepted or refused by a rule on loops, with its place; the condition has a nine for each number. In the loops of one
//! block on another block 0 is the test and block 1 the body, whose opening brace is the loop's place.

use crate::tests::{Judged, compare_judged};
use std::test::Fail;

#[test]
fn used_loops_leave_by_their_exits(rt: HostRuntime) -> Result<(), Fail> {
    compare_judged(&rt, rt.alloc(), &LEAVING)
}

static LEAVING: [Judged; 23] = [
    // The test isn't known exactly, and no hint is looked at.
    judged!("ENTRY{}{}{} FUNCTION{g}{'skip$} FUNCTION{f}{g 'skip$ while$} READ EXECUTE{f}", "summary g\npre\npost\nstack 0\nis 0 func\nhints\ncase 0\nend\ncommand 4\nhints\nuse 0\nend\n" => "refused 1:54 UnknownFunction"),
    // Nor is the body.
    judged!("ENTRY{}{}{} FUNCTION{g}{'skip$} FUNCTION{f}{'skip$ g while$} READ EXECUTE{f}", "summary g\npre\npost\nstack 0\nis 0 func\nhints\ncase 0\nend\ncommand 4\nhints\nuse 0\nend\n" => "refused 1:54 UnknownFunction"),
    // The test is no function.
    judged!("ENTRY{}{}{} FUNCTION{f}{#0 'skip$ while$} READ EXECUTE{f}", "" => "refused 1:35 WrongKind 2"),
    // There is no test.
    judged!("ENTRY{}{}{} FUNCTION{f}{'skip$ while$} READ EXECUTE{f}", "" => "refused 1:32 EmptyPop 2"),
    // A test that has a summary.
    judged!("ENTRY{}{}{} FUNCTION{g}{#0} FUNCTION{f}{'g 'skip$ while$} READ EXECUTE{f}", "summary g\npre\npost\nstack 0\nint 0 0\nhints\ncase 0\nend\nloop g skip$\ncase\nexit\nhints\nuse 0\ncase 0\nend\ncommand 4\nhints\nloop 0\ncase 0\nend\n" => "accepted"),
    // It is walked.
    judged!("ENTRY{}{}{} FUNCTION{g}{#0} FUNCTION{f}{'g 'skip$ while$} READ EXECUTE{f}", "summary g\npre\npost\nstack 0\nint 0 0\nhints\ncase 0\nend\nloop g skip$\ncase\nexit\nhints\nwalk\ncase 0\nend\ncommand 4\nhints\nloop 0\ncase 0\nend\n" => "accepted"),
    // Another hint for it.
    judged!("ENTRY{}{}{} FUNCTION{g}{#0} FUNCTION{f}{'g 'skip$ while$} READ EXECUTE{f}", "summary g\npre\npost\nstack 0\nint 0 0\nhints\ncase 0\nend\nloop g skip$\ncase\nexit\nhints\ncase 0\nend\ncommand 4\nhints\nloop 0\ncase 0\nend\n" => "refused 1:1 WrongHint"),
    // A summary of a number that isn't there.
    judged!("ENTRY{}{}{} FUNCTION{g}{#0} FUNCTION{f}{'g 'skip$ while$} READ EXECUTE{f}", "summary g\npre\npost\nstack 0\nint 0 0\nhints\ncase 0\nend\nloop g skip$\ncase\nexit\nhints\nuse 1\ncase 0\nend\ncommand 4\nhints\nloop 0\ncase 0\nend\n" => "refused 1:1 NoSummary"),
    // A built-in function that the check enters takes the hint of its summary.
    judged!("ENTRY{}{}{} FUNCTION{f}{{#1} 'skip$ while$} READ EXECUTE{f}", "summary skip$\npre\npost\nhints\ncase 0\nend\nloop #0 skip$\ncase\nhints\nuse 0\ncase 0\nend\ncommand 3\nhints\nloop 0\ncase 0\nend\n" => "accepted"),
    // No hint is left for it.
    judged!("ENTRY{}{}{} FUNCTION{f}{{#1} 'skip$ while$} READ EXECUTE{f}", "summary skip$\npre\npost\nhints\ncase 0\nend\nloop #0 skip$\ncase\nhints\nend\ncommand 3\nhints\nloop 0\ncase 0\nend\n" => "refused 1:1 HintsShort"),
    // A loop that never ends has no exit, and what follows isn't walked.
    judged!("ENTRY{}{}{} FUNCTION{f}{{#1} 'skip$ while$ pop$} READ EXECUTE{f}", "loop #0 skip$\ncase\nhints\ncase 0\nend\ncommand 3\nhints\nloop 0\ncase 0\nend\n" => "accepted"),
    // An exit that no state reaches is left all the same.
    judged!("ENTRY{}{}{} FUNCTION{f}{{#1} 'skip$ while$ pop$} READ EXECUTE{f}", "loop #0 skip$\ncase\nexit\nhints\ncase 0\nend\ncommand 3\nhints\nloop 0\ncase 0\nend\n" => "refused 1:44 EmptyPop 1"),
    // What follows is fine behind such an exit.
    judged!("ENTRY{}{}{} FUNCTION{f}{{#1} 'skip$ while$ pop$} READ EXECUTE{f}", "loop #0 skip$\ncase\nexit\nstack 0\nhints\ncase 0\nend\ncommand 3\nhints\nloop 0\ncase 0\nend\n" => "accepted"),
    // An exit shares no symbol with the case: what the case knew is lost.
    judged!("ENTRY{}{}{} FUNCTION{f}{\"a\" {#0} 'skip$ while$ write$} READ EXECUTE{f}", "loop #0 skip$\ncase\nstack 0\nis 0 str\nexit\nstack 0\nhints\ncase 0\nend\ncommand 3\nhints\nloop 0\ncase 0\nend\n" => "refused 1:48 WrongKind 1"),
    // An exit says it again.
    judged!("ENTRY{}{}{} FUNCTION{f}{\"a\" {#0} 'skip$ while$ write$} READ EXECUTE{f}", "loop #0 skip$\ncase\nstack 0\nis 0 str\nexit\nstack 0\nis 0 str\nhints\ncase 0\nend\ncommand 3\nhints\nloop 0\ncase 0\nend\n" => "accepted"),
    // A variable that the loop doesn't write keeps its value.
    judged!("ENTRY{}{}{} INTEGERS{n} FUNCTION{f}{#1 'n := {#0} 'skip$ while$ n #1 = 'skip$ {#1 #1 *} if$} READ EXECUTE{f}", "loop #0 skip$\ncase\nexit\nhints\ncase 0\nend\ncommand 4\nhints\nloop 0\ncase 0\nend\n" => "accepted"),
    // One that it may write is lost.
    judged!("ENTRY{}{}{} INTEGERS{n} FUNCTION{f}{#1 'n := {#0} 'skip$ while$ n #1 = 'skip$ {#1 #1 *} if$} READ EXECUTE{f}", "loop #0 skip$\nwrites n\ncase\nexit\nhints\ncase 0\nend\ncommand 4\nhints\nloop 0\ncase 0\nend\n" => "refused 1:70 HintsShort"),
    // An exit says it.
    judged!("ENTRY{}{}{} INTEGERS{n} FUNCTION{f}{#1 'n := {#0} 'skip$ while$ n #1 = 'skip$ {#1 #1 *} if$} READ EXECUTE{f}", "loop #0 skip$\nwrites n\ncase\nvar n 0\nint 0 1\nexit\nvar n 0\nint 0 1\nhints\ncase 0\nend\ncommand 4\nhints\nloop 0\ncase 0\nend\n" => "accepted"),
    // The body writes a variable that the loop doesn't list.
    judged!("ENTRY{}{}{} INTEGERS{n} FUNCTION{f}{#3 'n := {n} {n #1 - 'n :=} while$} READ EXECUTE{f}", "loop #0 #1\ncase\nvar n 0\nexit\nhints\nkeep\nkeep\nstep 1 1:r0 1:f3\nstep 1 1:w0 1:e3\ncase 0\ncase 0\nend\ncommand 4\nhints\nloop 0\ncase 0\nend\n" => "refused 1:61 NotEntailed 0"),
    // So does the test.
    judged!("ENTRY{}{}{} INTEGERS{n} FUNCTION{f}{{#0 'n := #0} 'skip$ while$} READ EXECUTE{f}", "loop #0 skip$\ncase\nexit\nhints\ncase 0\nend\ncommand 4\nhints\nloop 0\ncase 0\nend\n" => "refused 1:44 NotEntailed 0"),
    // The loop over names of `examples/names.bst`, over a text.
    judged!("ENTRY{}{}{} INTEGERS{at left} STRINGS{s} FUNCTION{joined}{left #1 > {\", \"} {\" and \"} if$ swap$ * *} FUNCTION{names}{'s := #1 'at := s num.names$ 'left := {left #0 >} {s at \"{f.~}{vv~}{ll}{, jj}\" format.name$ at #1 > 'joined 'skip$ if$ at #1 + 'at := left #1 - 'left :=} while$} FUNCTION{f}{\"A B and C D\" names write$} READ EXECUTE{f}", "summary joined\npre\nstack 0 1\nis 0 str\nis 1 str\npost\nstack 2\nis 2 str\nhints\nkeep\nkeep\ncase 0\ncase 0\nend\nloop #2 #3\nwrites at\nwrites left\ncase\nvar at 0\nvar left 1\nvar s 2\nint 0 1\nwellformed 2\nrow -1 1 value:1\nrow 0 -1 value:1 1 names:2\ncase\nstack 0\nvar at 1\nvar left 2\nvar s 3\nis 0 str\nwellformed 3\nrow -2 1 value:1\nrow 1 -1 value:1 -1 value:2 1 names:3\nexit\nstack 0\nis 0 str\nhints\nkeep\ndrop 1 1:r0 1:r3 1:f5\nstep 1 1:e0\nstep 1 1:r0 1:r1 1:f0\nstep 1 1:r0 1:f16\nstep 1 1:w1 1:e16\ncase 1\nstep 1 1:e14\nstep 1 1:r1 1:r5 1:f14 1:e16\nkeep\nkeep\nstep 1 1:r0\nstep 1 1:r1 1:r3 1:e6\nkeep\ndrop 1 1:r0 1:r4 1:f10\nuse 0\nstep 1 1:r0 1:e15\nstep 1 1:r1 1:r2 1:r3 1:m3 1:e6 1:f15\nstep 1 1:r3 1:e6 1:f18\nstep 1 1:w2 1:e18\ncase 1\nstep 1 1:r0 1:r5 1:e15\nstep 1 1:r1 1:r6 1:r8 1:f15 1:e18\ncase 0\nend\ncommand 7\nhints\nstep 1 1:m5 1:u5\nloop 0\ncase 0\nstep 1 1:r1 1:c5\nstep 1 1:r2\nend\n" => "accepted"),
    // Of a text whose names may not be well formed.
    judged!("ENTRY{}{}{} INTEGERS{at left} STRINGS{s} FUNCTION{joined}{left #1 > {\", \"} {\" and \"} if$ swap$ * *} FUNCTION{names}{'s := #1 'at := s num.names$ 'left := {left #0 >} {s at \"{f.~}{vv~}{ll}{, jj}\" format.name$ at #1 > 'joined 'skip$ if$ at #1 + 'at := left #1 - 'left :=} while$} FUNCTION{f}{preamble$ names write$} READ EXECUTE{f}", "summary joined\npre\nstack 0 1\nis 0 str\nis 1 str\npost\nstack 2\nis 2 str\nhints\nkeep\nkeep\ncase 0\ncase 0\nend\nloop #2 #3\nwrites at\nwrites left\ncase\nvar at 0\nvar left 1\nvar s 2\nint 0 1\nwellformed 2\nrow -1 1 value:1\nrow 0 -1 value:1 1 names:2\ncase\nstack 0\nvar at 1\nvar left 2\nvar s 3\nis 0 str\nwellformed 3\nrow -2 1 value:1\nrow 1 -1 value:1 -1 value:2 1 names:3\nexit\nstack 0\nis 0 str\nhints\nkeep\ndrop 1 1:r0 1:r3 1:f5\nstep 1 1:e0\nstep 1 1:r0 1:r1 1:f0\nstep 1 1:r0 1:f16\nstep 1 1:w1 1:e16\ncase 1\nstep 1 1:e14\nstep 1 1:r1 1:r5 1:f14 1:e16\nkeep\nkeep\nstep 1 1:r0\nstep 1 1:r1 1:r3 1:e6\nkeep\ndrop 1 1:r0 1:r4 1:f10\nuse 0\nstep 1 1:r0 1:e15\nstep 1 1:r1 1:r2 1:r3 1:m3 1:e6 1:f15\nstep 1 1:r3 1:e6 1:f18\nstep 1 1:w2 1:e18\ncase 1\nstep 1 1:r0 1:r5 1:e15\nstep 1 1:r1 1:r6 1:r8 1:f15 1:e18\ncase 0\nend\ncommand 7\nhints\nstep 1 1:r1\nstep 1 1:m5 1:r1\nloop 0\ncase 0\nstep 1 1:r2\nstep 1 1:r3\nend\n" => "refused 1:271 NotEntailed 5"),
    // Of one that has no names: none is left in the first turn.
    judged!("ENTRY{}{}{} INTEGERS{at left} STRINGS{s} FUNCTION{joined}{left #1 > {\", \"} {\" and \"} if$ swap$ * *} FUNCTION{names}{'s := #1 'at := s num.names$ 'left := {left #0 >} {s at \"{f.~}{vv~}{ll}{, jj}\" format.name$ at #1 > 'joined 'skip$ if$ at #1 + 'at := left #1 - 'left :=} while$} FUNCTION{f}{\"\" names write$} READ EXECUTE{f}", "summary joined\npre\nstack 0 1\nis 0 str\nis 1 str\npost\nstack 2\nis 2 str\nhints\nkeep\nkeep\ncase 0\ncase 0\nend\nloop #2 #3\nwrites at\nwrites left\ncase\nvar at 0\nvar left 1\nvar s 2\nint 0 1\nwellformed 2\nrow -1 1 value:1\nrow 0 -1 value:1 1 names:2\ncase\nstack 0\nvar at 1\nvar left 2\nvar s 3\nis 0 str\nwellformed 3\nrow -2 1 value:1\nrow 1 -1 value:1 -1 value:2 1 names:3\nexit\nstack 0\nis 0 str\nhints\nkeep\ndrop 1 1:r0 1:r3 1:f5\nstep 1 1:e0\nstep 1 1:r0 1:r1 1:f0\nstep 1 1:r0 1:f16\nstep 1 1:w1 1:e16\ncase 1\nstep 1 1:e14\nstep 1 1:r1 1:r5 1:f14 1:e16\nkeep\nkeep\nstep 1 1:r0\nstep 1 1:r1 1:r3 1:e6\nkeep\ndrop 1 1:r0 1:r4 1:f10\nuse 0\nstep 1 1:r0 1:e15\nstep 1 1:r1 1:r2 1:r3 1:m3 1:e6 1:f15\nstep 1 1:r3 1:e6 1:f18\nstep 1 1:w2 1:e18\ncase 1\nstep 1 1:r0 1:r5 1:e15\nstep 1 1:r1 1:r6 1:r8 1:f15 1:e18\ncase 0\nend\ncommand 7\nhints\nstep 1 1:m5 1:u5\nloop 0\ncase 0\nstep 1 1:r1 1:n5\nstep 1 1:r2\nend\n" => "refused 1:271 NotEntailed 6"),
];
