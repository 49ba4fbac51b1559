//! What holds of the global variables before each visit: `pos` is 0 before the first, rises with each, and is `count` behind the
//! last. Each is accepted or refused by a rule on commands, with its place; where nothing else is said the condition has a nine for
//! each number.

use crate::tests::{Judged, compare_judged};
use std::test::Fail;

#[test]
fn visits_are_counted(rt: HostRuntime) -> Result<(), Fail> {
    compare_judged(&rt, rt.alloc(), &COUNTED)
}

static COUNTED: [Judged; 14] = [
    // A counter that stays within ASCII for 31 entries.
    judged_under!("entries 31\nkey 9\npreamble 9\nlength 9\nothertype yes\n", "INTEGERS{n} ENTRY{}{}{} FUNCTION{init}{\"a\" chr.to.int$ 'n :=}\nFUNCTION{next}{n int.to.chr$ write$ n #1 + 'n :=}\nREAD EXECUTE{init} ITERATE{next}\n", "command 5\nafter\nvar n 0\nint 0 97\nhints\nend\ncommand 6\nvisit\nvar n 0\nrow -97 1 value:0 -1 pos\nrow 97 -1 value:0 1 pos\nhints\nstep 1 1:e0\nstep 1 1:f0\nstep 1 1:r0 1:p\nstep 1 1:r1 1:q 1:z\nstep 1 1:v0 1:e6\nstep 1 1:r1 1:q 1:z 1:f6\nstep 1 1:r6 1:r0 1:e6\nstep 1 1:r7 1:r1 1:f6\nend\n" => "accepted"),
    // With one entry more it may leave it.
    judged_under!("entries 32\nkey 9\npreamble 9\nlength 9\nothertype yes\n", "INTEGERS{n} ENTRY{}{}{} FUNCTION{init}{\"a\" chr.to.int$ 'n :=}\nFUNCTION{next}{n int.to.chr$ write$ n #1 + 'n :=}\nREAD EXECUTE{init} ITERATE{next}\n", "command 5\nafter\nvar n 0\nint 0 97\nhints\nend\ncommand 6\nvisit\nvar n 0\nrow -97 1 value:0 -1 pos\nrow 97 -1 value:0 1 pos\nhints\nstep 1 1:e0\nstep 1 1:f0\nstep 1 1:r0 1:p\nstep 1 1:r1 1:q 1:z\nstep 1 1:v0 1:e6\nstep 1 1:r1 1:q 1:z 1:f6\nstep 1 1:r6 1:r0 1:e6\nstep 1 1:r7 1:r1 1:f6\nend\n" => "refused 2:18 NotAscii 1"),
    // A variable that counts the visits has the number of entries behind them.
    judged!("ENTRY{}{}{} INTEGERS{n} FUNCTION{p}{n #1 + 'n :=} FUNCTION{f}{n int.to.chr$ pop$} READ ITERATE{p} EXECUTE{f}", "command 5\nvisit\nvar n 0\nrow 0 1 value:0 -1 pos\nrow 0 -1 value:0 1 pos\nhints\nstep 1 1:e2\nstep 1 1:f2\nstep 1 1:v0 1:e5\nstep 1 1:r1 1:q 1:z 1:f5\nstep 1 1:r4 1:r0 1:e5\nstep 1 1:r5 1:r1 1:f5\nend\ncommand 6\nhints\nstep 1 1:r0 1:o\nstep 1 1:r1 1:z\nend\n" => "accepted"),
    // The same from the last entry to the first.
    judged!("ENTRY{}{}{} INTEGERS{n} FUNCTION{p}{n #1 + 'n :=} FUNCTION{f}{n int.to.chr$ pop$} READ REVERSE{p} EXECUTE{f}", "command 5\nvisit\nvar n 0\nrow 0 1 value:0 -1 pos\nrow 0 -1 value:0 1 pos\nhints\nstep 1 1:e2\nstep 1 1:f2\nstep 1 1:v0 1:e5\nstep 1 1:r1 1:q 1:z 1:f5\nstep 1 1:r4 1:r0 1:e5\nstep 1 1:r5 1:r1 1:f5\nend\ncommand 6\nhints\nstep 1 1:r0 1:o\nstep 1 1:r1 1:z\nend\n" => "accepted"),
    // It is counted down again, and then it is 0.
    judged!("ENTRY{}{}{} INTEGERS{n} FUNCTION{p}{n #1 + 'n :=} FUNCTION{g}{n int.to.chr$ pop$ n #1 - 'n :=} FUNCTION{f}{n {#1 #1 *} 'skip$ if$} READ ITERATE{p} REVERSE{g} EXECUTE{f}", "command 6\nvisit\nvar n 0\nrow 0 1 value:0 -1 pos\nrow 0 -1 value:0 1 pos\nhints\nstep 1 1:e2\nstep 1 1:f2\nstep 1 1:v0 1:e5\nstep 1 1:r1 1:q 1:z 1:f5\nstep 1 1:r4 1:r0 1:e5\nstep 1 1:r5 1:r1 1:f5\nend\ncommand 7\nvisit\nvar n 0\nrow 0 1 value:0 1 pos -1 count\nrow 0 -1 value:0 -1 pos 1 count\nhints\nstep 1 1:r0\nstep 1 1:r1\nstep 1 1:r0 1:q\nstep 1 1:r1 1:p 1:z\nstep 1 1:r0 1:q 1:f6\nstep 1 1:r1 1:p 1:z 1:e6\nstep 1 1:r6 1:r0 1:f6\nstep 1 1:r7 1:r1 1:e6\nend\ncommand 8\nhints\ndrop 1 1:r1 1:r2\nkeep\nend\n" => "accepted"),
    // No visit raises the variable.
    judged!("ENTRY{}{}{} INTEGERS{n} FUNCTION{p}{} READ ITERATE{p}", "command 4\nvisit\nvar n 0\nrow 0 1 value:0 -1 pos\nhints\nstep 1 1:e2\nstep 1 1:r0\nend\n" => "refused 1:44 NotEntailed 2"),
    // Then it is at most the number of visits.
    judged!("ENTRY{}{}{} INTEGERS{n} FUNCTION{p}{} READ ITERATE{p}", "command 4\nvisit\nvar n 0\nrow 0 -1 value:0 1 pos\nhints\nstep 1 1:f2\nstep 1 1:r0\nend\n" => "accepted"),
    // A visit that raises it by two.
    judged!("ENTRY{}{}{} INTEGERS{n} FUNCTION{p}{n #2 + 'n :=} READ ITERATE{p}", "command 4\nvisit\nvar n 0\nrow 0 -1 value:0 1 pos\nhints\nstep 1 1:f2\nstep 1 1:v0 1:e5\nstep 1 1:r0 1:q 1:z 1:f5\nstep 1 1:r4 1:r0 1:f5\nend\n" => "refused 1:56 NotEntailed 2"),
    // What doesn't hold before the first visit is refused before the walk.
    judged!("ENTRY{}{}{} INTEGERS{n} FUNCTION{p}{*} READ ITERATE{p}", "command 4\nvisit\nvar n 0\nrow -1 1 value:0\nhints\nstep 1 1:e2\nend\n" => "refused 1:45 NotEntailed 2"),
    // Its step is missing.
    judged!("ENTRY{}{}{} INTEGERS{n} FUNCTION{p}{*} READ ITERATE{p}", "command 4\nvisit\nvar n 0\nrow 0 1 value:0\nhints\nend\n" => "refused 1:45 HintsShort"),
    // Before the first visit the number of visits is 0, and no reference says so.
    judged!("ENTRY{}{}{} FUNCTION{p}{} READ ITERATE{p}", "command 3\nvisit\nrow 0 1 pos\nhints\nstep 1\nstep 1 1:p\nend\n" => "accepted"),
    // There is no entry yet.
    judged!("ENTRY{}{}{} FUNCTION{p}{} READ ITERATE{p}", "command 3\nvisit\nrow 0 1 pos\nhints\nstep 1 1:p\nstep 1 1:p\nend\n" => "refused 1:32 NotEntailed 1"),
    // What the next visit needs comes before what this one keeps.
    judged!("ENTRY{}{m}{} INTEGERS{n} FUNCTION{p}{#1 'n := #1 'm :=} READ ITERATE{p}", "command 4\nvisit\nvar n 0\nint 0 0\nkeeps\nrow -1\nhints\nend\n" => "refused 1:62 NotEntailed 2"),
    // Global variables of which a visit says nothing aren't known behind it.
    judged!("ENTRY{}{}{} FUNCTION{f}{entry.max$ #250 = 'skip$ {#1 #1 *} if$} READ ITERATE{skip$} EXECUTE{f}", "" => "refused 1:41 HintsShort"),
];
