//! Records of commands, demands and the number of states. Each is accepted or refused by a rule on units and calls, with its place;
//! the condition has a nine for each number.

use crate::tests::{Judged, compare_judged};
use std::test::Fail;

#[test]
fn demands_and_limits_have_their_places(rt: HostRuntime) -> Result<(), Fail> {
    compare_judged(&rt, rt.alloc(), &DEMANDS)
}

static DEMANDS: [Judged; 32] = [
    // A record for READ.
    judged!("ENTRY{}{}{} FUNCTION{f}{} READ EXECUTE{f}", "command 2\nhints\nend\n" => "refused 1:27 CommandShape"),
    // A record for a declaration.
    judged!("ENTRY{}{}{} FUNCTION{f}{} READ EXECUTE{f}", "command 0\nhints\nend\n" => "refused 1:1 CommandShape"),
    // EmptyPop.
    judged!("ENTRY{}{}{} FUNCTION{f}{\"a\" *} READ EXECUTE{f}", "" => "refused 1:29 EmptyPop 2"),
    // NotVariable.
    judged!("ENTRY{}{}{} FUNCTION{f}{#1 'skip$ :=} READ EXECUTE{f}", "" => "refused 1:35 NotVariable 1"),
    // Another kind for a variable.
    judged!("ENTRY{}{}{} STRINGS{s} FUNCTION{f}{#1 's :=} READ EXECUTE{f}", "" => "refused 1:42 WrongKind 2"),
    // No entry is visited.
    judged!("ENTRY{}{}{} FUNCTION{f}{cite$ pop$} READ EXECUTE{f}", "" => "refused 1:25 NoEntry"),
    // BadCase.
    judged!("ENTRY{}{}{} FUNCTION{f}{\"a\" \"x\" change.case$ pop$} READ EXECUTE{f}", "" => "refused 1:33 BadCase 1"),
    // NotOneByte.
    judged!("ENTRY{}{}{} FUNCTION{f}{\"ab\" chr.to.int$ pop$} READ EXECUTE{f}", "command 3\nhints\nstep 1 1:t2\nstep 1 1:u2\nend\n" => "refused 1:30 NotOneByte 1"),
    // One byte.
    judged!("ENTRY{}{}{} FUNCTION{f}{\"a\" chr.to.int$ #97 = 'skip$ {#1 #1 *} if$} READ EXECUTE{f}", "" => "accepted"),
    // NotAscii.
    judged!("ENTRY{}{}{} FUNCTION{f}{#200 int.to.chr$ pop$} READ EXECUTE{f}", "command 3\nhints\nstep 1 1:e2\nstep 1 1:f2\nend\n" => "refused 1:30 NotAscii 1"),
    // BadNameIndex.
    judged!("ENTRY{}{}{} FUNCTION{f}{\"A B\" #0 \"{ff}\" format.name$ pop$} READ EXECUTE{f}", "command 3\nhints\nstep 1 1:e3\nend\n" => "refused 1:41 BadNameIndex 2"),
    // BadName.
    judged!("ENTRY{}{}{} FUNCTION{f}{\"A, B, C, D\" #1 \"{ff}\" format.name$ pop$} READ EXECUTE{f}", "command 3\nhints\nstep 1 1:e3\nstep 1 1:c2 1:f3\nend\n" => "refused 1:48 BadName 3"),
    // IntRange.
    judged!("ENTRY{}{}{} FUNCTION{f}{#2147483647 #1 + pop$} READ EXECUTE{f}", "" => "refused 1:40 IntRange"),
    // A step shows that a sum fits.
    judged!("ENTRY{}{}{} INTEGERS{n} FUNCTION{g}{#1 'n :=} FUNCTION{f}{g n #1 + pop$} READ EXECUTE{f}", "summary g\nwrites n\npre\npost\nvar n 0\nrow 9 -1 value:0\nhints\ncase 0\nstep 1 1:f3\nend\ncommand 5\nhints\nuse 0\nstep 1 1:v3 1:e4\nstep 1 1:r0 1:f4\nend\n" => "accepted"),
    // StackLeft.
    judged!("ENTRY{}{}{} FUNCTION{f}{\"a\"} READ EXECUTE{f}", "" => "refused 1:35 StackLeft"),
    // 256 states.
    judged!("ENTRY{}{}{} FUNCTION{f}{preamble$ empty$ pop$ preamble$ empty$ pop$ preamble$ empty$ pop$ preamble$ empty$ pop$ preamble$ empty$ pop$ preamble$ empty$ pop$ preamble$ empty$ pop$ preamble$ empty$ pop$ } READ EXECUTE{f}", "" => "accepted"),
    // 512 states.
    judged!("ENTRY{}{}{} FUNCTION{f}{preamble$ empty$ pop$ preamble$ empty$ pop$ preamble$ empty$ pop$ preamble$ empty$ pop$ preamble$ empty$ pop$ preamble$ empty$ pop$ preamble$ empty$ pop$ preamble$ empty$ pop$ preamble$ empty$ pop$ } READ EXECUTE{f}", "" => "refused 1:211 TooManyCases"),
    // 257 states.
    judged!("ENTRY{}{}{} FUNCTION{f}{preamble$ empty$ {preamble$ empty$ pop$ preamble$ empty$ pop$ preamble$ empty$ pop$ preamble$ empty$ pop$ preamble$ empty$ pop$ preamble$ empty$ pop$ preamble$ empty$ pop$ preamble$ empty$ pop$ } 'skip$ if$} READ EXECUTE{f}", "" => "refused 1:228 TooManyCases"),
    // A variable of an entry is written where none is visited.
    judged!("ENTRY{}{n}{} FUNCTION{f}{#1 'n :=} READ EXECUTE{f}", "" => "refused 1:32 NoEntry"),
    // A string that may be cut takes a hint.
    judged!("ENTRY{}{}{} STRINGS{s} FUNCTION{f}{preamble$ 's :=} READ EXECUTE{f}", "" => "refused 1:49 HintsShort"),
    // It is cut.
    judged!("ENTRY{}{}{} STRINGS{s} FUNCTION{f}{preamble$ 's :=} READ EXECUTE{f}", "command 4\nhints\nplain\nend\n" => "accepted"),
    // It isn't too long.
    judged!("ENTRY{}{}{} STRINGS{s} FUNCTION{f}{preamble$ 's :=} READ EXECUTE{f}", "command 4\nhints\nstep 1 1:r1\nend\n" => "accepted"),
    // A step that doesn't show that.
    judged!("ENTRY{}{}{} STRINGS{s} FUNCTION{f}{preamble$ 's :=} READ EXECUTE{f}", "command 4\nhints\nstep 1 1:r0\nend\n" => "refused 1:49 NotEntailed 0"),
    // Another hint.
    judged!("ENTRY{}{}{} STRINGS{s} FUNCTION{f}{preamble$ 's :=} READ EXECUTE{f}", "command 4\nhints\nkeep\nend\n" => "refused 1:49 WrongHint"),
    // A part within a string.
    judged!("ENTRY{}{}{} FUNCTION{f}{\"abc\" #1 #2 substring$ pop$} READ EXECUTE{f}", "command 3\nhints\nstep 1 1:t2\nend\n" => "accepted"),
    // A part that reaches beyond it.
    judged!("ENTRY{}{}{} FUNCTION{f}{\"abc\" #1 #4 substring$ pop$} READ EXECUTE{f}", "command 3\nhints\nstep 1 1:t2\nend\n" => "refused 1:37 NotEntailed 0"),
    // A part from place 0 has no step.
    judged!("ENTRY{}{}{} FUNCTION{f}{\"abc\" #0 #2 substring$ pop$} READ EXECUTE{f}", "command 3\nhints\nstep 1 1:t2\nend\n" => "refused 1:37 WrongHint"),
    // It has the rule of all parts.
    judged!("ENTRY{}{}{} FUNCTION{f}{\"abc\" #0 #2 substring$ pop$} READ EXECUTE{f}", "command 3\nhints\nplain\nend\n" => "accepted"),
    // 256 bodies, one in the other: g enters itself until its number is 0.
    judged!("ENTRY{}{}{} INTEGERS{n} FUNCTION{g}{swap$ #1 - duplicate$ 'n := swap$ duplicate$ n swap$ 'skip$ if$} FUNCTION{f}{#255 'g g pop$ pop$} READ EXECUTE{f}", "" => "accepted"),
    // 257 bodies.
    judged!("ENTRY{}{}{} INTEGERS{n} FUNCTION{g}{swap$ #1 - duplicate$ 'n := swap$ duplicate$ n swap$ 'skip$ if$} FUNCTION{f}{#256 'g g pop$ pop$} READ EXECUTE{f}", "" => "refused 1:97 WalkTooDeep"),
    // 256 bodies with that of a summary.
    judged!("ENTRY{}{}{} INTEGERS{n} FUNCTION{g}{swap$ #1 - duplicate$ 'n := swap$ duplicate$ n swap$ 'skip$ if$} FUNCTION{f}{#255 'g g pop$ pop$} READ EXECUTE{f}", "summary f\nwrites n\npre\npost\nhints\ncase 0\nend\ncommand 5\nhints\nuse 0\nend\n" => "accepted"),
    // 257 bodies with that of a summary.
    judged!("ENTRY{}{}{} INTEGERS{n} FUNCTION{g}{swap$ #1 - duplicate$ 'n := swap$ duplicate$ n swap$ 'skip$ if$} FUNCTION{f}{#256 'g g pop$ pop$} READ EXECUTE{f}", "summary f\nwrites n\npre\npost\nhints\ncase 0\nend\ncommand 5\nhints\nuse 0\nend\n" => "refused 1:97 WalkTooDeep"),
];
