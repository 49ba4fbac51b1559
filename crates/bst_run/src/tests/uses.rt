//! What a used summary leaves, and what is entered. Each is accepted or refused by a rule on units and calls, with its place; the
//! condition has a nine for each number.

use crate::tests::{Judged, compare_judged};
use std::test::Fail;

#[test]
fn used_summaries_leave_what_they_say(rt: HostRuntime) -> Result<(), Fail> {
    compare_judged(&rt, rt.alloc(), &USES)
}

static USES: [Judged; 38] = [
    // A post shares the symbols of its pre.
    judged!("ENTRY{}{}{} FUNCTION{g}{swap$} FUNCTION{f}{\"a\" #1 g write$ #1 + pop$} READ EXECUTE{f}", "summary g\npre\nstack 0 1\npost\nstack 1 0\nhints\ncase 0\nend\ncommand 4\nhints\nuse 0\nend\n" => "accepted"),
    // A post's new symbols keep nothing.
    judged!("ENTRY{}{}{} FUNCTION{g}{swap$} FUNCTION{f}{\"a\" #1 g write$ #1 + pop$} READ EXECUTE{f}", "summary g\npre\nstack 0 1\npost\nstack 2 3\nhints\ncase 0\nend\ncommand 4\nhints\nuse 0\nend\n" => "refused 1:53 WrongKind 1"),
    // What lies below a pre stays.
    judged!("ENTRY{}{}{} FUNCTION{g}{pop$} FUNCTION{f}{\"x\" \"a\" g write$} READ EXECUTE{f}", "summary g\npre\nstack 0\npost\nhints\ncase 0\nend\ncommand 4\nhints\nuse 0\nend\n" => "accepted"),
    // A whole stack is what the pre says.
    judged!("ENTRY{}{}{} FUNCTION{g}{pop$} FUNCTION{f}{\"x\" \"a\" g pop$} READ EXECUTE{f}", "summary g\nwhole\npre\nstack 0\npost\nhints\ncase 0\nend\ncommand 4\nhints\nuse 0\nend\n" => "refused 1:51 NotEntailed 0"),
    // Stack$ wants a whole stack.
    judged!("ENTRY{}{}{} FUNCTION{g}{stack$} FUNCTION{f}{g} READ EXECUTE{f}", "summary g\npre\npost\nhints\ncase 0\nend\ncommand 4\nhints\nuse 0\nend\n" => "refused 1:25 WholeStack"),
    // Stack$ where the stack is whole.
    judged!("ENTRY{}{}{} FUNCTION{g}{stack$} FUNCTION{f}{g} READ EXECUTE{f}", "summary g\nwhole\npre\npost\nhints\ncase 0\nend\ncommand 4\nhints\nuse 0\nend\n" => "accepted"),
    // A summary with two posts.
    judged!("ENTRY{}{}{} FUNCTION{g}{preamble$ empty$ 'skip$ {\"b\" pop$} if$} FUNCTION{f}{g} READ EXECUTE{f}", "summary g\npre\npost\npost\nhints\ncase 1\ncase 0\nend\ncommand 4\nhints\nuse 0\nend\n" => "accepted"),
    // A state at an entry is asked for.
    judged!("ENTRY{}{}{} FUNCTION{g}{cite$ pop$} FUNCTION{f}{g} READ EXECUTE{f}", "summary g\nentry\npre\npost\nhints\ncase 0\nend\ncommand 4\nhints\nuse 0\nend\n" => "refused 1:49 NotEntailed 0"),
    // A summary at an entry is checked there.
    judged!("ENTRY{t}{}{} FUNCTION{g}{t pop$} FUNCTION{f}{} READ EXECUTE{f}", "summary g\nentry\npre\npost\nhints\ncase 0\nend\n" => "accepted"),
    // A field's symbol in a pre.
    judged!("ENTRY{t}{}{} FUNCTION{g}{t write$} FUNCTION{f}{} READ EXECUTE{f}", "summary g\nentry\npre\nfield t 0\nis 0 str\npost\nhints\ncase 0\nend\n" => "accepted"),
    // A field that may be missing.
    judged!("ENTRY{t}{}{} FUNCTION{g}{t write$} FUNCTION{f}{} READ EXECUTE{f}", "summary g\nentry\npre\npost\nhints\ncase 0\nend\n" => "refused 1:28 WrongKind 1"),
    // No entry where a summary has none.
    judged!("ENTRY{t}{}{} FUNCTION{g}{t pop$} FUNCTION{f}{} READ EXECUTE{f}", "summary g\npre\npost\nhints\ncase 0\nend\n" => "refused 1:26 NoEntry"),
    // A summary writes what it lists.
    judged!("ENTRY{}{}{} INTEGERS{n} FUNCTION{g}{#1 'n :=} FUNCTION{f}{g} READ EXECUTE{f}", "summary g\nwrites n\npre\npost\nhints\ncase 0\nend\ncommand 5\nhints\nuse 0\nend\n" => "accepted"),
    // A summary writes what it doesn't list.
    judged!("ENTRY{}{}{} INTEGERS{n} FUNCTION{g}{#1 'n :=} FUNCTION{f}{g} READ EXECUTE{f}", "summary g\npre\npost\nhints\ncase 0\nend\ncommand 5\nhints\nuse 0\nend\n" => "refused 1:43 NotEntailed 0"),
    // A written variable is bound by the post.
    judged!("ENTRY{}{}{} INTEGERS{n} FUNCTION{g}{#1 'n :=} FUNCTION{f}{g n #1 = 'skip$ {#1 #1 *} if$} READ EXECUTE{f}", "summary g\nwrites n\npre\npost\nvar n 0\nint 0 1\nhints\ncase 0\nend\ncommand 5\nhints\nuse 0\nend\n" => "accepted"),
    // A written variable that isn't bound is new.
    judged!("ENTRY{}{}{} INTEGERS{n} FUNCTION{g}{#1 'n :=} FUNCTION{f}{g n #1 = 'skip$ {#1 #1 *} if$} READ EXECUTE{f}", "summary g\nwrites n\npre\npost\nhints\ncase 0\nend\ncommand 5\nhints\nuse 0\nend\n" => "refused 1:66 HintsShort"),
    // What isn't written stays.
    judged!("ENTRY{}{}{} INTEGERS{n} FUNCTION{g}{skip$} FUNCTION{f}{#1 'n := g n #1 = 'skip$ {#1 #1 *} if$} READ EXECUTE{f}", "summary g\npre\npost\nhints\ncase 0\nend\ncommand 5\nhints\nuse 0\nend\n" => "accepted"),
    // A used summary writes what the one in hand doesn't list.
    judged!("ENTRY{}{}{} INTEGERS{n} FUNCTION{g}{#1 'n :=} FUNCTION{h}{g} FUNCTION{f}{h} READ EXECUTE{f}", "summary g\nwrites n\npre\npost\nhints\ncase 0\nend\nsummary h\npre\npost\nhints\nuse 0\ncase 0\nend\ncommand 6\nhints\nuse 1\nend\n" => "refused 1:59 NotEntailed 0"),
    // It lists it too.
    judged!("ENTRY{}{}{} INTEGERS{n} FUNCTION{g}{#1 'n :=} FUNCTION{h}{g} FUNCTION{f}{h} READ EXECUTE{f}", "summary g\nwrites n\npre\npost\nhints\ncase 0\nend\nsummary h\nwrites n\npre\npost\nhints\nuse 0\ncase 0\nend\ncommand 6\nhints\nuse 1\nend\n" => "accepted"),
    // A function that isn't known exactly.
    judged!("ENTRY{}{}{} FUNCTION{g}{'skip$} FUNCTION{f}{#1 g g if$} READ EXECUTE{f}", "summary g\npre\npost\nstack 0\nis 0 func\nhints\ncase 0\nend\ncommand 4\nhints\nuse 0\nuse 0\nend\n" => "refused 1:52 UnknownFunction"),
    // A function that a post says exactly.
    judged!("ENTRY{}{}{} FUNCTION{g}{'skip$} FUNCTION{f}{#1 g g if$} READ EXECUTE{f}", "summary g\npre\npost\nstack 0\ncall 0 skip$\nhints\ncase 0\nend\ncommand 4\nhints\nuse 0\nuse 0\nend\n" => "accepted"),
    // A block has a summary.
    judged!("ENTRY{}{}{} FUNCTION{f}{#1 {\"a\" pop$} 'skip$ if$} READ EXECUTE{f}", "summary #0\npre\npost\nhints\ncase 0\nend\ncommand 3\nhints\nuse 0\nend\n" => "accepted"),
    // A block that a fact says.
    judged!("ENTRY{}{}{} FUNCTION{g}{{pop$}} FUNCTION{f}{\"a\" #1 g g if$} READ EXECUTE{f}", "summary g\npre\npost\nstack 0\nblock 0 0\nhints\ncase 0\nend\ncommand 4\nhints\nuse 0\nuse 0\nend\n" => "accepted"),
    // A built-in function that if$ enters has a summary.
    judged!("ENTRY{}{}{} FUNCTION{f}{#1 'skip$ 'skip$ if$} READ EXECUTE{f}", "summary skip$\npre\npost\nhints\ncase 0\nend\n" => "refused 1:42 HintsShort"),
    // A built-in function's own token takes no hint.
    judged!("ENTRY{}{}{} FUNCTION{f}{skip$} READ EXECUTE{f}", "summary skip$\npre\npost\nhints\ncase 0\nend\n" => "accepted"),
    // If$ enters if$.
    judged!("ENTRY{}{}{} FUNCTION{f}{\"a\" #0 'skip$ 'pop$ #1 'if$ 'skip$ if$} READ EXECUTE{f}", "" => "accepted"),
    // A case that can't come about is left out.
    judged!("ENTRY{}{}{} INTEGERS{n} FUNCTION{g}{#1 'n :=} FUNCTION{f}{g n 'skip$ {pop$} if$} READ EXECUTE{f}", "summary g\nwrites n\npre\npost\nvar n 0\nrow -1 1 value:0\nhints\ncase 0\nstep 1 1:e3\nend\ncommand 5\nhints\nuse 0\nkeep\ndrop 1 1:r0 1:r1\nend\n" => "accepted"),
    // A case that may come about.
    judged!("ENTRY{}{}{} INTEGERS{n} FUNCTION{g}{#1 'n :=} FUNCTION{f}{g n 'skip$ {pop$} if$} READ EXECUTE{f}", "summary g\nwrites n\npre\npost\nvar n 0\nrow -1 1 value:0\nhints\ncase 0\nstep 1 1:e3\nend\ncommand 5\nhints\nuse 0\nkeep\ndrop 1 1:r0\nend\n" => "refused 1:77 NotEntailed 0"),
    // A case that is kept.
    judged!("ENTRY{}{}{} INTEGERS{n} FUNCTION{g}{#1 'n :=} FUNCTION{f}{g n 'skip$ {pop$} if$} READ EXECUTE{f}", "summary g\nwrites n\npre\npost\nvar n 0\nrow -1 1 value:0\nhints\ncase 0\nstep 1 1:e3\nend\ncommand 5\nhints\nuse 0\nkeep\nkeep\nend\n" => "refused 1:71 EmptyPop 1"),
    // A summary that is used inside itself.
    judged!("ENTRY{}{}{} FUNCTION{g}{duplicate$ preamble$ empty$ swap$ 'skip$ if$} FUNCTION{f}{'g g pop$} READ EXECUTE{f}", "summary g\npre\nstack 0\ncall 0 g\npost\nstack 0\nhints\nuse 0\ncase 0\ncase 0\nend\ncommand 4\nhints\nuse 0\nend\n" => "accepted"),
    // Inside itself it takes its hint.
    judged!("ENTRY{}{}{} FUNCTION{g}{duplicate$ preamble$ empty$ swap$ 'skip$ if$} FUNCTION{f}{'g g pop$} READ EXECUTE{f}", "summary g\npre\nstack 0\ncall 0 g\npost\nstack 0\nhints\ncase 0\ncase 0\nend\ncommand 4\nhints\nuse 0\nend\n" => "refused 1:66 WrongHint"),
    // Inside itself too few symbols are left for its pre.
    judged!("ENTRY{}{}{} FUNCTION{g}{swap$ pop$ duplicate$ preamble$ empty$ swap$ 'skip$ if$} FUNCTION{f}{\"a\" 'g g pop$} READ EXECUTE{f}", "summary g\npre\nstack 0 1\ncall 1 g\npost\nstack 1\nhints\nuse 0\ncase 0\ncase 0\nend\ncommand 4\nhints\nuse 0\nend\n" => "refused 1:77 NotEntailed 0"),
    // A summary at an entry, used at an entry.
    judged!("ENTRY{}{}{} FUNCTION{g}{cite$ pop$} FUNCTION{f}{g} READ ITERATE{f}", "summary g\nentry\npre\npost\nhints\ncase 0\nend\ncommand 4\nhints\nuse 0\nend\n" => "accepted"),
    // One that asks for no entry, used at an entry.
    judged!("ENTRY{}{}{} FUNCTION{g}{pop$} FUNCTION{f}{cite$ g} READ ITERATE{f}", "summary g\npre\nstack 0\npost\nhints\ncase 0\nend\ncommand 4\nhints\nuse 0\nend\n" => "accepted"),
    // A variable of an entry is bound by the post.
    judged!("ENTRY{}{n}{} FUNCTION{g}{#1 'n :=} FUNCTION{f}{g n #1 = 'skip$ {#1 #1 *} if$} READ ITERATE{f}", "summary g\nentry\nwrites n\npre\npost\nvar n 0\nint 0 1\nhints\ncase 0\nend\ncommand 4\nhints\nuse 0\nend\n" => "accepted"),
    // A variable of an entry that isn't bound is new.
    judged!("ENTRY{}{n}{} FUNCTION{g}{#1 'n :=} FUNCTION{f}{g n #1 = 'skip$ {#1 #1 *} if$} READ ITERATE{f}", "summary g\nentry\nwrites n\npre\npost\nhints\ncase 0\nend\ncommand 4\nhints\nuse 0\nend\n" => "refused 1:55 HintsShort"),
    // What isn't written comes before the hint of a string.
    judged!("ENTRY{}{}{} STRINGS{s} FUNCTION{g}{preamble$ 's :=} FUNCTION{f}{g} READ EXECUTE{f}", "summary g\npre\npost\nhints\nend\n" => "refused 1:49 NotEntailed 0"),
    // A demand comes before what isn't written.
    judged!("ENTRY{}{}{} STRINGS{s} FUNCTION{g}{#1 's :=} FUNCTION{f}{g} READ EXECUTE{f}", "summary g\npre\npost\nhints\nend\n" => "refused 1:42 WrongKind 2"),
];
