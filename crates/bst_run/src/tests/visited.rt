//! What a visit keeps is known at the next, and nothing else is. Each is accepted or refused by a rule on commands, with its place;
//! where nothing else is said the condition has a nine for each number.

use crate::tests::{Judged, compare_judged};
use std::test::Fail;

#[test]
fn what_a_visit_keeps_is_known_at_the_next(rt: HostRuntime) -> Result<(), Fail> {
    compare_judged(&rt, rt.alloc(), &VISITED)
}

static VISITED: [Judged; 28] = [
    // Before a first visit the variables of an entry have the values with which they open, also behind SORT.
    judged!("ENTRY{}{n}{} FUNCTION{f}{n #0 = 'skip$ {#1 #1 *} if$ sort.key$ \"\" = 'skip$ {#1 #1 *} if$} READ SORT ITERATE{f}", "" => "accepted"),
    // What a visit keeps holds at the next, also behind SORT.
    judged!("ENTRY{}{n}{} FUNCTION{p}{#1 'n := \"a\" 'sort.key$ :=} FUNCTION{f}{n #1 = 'skip$ {#1 #1 *} if$ sort.key$ \"a\" = 'skip$ {#1 #1 *} if$} READ ITERATE{p} SORT ITERATE{f}", "command 4\nkeeps\nvar sort.key$ 0\nvar n 1\nint 1 1\ntext 0 61\nhints\nend\n" => "accepted"),
    // The same from the last entry to the first.
    judged!("ENTRY{}{n}{} FUNCTION{p}{#1 'n := \"a\" 'sort.key$ :=} FUNCTION{f}{n #1 = 'skip$ {#1 #1 *} if$ sort.key$ \"a\" = 'skip$ {#1 #1 *} if$} READ REVERSE{p} SORT REVERSE{f}", "command 4\nkeeps\nvar sort.key$ 0\nvar n 1\nint 1 1\ntext 0 61\nhints\nend\n" => "accepted"),
    // What no visit keeps isn't known at the next.
    judged!("ENTRY{}{n}{} FUNCTION{p}{#1 'n := \"a\" 'sort.key$ :=} FUNCTION{f}{n #1 = 'skip$ {#1 #1 *} if$ sort.key$ \"a\" = 'skip$ {#1 #1 *} if$} READ ITERATE{p} SORT ITERATE{f}", "" => "refused 1:71 HintsShort"),
    // The same from the last entry to the first.
    judged!("ENTRY{}{n}{} FUNCTION{p}{#1 'n := \"a\" 'sort.key$ :=} FUNCTION{f}{n #1 = 'skip$ {#1 #1 *} if$ sort.key$ \"a\" = 'skip$ {#1 #1 *} if$} READ REVERSE{p} SORT REVERSE{f}", "" => "refused 1:71 HintsShort"),
    // A fact that doesn't hold after the visit.
    judged!("ENTRY{}{n}{} FUNCTION{p}{#1 'n :=} READ ITERATE{p}", "command 3\nkeeps\nvar n 0\nint 0 2\nhints\nend\n" => "refused 1:41 NotEntailed 2"),
    // The same of REVERSE.
    judged!("ENTRY{}{n}{} FUNCTION{p}{#1 'n :=} READ REVERSE{p}", "command 3\nkeeps\nvar n 0\nint 0 2\nhints\nend\n" => "refused 1:41 NotEntailed 2"),
    // Two variables that are kept as one value.
    judged!("ENTRY{}{m n}{} FUNCTION{p}{#1 duplicate$ 'm := 'n :=} FUNCTION{f}{m n = 'skip$ {#1 #1 *} if$} READ ITERATE{p} ITERATE{f}", "command 4\nkeeps\nvar m 0\nvar n 0\nhints\nend\n" => "accepted"),
    // Two variables with a value each.
    judged!("ENTRY{}{m n}{} FUNCTION{p}{#1 'm := #1 'n :=} READ ITERATE{p}", "command 3\nkeeps\nvar m 0\nvar n 0\nhints\nend\n" => "refused 1:52 NotEntailed 2"),
    // A row that each state after the visit shows, and that the next visit needs.
    judged!("ENTRY{t}{}{s} FUNCTION{p}{t empty$ {\"none\"} {t} if$ 's :=} FUNCTION{f}{s #1 #1 substring$ chr.to.int$ pop$} READ ITERATE{p} SORT ITERATE{f}", "command 4\nkeeps\nvar s 0\nnonblank 0\nrow -1 1 length:0\nhints\nstep 1 1:r2\nstep 1 1:t9\nstep 1 1:b5\nend\ncommand 6\nhints\nstep 1 1:r0\nstep 1 1:r5\nstep 1 1:r6\nend\n" => "accepted"),
    // A row that the last state doesn't show.
    judged!("ENTRY{t}{}{s} FUNCTION{p}{t empty$ {\"none\"} {t} if$ 's :=} READ ITERATE{p}", "command 3\nkeeps\nvar s 0\nrow -4 1 length:0\nhints\nstep 1 1:r2\nstep 1 1:t9\nstep 1 1:b5\nend\n" => "refused 1:65 NotEntailed 2"),
    // A row without its step.
    judged!("ENTRY{}{n}{} FUNCTION{p}{#1 'n :=} READ ITERATE{p}", "command 3\nkeeps\nvar n 0\nrow -1 1 value:0\nhints\nend\n" => "refused 1:41 HintsShort"),
    // A visit that writes what was kept.
    judged!("ENTRY{}{n}{} FUNCTION{p}{#1 'n :=} FUNCTION{q}{#2 'n :=} READ ITERATE{p} ITERATE{q}", "command 4\nkeeps\nvar n 0\nint 0 1\nhints\nend\ncommand 5\nkeeps\nvar n 0\nint 0 1\nhints\nend\n" => "refused 1:74 NotEntailed 2"),
    // A visit that writes it and keeps what it wrote.
    judged!("ENTRY{}{n}{} FUNCTION{p}{#1 'n :=} FUNCTION{q}{#2 'n :=} FUNCTION{f}{n #2 = 'skip$ {#1 #1 *} if$} READ ITERATE{p} ITERATE{q} ITERATE{f}", "command 5\nkeeps\nvar n 0\nint 0 1\nhints\nend\ncommand 6\nkeeps\nvar n 0\nint 0 2\nhints\nend\n" => "accepted"),
    // A visit that writes it and keeps nothing.
    judged!("ENTRY{}{n}{} FUNCTION{p}{#1 'n :=} FUNCTION{q}{#2 'n :=} FUNCTION{f}{n #1 = 'skip$ {#1 #1 *} if$} READ ITERATE{p} ITERATE{q} ITERATE{f}", "command 5\nkeeps\nvar n 0\nint 0 1\nhints\nend\n" => "refused 1:75 HintsShort"),
    // A visit that writes nothing takes away what it doesn't keep.
    judged!("ENTRY{}{n}{} FUNCTION{p}{#1 'n :=} FUNCTION{f}{n #1 = 'skip$ {#1 #1 *} if$} READ ITERATE{p} ITERATE{skip$} ITERATE{f}", "command 4\nkeeps\nvar n 0\nint 0 1\nhints\nend\n" => "refused 1:53 HintsShort"),
    // It keeps it anew.
    judged!("ENTRY{}{n}{} FUNCTION{p}{#1 'n :=} FUNCTION{f}{n #1 = 'skip$ {#1 #1 *} if$} READ ITERATE{p} ITERATE{skip$} ITERATE{f}", "command 4\nkeeps\nvar n 0\nint 0 1\nhints\nend\ncommand 5\nkeeps\nvar n 0\nint 0 1\nhints\nend\n" => "accepted"),
    // What isn't known before a visit that writes nothing isn't kept by it.
    judged!("ENTRY{}{n}{} READ ITERATE{skip$}", "command 2\nkeeps\nvar n 0\nint 0 1\nhints\nend\n" => "refused 1:19 NotEntailed 2"),
    // EXECUTE takes nothing away that is known of entries.
    judged!("ENTRY{}{n}{} FUNCTION{p}{#1 'n :=} FUNCTION{f}{n #1 = 'skip$ {#1 #1 *} if$} READ ITERATE{p} EXECUTE{skip$} ITERATE{f}", "command 4\nkeeps\nvar n 0\nint 0 1\nhints\nend\n" => "accepted"),
    // A stack that isn't empty comes before what isn't kept.
    judged!("ENTRY{}{n}{} FUNCTION{p}{#1 'n := cite$} READ ITERATE{p}", "command 3\nkeeps\nvar n 0\nint 0 2\nhints\nend\n" => "refused 1:47 StackLeft"),
    // A hint is left behind the visit.
    judged!("ENTRY{}{}{} FUNCTION{f}{} READ ITERATE{f}", "command 3\nhints\nkeep\nend\n" => "refused 1:32 HintsLeft"),
    // A field that may be missing.
    judged!("ENTRY{title}{}{} FUNCTION{f}{title write$} READ ITERATE{f}", "" => "refused 1:36 WrongKind 1"),
    // A field that is tested by empty$.
    judged!("ENTRY{title}{}{} FUNCTION{f}{title empty$ 'skip$ {title write$} if$} READ ITERATE{f}", "" => "accepted"),
    // A field that is tested by missing$.
    judged!("ENTRY{title}{}{} FUNCTION{f}{title duplicate$ missing$ 'pop$ 'write$ if$} READ ITERATE{f}", "" => "accepted"),
    // The first byte of a field that isn't blank.
    judged!("ENTRY{t}{}{} FUNCTION{f}{t empty$ 'skip$ {t #1 #1 substring$ chr.to.int$ pop$} if$} READ ITERATE{f}", "command 3\nhints\nstep 1 1:b4\nstep 1 1:r3\nstep 1 1:r4\nend\n" => "accepted"),
    // The first byte of a field that may be blank.
    judged!("ENTRY{t}{}{} FUNCTION{f}{t missing$ 'skip$ {t #1 #1 substring$ chr.to.int$ pop$} if$} READ ITERATE{f}", "command 3\nhints\nplain\nstep 1 1:r3\nstep 1 1:r4\nend\n" => "refused 1:64 NotOneByte 1"),
    // A multiplier beyond its bound.
    judged!("ENTRY{t}{}{} FUNCTION{f}{t empty$ 'skip$ {t #1 #1 substring$ chr.to.int$ pop$} if$} READ ITERATE{f}", "command 3\nhints\nstep 1 1099511627776:b4\nstep 1 1:r3\nstep 1 1:r4\nend\n" => "bad certificate 10:8 OutOfRange"),
    // A field whose line says that it isn't blank, and a variable that keeps it.
    judged_under!("entries 9\nkey 9\npreamble 9\nlength 9\nnonblank t\nothertype yes\n", "ENTRY{t}{}{s} FUNCTION{p}{t 's :=} FUNCTION{f}{s t = 'skip$ {#1 #1 *} if$} READ ITERATE{p} ITERATE{f}", "command 4\nkeeps\nvar s 0\nfield t 0\nhints\nstep 1 1:r2\nend\n" => "accepted"),
];
