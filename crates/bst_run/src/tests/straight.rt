//! Steps by straight proofs. The certificates are worked by hand: a straight proof is the first list of references that shows its row,
//! in the order of their kinds and then of their numbers.

use crate::tests::found::{Found, compare_found};
use std::test::Fail;

#[test]
fn straight_proofs_are_found(rt: HostRuntime) -> Result<(), Fail> {
    compare_found(&rt, rt.alloc(), &STRAIGHT)
}

/// Steps by straight proofs, and where one is a choice the general rule.
static STRAIGHT: [Found; 21] = [
    // The first byte of a text.
    found!("ENTRY{t}{}{} FUNCTION{f}{t empty$ 'skip$ {t #1 #1 substring$ chr.to.int$ pop$} if$} READ ITERATE{f}", "" => "command 3\nhints\nstep 1 1:m4 1:c4\nstep 1 1:r3\nstep 1 1:r4\nend\n"),
    // A second byte may be missing.
    found!("ENTRY{t}{}{} FUNCTION{g}{+} FUNCTION{f}{t empty$ 'skip$ {t #1 #2 substring$ write$} if$} READ ITERATE{f}", "" => "command 4\nhints\nplain\nend\n"),
    found!("ENTRY{t}{}{} FUNCTION{f}{t empty$ 'skip$ {t text.length$ #1 + pop$} if$} READ ITERATE{f}", "" => "command 3\nhints\nstep 1 1:r2\nstep 1 1:v9 1:r3\nstep 1 1:f9 1:r4 1:r2\nend\n"),
    found!("ENTRY{t}{}{} FUNCTION{f}{t empty$ 'skip$ {t text.length$ #1 - pop$} if$} READ ITERATE{f}", "" => "command 3\nhints\nstep 1 1:r2\nstep 1 1:w9 1:r3\nstep 1 1:e9 1:r4 1:r2\nend\n"),
    found!("ENTRY{}{}{} FUNCTION{f}{#2147483646 #1 + pop$} READ EXECUTE{f}", "" => ""),
    found!("ENTRY{}{}{} FUNCTION{f}{#65 int.to.chr$ pop$} READ EXECUTE{f}", "" => "command 3\nhints\nstep 1 1:e2\nstep 1 1:f2\nend\n"),
    found!("ENTRY{}{}{} FUNCTION{f}{\"ab\" text.length$ pop$} READ EXECUTE{f}", "" => "command 3\nhints\nstep 1 1:u2\nend\n"),
    found!("ENTRY{}{}{} FUNCTION{f}{cite$ text.length$ pop$} READ ITERATE{f}", "" => "command 3\nhints\nstep 1 1:r2\nend\n"),
    found!("ENTRY{author}{}{} FUNCTION{f}{author empty$ 'skip$ {author num.names$ pop$} if$} READ ITERATE{f}", "names author 1000\n" => "command 3\nhints\nstep 1 1:r3\nend\n"),
    // A text has no more names than bytes.
    found!("ENTRY{t}{}{} FUNCTION{f}{t empty$ 'skip$ {t num.names$ pop$} if$} READ ITERATE{f}", "" => "command 3\nhints\nstep 1 1:m4 1:r2\nend\n"),
    // A text that isn't blank has a name.
    found!("ENTRY{author}{}{} FUNCTION{f}{author empty$ 'skip$ {author #1 \"{ff~}{ll}\" format.name$ write$} if$} READ ITERATE{f}", "names author 1000\n" => "command 3\nhints\nstep 1 1:e8\nstep 1 1:f8 1:c4\nend\n"),
    found!("ENTRY{}{}{} FUNCTION{f}{\"A B\" #1 \"{ff~}{ll}\" format.name$ write$} READ EXECUTE{f}", "" => "command 3\nhints\nstep 1 1:e3\nstep 1 1:f3 1:c2\nend\n"),
    // Where kinds are enough an assignment says nothing of the text.
    found!("ENTRY{t}{}{} STRINGS{s} FUNCTION{f}{t empty$ 'skip$ {t 's :=} if$} READ ITERATE{f}", "" => "command 4\nhints\nplain\nend\n"),
    // Elsewhere it keeps the text where that isn't cut.
    found!("ENTRY{t}{}{} STRINGS{s} FUNCTION{g}{+} FUNCTION{f}{t empty$ 'skip$ {t 's :=} if$} READ ITERATE{f}", "" => "command 5\nhints\nstep 1 1:r2\nend\n"),
    found!("ENTRY{t}{}{s} FUNCTION{g}{+} FUNCTION{f}{t empty$ 'skip$ {t 's :=} if$} READ ITERATE{f}", "" => "command 4\nhints\nplain\nend\n"),
    // A case that can't come about is dropped.
    found!("ENTRY{t}{}{} FUNCTION{f}{t empty$ 'skip$ {t text.length$ #0 < 'pop$ 'skip$ if$} if$} READ ITERATE{f}", "" => "command 3\nhints\nstep 1 1:r2\ndrop 1 1:r3 1:r5 1:f9\nkeep\nend\n"),
    // Each command that takes hints has its own.
    found!("ENTRY{}{}{} FUNCTION{f}{#65 int.to.chr$ pop$} READ EXECUTE{f} SORT EXECUTE{skip$} ITERATE{f}", "" => "command 3\nhints\nstep 1 1:e2\nstep 1 1:f2\nend\ncommand 6\nhints\nstep 1 1:e4\nstep 1 1:f4\nend\n"),
    found!("ENTRY{}{}{} FUNCTION{f}{#65 int.to.chr$ pop$} READ REVERSE{f}", "" => "command 3\nhints\nstep 1 1:e4\nstep 1 1:f4\nend\n"),
    // At the first visit a variable of an entry is as it opens, and before the first call a global one.
    found!("ENTRY{}{m}{} FUNCTION{f}{m int.to.chr$ pop$} READ ITERATE{f}", "" => "command 3\nhints\nstep 1 1:e1\nstep 1 1:f1\nend\n"),
    found!("ENTRY{}{m}{} FUNCTION{f}{m int.to.chr$ pop$} READ EXECUTE{skip$} ITERATE{f}", "" => "command 4\nhints\nstep 1 1:e1\nstep 1 1:f1\nend\n"),
    found!("ENTRY{}{}{} INTEGERS{n} FUNCTION{f}{n int.to.chr$ pop$} READ EXECUTE{f}", "" => "command 4\nhints\nstep 1 1:e2\nstep 1 1:f2\nend\n"),
];
