//! Records that fit their commands, and such that don't. Each is accepted or refused by a rule on commands, with its place; where
//! nothing else is said the condition has a nine for each number.

use crate::tests::{Judged, compare_judged};
use std::test::Fail;

#[test]
fn records_fit_their_commands(rt: HostRuntime) -> Result<(), Fail> {
    compare_judged(&rt, rt.alloc(), &SHAPED)
}

static SHAPED: [Judged; 16] = [
    // Visit with EXECUTE.
    judged!("ENTRY{t}{m}{} INTEGERS{n} FUNCTION{f}{} READ EXECUTE{f}", "command 4\nvisit\nhints\nend\n" => "refused 1:46 CommandShape"),
    // Keeps with EXECUTE.
    judged!("ENTRY{t}{m}{} INTEGERS{n} FUNCTION{f}{} READ EXECUTE{f}", "command 4\nkeeps\nhints\nend\n" => "refused 1:46 CommandShape"),
    // After with ITERATE.
    judged!("ENTRY{t}{m}{} INTEGERS{n} FUNCTION{f}{} READ ITERATE{f}", "command 4\nafter\nhints\nend\n" => "refused 1:46 CommandShape"),
    // After with REVERSE.
    judged!("ENTRY{t}{m}{} INTEGERS{n} FUNCTION{f}{} READ REVERSE{f}", "command 4\nafter\nhints\nend\n" => "refused 1:46 CommandShape"),
    // A record for SORT.
    judged!("ENTRY{t}{m}{} INTEGERS{n} FUNCTION{f}{} READ SORT", "command 4\nhints\nend\n" => "refused 1:46 CommandShape"),
    // Visit and keeps with REVERSE.
    judged!("ENTRY{t}{m}{} INTEGERS{n} FUNCTION{f}{} READ REVERSE{f}", "command 4\nvisit\nkeeps\nhints\nend\n" => "accepted"),
    // After with a stack.
    judged!("ENTRY{t}{m}{} INTEGERS{n} FUNCTION{f}{} READ EXECUTE{f}", "command 4\nafter\nstack 0\nhints\nend\n" => "refused 1:46 CommandShape"),
    // After with a variable of an entry.
    judged!("ENTRY{t}{m}{} INTEGERS{n} FUNCTION{f}{} READ EXECUTE{f}", "command 4\nafter\nvar m 0\nhints\nend\n" => "refused 1:46 CommandShape"),
    // After with a field.
    judged!("ENTRY{t}{m}{} INTEGERS{n} FUNCTION{f}{} READ EXECUTE{f}", "command 4\nafter\nfield t 0\nhints\nend\n" => "refused 1:46 CommandShape"),
    // Visit with a stack.
    judged!("ENTRY{t}{m}{} INTEGERS{n} FUNCTION{f}{} READ ITERATE{f}", "command 4\nvisit\nstack 0\nhints\nend\n" => "refused 1:46 CommandShape"),
    // Visit with a variable of an entry.
    judged!("ENTRY{t}{m}{} INTEGERS{n} FUNCTION{f}{} READ ITERATE{f}", "command 4\nvisit\nvar m 0\nhints\nend\n" => "refused 1:46 CommandShape"),
    // Visit with a field.
    judged!("ENTRY{t}{m}{} INTEGERS{n} FUNCTION{f}{} READ REVERSE{f}", "command 4\nvisit\nfield t 0\nhints\nend\n" => "refused 1:46 CommandShape"),
    // Keeps with a stack.
    judged!("ENTRY{t}{m}{} INTEGERS{n} FUNCTION{f}{} READ ITERATE{f}", "command 4\nkeeps\nstack 0\nhints\nend\n" => "refused 1:46 CommandShape"),
    // Keeps with a global variable.
    judged!("ENTRY{t}{m}{} INTEGERS{n} FUNCTION{f}{} READ ITERATE{f}", "command 4\nkeeps\nvar n 0\nhints\nend\n" => "refused 1:46 CommandShape"),
    // What a record is comes before its command.
    judged!("ENTRY{}{}{} FUNCTION{f}{*} READ EXECUTE{f}", "command 3\nvisit\nhints\nend\n" => "refused 1:33 CommandShape"),
    // Earlier commands come before it.
    judged!("ENTRY{}{}{} FUNCTION{f}{*} READ EXECUTE{f} SORT", "command 4\nhints\nend\n" => "refused 1:25 EmptyPop 1"),
];
