//! What `call.type$` enters under a condition. Each is accepted or refused by a rule on commands, with its place; the condition has
//! a nine for each number.

use crate::tests::{Judged, compare_judged};
use std::test::Fail;

/// What is answered for a style and these lines under a condition that lets in these types, and others or not.
macro_rules! typed {
    ([$($type:literal),*], $other:literal, $style:expr, $lines:expr => $answer:expr) => {
        judged_under!(
            concat!("entries 9\nkey 9\npreamble 9\nlength 9\n", $("type ", $type, "\n",)* "othertype ", $other, "\n"),
            $style, $lines => $answer
        )
    };
}

#[test]
fn types_of_the_condition_are_entered(rt: HostRuntime) -> Result<(), Fail> {
    compare_judged(&rt, rt.alloc(), &TYPED)
}

static TYPED: [Judged; 23] = [
    // The functions of listed types alone are entered.
    typed!(["misc"], "yes", "ENTRY{}{}{} FUNCTION{output}{write$ newline$} FUNCTION{misc}{\"x\" output} READ ITERATE{call.type$}", "" => "accepted"),
    // A listed type enters a short stack.
    typed!(["misc", "output"], "yes", "ENTRY{}{}{} FUNCTION{output}{write$ newline$} FUNCTION{misc}{\"x\" output} READ ITERATE{call.type$}", "" => "refused 1:30 EmptyPop 1"),
    // Default.type isn't entered where all types are listed and defined.
    typed!(["misc"], "no", "ENTRY{}{}{} FUNCTION{misc}{} FUNCTION{default.type}{*} READ ITERATE{call.type$}", "" => "accepted"),
    // A listed type that the style doesn't define.
    typed!(["book", "misc"], "no", "ENTRY{}{}{} FUNCTION{misc}{} FUNCTION{default.type}{*} READ ITERATE{call.type$}", "" => "refused 1:53 EmptyPop 1"),
    // Other types are let in.
    typed!(["misc"], "yes", "ENTRY{}{}{} FUNCTION{misc}{} FUNCTION{default.type}{*} READ ITERATE{call.type$}", "" => "refused 1:53 EmptyPop 1"),
    // No type is listed and others are let in.
    typed!([], "yes", "ENTRY{}{}{} FUNCTION{misc}{} FUNCTION{default.type}{*} READ ITERATE{call.type$}", "" => "refused 1:53 EmptyPop 1"),
    // Default.type is a type itself.
    typed!(["default.type"], "no", "ENTRY{}{}{} FUNCTION{misc}{} FUNCTION{default.type}{*} READ ITERATE{call.type$}", "" => "refused 1:53 EmptyPop 1"),
    // Without default.type other types do nothing.
    typed!(["misc"], "no", "ENTRY{}{}{} FUNCTION{misc}{pop$} FUNCTION{f}{\"x\" call.type$} READ ITERATE{f}", "" => "accepted"),
    // What a type's function takes stays there.
    typed!(["misc"], "yes", "ENTRY{}{}{} FUNCTION{misc}{pop$} FUNCTION{f}{\"x\" call.type$} READ ITERATE{f}", "" => "refused 1:67 StackLeft"),
    // A listed type that the style doesn't define does nothing either.
    typed!(["book", "misc"], "no", "ENTRY{}{}{} FUNCTION{misc}{pop$} FUNCTION{f}{\"x\" call.type$} READ ITERATE{f}", "" => "refused 1:67 StackLeft"),
    // No type is let in, and no state is given.
    typed!([], "no", "ENTRY{}{}{} FUNCTION{f}{call.type$ *} READ ITERATE{f}", "command 3\nkeeps\nrow -1\nhints\nend\n" => "accepted"),
    // Others are let in.
    typed!([], "yes", "ENTRY{}{}{} FUNCTION{f}{call.type$ *} READ ITERATE{f}", "command 3\nkeeps\nrow -1\nhints\nend\n" => "refused 1:36 EmptyPop 1"),
    // Built-in functions are no types.
    typed!(["write$"], "no", "ENTRY{}{}{} READ ITERATE{call.type$}", "" => "accepted"),
    // Functions behind READ are no types.
    typed!(["misc"], "no", "ENTRY{}{}{} READ FUNCTION{misc}{*} ITERATE{call.type$}", "" => "accepted"),
    // A function that is still running is entered again, without end.
    typed!(["misc"], "no", "ENTRY{}{}{} FUNCTION{misc}{call.type$} READ ITERATE{call.type$}", "" => "refused 1:28 WalkTooDeep"),
    // Its summary is used in its own check.
    typed!(["misc"], "no", "ENTRY{}{}{} FUNCTION{misc}{call.type$} READ ITERATE{call.type$}", "summary misc\nentry\npre\npost\nhints\nuse 0\ncase 0\nend\ncommand 3\nhints\nuse 0\nend\n" => "accepted"),
    // Other types end there.
    typed!(["misc"], "yes", "ENTRY{}{}{} FUNCTION{misc}{call.type$} READ ITERATE{call.type$}", "summary misc\nentry\npre\npost\nhints\nuse 0\ncase 0\ncase 0\nend\ncommand 3\nhints\nuse 0\nend\n" => "accepted"),
    // Where no entry is visited there is no type.
    typed!(["misc"], "yes", "ENTRY{}{}{} FUNCTION{misc}{call.type$} READ ITERATE{call.type$}", "summary misc\npre\npost\nhints\nuse 0\ncase 0\ncase 0\nend\ncommand 3\nhints\nuse 0\nend\n" => "refused 1:28 NoEntry"),
    // Types are entered in the condition's order.
    typed!(["article", "misc"], "no", "ENTRY{}{}{} FUNCTION{misc}{} FUNCTION{article}{} READ ITERATE{call.type$}", "summary misc\npre\npost\nhints\ncase 0\nend\nsummary article\npre\npost\nhints\ncase 0\nend\ncommand 4\nhints\nuse 1\nuse 0\nend\n" => "accepted"),
    // Another order.
    typed!(["article", "misc"], "no", "ENTRY{}{}{} FUNCTION{misc}{} FUNCTION{article}{} READ ITERATE{call.type$}", "summary misc\npre\npost\nhints\ncase 0\nend\nsummary article\npre\npost\nhints\ncase 0\nend\ncommand 4\nhints\nuse 0\nuse 1\nend\n" => "refused 1:55 NoSummary"),
    // Default.type is entered once.
    typed!(["book", "misc"], "yes", "ENTRY{}{}{} FUNCTION{default.type}{} READ ITERATE{call.type$}", "summary default.type\npre\npost\nhints\ncase 0\nend\ncommand 3\nhints\nuse 0\nend\n" => "accepted"),
    // A second hint for it.
    typed!(["book", "misc"], "yes", "ENTRY{}{}{} FUNCTION{default.type}{} READ ITERATE{call.type$}", "summary default.type\npre\npost\nhints\ncase 0\nend\ncommand 3\nhints\nuse 0\nuse 0\nend\n" => "refused 1:43 HintsLeft"),
    // Skip$ takes the hint of its summary.
    typed!([], "yes", "ENTRY{}{}{} READ ITERATE{call.type$}", "summary skip$\npre\npost\nhints\ncase 0\nend\n" => "refused 1:18 HintsShort"),
];
