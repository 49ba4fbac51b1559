//! Where faults stand, inside what is entered.

use crate::tests::rows::{Table, Telling, expect};
use std::test::Fail;

/// Styles of one line, the fault that their runs come to, its place, the number and the key of its entry, and the lines that
/// are written then.
const FAULTS_ROWS: &str = r#"
f{ #1 { "a" #1 + } { } if$ } READ EXECUTE f -> WrongKind 1:16
g{ "a" chr.to.int$ "" chr.to.int$ } f{ #0 { } 'g if$ } READ ITERATE f -> NotOneByte 1:23 0 A1
f{ #1 'pop$ 'skip$ if$ } READ ITERATE f -> EmptyPop 1:20 0 A1
f{ #1 'title 'skip$ if$ } READ EXECUTE f -> NoEntry 1:21
g{ title } f{ #1 'g 'skip$ if$ } READ EXECUTE f -> NoEntry 1:4
f{ #1 'i 'skip$ if$ pop$ pop$ } READ EXECUTE f -> EmptyPop 1:26
f{ #1 { #0 { } { #1 { } := } if$ } { } if$ } READ ITERATE f -> NotVariable 1:25 0 A1
f{ { "a" } { } while$ } READ EXECUTE f -> WrongKind 1:16
f{ { } { } while$ } READ ITERATE f -> EmptyPop 1:12 0 A1
f{ 'newline$ { } while$ } READ EXECUTE f -> EmptyPop 1:18 |
f{ 'title { } while$ } READ ITERATE f -> WrongKind 1:15 0 A1
f{ 'crossref { } while$ } READ REVERSE f -> WrongKind 1:18 4 E5
f{ { #1 } 'pop$ while$ } READ EXECUTE f -> EmptyPop 1:17
f{ #126 'i := { #1 } { i int.to.chr$ pop$ i #1 + 'i := } while$ } READ EXECUTE f -> NotAscii 1:26
g{ i #1 - 'i := "x" i chr.to.int$ } f{ #2 'i := { i } 'g while$ } READ ITERATE f -> WrongKind 1:23 0 A1
f{ { #1 { "A" #2 "{" format.name$ } { } if$ } { } while$ } READ EXECUTE f -> BadNameIndex 1:22
book{ #1 "a" * } f{ call.type$ } READ ITERATE f -> WrongKind 1:14 0 A1
book{ } default.type{ title write$ } f{ call.type$ } READ ITERATE f -> WrongKind 1:29 1 B2
book{ } misc{ } default.type{ "x" int.to.str$ } READ ITERATE call.type$ -> WrongKind 1:35 2 C3
book{ } none{ pop$ } READ REVERSE call.type$ -> EmptyPop 1:15 2 C3
f{ call.type$ } READ EXECUTE f -> NoEntry 1:4
READ ITERATE pop$ -> EmptyPop 1:6 0 A1
READ EXECUTE cite$ -> NoEntry 1:6
f{ cite$ } READ ITERATE f -> StackLeft 1:17 0 A1
f{ cite$ "E5" = 'quote$ 'skip$ if$ } READ ITERATE f -> StackLeft 1:43 4 E5
f{ #1 } READ EXECUTE f -> StackLeft 1:14
key{ title missing$ { "" } { title } if$ 'sort.key$ := } f{ #1 "a" + } READ ITERATE key SORT ITERATE f -> WrongKind 1:68 1 B2
key{ title missing$ { "" } { title } if$ 'sort.key$ := } f{ #1 "a" + } READ ITERATE key SORT REVERSE f -> WrongKind 1:68 3 D4
key{ cite$ 'sort.key$ := } f{ cite$ "D4" = { #128 int.to.chr$ } 'skip$ if$ } READ ITERATE key SORT REVERSE f -> NotAscii 1:51 3 D4
"#;

#[test]
fn faults_stand_inside_what_is_entered(rt: HostRuntime) -> Result<(), Fail> {
    told!(rt, "", "", "", State, FAULTS_ROWS)
}
