//! Hints that don't serve, hints that are left, and demands that aren't met.

/// Hints that don't serve.
pub static HINTS: [&str; 30] = [
    "0 1; is 0 Int; is 1 Int | = => needs 2: HintsShort",
    "0 1; is 0 Int; is 1 Int | < => needs 2: HintsShort",
    "0 1; is 0 Int; is 1 Int | > => needs 2: HintsShort",
    "0; is 0 Int | above 0 => needs 2: HintsShort",
    "0 1; is 0 Int; int 1 6 | = | keep => needs 2: HintsShort",
    "0 1; is 0 Int; is 1 Int | < | keep => needs 2: HintsShort",
    "0 1; is 0 Int; is 1 Int | > | keep => needs 2: HintsShort",
    "0; is 0 Int | above 0 | keep => needs 2: HintsShort",
    "0; is 0 Int; 0 -1v0 | above 0 | drop 1 Row:0 Row:1 => needs 2: HintsShort",
    "0 1; is 0 Int; is 1 Int | = | walk; keep => needs 2: WrongHint",
    "0 1; is 0 Int; is 1 Int | < | apply 0; keep => needs 2: WrongHint",
    "0 1; is 0 Int; is 1 Int | > | loop 0; keep => needs 2: WrongHint",
    "0; is 0 Int | above 0 | case 0; keep => needs 2: WrongHint",
    "0; is 0 Int | above 0 | plain; keep => needs 2: WrongHint",
    "0; is 0 Int; 0 -1v0 | above 0 | step 1 Row:0 Row:1; keep => needs 2: WrongHint",
    "0 1; is 0 Int; is 1 Int | = | keep; walk => needs 2: WrongHint",
    "0 1; is 0 Int; is 1 Int | < | keep; apply 0 => needs 2: WrongHint",
    "0 1; is 0 Int; is 1 Int | > | keep; loop 0 => needs 2: WrongHint",
    "0; is 0 Int | above 0 | keep; case 0 => needs 2: WrongHint",
    "0; is 0 Int | above 0 | keep; plain; keep => needs 2: WrongHint",
    "0; is 0 Int; -1 1v0 | above 0 | keep; step 1 Row:0 Row:1 => needs 2: WrongHint",
    "0; is 0 Int; 0 -1v0 | above 0 | drop 1 Row:0 Row:1; walk => needs 2: WrongHint",
    // The first of two faults.
    "0 1; is 0 Int; is 1 Int | < | drop 1 Row:0 Row:1 => needs 2: NotEntailed(0)",
    "0 1; is 0 Int; is 1 Int | < | drop 1 Row:0 Row:1; walk => needs 2: NotEntailed(0)",
    "0 1; is 0 Int; is 1 Int | < | walk; drop 1 Row:0 Row:1 => needs 2: WrongHint",
    "0 1; is 0 Int; is 1 Int | < | walk => needs 2: WrongHint",
    "0 1; is 0 Int; is 1 Int; -1 1v1 | < | keep; drop 1 Row:0 Row:1 => needs 2: NotEntailed(0)",
    "0 1; is 0 Str; is 1 Int | < | walk; keep => WrongKind 2",
    "0; is 0 Int | < | keep; keep => EmptyPop 2",
    "0; is 0 Int | empty$ | keep => WrongKind 1",
];

/// Hints that are left.
pub static LEFT: [&str; 8] = [
    "0 1; int 0 5; int 1 5 | = | keep; keep => 10; next 11; is 10 Int; int 10 1; 2 left",
    "0 1; int 0 5; int 1 5 | < | walk => 10; next 11; is 10 Int; int 10 0; 1 left",
    "0 0; is 0 Int | > | keep; keep => 10; next 11; is 10 Int; int 10 0; 2 left",
    "0 1; is 0 Int; -6 1v0; is 1 Int; 5 -1v1 | = | drop 1 Row:0 Row:1 Row:3; keep; keep => needs 2: 10; next 11; is 10 Int; int 10 0; 1 left",
    "0 1; is 0 Int; is 1 Int | < | keep; keep; walk => needs 2: 10; next 11; is 10 Int; int 10 1; -1 -1v0 1v1 | 10; next 11; is 10 Int; int 10 0; 0 1v0 -1v1; 1 left",
    "0 1; is 0 Int; -6 1v0; is 1 Int; 5 -1v1 | > | keep; drop 1 Row:0 Row:1 Row:2; walk; keep => needs 2: 10; next 11; is 10 Int; int 10 1; -1 1v0 -1v1; 2 left",
    "0; is 0 Int | above 0 | keep; keep; drop 1 Row:0 Row:1 => needs 2: 0; -1 1v0 | 0; 0 -1v0; 1 left",
    "0; is 0 Int; -1 1v0 | above 0 | keep; drop 1 Row:0 Row:1; keep => needs 2: 0; -1 1v0; 1 left",
];

/// Demands that aren't met.
pub static DEMANDS: [&str; 22] = [
    "empty | empty$ => EmptyPop 1",
    "empty | missing$ => EmptyPop 1",
    "empty | = => EmptyPop 1",
    "empty | < => EmptyPop 1",
    "empty | > => EmptyPop 1",
    "0; is 0 Missing | = => EmptyPop 2",
    "0; is 0 Str | < => EmptyPop 2",
    "0 | > => EmptyPop 2",
    "0; is 0 Int | empty$ => WrongKind 1",
    "0; int 0 0 | empty$ => WrongKind 1",
    "0; is 0 Func | empty$ => WrongKind 1",
    "0; is 0 Any | empty$ => WrongKind 1",
    "0; wellformed 0 | empty$ => WrongKind 1",
    "0 1; is 0 Str | empty$ => WrongKind 1",
    "0; blank 0; is 0 Int | empty$ => WrongKind 1",
    "0; is 0 Int; text 0 [97, 98] | empty$ => WrongKind 1",
    "0; int 0 0 | missing$ => WrongKind 1",
    "0; is 0 Func | missing$ => WrongKind 1",
    "0; is 0 Any | missing$ => WrongKind 1",
    "0 1; is 0 Missing | missing$ => WrongKind 1",
    "0; is 0 Int; is 0 Missing | missing$ => WrongKind 1",
    "0; is 0 Optional; is 0 Func | missing$ => WrongKind 1",
];

/// `=` of mixed kinds, of what may be missing, and of what is.
pub static MIXED: [&str; 15] = [
    "0 1; is 0 Int; is 1 Str | = => WrongKind 2",
    "0 1; is 0 Str; is 1 Int | = => WrongKind 2",
    "0 1; int 0 5; text 1 [97, 98] | = => WrongKind 2",
    "0 1; is 0 Str; is 1 Int; is 1 Str | = => WrongKind 2",
    "0 1; is 0 Missing; is 1 Missing | = => WrongKind 1",
    "0 0; is 0 Missing | = => WrongKind 1",
    "0 1; is 0 Str; is 1 Missing | = => WrongKind 1",
    "0 1; is 0 Missing; is 1 Str | = => WrongKind 2",
    "0 1; is 0 Str; is 1 Optional | = => WrongKind 1",
    "0 1; is 0 Optional; is 1 Str | = => WrongKind 2",
    "0 1; blank 0; is 1 Str | = => WrongKind 2",
    "0 1; is 0 Int; is 1 Func | = => WrongKind 1",
    "0 1; is 0 Int; is 1 Any | = => WrongKind 1",
    "0 1; is 0 Any; is 1 Int | = => WrongKind 2",
    "0 0 | = => WrongKind 1",
];

/// `<` and `>` of what is no integer.
pub static ORDERED: [&str; 17] = [
    "0 1; is 0 Str; is 1 Str | < => WrongKind 1",
    "0 1; is 0 Int; is 1 Str | < => WrongKind 1",
    "0 1; is 0 Str; is 1 Int | < => WrongKind 2",
    "0 1; is 0 Int; is 1 Optional | < => WrongKind 1",
    "0 1; is 0 Any; int 1 5 | < => WrongKind 2",
    "0 1; is 0 Int | < => WrongKind 1",
    "0 1; is 1 Int | < => WrongKind 2",
    "0 0; is 0 Str | < => WrongKind 1",
    "0 1; is 0 Int; is 1 Str; int 1 5 | < => WrongKind 1",
    "0 1; is 0 Str; is 1 Str | > => WrongKind 1",
    "0 1; int 0 5; is 1 Missing | > => WrongKind 1",
    "0 1; is 0 Str; is 1 Int | > => WrongKind 2",
    "0 1; is 0 Func; is 1 Int | > => WrongKind 2",
    "0 1; is 0 Int | > => WrongKind 1",
    "0 1; is 1 Int | > => WrongKind 2",
    "0 0 | > => WrongKind 1",
    "0 1; is 0 Str; int 0 5; is 1 Int | > => WrongKind 2",
];
