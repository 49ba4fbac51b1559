//! Tests on strings and missing fields.

/// `empty$`.
pub static EMPTY: [&str; 22] = [
    "3 0; blank 0 | empty$ => 3 10; next 11; is 10 Int; int 10 1",
    "3 0; is 0 Missing | empty$ => 3 10; next 11; is 10 Int; int 10 1",
    "3 0; text 0 [] | empty$ => 3 10; next 11; is 10 Int; int 10 1",
    "3 0; text 0 [32, 32] | empty$ => 3 10; next 11; is 10 Int; int 10 1",
    "3 0; nonblank 0 | empty$ => 3 10; next 11; is 10 Int; int 10 0",
    "3 0; text 0 [32, 117] | empty$ => 3 10; next 11; is 10 Int; int 10 0",
    // The first fact on the operand that decides it.
    "3 0; blank 0; nonblank 0 | empty$ => 3 10; next 11; is 10 Int; int 10 1",
    "3 0; nonblank 0; blank 0 | empty$ => 3 10; next 11; is 10 Int; int 10 0",
    "3 0; is 0 Missing; text 0 [97, 98] | empty$ => 3 10; next 11; is 10 Int; int 10 1",
    "3 0; text 0 [97, 98]; is 0 Missing | empty$ => 3 10; next 11; is 10 Int; int 10 0",
    "3 0; is 0 Str; is 0 Missing | empty$ => 3 10; next 11; is 10 Int; int 10 1",
    "3 0; is 0 Optional; nonblank 0 | empty$ => 3 10; next 11; is 10 Int; int 10 0",
    "3 0 1; blank 0; is 1 Str; nonblank 1 | empty$ => 3 0 10; next 11; is 10 Int; int 10 0",
    "3 0; is 0 Str | empty$ => 3 10; next 11; blank 0; is 10 Int; int 10 1 | 3 10; next 11; is 0 Str; nonblank 0; is 10 Int; int 10 0",
    "3 0; is 0 Optional | empty$ => 3 10; next 11; blank 0; is 10 Int; int 10 1 | 3 10; next 11; is 0 Str; nonblank 0; is 10 Int; int 10 0",
    "0; is 0 Str; 0 -1l0 | empty$ => 10; next 11; blank 0; is 10 Int; int 10 1 | 10; next 11; is 0 Str; nonblank 0; is 10 Int; int 10 0",
    "0 1; blank 0; is 1 Str | empty$ => 0 10; next 11; blank 1; is 10 Int; int 10 1 | 0 10; next 11; is 1 Str; nonblank 1; is 10 Int; int 10 0",
    // It lies twice on the stack, and is bound to a variable or a field.
    "3 4 4; is 4 Str | empty$ => 3 4 10; next 11; blank 4; is 10 Int; int 10 1 | 3 4 10; next 11; is 4 Str; nonblank 4; is 10 Int; int 10 0",
    "9 9; is 9 Optional | empty$ => 9 10; next 11; blank 9; is 10 Int; int 10 1 | 9 10; next 11; is 9 Str; nonblank 9; is 10 Int; int 10 0",
    "9 9; is 9 Missing | empty$ => 9 10; next 11; is 10 Int; int 10 1",
    // No hint is taken.
    "3 0; text 0 [97, 98] | empty$ | keep => 3 10; next 11; is 10 Int; int 10 0; 1 left",
    "0; is 0 Str | empty$ | keep; keep => 10; next 11; blank 0; is 10 Int; int 10 1 | 10; next 11; is 0 Str; nonblank 0; is 10 Int; int 10 0; 2 left",
];

/// `missing$`.
pub static MISSING: [&str; 18] = [
    "3 0; is 0 Missing | missing$ => 3 10; next 11; is 10 Int; int 10 1",
    "3 0; is 0 Str | missing$ => 3 10; next 11; is 10 Int; int 10 0",
    "3 0; text 0 [] | missing$ => 3 10; next 11; is 10 Int; int 10 0",
    "3 0; nonblank 0 | missing$ => 3 10; next 11; is 10 Int; int 10 0",
    "3 0; is 0 Optional; is 0 Missing | missing$ => 3 10; next 11; is 10 Int; int 10 1",
    "3 0; is 0 Optional; blank 0; is 0 Str | missing$ => 3 10; next 11; is 10 Int; int 10 0",
    // The first single kind.
    "3 0; is 0 Missing; is 0 Str | missing$ => 3 10; next 11; is 10 Int; int 10 1",
    "3 0; is 0 Str; is 0 Missing | missing$ => 3 10; next 11; is 10 Int; int 10 0",
    "3 0; blank 0; is 0 Missing; is 0 Int | missing$ => 3 10; next 11; is 10 Int; int 10 1",
    "3 0; nonblank 0; is 0 Missing | missing$ => 3 10; next 11; is 10 Int; int 10 0",
    "3 0; is 0 Optional | missing$ => 3 10; next 11; is 0 Missing; is 10 Int; int 10 1 | 3 10; next 11; is 0 Str; is 10 Int; int 10 0",
    "3 0; blank 0 | missing$ => 3 10; next 11; is 0 Missing; is 10 Int; int 10 1 | 3 10; next 11; is 0 Str; is 10 Int; int 10 0",
    "0; is 0 Optional; -1 1l0 | missing$ => 10; next 11; is 0 Missing; is 10 Int; int 10 1 | 10; next 11; is 0 Str; is 10 Int; int 10 0",
    "0 1; is 0 Missing; is 1 Optional | missing$ => 0 10; next 11; is 1 Missing; is 10 Int; int 10 1 | 0 10; next 11; is 1 Str; is 10 Int; int 10 0",
    "9 9; is 9 Optional | missing$ => 9 10; next 11; is 9 Missing; is 10 Int; int 10 1 | 9 10; next 11; is 9 Str; is 10 Int; int 10 0",
    "4 4; is 4 Str | missing$ => 4 10; next 11; is 10 Int; int 10 0",
    "0; is 0 Missing | missing$ | walk => 10; next 11; is 10 Int; int 10 1; 1 left",
    "0; is 0 Optional | missing$ | keep; keep => 10; next 11; is 0 Missing; is 10 Int; int 10 1 | 10; next 11; is 0 Str; is 10 Int; int 10 0; 2 left",
];

/// `=` of strings.
pub static TEXTS: [&str; 25] = [
    "3 0 1; text 0 [97, 98]; text 1 [97, 98] | = => 3 10; next 11; is 10 Int; int 10 1",
    "3 0 1; text 0 []; text 1 [] | = => 3 10; next 11; is 10 Int; int 10 1",
    "3 0 1; text 0 [97, 98]; text 1 [99, 100] | = => 3 10; next 11; is 10 Int; int 10 0",
    "3 0 1; text 0 [97, 98]; text 1 [97, 98, 99] | = => 3 10; next 11; is 10 Int; int 10 0",
    "3 0 1; text 0 [97, 98, 99]; text 1 [97, 98] | = => 3 10; next 11; is 10 Int; int 10 0",
    "3 0 1; text 0 [97, 98]; text 1 [65, 98] | = => 3 10; next 11; is 10 Int; int 10 0",
    "3 0 1; text 0 []; text 1 [32] | = => 3 10; next 11; is 10 Int; int 10 0",
    // The first exact text of each.
    "3 0 1; text 0 [97, 98]; text 0 [99, 100]; text 1 [99, 100] | = => 3 10; next 11; is 10 Int; int 10 0",
    "3 0 1; text 0 [99, 100]; text 0 [97, 98]; text 1 [99, 100] | = => 3 10; next 11; is 10 Int; int 10 1",
    "3 0 1; text 0 [99, 100]; text 1 [97, 98]; text 1 [99, 100] | = => 3 10; next 11; is 10 Int; int 10 0",
    // One symbol.
    "3 0 0; is 0 Str | = => 3 10; next 11; is 10 Int; int 10 1",
    "3 0 0; text 0 [97, 98]; text 0 [99, 100] | = => 3 10; next 11; is 10 Int; int 10 1",
    "4 4 4; nonblank 4 | = => 4 10; next 11; is 10 Int; int 10 1",
    // An exact text passes to the other.
    "3 0 1; is 0 Str; is 1 Str | = => 3 10; next 11; is 10 Int; int 10 1 | 3 10; next 11; is 10 Int; int 10 0",
    "3 0 1; text 0 [97, 98]; is 1 Str | = => 3 10; next 11; text 1 [97, 98]; is 10 Int; int 10 1 | 3 10; next 11; is 10 Int; int 10 0",
    "3 0 1; is 0 Str; text 1 [99, 100] | = => 3 10; next 11; text 0 [99, 100]; is 10 Int; int 10 1 | 3 10; next 11; is 10 Int; int 10 0",
    "3 0 1; text 0 [97, 98]; text 0 [99, 100]; is 1 Str | = => 3 10; next 11; text 1 [97, 98]; is 10 Int; int 10 1 | 3 10; next 11; is 10 Int; int 10 0",
    "3 0 1; is 0 Str; text 1 [99, 100]; text 1 [97, 98] | = => 3 10; next 11; text 0 [99, 100]; is 10 Int; int 10 1 | 3 10; next 11; is 10 Int; int 10 0",
    "3 0 1; text 0 []; nonblank 1 | = => 3 10; next 11; text 1 []; is 10 Int; int 10 1 | 3 10; next 11; is 10 Int; int 10 0",
    "3 0 1; is 0 Str; blank 0; nonblank 1 | = => 3 10; next 11; is 10 Int; int 10 1 | 3 10; next 11; is 10 Int; int 10 0",
    "0 1; is 0 Str; 0 -1l0; is 1 Str; -1 1l1 | = => 10; next 11; is 10 Int; int 10 1 | 10; next 11; is 10 Int; int 10 0",
    "7 4 7; text 4 [97, 98]; is 7 Str | = => 7 10; next 11; text 7 [97, 98]; is 10 Int; int 10 1 | 7 10; next 11; is 10 Int; int 10 0",
    "0 1; is 0 Str; is 1 Str; is 1 Int | = => 10; next 11; is 10 Int; int 10 1 | 10; next 11; is 10 Int; int 10 0",
    "0 1; text 0 [97, 98]; text 1 [97, 98] | = | keep; keep => 10; next 11; is 10 Int; int 10 1; 2 left",
    "0 1; is 0 Str; is 1 Str | = | keep; keep => 10; next 11; is 10 Int; int 10 1 | 10; next 11; is 10 Int; int 10 0; 2 left",
];
