//! Tests on integers. Where a case is dropped, a is the lower operand and b the upper one.

/// `=` of integers.
pub static EQUAL: [&str; 22] = [
    "3 0 1; int 0 5; int 1 5 | = => 3 10; next 11; is 10 Int; int 10 1",
    "3 0 1; int 0 5; int 1 6 | = => 3 10; next 11; is 10 Int; int 10 0",
    "3 0 1; int 0 5; int 1 -5 | = => 3 10; next 11; is 10 Int; int 10 0",
    "3 0 1; int 0 -2147483648; int 1 -2147483648 | = => 3 10; next 11; is 10 Int; int 10 1",
    "3 0 1; int 0 2147483647; int 1 -2147483648 | = => 3 10; next 11; is 10 Int; int 10 0",
    "3 0 1; int 0 6; int 0 5; int 1 6 | = => 3 10; next 11; is 10 Int; int 10 1",
    "3 0 1; int 0 6; int 1 5; int 1 6 | = => 3 10; next 11; is 10 Int; int 10 0",
    "3 0 0; is 0 Int | = => 3 10; next 11; is 10 Int; int 10 1",
    "3 0 0; int 0 5; int 0 6 | = => 3 10; next 11; is 10 Int; int 10 1",
    "5 5 5; is 5 Int | = => 5 10; next 11; is 10 Int; int 10 1",
    "3 0 1; is 0 Int; is 1 Int | = | keep; keep => needs 2: 3 10; next 11; is 10 Int; int 10 1; 0 1v0 -1v1; 0 -1v0 1v1 | 3 10; next 11; is 10 Int; int 10 0",
    "3 0 1; int 0 5; is 1 Int | = | keep; keep => needs 2: 3 10; next 11; is 10 Int; int 10 1; 0 1v0 -1v1; 0 -1v0 1v1 | 3 10; next 11; is 10 Int; int 10 0",
    "5 5 1; is 5 Int; int 1 6 | = | keep; keep => needs 2: 5 10; next 11; is 10 Int; int 10 1; 0 -1v1 1v5; 0 1v1 -1v5 | 5 10; next 11; is 10 Int; int 10 0",
    // 6 <= a and b <= 5, with b - a >= 0; a <= 5 and 6 <= b, with a - b >= 0.
    "3 0 1; is 0 Int; -6 1v0; is 1 Int; 5 -1v1 | = | drop 1 Row:0 Row:1 Row:3; keep => needs 2: 3 10; next 11; is 10 Int; int 10 0",
    "3 0 1; is 0 Int; 5 -1v0; is 1 Int; -6 1v1 | = | drop 1 Row:0 Row:1 Row:2; keep => needs 2: 3 10; next 11; is 10 Int; int 10 0",
    "3 0 1; is 0 Int; -6 1v0; int 1 5 | = | drop 1 Row:0 Row:2 ExactHigh:1; keep => needs 2: 3 10; next 11; is 10 Int; int 10 0",
    "3 0 1; is 0 Int; -6 1v0; is 1 Int; 5 -1v1 | = | drop 1 Row:0 Row:1 Row:2; keep => needs 2: NotEntailed(0)",
    "3 0 1; is 0 Int; -5 1v0; is 1 Int; 5 -1v1 | = | drop 1 Row:0 Row:1 Row:3; keep => needs 2: NotEntailed(0)",
    // The case of 0 has no row of its own.
    "3 0 1; is 0 Int; -6 1v0; is 1 Int; 5 -1v1 | = | keep; drop 1 Row:0 Row:1 Row:3 => needs 2: NotEntailed(0)",
    "3 0 1; is 0 Int; int 1 5; -6 1v1 | = | keep; drop 1 Row:0 ExactHigh:1 => needs 2: 3 10; next 11; is 10 Int; int 10 1; 0 1v0 -1v1; 0 -1v0 1v1",
    "3 0 1; is 0 Int; is 1 Int; -1 1v0; 0 -1v0 | = | keep; drop 1 Row:0 Row:1 => needs 2: 3 10; next 11; is 10 Int; int 10 1; 0 1v0 -1v1; 0 -1v0 1v1",
    "3 0 1; is 0 Int; is 1 Int; -1 1v0; 0 -1v0 | = | drop 1 Row:0 Row:1; drop 1 Row:0 Row:1 => needs 2: none",
];

/// `<`.
pub static LESS: [&str; 28] = [
    "3 0 1; int 0 5; int 1 6 | < => 3 10; next 11; is 10 Int; int 10 1",
    "3 0 1; int 0 6; int 1 5 | < => 3 10; next 11; is 10 Int; int 10 0",
    "3 0 1; int 0 5; int 1 5 | < => 3 10; next 11; is 10 Int; int 10 0",
    "3 0 1; int 0 -2147483648; int 1 2147483647 | < => 3 10; next 11; is 10 Int; int 10 1",
    "3 0 1; int 0 2147483647; int 1 -2147483648 | < => 3 10; next 11; is 10 Int; int 10 0",
    "3 0 1; int 0 5; int 0 7; int 1 6 | < => 3 10; next 11; is 10 Int; int 10 1",
    "3 0 1; int 0 5; int 1 4; int 1 6 | < => 3 10; next 11; is 10 Int; int 10 0",
    "3 0 0; is 0 Int | < => 3 10; next 11; is 10 Int; int 10 0",
    "5 5 5; int 5 5; int 5 6 | < => 5 10; next 11; is 10 Int; int 10 0",
    "3 0 1; is 0 Int; is 1 Int | < | keep; keep => needs 2: 3 10; next 11; is 10 Int; int 10 1; -1 -1v0 1v1 | 3 10; next 11; is 10 Int; int 10 0; 0 1v0 -1v1",
    "3 0 1; is 0 Int; int 1 6 | < | keep; keep => needs 2: 3 10; next 11; is 10 Int; int 10 1; -1 -1v0 1v1 | 3 10; next 11; is 10 Int; int 10 0; 0 1v0 -1v1",
    "5 5 1; is 5 Int; is 1 Int | < | keep; keep => needs 2: 5 10; next 11; is 10 Int; int 10 1; -1 1v1 -1v5 | 5 10; next 11; is 10 Int; int 10 0; 0 -1v1 1v5",
    // 5 <= a and b <= 5, with b - a - 1 >= 0.
    "3 0 1; is 0 Int; -5 1v0; is 1 Int; 5 -1v1 | < | drop 1 Row:0 Row:1 Row:2; keep => needs 2: 3 10; next 11; is 10 Int; int 10 0; 0 1v0 -1v1",
    "3 0 1; is 0 Int; -5 1v0; is 1 Int; 5 -1v1 | < | drop 5 Row:0 Row:1 Row:2; keep => needs 2: 3 10; next 11; is 10 Int; int 10 0; 0 1v0 -1v1",
    "3 0 1; is 0 Int; -5 1v0; is 1 Int; 5 -1v1 | < | drop 0 Row:0 Row:1 Row:2; keep => needs 2: NotEntailed(0)",
    "3 0 1; is 0 Int; -5 1v0; is 1 Int; 6 -1v1 | < | drop 1 Row:0 Row:1 Row:2; keep => needs 2: NotEntailed(0)",
    "3 0 1; is 0 Int; -5 1v0; is 1 Int; 5 -1v1 | < | keep; drop 1 Row:0 Row:1 Row:2 => needs 2: NotEntailed(0)",
    // 11 <= 2a and b <= 5, of which 2a - 11, 2(5 - b) and 2(b - a - 1) add up to -3.
    "3 0 1; is 0 Int; -11 2v0; is 1 Int; 5 -1v1 | < | drop 2 Row:0 2*Row:1 2*Row:2; keep => needs 2: 3 10; next 11; is 10 Int; int 10 0; 0 1v0 -1v1",
    "3 0 1; is 0 Int; -11 2v0; is 1 Int; 5 -1v1 | < | drop 1 Row:0 Row:1 Row:2; keep => needs 2: NotEntailed(0)",
    // None is above 2147483647.
    "3 0 1; is 0 Int; -2147483647 1v0; is 1 Int | < | drop 1 Row:0 Row:1 ValueHigh:1; keep => needs 2: 3 10; next 11; is 10 Int; int 10 0; 0 1v0 -1v1",
    // a <= 5 and 6 <= b, with a - b >= 0.
    "3 0 1; is 0 Int; 5 -1v0; is 1 Int; -6 1v1 | < | keep; drop 1 Row:0 Row:1 Row:2 => needs 2: 3 10; next 11; is 10 Int; int 10 1; -1 -1v0 1v1",
    "3 0 1; is 0 Int; 5 -1v0; is 1 Int; -5 1v1 | < | keep; drop 1 Row:0 Row:1 Row:2 => needs 2: NotEntailed(0)",
    "3 0 1; is 0 Int; 5 -1v0; is 1 Int; -6 1v1 | < | drop 1 Row:0 Row:1 Row:2; keep => needs 2: NotEntailed(0)",
    // a - b >= 0 and b - a - 1 >= 0.
    "3 0 1; is 0 Int; 0 1v0 -1v1; is 1 Int; -1 1v1 -1v0 | < | drop 1 Row:0 Row:2; drop 1 Row:1 Row:2 => needs 2: none",
    "3 0 1; is 0 Int; 0 1v0 -1v1; is 1 Int; -1 1v1 -1v0 | < | drop 1 Row:1 Row:2; drop 1 Row:0 Row:2 => needs 2: NotEntailed(0)",
    "3 0 1; is 0 Int; 0 1v0 -1v1; is 1 Int; -1 1v1 -1v0 | < | drop 1 Row:0 Row:1; drop 1 Row:0 Row:1; keep => needs 2: none; 1 left",
    // What a case knows of its own result.
    "3 0 1; is 0 Int; is 1 Int; -1 1v0; 0 -1v0 | < | keep; drop 1 ExactLow:10 ExactHigh:10 Row:0 Row:1 => needs 2: 3 10; next 11; is 10 Int; int 10 1; -1 -1v0 1v1",
    "0 1; is 0 Int; is 1 Int | < | drop 1 ExactLow:10 ExactHigh:10; keep => needs 2: NotEntailed(0)",
];

/// `>`.
pub static GREATER: [&str; 24] = [
    "3 0 1; int 0 6; int 1 5 | > => 3 10; next 11; is 10 Int; int 10 1",
    "3 0 1; int 0 5; int 1 6 | > => 3 10; next 11; is 10 Int; int 10 0",
    "3 0 1; int 0 5; int 1 5 | > => 3 10; next 11; is 10 Int; int 10 0",
    "3 0 1; int 0 2147483647; int 1 -2147483648 | > => 3 10; next 11; is 10 Int; int 10 1",
    "3 0 1; int 0 -2147483648; int 1 2147483647 | > => 3 10; next 11; is 10 Int; int 10 0",
    "3 0 1; int 0 7; int 0 5; int 1 6 | > => 3 10; next 11; is 10 Int; int 10 1",
    "3 0 1; int 0 5; int 1 6; int 1 4 | > => 3 10; next 11; is 10 Int; int 10 0",
    "3 0 0; is 0 Int | > => 3 10; next 11; is 10 Int; int 10 0",
    "5 5 5; int 5 6; int 5 5 | > => 5 10; next 11; is 10 Int; int 10 0",
    "3 0 1; is 0 Int; is 1 Int | > | keep; keep => needs 2: 3 10; next 11; is 10 Int; int 10 1; -1 1v0 -1v1 | 3 10; next 11; is 10 Int; int 10 0; 0 -1v0 1v1",
    "0 1; int 0 6; is 1 Int | > | keep; keep => needs 2: 10; next 11; is 10 Int; int 10 1; -1 1v0 -1v1 | 10; next 11; is 10 Int; int 10 0; 0 -1v0 1v1",
    "5 5 1; is 5 Int; is 1 Int | > | keep; keep => needs 2: 5 10; next 11; is 10 Int; int 10 1; -1 -1v1 1v5 | 5 10; next 11; is 10 Int; int 10 0; 0 1v1 -1v5",
    // a <= 5 and 5 <= b, with a - b - 1 >= 0.
    "3 0 1; is 0 Int; 5 -1v0; is 1 Int; -5 1v1 | > | drop 1 Row:0 Row:1 Row:2; keep => needs 2: 3 10; next 11; is 10 Int; int 10 0; 0 -1v0 1v1",
    "3 0 1; is 0 Int; 6 -1v0; is 1 Int; -5 1v1 | > | drop 1 Row:0 Row:1 Row:2; keep => needs 2: NotEntailed(0)",
    // None is below -2147483648.
    "3 0 1; is 0 Int; -2147483648 -1v0; is 1 Int | > | drop 1 Row:0 Row:1 ValueLow:1; keep => needs 2: 3 10; next 11; is 10 Int; int 10 0; 0 -1v0 1v1",
    // a is within the length of a text of 2 bytes.
    "3 0 1; is 0 Int; 0 1l2 -1v0; int 1 2; text 2 [97, 98] | > | drop 1 TextHigh:2 Row:0 Row:1 ExactLow:1; keep => needs 2: 3 10; next 11; is 10 Int; int 10 0; 0 -1v0 1v1",
    "3 0 1; is 0 Int; 0 1l2 -1v0; int 1 1; text 2 [97, 98] | > | drop 1 TextHigh:2 Row:0 Row:1 ExactLow:1; keep => needs 2: NotEntailed(0)",
    // 6 <= a and b <= 5, with b - a >= 0.
    "3 0 1; is 0 Int; -6 1v0; is 1 Int; 5 -1v1 | > | keep; drop 1 Row:0 Row:1 Row:2 => needs 2: 3 10; next 11; is 10 Int; int 10 1; -1 1v0 -1v1",
    "3 0 1; is 0 Int; -5 1v0; is 1 Int; 5 -1v1 | > | keep; drop 1 Row:0 Row:1 Row:2 => needs 2: NotEntailed(0)",
    "3 0 1; is 0 Int; -6 1v0; is 1 Int; 5 -1v1 | > | drop 1 Row:0 Row:1 Row:2; keep => needs 2: NotEntailed(0)",
    // a - b - 1 >= 0 and b - a >= 0.
    "3 0 1; is 0 Int; -1 1v0 -1v1; is 1 Int; 0 1v1 -1v0 | > | drop 1 Row:1 Row:2; drop 1 Row:0 Row:2 => needs 2: none",
    "3 0 1; is 0 Int; -1 1v0 -1v1; is 1 Int; 0 1v1 -1v0 | > | drop 1 Row:0 Row:2; drop 1 Row:1 Row:2 => needs 2: NotEntailed(0)",
    "3 0 1; is 0 Int; is 1 Int; -1 1v0; 0 -1v0 | > | drop 1 Row:0 Row:1; keep => needs 2: 3 10; next 11; is 10 Int; int 10 0; 0 -1v0 1v1",
    "3 0 1; is 0 Int; is 1 Int; -1 1v0; 0 -1v0 | > | drop 1; keep => needs 2: NotEntailed(0)",
];

/// Whether an integer is above 0.
pub static ABOVE: [&str; 24] = [
    "3 0; int 0 1 | above 0 => 3 0",
    "3 0; int 0 0 | above 0 => 3 0",
    "3 0; int 0 -2147483648 | above 0 => 3 0",
    "3 0; is 0 Int; int 0 1; int 0 0 | above 0 => 3 0",
    "3 0 1; is 0 Int; int 1 6 | above 1 => 3 0 1",
    "empty; int 0 1 | above 0 | keep => empty; 1 left",
    "3 0; is 0 Int | above 0 | keep; keep => needs 2: 3 0; -1 1v0 | 3 0; 0 -1v0",
    "empty; is 0 Int | above 0 | keep; keep => needs 2: empty; -1 1v0 | empty; 0 -1v0",
    "3 0 1; int 0 1; is 1 Int | above 1 | keep; keep => needs 2: 3 0 1; -1 1v1 | 3 0 1; 0 -1v1",
    "3 5 5; is 5 Int | above 5 | keep; keep => needs 2: 3 5 5; -1 1v5 | 3 5 5; 0 -1v5",
    "3 5 5; int 5 0 | above 5 => 3 5 5",
    // It isn't above 0.
    "3 0; is 0 Int; 0 -1v0 | above 0 | drop 1 Row:0 Row:1; keep => needs 2: 3 0; 0 -1v0",
    "3 0; is 0 Int; 1 -1v0 | above 0 | drop 1 Row:0 Row:1; keep => needs 2: NotEntailed(0)",
    "3 0; is 0 Int; 0 -1v0 | above 0 | keep; drop 1 Row:0 Row:1 => needs 2: NotEntailed(0)",
    "3 0; is 0 Int; 1 -2v0 | above 0 | drop 3 Row:0 2*Row:1; keep => needs 2: 3 0; 0 -1v0",
    // It is above 0.
    "3 0; is 0 Int; -1 1v0 | above 0 | keep; drop 1 Row:0 Row:1 => needs 2: 3 0; -1 1v0",
    "3 0; is 0 Int; 0 1v0 | above 0 | keep; drop 1 Row:0 Row:1 => needs 2: NotEntailed(0)",
    "3 0; is 0 Int; -1 1v0 | above 0 | drop 1 Row:0 Row:1; keep => needs 2: NotEntailed(0)",
    "3 0; is 0 Int; -1 2v0 | above 0 | keep; drop 1 Row:0 2*Row:1 => needs 2: 3 0; -1 1v0",
    // 1 <= a <= 0.
    "3 0; is 0 Int; -1 1v0; 0 -1v0 | above 0 | drop 1 Row:1 Row:2; drop 1 Row:0 Row:2 => needs 2: none",
    "3 0; is 0 Int; -1 1v0; 0 -1v0 | above 0 | drop 1 Row:0 Row:2; drop 1 Row:1 Row:2 => needs 2: NotEntailed(0)",
    "3 0; is 0 Int; -1 1v0; 0 -1v0 | above 0 | drop 1 Row:0 Row:1; drop 1 Row:0 Row:1; plain => needs 2: none; 1 left",
    // 1 <= 2a <= 1, of which no sum shows that it can't be; and there is no result to know of.
    "3 0; is 0 Int; -1 2v0; 1 -2v0 | above 0 | keep; drop 1 Row:0 Row:1 => needs 2: NotEntailed(0)",
    "3 0; is 0 Int; -1 1v0; 0 -1v0 | above 0 | keep; drop 1 ExactLow:10 ExactHigh:10 Row:0 Row:1 => needs 2: NotEntailed(0)",
];
