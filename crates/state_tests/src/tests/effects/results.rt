//! What built-in functions give.

/// Built-in functions that take or give integers.
pub static INTEGERS: [&str; 14] = [
    "3 0 1; int 0 5; int 1 7 | + => 3 10; next 11; is 10 Int; int 10 12",
    "3 0 1; int 0 5; int 1 7 | - => 3 10; next 11; is 10 Int; int 10 -2",
    "3 0 1; int 0 2147483646; int 1 1 | + => 3 10; next 11; is 10 Int; int 10 2147483647",
    "3 0 1; int 0 -2147483647; int 1 1 | - => 3 10; next 11; is 10 Int; int 10 -2147483648",
    "3 0 1; int 0 0; is 1 Int | + | step 1 ValueLow:1 ExactLow:0; step 1 ValueHigh:1 ExactHigh:0 => 3 10; next 11; is 10 Int; 0 -1v0 -1v1 1v10; 0 1v0 1v1 -1v10",
    "3 0 1; is 0 Int; int 1 0 | - | step 1 ValueLow:0 ExactHigh:1; step 1 ValueHigh:0 ExactLow:1 => 3 10; next 11; is 10 Int; 0 -1v0 1v1 1v10; 0 1v0 -1v1 -1v10",
    "3 0; is 0 Int; 0 1v0; 255 -2v0 | int.to.chr$ | step 1 Row:0; step 2 Row:1 => 3 10; next 11; is 10 Str; -1 1l10; 1 -1l10",
    "3 0; is 0 Int | int.to.str$ => 3 10; next 11; is 10 Str; nonblank 10; -1 1l10; 11 -1l10",
    "3 0; text 0 [195] | chr.to.int$ => 3 10; next 11; is 10 Int; int 10 195",
    "3 0; nonblank 0; 1 -1l0 | chr.to.int$ | step 1 NonblankLength:0; step 1 Row:0 => 3 10; next 11; is 10 Int; 0 1v10; 255 -1v10",
    "3 0; is 0 Str; 2147483647 -1l0 | num.names$ | step 1 NamesHigh:0 Row:0 => 3 10; next 11; is 10 Int; 0 -1n0 1v10; 0 1n0 -1v10",
    "3 0; is 0 Str; 2147483647 -1l0 | text.length$ | step 1 Row:0 => 3 10; next 11; is 10 Int; 0 1v10; 0 1l0 -1v10",
    "3 0; is 0 Str; 2147483647 -1028l0 | width$ | step 1 Row:0 => 3 10; next 11; is 10 Int; 0 1v10; 0 1028l0 -1v10",
    "3 0; is 0 Str; 100 -1l0 | width$ | step 1 1028*Row:0 => 3 10; next 11; is 10 Int; 0 1v10; 0 1028l0 -1v10",
];

/// Built-in functions that take and give strings.
pub static STRINGS: [&str; 18] = [
    "3 0 1; is 0 Str; is 1 Str | * => 3 10; next 11; is 10 Str; 0 -1l0 -1l1 1l10; 0 1l0 1l1 -1l10",
    "3 0 1; text 0 [117]; text 1 [32] | * => 3 10; next 11; is 10 Str; nonblank 10; 0 -1l0 -1l1 1l10; 0 1l0 1l1 -1l10",
    "3 0 1; text 0 [32]; nonblank 1 | * => 3 10; next 11; is 10 Str; nonblank 10; 0 -1l0 -1l1 1l10; 0 1l0 1l1 -1l10",
    "3 0; is 0 Str | add.period$ => 3 10; next 11; is 10 Str; 0 -1l0 1l10; 1 1l0 -1l10",
    "3 0; nonblank 0 | add.period$ => 3 10; next 11; is 10 Str; nonblank 10; 0 -1l0 1l10; 1 1l0 -1l10",
    "3 0; nonblank 0 | purify$ => 3 10; next 11; is 10 Str; 0 1l0 -1l10",
    "3 0 1; is 0 Str; text 1 [116] | change.case$ => 3 10; next 11; is 10 Str; 0 1l0 -1l10",
    "3 0 1; is 0 Str; text 1 [108] | change.case$ => 3 10; next 11; is 10 Str; 0 1l0 -1l10",
    "3 0 1; is 0 Str; text 1 [117] | change.case$ => 3 10; next 11; is 10 Str; 0 1l0 -1l10",
    "3 0 1; is 0 Str; text 1 [84] | change.case$ => 3 10; next 11; is 10 Str; 0 1l0 -1l10",
    "3 0 1; is 0 Str; text 1 [76] | change.case$ => 3 10; next 11; is 10 Str; 0 1l0 -1l10",
    "3 0 1; nonblank 0; text 1 [85] | change.case$ => 3 10; next 11; is 10 Str; 0 1l0 -1l10",
    "3 0 1; is 0 Str; is 1 Int | text.prefix$ => 3 10; next 11; is 10 Str",
    "3 0 1 2; nonblank 0; wellformed 0; int 1 1; text 2 [123, 108, 108, 125] | format.name$ | step 1 ExactLow:1; step 1 NonblankNames:0 ExactHigh:1 => 3 10; next 11; is 10 Str",
    "3 0 1 2; is 0 Str; is 1 Int; is 2 Int | substring$ | plain => 3 10; next 11; is 10 Str; 0 1l0 -1l10",
    "3 0 1 2; is 0 Str; is 1 Int; int 2 3 | substring$ | plain => 3 10; next 11; is 10 Str; 0 1l0 -1l10; 3 -1l10",
    "3 0 1 2; is 0 Str; is 1 Int; int 2 -1 | substring$ | plain => 3 10; next 11; is 10 Str; 0 1l0 -1l10; 0 -1l10",
    "3 0 1 2; text 0 [97, 98, 99, 100]; int 1 -2; int 2 3 | substring$ | step 1 TextLow:0 => 3 10; next 11; is 10 Str; -3 1l10; 3 -1l10",
];

/// Built-in functions that move values, push what they find, or bind names.
pub static MOVES: [&str; 21] = [
    "3 0 1; is 0 Int; is 1 Str | duplicate$ => 3 0 1 1",
    "3 0 1; is 0 Int; is 1 Str | swap$ => 3 1 0",
    "3 0 1; is 0 Int; is 1 Str | pop$ => 3 0",
    "3 0 1; is 0 Int; is 1 Str | top$ => 3 0",
    "3 0 1; is 0 Int; is 1 Str | warning$ => 3 0",
    "3 0 1; is 0 Int; is 1 Str | write$ => 3 0",
    "3 0 1; is 0 Int; is 1 Str | newline$ => 3 0 1",
    "3 0 1; is 0 Int; is 1 Str | skip$ => 3 0 1",
    "3 0 1; is 0 Int; is 1 Str | stack$ => empty",
    "3 0 1; is 0 Int; is 1 Str | cite$ => 3 0 1 10; next 11; is 10 Str; 20 -1l10",
    "3 0 1; is 0 Int; is 1 Str | preamble$ => 3 0 1 10; next 11; is 10 Str; 30 -1l10",
    "3 0 1; is 0 Int; is 1 Str | type$ => 3 0 1 10; next 11; is 10 Str",
    "3 0 1; is 0 Int; is 1 Str | quote$ => 3 0 1 10; next 11; is 10 Str; text 10 [34]",
    "3 0 1; is 0 Int; call 1 39 | := => 3; 39=0",
    "3 0 1; is 0 Int; call 1 42 | := => 3; 42=0",
    "3 0 1; text 0 [97, 98]; call 1 41 | := => 3; 41=0",
    "3 0 1; is 0 Str; 20000 -1l0; call 1 41 | := | step 1 Row:0 => 3; 41=0",
    "3 0 1; is 0 Str; 20000 -1l0; call 1 41 | := | plain => 3; next 11; is 10 Str; 20000 -1l10; 41=10",
    "3 0 1; is 0 Str; 250 -1l0; call 1 38 | := | step 1 Row:0 => 3; 38=0",
    "3 0 1; letters 0 250; call 1 38 | := => 3; 38=0",
    "3 0 1; letters 0 251; call 1 38 | := | plain => 3; next 11; is 10 Str; 250 -1l10; 38=10",
];

/// One symbol in two operands, in a variable too, and with facts of which the first decides.
pub static SYMBOLS: [&str; 24] = [
    "3 0 0; is 0 Int; 0 1v0; 255 -2v0 | + | step 1 2*Row:0; step 1 Row:1 => 3 10; next 11; is 10 Int; 0 -2v0 1v10; 0 2v0 -1v10",
    "3 0 0; is 0 Int | - | step 1 0*CountLow; step 1 0*CountLow => 3 10; next 11; is 10 Int; 0 1v10; 0 -1v10",
    "3 0 0; text 0 [117] | * => 3 10; next 11; is 10 Str; nonblank 10; 0 -2l0 1l10; 0 2l0 -1l10",
    "3 0 0; text 0 [117] | change.case$ => 3 10; next 11; is 10 Str; 0 1l0 -1l10",
    "3 0 0; is 0 Int | swap$ => 3 0 0",
    "3 0 0; is 0 Int | duplicate$ => 3 0 0 0",
    "3 0 0; is 0 Int | pop$ => 3 0",
    "3 0 1 1; text 0 [97, 98, 99]; int 1 2 | substring$ | step 1 TextLow:0 => 3 10; next 11; is 10 Str; -2 1l10; 2 -1l10",
    "3 0 1 0; text 0 [123, 108, 108, 125]; int 1 1 | format.name$ | step 1 ExactLow:1; step 1 NonblankNames:0 ExactHigh:1 => 3 10; next 11; is 10 Str",
    "3 1 1; call 1 39 | := => WrongKind 2",
    // Symbols 4, 5 and 7 are the values of `sort.key$`, `entry.max$` and the global string.
    "3 7; is 7 Str | add.period$ => 3 10; next 11; is 10 Str; 0 -1l7 1l10; 1 1l7 -1l10",
    "4 4 1; is 4 Str; call 1 38 | := | plain => 4; next 11; is 10 Str; 250 -1l10; 38=10",
    "3 5 1; is 5 Int; call 1 39 | := => 3",
    "3 5 1; is 5 Int; call 1 42 | := => 3; 42=5",
    // Facts that can't all hold.
    "3 0 1; int 0 5; int 0 6; int 1 1 | + => 3 10; next 11; is 10 Int; int 10 6",
    "3 0; is 0 Str; int 0 5 | int.to.str$ => WrongKind 1",
    "3 0; is 0 Optional; is 0 Int; is 0 Str | int.to.str$ => 3 10; next 11; is 10 Str; nonblank 10; -1 1l10; 11 -1l10",
    "3 0; nonblank 0; blank 0 | add.period$ => 3 10; next 11; is 10 Str; nonblank 10; 0 -1l0 1l10; 1 1l0 -1l10",
    "3 0; blank 0; nonblank 0 | add.period$ => 3 10; next 11; is 10 Str; 0 -1l0 1l10; 1 1l0 -1l10",
    "3 0; text 0 [97]; text 0 [98, 99] | chr.to.int$ => 3 10; next 11; is 10 Int; int 10 97",
    "3 0; text 0 [98, 99]; text 0 [97] | chr.to.int$ => HintsShort",
    "3 0 1; is 0 Int; call 1 39; call 1 42 | := => 3; 39=0",
    "3 0 1; is 0 Int; block 1 0; call 1 39 | := => NotVariable 1",
    "3 0 1 2; text 0 [97, 44]; wellformed 0; int 1 1; text 2 [123, 108, 108, 125] | format.name$ | step 1 ExactLow:1; step 1 NonblankNames:0 ExactHigh:1 => 3 10; next 11; is 10 Str",
];
