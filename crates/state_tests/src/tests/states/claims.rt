//! Which facts follow from one.

use crate::tests::lines::compare;
use crate::tests::reading::Unread;
use crate::tests::states::{Asked, add_known, known_state};

/// A claim on a symbol, and whether it is known.
static CLAIMS: [&str; 23] = [
    "an exact integer: empty; is 1 Int => true",
    "no string: empty; is 1 Str => false",
    "an exact text: empty; is 2 Str => true",
    "perhaps missing: empty; is 2 Optional => true",
    "a string: empty; is 3 Str => true",
    "not missing: empty; is 3 Missing => false",
    "either: empty; is 5 Optional => true",
    "missing: empty; is 6 Str => false",
    "of any kind: empty; is 0 Any => true",
    "of no kind: empty; is 0 Optional => false",
    "no function: empty; is 1 Func => false",
    "five: empty; int 1 5 => true",
    "six: empty; int 1 6 => false",
    "ab: empty; text 2 [97, 98] => true",
    "a: empty; text 2 [97] => false",
    "a text with ink: empty; nonblank 2 => true",
    "a text with ink, blank: empty; blank 2 => false",
    "missing, blank: empty; blank 6 => true",
    "either fact: empty; nonblank 4 => true",
    "missing has no names: empty; wellformed 6 => true",
    "a good name: empty; wellformed 2 => true",
    "a string of any names: empty; wellformed 5 => false",
    "no name of a function: empty; call 1 36 => false",
];

#[test]
fn facts_follow_from_one(rt: HostRuntime) {
    compare(&rt, rt.alloc(), &Asked::Claim, &CLAIMS);
}

/// Adds whether the claim is known.
pub fn add_claim(line: &mut String, given: &'static str) -> Result<(), Unread> {
    let state = known_state(*line.allocator(), false)?;
    add_known(line, &state, given)
}
