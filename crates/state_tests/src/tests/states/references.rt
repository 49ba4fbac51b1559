//! What each reference shows.

use crate::tests::lines::compare;
use crate::tests::reading::{Unread, thirds};
use crate::tests::states::{Asked, add_shown, known_state};

/// A reference, at an entry or not, with a goal and whether it shows it.
static REFERENCES: [&str; 37] = [
    "a row: no entry | 1 Row:0 | -3 1v0 0p0 => true",
    "no more than a row says: no entry | 1 Row:0 | -4 1v0 0p0 => false",
    "a row that isn't there: no entry | 1 Row:1 | 0 0p0 0p0 => false",
    "a row of a higher number: no entry | 1 Row:4294967295 | 0 0p0 0p0 => false",
    "the least integer: no entry | 1 ValueLow:0 | 2147483647 1v0 0p0 => false",
    "the greatest integer: no entry | 1 ValueHigh:0 | 2147483647 -1v0 0p0 => true",
    "less than the greatest integer: no entry | 1 ValueHigh:0 | 2147483646 -1v0 0p0 => false",
    "a symbol that isn't the state's: no entry | 1 ValueHigh:7 | 2147483647 -1v7 0p0 => false",
    "the last symbol of the state: no entry | 1 ValueHigh:6 | 2147483647 -1v6 0p0 => true",
    "a length: no entry | 1 LengthLow:0 | 0 1l0 0p0 => true",
    "a length of 1: no entry | 1 LengthLow:0 | -1 1l0 0p0 => false",
    "names: no entry | 1 NamesLow:0 | 0 1n0 0p0 => true",
    "no more names than bytes: no entry | 1 NamesHigh:0 | 0 1l0 -1n0 => true",
    "fewer names than bytes: no entry | 1 NamesHigh:0 | -1 1l0 -1n0 => false",
    "at least 5: no entry | 1 ExactLow:1 | -5 1v1 0p0 => true",
    "at least 6: no entry | 1 ExactLow:1 | -6 1v1 0p0 => false",
    "at most 5: no entry | 1 ExactHigh:1 | 5 -1v1 0p0 => true",
    "exact without its fact: no entry | 1 ExactLow:0 | 0 0p0 0p0 => false",
    "exact of another symbol: no entry | 1 ExactHigh:2 | 0 0p0 0p0 => false",
    "a byte of what isn't blank: no entry | 1 NonblankLength:3 | -1 1l3 0p0 => true",
    "a name of what isn't blank: no entry | 1 NonblankNames:3 | -1 1n3 0p0 => true",
    "two bytes of what isn't blank: no entry | 1 NonblankLength:3 | -2 1l3 0p0 => false",
    "not blank by an exact text: no entry | 1 NonblankLength:2 | -1 1l2 0p0 => true",
    "blank before not blank: no entry | 1 NonblankLength:4 | 0 0p0 0p0 => false",
    "a string that may be blank: no entry | 1 NonblankNames:5 | 0 0p0 0p0 => false",
    "two bytes of a text: no entry | 1 TextLow:2 | -2 1l2 0p0 => true",
    "three bytes of a text: no entry | 1 TextLow:2 | -3 1l2 0p0 => false",
    "no more than two bytes: no entry | 1 TextHigh:2 | 2 -1l2 0p0 => true",
    "a text without its fact: no entry | 1 TextHigh:5 | 0 0p0 0p0 => false",
    "a position at an entry: entry | 1 PosLow | 0 1p0 0p0 => true",
    "a position at no entry: no entry | 1 PosLow | 0 0p0 0p0 => false",
    "a position below the count: entry | 1 PosHigh | -1 1c0 -1p0 => true",
    "a position below the count less 1: entry | 1 PosHigh | -2 1c0 -1p0 => false",
    "a count at no entry: no entry | 1 PosHigh | 0 0p0 0p0 => false",
    "a count: no entry | 1 CountLow | 0 1c0 0p0 => true",
    "ten entries: no entry | 1 CountHigh | 10 -1c0 0p0 => true",
    "nine entries: no entry | 1 CountHigh | 9 -1c0 0p0 => false",
];

/// Adds whether a proof shows the goal.
pub fn add_reference(line: &mut String, given: &'static str) -> Result<(), Unread> {
    let (place, uses, goal) = thirds(given);
    let at_entry = is_at_entry(place)?;
    let state = known_state(*line.allocator(), at_entry)?;
    add_shown(line, &state, uses, goal)
}

fn is_at_entry(text: &'static str) -> Result<bool, Unread> {
    match text {
        "entry" => Ok(true),
        "no entry" => Ok(false),
        _ => Err(Unread::At(text)),
    }
}

#[test]
fn references_show_their_rows(rt: HostRuntime) {
    compare(&rt, rt.alloc(), &Asked::Reference, &REFERENCES);
}
