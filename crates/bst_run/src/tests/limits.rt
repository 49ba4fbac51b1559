//! Certificates by which a walk is the longest that is taken, or longer. The condition has a nine for each number.

use crate::tests::{Judged, compare_judged};
use std::test::Fail;

#[test]
fn walks_count_to_their_limit(rt: HostRuntime) -> Result<(), Fail> {
    compare_judged(&rt, rt.alloc(), &COUNTS)
}

/// The longest walk that is taken, and one that is longer.
static COUNTS: [Judged; 2] = [
    // A walk that counts 1000000.
    judged!("ENTRY{}{}{} FUNCTION{f0}{} FUNCTION{f1}{f0 f0} FUNCTION{f2}{f1 f1} FUNCTION{f3}{f2 f2} FUNCTION{f4}{f3 f3} FUNCTION{f5}{f4 f4} FUNCTION{f6}{f5 f5} FUNCTION{f7}{f6 f6} FUNCTION{f8}{f7 f7} FUNCTION{f9}{f8 f8} FUNCTION{f10}{f9 f9} FUNCTION{f11}{f10 f10} FUNCTION{f12}{f11 f11} FUNCTION{f13}{f12 f12} FUNCTION{f14}{f13 f13} FUNCTION{f15}{f14 f14} FUNCTION{f16}{f15 f15} FUNCTION{f17}{f16 f16} FUNCTION{f18}{f17 f17} FUNCTION{f}{f18 f17 f16 f15 f13 f8 f5 f1 f1} READ EXECUTE{f}", "" => "accepted"),
    // A walk that counts 1000001.
    judged!("ENTRY{}{}{} FUNCTION{f0}{} FUNCTION{f1}{f0 f0} FUNCTION{f2}{f1 f1} FUNCTION{f3}{f2 f2} FUNCTION{f4}{f3 f3} FUNCTION{f5}{f4 f4} FUNCTION{f6}{f5 f5} FUNCTION{f7}{f6 f6} FUNCTION{f8}{f7 f7} FUNCTION{f9}{f8 f8} FUNCTION{f10}{f9 f9} FUNCTION{f11}{f10 f10} FUNCTION{f12}{f11 f11} FUNCTION{f13}{f12 f12} FUNCTION{f14}{f13 f13} FUNCTION{f15}{f14 f14} FUNCTION{f16}{f15 f15} FUNCTION{f17}{f16 f16} FUNCTION{f18}{f17 f17} FUNCTION{f}{f18 f17 f16 f15 f13 f8 f5 f1 f1 skip$} READ EXECUTE{f}", "" => "refused 1:457 WalkTooLong"),
];

#[test]
fn turns_count_on_to_the_limit(rt: HostRuntime) -> Result<(), Fail> {
    compare_judged(&rt, rt.alloc(), &LONG_TURNS)
}

/// A loop's own check counts over all its cases.
static LONG_TURNS: [Judged; 1] = [
    // The second case's turn counts on: the body's name, which it enters at the loop's place, is the 1000001st.
    judged!("ENTRY{}{}{} FUNCTION{f0}{} FUNCTION{f1}{f0 f0} FUNCTION{f2}{f1 f1} FUNCTION{f3}{f2 f2} FUNCTION{f4}{f3 f3} FUNCTION{f5}{f4 f4} FUNCTION{f6}{f5 f5} FUNCTION{f7}{f6 f6} FUNCTION{f8}{f7 f7} FUNCTION{f9}{f8 f8} FUNCTION{f10}{f9 f9} FUNCTION{f11}{f10 f10} FUNCTION{f12}{f11 f11} FUNCTION{f13}{f12 f12} FUNCTION{f14}{f13 f13} FUNCTION{f15}{f14 f14} FUNCTION{f16}{f15 f15} FUNCTION{f17}{f16 f16} FUNCTION{f18}{f17 f17} FUNCTION{h}{} INTEGERS{n} FUNCTION{f}{{n {f18 f17 f16 f15 f13 f8 f4 f3 f2 f1 f0 f0} 'skip$ if$ #1} 'h while$} READ", "loop #0 h\ncase\nvar n 0\nint 0 1\ncase\nvar n 0\nint 0 0\nhints\ncase 0\nend\n" => "refused 1:424 WalkTooLong"),
];
