//! Names by patterns, worked out by hand.

use name_format::format::{FormatFault, format};
use name_format::known::Known;
use std::alloc::Global;
use std::process::Abort;
use std::test::Fail;

/// A name of many parts, and a pattern that gives every part whole.
const POUSSIN: &[u8] = br"Charles Louis Xavier Joseph de la Vall{\'e}e Poussin";

const WHOLE: &[u8] = b"{ff~}{vv~}{ll}{, jj}";

/// A name, a pattern and the text that they give.
static WRITTEN: [(&[u8], &[u8], &[u8]); 53] = [
    (
        POUSSIN,
        b"{vv~}{ll}{, jj}{, f}?",
        br"de~la Vall{\'e}e~Poussin, C.~L. X.~J?",
    ),
    (b"Ann Lee", WHOLE, b"Ann Lee"),
    (b"Bo Ray", WHOLE, b"Bo~Ray"),
    // one letter, and two
    (b"Ann B. Lee", b"{f. }{ll}", b"A.~B. Lee"),
    (b"Ann B. Lee", b"{F}{L}", b"A.~BL"),
    (b"Ann B. Lee", b"{fF}", b"Ann~B."),
    (b"Ann Lee", b"{f}", b"A"),
    (b"Ludwig van Beethoven", b"{v.}", b"v."),
    (b"Ludwig van Beethoven", b"{vv~}{ll}", b"van Beethoven"),
    (b"Ludwig van Beethoven", b"{v}{l}", b"vB"),
    (
        b"King, Jr, Martin Luther",
        b"{ll}{, jj}{, f.}",
        b"King, Jr, M.~L.",
    ),
    (b"King, Jr, Martin Luther", b"{j}", b"J"),
    // a text between tokens
    (b"Ann B. Lee", b"{f{}}", b"AB"),
    (b"Ann B. Lee", b"{ff{, }}", b"Ann, B."),
    (b"Ann B. Lee", b"{f{, }}", b"A, B"),
    (b"Ann B. Lee", b"{f{-}.}", b"A-B."),
    (b"Ann B. Lee", b"{f{{.}}}", b"A{.}B"),
    (b"Jean-Paul Sartre", b"{f{}}", b"JP"),
    // joints
    (b"Jean-Paul Sartre", b"{f.}", b"J.-P."),
    (b"Jean-Paul Sartre", b"{ff}", b"Jean-Paul"),
    (b"Jean~Paul Sartre", b"{f.~}{ll}", b"J.~P. Sartre"),
    (b"Jean~Paul Sartre", b"{ff}", b"Jean~Paul"),
    (b"Per Brinch-Hansen", b"{l.}", b"B.-H."),
    (b"A - B Lee", b"{f}", b"A.~B"),
    (b"A- B Lee", b"{f}", b"A.-B"),
    (b"A Bob Carl Lee", b"{ff}", b"A~Bob~Carl"),
    (b"Al Bob Carl Dan Lee", b"{ff}", b"Al~Bob Carl~Dan"),
    (b"Abe\tBob Carl Lee", b"{ff}", b"Abe Bob~Carl"),
    (br"{\'E}a B C D Lee", b"{f}", br"{\'E}.~B. C.~D"),
    // the end of a group
    (b"Ann Lee", b"{ff~~}{ll}", b"Ann~Lee"),
    (b"Ann Lee", b"{f~~}{ll}", b"A~Lee"),
    (b"Ann Lee", b"{f~}{ll}", b"A~Lee"),
    (b"Ann Lee", b"{f.~}{ll}", b"A.~Lee"),
    (b"Ann Lee", b"{f..~}{ll}", b"A.. Lee"),
    (b"Ann Lee", b"{ll~}", b"Lee "),
    (b"Bo Li", b"{1234ll~}", b"1234Li~"),
    (br"{\'E}l Roi", b"{ff~}{ll}", br"{\'E}l~Roi"),
    // initials
    (br"{\'E}l Roi", b"{f.}", br"{\'E}."),
    (br"'{\'E}a Lee", b"{f.}", br"{\'E}."),
    (br"D'{\'E}tienne Lee", b"{f.}", b"D."),
    (br"{\v{S}}i Lee", b"{f.}", br"{\v{S}}."),
    (b"{Ann} Lee", b"{f.}", b"A."),
    (b"{Ann} Lee", b"{ff}", b"{Ann}"),
    (b"\xc3\x89VA Lee", b"{f.}", b"\xc3."),
    (b"1234 Lee", b"{f.}x{ll}", b".xLee"),
    (b"1234 Lee", b"{~f}{ll}", b"~Lee"),
    // groups without letters, and parts without tokens
    (b"Ann Lee", b"{1 }x{}", b"1 x"),
    (b"Ann Lee", b"{{vv}~}{ll}", b"{vv}~Lee"),
    (b"Ann Lee", b"By {~~}{ll}", b"By ~~Lee"),
    (b"Ann Lee", b"{{[}ff {]}}", b"{[}Ann {]}"),
    (b"Ann Lee", b"{1vv2}{1jj2}{1ff2}", b"1Ann2"),
    (b" ", b"{ff~}{vv~}{ll}x", b"x"),
    (b"Ann Lee", b"", b""),
];

#[test]
fn names_by_patterns(rt: HostRuntime) {
    are_written(&rt, rt.alloc(), &WRITTEN);
}

fn are_written(rt: &impl Abort, alloc: Global, rows: &[(&[u8], &[u8], &[u8])]) {
    let mut known = Known::new(alloc);
    for (name, pattern, text) in rows {
        match format(alloc, &mut known, name, 1, pattern) {
            Ok(found) => assert_eq!(rt; found.as_slice(), *text),
            Err(_) => panic!(rt; "the name isn't written"),
        }
    }
}

#[test]
fn the_name_with_a_number(rt: HostRuntime) -> Result<(), Fail> {
    let mut known = Known::new(rt.alloc());
    let second = format(
        rt.alloc(),
        &mut known,
        b"Ann Lee and Bo Ray",
        2,
        b"{ll}, {ff}",
    )?;
    assert_eq!(rt; second.as_slice(), b"Ray, Bo".as_slice());
    let after_a_bad_one = format(rt.alloc(), &mut known, b"Smith, John, and B", 2, b"{ll}")?;
    assert_eq!(rt; after_a_bad_one.as_slice(), b"B".as_slice());
    Ok(())
}

/// Names that aren't written, an index and a pattern, and the fault.
type Faulty<'a> = (&'a [u8], i32, &'a [u8], FormatFault);

static FAULTY: [Faulty; 13] = [
    (b"A and B", 3, b"{xx}", FormatFault::BadNameIndex),
    (b"A", 2, b"", FormatFault::BadNameIndex),
    (b"A", 0, b"", FormatFault::BadNameIndex),
    (b"A", -1, b"", FormatFault::BadNameIndex),
    (b"A, B,", i32::MIN, b"{xx}", FormatFault::BadNameIndex),
    (b"", 1, b"", FormatFault::BadNameIndex),
    (b"Smith, John,", 1, b"{xx}", FormatFault::BadName),
    (b"A and B, C, D, E", 2, b"", FormatFault::BadName),
    (b"A B", 1, b"{ff~}{xx}", FormatFault::BadPattern),
    (b"A B", 1, b"{", FormatFault::BadPattern),
    (b"A B", 1, b"}", FormatFault::BadPattern),
    (b"A B", 1, b"{fl}", FormatFault::BadPattern),
    (b"A B", i32::MAX, b"{ll}", FormatFault::BadNameIndex),
];

#[test]
fn the_first_fault_is_given(rt: HostRuntime) {
    are_refused(&rt, rt.alloc(), &FAULTY);
}

fn are_refused(rt: &impl Abort, alloc: Global, rows: &[Faulty]) {
    let mut known = Known::new(alloc);
    for (names, index, pattern, fault) in rows {
        match format(alloc, &mut known, names, *index, pattern) {
            Ok(_) => panic!(rt; "a fault is missing"),
            Err(found) => assert_eq!(rt; found, *fault),
        }
    }
}
