//! Names and their parts, worked out by hand.

use name_split::names::{NameList, count, names, names_ok};
use name_split::parts::{NameFault, parts};
use name_split::pattern::pattern_ok;
use std::process::Abort;

/// Texts, and the number of the names of each.
static COUNTED: [(&[u8], u64); 7] = [
    (b"", 0),
    (b" ", 1),
    (b"A and B", 2),
    (b"A AND {B and C}", 2),
    (b"A and and B", 3),
    (b"and B and", 1),
    (b"A}and B {and C} and\tD", 2),
];

#[test]
fn names_are_counted(rt: HostRuntime) {
    have_count(&rt, &COUNTED);
    assert_eq!(rt; names(b"A and B").count(), 2);
    assert!(rt; names(b"A and B").all(|name| name.len() == 1));
}

fn have_count(rt: &impl Abort, rows: &[(&[u8], u64)]) {
    for (text, wanted) in rows {
        assert_eq!(rt; count(text), *wanted);
    }
}

/// Texts with their names.
static LISTED: [(&[u8], &[&[u8]]); 3] = [
    (b"", &[]),
    (
        b" A  and\n{B and C}\t AND and D ",
        &[b"A", b"{B and C}", b"", b"D"],
    ),
    (b"Andy and B", &[b"Andy", b"B"]),
];

#[test]
fn names_between_separators(rt: HostRuntime) {
    for (text, wanted) in &LISTED {
        let mut list = names(text);
        are_next(&rt, &mut list, wanted);
        assert!(rt; list.next().is_none());
        assert!(rt; list.next().is_none());
    }
}

fn are_next(rt: &impl Abort, list: &mut NameList, wanted: &[&[u8]]) {
    for want in wanted {
        match list.next() {
            Some(name) => assert_eq!(rt; name, *want),
            None => panic!(rt; "a name is missing"),
        }
    }
}

/// A name with its parts.
#[derive(Clone, Copy)]
struct Parted {
    name: &'static [u8],
    first: &'static [u8],
    von: &'static [u8],
    last: &'static [u8],
    jr: &'static [u8],
}

/// A name with its parts, in the order in which patterns name them: first, von, last, jr.
macro_rules! parted {
    ($name:literal => $first:literal, $von:literal, $last:literal, $jr:literal) => {
        Parted {
            name: $name,
            first: $first,
            von: $von,
            last: $last,
            jr: $jr,
        }
    };
}

static PARTED: [Parted; 17] = [
    parted!(b"de la Vall{\\'e}e Poussin, Charles" => b"Charles", b"de la", b"Vall{\\'e}e Poussin", b""),
    parted!(b"Jean-Paul de la Fontaine" => b"Jean-Paul", b"de la", b"Fontaine", b""),
    parted!(b"Donald E. Knuth" => b"Donald E.", b"", b"Knuth", b""),
    parted!(b"Per Brinch-Hansen" => b"Per", b"", b"Brinch-Hansen", b""),
    parted!(b"A-B-C" => b"", b"", b"A-B-C", b""),
    parted!(b"ludwig" => b"", b"", b"ludwig", b""),
    parted!(b"van~Beethoven , Jr,\tLudwig A." => b"Ludwig A.", b"van", b"Beethoven", b"Jr"),
    parted!(b"Beethoven,Ludwig" => b"Ludwig", b"", b"Beethoven", b""),
    parted!(b"A b C d E" => b"A", b"b C d", b"E", b""),
    parted!(b"{von} Last" => b"{von}", b"", b"Last", b""),
    parted!(b"{\\relax von} Last" => b"", b"{\\relax von}", b"Last", b""),
    parted!(b"{\\OE}x y" => b"{\\OE}x", b"", b"y", b""),
    parted!(b"{\\oe}X y" => b"", b"{\\oe}X", b"y", b""),
    parted!(b"{\\'E}x {\\'e}X y" => b"{\\'E}x", b"{\\'e}X", b"y", b""),
    parted!(b"{a, b} c-d~{e f}" => b"{a, b}", b"c-d", b"{e f}", b""),
    parted!(b" ~- " => b"", b"", b"", b""),
    parted!(b"" => b"", b"", b"", b""),
];

#[test]
fn parts_of_names(rt: HostRuntime) {
    have_parts(&rt, &PARTED);
}

fn have_parts(rt: &impl Abort, rows: &[Parted]) {
    for row in rows {
        let Ok(found) = parts(row.name) else {
            panic!(rt; "the name has no parts");
        };
        assert_eq!(rt; found.first, row.first);
        assert_eq!(rt; found.von, row.von);
        assert_eq!(rt; found.last, row.last);
        assert_eq!(rt; found.jr, row.jr);
    }
}

/// Names without parts, and why.
static FAULTY: [(&[u8], NameFault); 4] = [
    (b"A, B, C, D", NameFault::TooManyCommas),
    (b"A,,,", NameFault::TooManyCommas),
    (b"Smith, John,", NameFault::CommaAtEnd),
    (b"Smith, ~-", NameFault::CommaAtEnd),
];

#[test]
fn names_without_parts(rt: HostRuntime) {
    have_faults(&rt, &FAULTY);
    assert!(rt; names_ok(b""));
    assert!(rt; names_ok(b"A and {Smith, John,}"));
    assert!(rt; !names_ok(b"A and Smith, John,"));
    assert!(rt; !names_ok(b"A, B, C, D and E"));
}

fn have_faults(rt: &impl Abort, rows: &[(&[u8], NameFault)]) {
    for (name, fault) in rows {
        assert!(rt; parts(name).err() == Some(*fault));
    }
}

static FORMED: [&[u8]; 10] = [
    b"",
    b"abc",
    b"{ff~}{vv~}{ll}{, jj}",
    b"{fF}",
    b"{L.}",
    b"{f{xyz}}",
    b"{{xyz} }{ }",
    b"{\\'f}",
    b"{\xc3\xa9 v}",
    b"x{{{}}j}y",
];

static MALFORMED: [&[u8]; 12] = [
    b"{ff~}{xx}",
    b"{a}",
    b"{fv}",
    b"{fff}",
    b"{f{a}f}",
    b"{f1f}",
    b"{f",
    b"f}",
    b"}{",
    b"{f}}",
    b"{ff}{ll",
    b"{ll}{l l}",
];

#[test]
fn patterns(rt: HostRuntime) {
    are_formed(&rt, &FORMED, true);
    are_formed(&rt, &MALFORMED, false);
}

fn are_formed(rt: &impl Abort, patterns: &[&[u8]], formed: bool) {
    for pattern in patterns {
        assert_eq!(rt; pattern_ok(pattern), formed);
    }
}
