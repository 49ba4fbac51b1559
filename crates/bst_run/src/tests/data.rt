//! Runs over bad data, and inputs that nest.

use crate::tests::run::{KEYS, ONE};
use crate::tests::{Example, Failing, File, compare};
use bv_base::status::Status;
use std::test::Fail;

/// What is answered to a run whose `.aux` file, input or database is at fault.
macro_rules! unread {
    ($aux:expr, $input:expr, $data:expr => $fault:literal) => {
        ran!($aux, $input, KEYS, $data, "9" => BadData, "", concat!("bad data ", $fault, "\n"))
    };
}

/// What is answered where the database is.
macro_rules! bad_data {
    ($aux:expr, $data:expr => $fault:literal) => {
        unread!($aux, "", $data => $fault)
    };
}

/// What is answered where the `.aux` file is, or its input.
macro_rules! bad_aux {
    ($aux:expr => $fault:literal) => {
        bad_aux!($aux, "" => $fault)
    };
    ($aux:expr, $input:expr => $fault:literal) => {
        unread!($aux, $input, "" => $fault)
    };
}

#[test]
fn bad_data_is_named_with_its_place(rt: HostRuntime) -> Result<(), Fail> {
    compare(&rt, rt.alloc(), &UNREAD)
}

/// Databases, each at fault, and then `.aux` files.
static UNREAD: [Example; 16] = [
    bad_data!(ONE, "@misc k" => "d.bib 1:7 Expected"),
    bad_data!(ONE, "@misc{k, a = {x}" => "d.bib 1:17 EndOfFile"),
    bad_data!(ONE, "@misc{k, a = \"}\"}" => "d.bib 1:15 Unbalanced"),
    bad_data!(ONE, "@misc{k}\n@misc{K}\n" => "d.bib 2:7 RepeatedKey"),
    // A database that is named twice is read twice.
    bad_data!("\\bibstyle{s}\n\\bibdata{d,d.bib}", "\n@misc{k}\n" => "d.bib 2:7 RepeatedKey"),
    bad_aux!("\n\\citation{a" => "p.aux 2:1 BadCommand"),
    bad_aux!("\\bibstyle{s}\n\\bibstyle{s}\n" => "p.aux 2:1 SecondStyle"),
    bad_aux!("\\bibdata{d}\n\\bibdata{d}\n" => "p.aux 2:1 SecondData"),
    // A style and databases are wanted, the style first, at the end of the first file and after its inputs.
    bad_aux!("" => "p.aux 1:1 NoStyle"),
    bad_aux!("\\bibdata{d}\n" => "p.aux 2:1 NoStyle"),
    bad_aux!("\\@input{i.aux}\n\\bibstyle{s}", "\n\n" => "p.aux 2:13 NoData"),
    // An input is read later, so it is at fault, at the first of its lines that is.
    bad_aux!("\\bibstyle{s}\n\\@input{i.aux}\n", "\n\\bibstyle{s}\n" => "i.aux 2:1 SecondStyle"),
    bad_aux!("\\@input{i.aux}\n\\bibdata{d}\n", "\\bibdata{d}\n" => "i.aux 1:1 SecondData"),
    bad_aux!("\\bibstyle{s}\n\\bibdata{d}\n\\@input{i.aux}\n", "\\bibdata{d}\n\\bibstyle{s}\n" => "i.aux 1:1 SecondData"),
    bad_aux!("\\bibstyle{s}\n\\@input{i.aux}\n", "\\bibstyle{s}\n\\citation{}\n" => "i.aux 2:1 BadCommand"),
    // A file that inputs itself nests too deep.
    bad_aux!("\\citation{a}\n\\@input{p.aux}\n" => "p.aux 2:1 TooDeep"),
];

/// The style, the database, the first file, which asks for both, and a file for each of these depths, with that of the depth behind
/// it as its input.
macro_rules! nest {
    ($($depth:literal > $next:literal),*) => {
        &[
            file_of!("s.bst", KEYS),
            file_of!("d.bib", "@misc{a}@misc{b}@misc{c}"),
            file_of!("p.aux", "\\bibstyle{s}\n\\citation{a}\n\\@input{q1.aux}\n\\citation{b}\n\\bibdata{d}\n"),
            $(file_of!(concat!("q", $depth, ".aux"), concat!("\\@input{q", $next, ".aux}\n")),)*
        ]
    };
}

/// The files of all depths below 16.
const NEST: &[File] = nest!(
    1 > 2,
    2 > 3,
    3 > 4,
    4 > 5,
    5 > 6,
    6 > 7,
    7 > 8,
    8 > 9,
    9 > 10,
    10 > 11,
    11 > 12,
    12 > 13,
    13 > 14,
    14 > 15,
    15 > 16
);

#[test]
fn inputs_nest_sixteen_deep(rt: HostRuntime) -> Result<(), Fail> {
    compare(&rt, rt.alloc(), &NESTED)
}

/// The file of depth 16.
static NESTED: [Example; 4] = [
    // What an input cites takes its place among the citations.
    nested!("\\citation{c}\n" => Done, "a\nc\nb\n", ""),
    nested!("\\@input{x}\n" => BadData, "", "bad data q16.aux 1:1 TooDeep\n"),
    // The earlier line is at fault.
    nested!("\n\\@input{x}\n\\bibstyle{s}\n" => BadData, "", "bad data q16.aux 2:1 TooDeep\n"),
    nested!("\n\\bibdata{s}\n\\@input{x}\n" => BadData, "", "bad data q16.aux 2:1 SecondData\n"),
];
