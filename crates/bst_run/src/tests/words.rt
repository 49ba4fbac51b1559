//! Words, and files that aren't there.

use crate::tests::check::JOINS;
use crate::tests::{Example, Failing, File, compare};
use bv_base::status::Status;
use std::test::Fail;

const USAGE: &str =
    "usage: check STYLE CERT; infer STYLE [COND]; run AUX N [CERT]; gen SEED COUNT\n";

/// The style alone.
const STYLE: &[File] = &[file_of!("a.bst", JOINS)];

/// Words of no form, beside a file that could be meant.
macro_rules! misused {
    ($words:expr) => {
        answered!($words, STYLE, Failing::Nothing => Usage, "", USAGE)
    };
}

#[test]
fn words_of_no_form_are_told_the_forms(rt: HostRuntime) -> Result<(), Fail> {
    compare(&rt, rt.alloc(), &MISUSED)
}

/// Words of no form, and such whose number has another spelling or is out of its range.
static MISUSED: [Example; 29] = [
    misused!([]),
    misused!(["infer"]),
    misused!(["--help"]),
    misused!(["check", "a.bst"]),
    misused!(["Infer", "a.bst"]),
    misused!(["run", "a.aux"]),
    misused!(["gen", "1"]),
    misused!(["Check", "a.bst", "b.cert"]),
    misused!(["run", "gone.aux", ""]),
    misused!(["run", "gone.aux", "00"]),
    misused!(["run", "gone.aux", "07"]),
    misused!(["run", "gone.aux", "1000000000"]),
    misused!(["run", "gone.aux", "-1"]),
    misused!(["run", "gone.aux", "1x"]),
    misused!(["gen", "1", "0"]),
    misused!(["gen", "1", "2001"]),
    misused!(["gen", "1", "01"]),
    misused!(["gen", "01", "1"]),
    misused!(["gen", "00", "1"]),
    misused!(["gen", "1000000000", "1"]),
    misused!(["gen", "4294967296", "1"]),
    misused!(["gen", "-1", "1"]),
    misused!(["gen", "", "1"]),
    misused!(["Gen", "1", "1"]),
    misused!(["check", "a.bst", "b.cert", "c"]),
    misused!(["infer", "a.bst", "c.cond", "c"]),
    misused!(["run", "gone.aux", "07", "b.cert"]),
    misused!(["gen", "1", "1", "1"]),
    misused!(["run", "gone.aux", "7", "b.cert", "c"]),
];

#[test]
fn words_of_a_form_are_taken(rt: HostRuntime) -> Result<(), Fail> {
    compare(&rt, rt.alloc(), &TAKEN)
}

/// Words of a form: some ask for a file that isn't there, and the others begin none, so that none can fail but sinks.
static TAKEN: [Example; 12] = [
    answered!(["check", "a.bst", "b.cert"], &[], Failing::Nothing => NoFile, "", "no file a.bst\n"),
    answered!(["check", "a.bst", "b.cert"], STYLE, Failing::Nothing => NoFile, "", "no file b.cert\n"),
    answered!(["run", "gone.aux", "0"], &[], Failing::Nothing => NoFile, "", "no file gone.aux\n"),
    answered!(["run", "gone.aux", "7"], &[], Failing::Nothing => NoFile, "", "no file gone.aux\n"),
    answered!(["run", "gone.aux", "999999999"], &[], Failing::Nothing => NoFile, "", "no file gone.aux\n"),
    answered!(["run", "gone.aux", "7", "b.cert"], &[], Failing::Nothing => NoFile, "", "no file gone.aux\n"),
    answered!(["gen", "1", "1"], &[], Failing::Nothing => Done, "functions 1\nbytes 129\naccepted\n", ""),
    answered!(["gen", "0", "1"], &[], Failing::Files(1) => Done, "functions 1\nbytes 123\naccepted\n", ""),
    answered!(["gen", "999999999", "1"], &[], Failing::Nothing => Done, "functions 1\nbytes 95\naccepted\n", ""),
    answered!(["gen", "1", "1"], &[], Failing::Out => WriteFailed, "", ""),
    answered!(["gen", "1", "1"], &[], Failing::Err => Done, "functions 1\nbytes 129\naccepted\n", ""),
    answered!(["gen", "1", "0"], &[], Failing::Err => WriteFailed, "", ""),
];
