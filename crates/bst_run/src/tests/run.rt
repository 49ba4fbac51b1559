//! Runs, what they write, and where they come to a fault.

use crate::tests::check::JOINS;
use crate::tests::{Example, Failing, File, compare};
use bv_base::status::Status;
use std::test::Fail;

/// Cites one entry.
pub const ONE: &str = "\\citation{k}\n\\bibstyle{s}\n\\bibdata{d}\n";

/// Cites an entry that no database has.
pub const ZZ: &str = "\\citation{zz}\n\\citation{zz}\n\\bibstyle{s}\n\\bibdata{d}\n";

/// Writes the keys of the entries.
pub const KEYS: &str = "ENTRY{}{}{} FUNCTION{f}{cite$ write$ newline$} READ ITERATE{f}";

/// Writes the first author by a pattern.
const FORMAT: &str =
    "ENTRY{author}{}{} FUNCTION{f}{author #1 \"{vv~}{ll}{, jj}{, f}?\" format.name$ write$ newline$} READ ITERATE{f}";

/// Enters the function of each entry's type.
pub const TYPES: &str =
    "ENTRY{}{}{} FUNCTION{output}{write$ newline$} FUNCTION{misc}{\"x\" output} READ ITERATE{call.type$}";

/// Writes the authors of each entry as a list, the last of them behind `and`, or `et al.` where that is `others`.
pub const NAMES: &str = "ENTRY{author}{}{}
INTEGERS{nameptr namesleft numnames}
STRINGS{s t}
FUNCTION{format.names}
{ 's := #1 'nameptr := s num.names$ 'numnames := numnames 'namesleft :=
  { namesleft #0 > }
  { s nameptr \"{ff~}{vv~}{ll}{, jj}\" format.name$ 't :=
    nameptr #1 >
    { namesleft #1 > { \", \" * t * }
      { numnames #2 > { \",\" * } 'skip$ if$
        t \"others\" = { \" et~al.\" * } { \" and \" * t * } if$ } if$ }
    't if$
    nameptr #1 + 'nameptr := namesleft #1 - 'namesleft := }
  while$ }
FUNCTION{misc}{author empty$ 'skip$ {author format.names write$ newline$} if$}
READ
ITERATE{call.type$}
";

#[test]
fn a_run_writes_its_lines_and_its_log(rt: HostRuntime) -> Result<(), Fail> {
    compare(&rt, rt.alloc(), &RUNS)
}

/// Runs with their lines and their logs.
static RUNS: [Example; 11] = [
    ran!(ONE, "", FORMAT, "@misc{k, author = {Charles Louis Xavier Joseph de la Vall{\\'e}e Poussin}}\n", "1000" => Done, "de~la Vall{\\'e}e~Poussin, C.~L. X.~J?\n", ""),
    ran!(ONE, "", NAMES, "@misc{k, author = {Ann Lee and Bo Ray and Cy Fox}}\n", "1000" => Done, "Ann Lee, Bo~Ray, and Cy~Fox\n", ""),
    // The number of steps: all of them, one less, and fewer than the first line takes.
    ran!(ZZ, "", JOINS, "", "11" => Done, "ab\n", "Warning--no entry zz\n"),
    ran!(ZZ, "", JOINS, "", "10" => Budget, "ab\n", "Warning--no entry zz\nbudget 10\n"),
    ran!(ZZ, "", JOINS, "", "7" => Budget, "", "Warning--no entry zz\nbudget 7\n"),
    // No step is needed for declarations, and READ needs one.
    ran!(ONE, "", "FUNCTION{f}{skip$}", "@misc{k}", "0" => Done, "", ""),
    ran!(ONE, "", "ENTRY{}{}{} READ", "@misc{k}", "0" => Budget, "", "budget 0\n"),
    // The log has the warnings of the databases, those of the joining and those of the run.
    ran!("\\citation{k,x}\n\\bibstyle{s}\n\\bibdata{d}\n", "", "ENTRY{}{}{} FUNCTION{f}{\"w\" warning$ pop$} READ EXECUTE{f}", "@misc{k, a = zz}", "999999999" => Fault, "", "Warning--undefined macro zz\nWarning--no entry x\nWarning--w\nfault 1:38 EmptyPop -\n"),
    // Names that end so already.
    ran!("\\citation{k}\n\\bibstyle{s.bst}\n\\bibdata{d.bib}\n", "", KEYS, "@misc{k}", "99" => Done, "k\n", ""),
    ran!("\\citation{k}\n\\bibstyle{s}\n\\bibdata{d, i.aux}\n", "", KEYS, "@misc{k}", "99" => NoFile, "", "no file i.aux.bib\n"),
    // The style is read before the databases.
    ran!(ONE, "", "READ", "@", "1" => BadStyle, "", "bad style 1:1 ReadBeforeEntry\n"),
];

/// What is answered to a run that comes to a fault.
macro_rules! faulted {
    ($aux:expr, $style:expr, $data:expr => $out:expr, $fault:literal) => {
        ran!($aux, "", $style, $data, "1000" => Fault, $out, concat!("fault ", $fault, "\n"))
    };
}

#[test]
fn a_fault_has_its_place_and_its_key(rt: HostRuntime) -> Result<(), Fail> {
    compare(&rt, rt.alloc(), &FAULTS)
}

/// Runs that come to a fault.
static FAULTS: [Example; 4] = [
    faulted!(ONE, NAMES, "@misc{k, author = {Smith, John,}}\n" => "", "7:38 BadName k"),
    faulted!(ONE, TYPES, "@output{k}\n" => "", "1:30 EmptyPop k"),
    // The lines before the fault are written. The key is the citation's, in the order of the visit.
    faulted!("\\citation{a,B}\n\\bibstyle{s}\n\\bibdata{d}\n", "ENTRY{}{}{} FUNCTION{f}{cite$ write$ newline$ cite$ \"a\" = {pop$} 'skip$ if$} READ REVERSE{f}", "@misc{a}@misc{b}" => "B\na\n", "1:60 EmptyPop a"),
    faulted!("\\citation{a}\n\\bibstyle{s}\n\\bibdata{d}\n", "ENTRY{}{}{} FUNCTION{f}{cite$} READ ITERATE{f}", "@misc{a}" => "", "1:37 StackLeft a"),
];

/// A style and a database with one entry.
const STYLE_AND_DATA: &[File] = &[file_of!("s.bst", KEYS), file_of!("d.bib", "@misc{k}")];

/// Cites the entry, and one that isn't there.
const CITED_AND_MISSING: &str = "\\citation{k,zz}\n\\bibstyle{s}\n\\bibdata{d}\n";

/// What is answered to a run over the style and the database, where this fails.
macro_rules! failed {
    ($aux:expr, $failing:expr => $status:ident, $out:expr, $err:expr) => {
        example!(["run", "p.aux", "99"], STYLE_AND_DATA, [file_of!("p.aux", $aux)], $failing => $status, $out, $err)
    };
}

#[test]
fn failing_files_and_sinks_of_a_run_are_named(rt: HostRuntime) -> Result<(), Fail> {
    compare(&rt, rt.alloc(), &FAILING_RUNS)
}

/// Each of the three files is begun, read and read to its end. Then a call of standard output or of standard error
/// fails, and what was written before it stands.
static FAILING_RUNS: [Example; 7] = [
    failed!(ONE, Failing::Files(1) => ReadFailed, "", "read failed p.aux\n"),
    failed!(ONE, Failing::Files(3) => ReadFailed, "", "read failed p.aux\n"),
    failed!(ONE, Failing::Files(4) => ReadFailed, "", "read failed s.bst\n"),
    failed!(ONE, Failing::Files(8) => ReadFailed, "", "read failed d.bib\n"),
    failed!(ONE, Failing::Files(9) => ReadFailed, "", "read failed d.bib\n"),
    failed!(CITED_AND_MISSING, Failing::Out => WriteFailed, "", ""),
    failed!(CITED_AND_MISSING, Failing::Err => WriteFailed, "k\n", ""),
];
