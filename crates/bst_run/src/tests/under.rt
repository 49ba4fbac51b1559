//! Runs under certificates.

use crate::tests::check::{JOINS, NINES, NO_ENTRIES};
use crate::tests::run::{KEYS, ONE, TYPES, ZZ};
use crate::tests::{Example, Failing, File, compare};
use bv_base::status::Status;
use std::test::Fail;

/// Lets in entries of every type, those of the style's own type `misc` too.
const MISC: &str = cert!(
    "entries 9\nkey 9\npreamble 9\nlength 9\ntype misc\nothertype yes\n",
    ""
);

/// What is answered to a run of so many steps under a certificate over the files `p.aux`, `s.bst`, `d.bib` and `b.cert`.
macro_rules! under {
    ($aux:expr, $style:expr, $data:expr, $cert:expr, $steps:literal => $status:ident, $out:expr, $err:expr) => {
        told!(
            ["run", "p.aux", $steps, "b.cert"],
            [file_of!("p.aux", $aux), file_of!("s.bst", $style), file_of!("d.bib", $data), file_of!("b.cert", $cert)]
            => $status, $out, $err
        )
    };
}

#[test]
fn a_run_under_a_certificate_tells_of_its_condition(rt: HostRuntime) -> Result<(), Fail> {
    compare(&rt, rt.alloc(), &UNDER)
}

/// Whether the entries meet the condition stands before all warnings, also where the steps are taken.
static UNDER: [Example; 10] = [
    under!(ONE, TYPES, "@misc{k}\n", MISC, "1000" => Done, "x\n", "inside\n"),
    under!(ONE, TYPES, "@output{k}\n", MISC, "1000" => Fault, "", "outside\nunmet k othertype yes\nfault 1:30 EmptyPop k\n"),
    under!(ONE, KEYS, "@misc{k}", NO_ENTRIES, "99" => Done, "k\n", "outside\nunmet - entries 0\n"),
    under!("\\citation{longer.key}\n\\bibstyle{s}\n\\bibdata{d}\n", KEYS, "@misc{longer.key}", NINES, "99" => Done, "longer.key\n", "outside\nunmet longer.key key 9\n"),
    under!(ZZ, JOINS, "", NINES, "11" => Done, "ab\n", "inside\nWarning--no entry zz\n"),
    under!(ZZ, JOINS, "", NINES, "10" => Budget, "ab\n", "inside\nWarning--no entry zz\nbudget 10\n"),
    // Each entry's type is entered once more while it is running, and its summary is used in its own check.
    under!(ONE, "ENTRY{}{}{} INTEGERS{n} FUNCTION{misc}{cite$ write$ newline$ n #0 > {#0 'n := call.type$} 'skip$ if$} FUNCTION{f}{#1 'n := call.type$} READ ITERATE{f}", "@misc{k}", cert!("entries 9\nkey 9\npreamble 9\nlength 9\ntype misc\nothertype no\n", "summary misc\nentry\nwrites n\npre\npost\nhints\nkeep\nkeep\nuse 0\ncase 0\ncase 0\nend\ncommand 5\nhints\nuse 0\nend\n"), "99" => Done, "k\nk\n", "inside\n"),
    // A last line stands alone.
    under!(ONE, KEYS, "@misc{k}", "", "99" => BadCert, "", "bad certificate 1:1 Syntax\n"),
    under!(ONE, "ENTRY{}{}{} FUNCTION{f}{*} READ EXECUTE{f}", "@misc{k}", NINES, "99" => Refused, "", "refused 1:25 EmptyPop 1\n"),
    under!(ONE, "READ", "@", "", "1" => BadStyle, "", "bad style 1:1 ReadBeforeEntry\n"),
];

/// Writes the keys, and has authors and titles.
const TITLES: &str =
    "ENTRY{author title}{}{} FUNCTION{misc}{} FUNCTION{f}{cite$ write$ newline$} READ ITERATE{f}";

/// Lets in three entries of the type `misc`, with a title and at most two authors each.
const LISTED: &str = cert!(
    "entries 3\nkey 4\npreamble 4\nlength 13\nnames author 2\nnonblank title\ntype misc\nothertype no\n",
    ""
);

/// The same, and entries of other types.
const OTHERS: &str = cert!(
    "entries 3\nkey 4\npreamble 4\nlength 13\nnames author 2\nnonblank title\ntype misc\nothertype yes\n",
    ""
);

/// What is answered to a run that cites these keys of this database, under a certificate.
macro_rules! cited {
    ($keys:literal, $data:expr, $cert:expr => $out:expr, $err:expr) => {
        under!(concat!("\\citation{", $keys, "}\n\\bibstyle{s}\n\\bibdata{d}\n"), TITLES, $data, $cert, "999" => Done, $out, $err)
    };
}

#[test]
fn the_first_line_that_is_not_kept_is_told(rt: HostRuntime) -> Result<(), Fail> {
    compare(&rt, rt.alloc(), &UNMET)
}

/// The first line that isn't kept is told with the entry: each line unmet on the first entry, where later lines and later
/// entries are unmet too, and on the last.
static UNMET: [Example; 17] = [
    // All lines are kept, up to their numbers.
    cited!("a,b,last", "@preamble{{1234}}@misc{a,title={1234567890123}}@misc{b,title={t},author={A and B}}@misc{last,title={t}}", LISTED => "a\nb\nlast\n", "inside\n"),
    // The number of entries comes before all else, and the preamble before each entry.
    cited!("a,b,c,d", "@preamble{{12345}}@book{a}@misc{b,title={t}}@misc{c,title={t}}@misc{d,title={t}}", LISTED => "a\nb\nc\nd\n", "outside\nunmet - entries 3\n"),
    cited!("a,b,c,d", "@misc{a,title={t}}@misc{b,title={t}}@misc{c,title={t}}@misc{d,title={t}}", LISTED => "a\nb\nc\nd\n", "outside\nunmet - entries 3\n"),
    cited!("first,b,c", "@preamble{{12345}}@book{first}@misc{b,title={t}}@misc{c,title={t}}", LISTED => "first\nb\nc\n", "outside\nunmet - preamble 4\n"),
    cited!("a,b,c", "@preamble{{12}}@preamble{{345}}@misc{a,title={t}}@misc{b,title={t}}@misc{c,title={t}}", LISTED => "a\nb\nc\n", "outside\nunmet - preamble 4\n"),
    // Then come the lines on each entry, entry by entry: its key, the length of its fields, their names, blank fields and its type.
    cited!("first,b,final", "@book{first,author={A and B and C,}}@misc{b,title={t}}@misc{final,title={t}}", LISTED => "first\nb\nfinal\n", "outside\nunmet first key 4\n"),
    cited!("a,b,final", "@misc{a,title={t}}@misc{b,title={t}}@book{final,author={A and B and C,}}", LISTED => "a\nb\nfinal\n", "outside\nunmet final key 4\n"),
    cited!("a,b,final", "@book{a,author={A and B and C,}}@misc{b,title={t}}@misc{final,title={t}}", LISTED => "a\nb\nfinal\n", "outside\nunmet a length 13\n"),
    cited!("a,b,c", "@misc{a,title={t}}@misc{b,title={t}}@book{c,author={A and B and C,}}", LISTED => "a\nb\nc\n", "outside\nunmet c length 13\n"),
    cited!("a,b,final", "@book{a,author={A and B and C}}@misc{b,title={t}}@misc{final,title={t}}", LISTED => "a\nb\nfinal\n", "outside\nunmet a names author 2\n"),
    cited!("a,b,c", "@misc{a,title={t}}@misc{b,title={t}}@book{c,author={A,}}", LISTED => "a\nb\nc\n", "outside\nunmet c names author 2\n"),
    cited!("a,b,final", "@book{a,author={A and B}}@misc{b,title={t}}@misc{final,title={t}}", LISTED => "a\nb\nfinal\n", "outside\nunmet a nonblank title\n"),
    cited!("a,b,c", "@misc{a,title={t}}@misc{b,title={t}}@book{c,title={ }}", LISTED => "a\nb\nc\n", "outside\nunmet c nonblank title\n"),
    // A type that isn't listed, and one that the style defines.
    cited!("a,b,final", "@book{a,title={t}}@misc{b,title={t}}@misc{final,title={t}}", LISTED => "a\nb\nfinal\n", "outside\nunmet a othertype no\n"),
    cited!("a,b,c", "@misc{a,title={t}}@book{b,title={t}}@f{c,title={t}}", OTHERS => "a\nb\nc\n", "outside\nunmet c othertype yes\n"),
    // The length of `crossref` counts as that of each field.
    cited!("a,parent-of-14-b", "@misc{a,title={t},crossref={parent-of-14-b}}@misc{parent-of-14-b,title={t}}", LISTED => "a\nparent-of-14-b\n", "outside\nunmet a length 13\n"),
    // No entry is let in, and there is none.
    under!(ZZ, KEYS, "", NO_ENTRIES, "99" => Done, "", "inside\nWarning--no entry zz\n"),
];
