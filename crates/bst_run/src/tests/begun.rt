//! Which files are begun.

use crate::command::command;
use crate::tests::check::{BOTH, JOINS, NO_STYLE};
use crate::tests::{File, add_files, owned};
use bv_base::files::Begun;
use bv_base::mem_files::MemFiles;
use bv_base::mem_sink::MemSink;
use std::alloc::Global;
use std::process::Abort;
use std::test::Fail;

/// Words and files, and the names that are begun: each on a line, behind `-` where no file has it.
#[derive(Clone, Copy)]
struct Beginning {
    words: &'static [&'static str],
    files: &'static [File],
    begun: &'static str,
}

macro_rules! begins {
    ($words:expr, $files:expr => $begun:expr) => {
        Beginning {
            words: &$words,
            files: $files,
            begun: $begun,
        }
    };
}

/// Inputs below inputs, and a database that isn't there before one that is.
const TREE: &[File] = &[
    file_of!(
        "p.aux",
        "\\@input{i.aux}\n\\@input{j.aux}\n\\bibstyle{a}\n\\bibdata{d,e}\n"
    ),
    file_of!("i.aux", "\\@input{k.aux}\n"),
    file_of!("j.aux", "\\citation{k}\n"),
    file_of!("k.aux", ""),
    file_of!("a.bst", JOINS),
    file_of!("e.bib", ""),
];

/// A file without inputs.
const LEAF: &[File] = &[
    file_of!("q.aux", "\\bibstyle{a}\n\\bibdata{e}\n"),
    file_of!("a.bst", JOINS),
    file_of!("e.bib", ""),
];

/// A file that inputs itself, and names a style.
const ITSELF: &[File] = &[file_of!("p.aux", "\\@input{p.aux}\n")];

/// An input that names a second style, and has an input of its own.
const SECOND_STYLE: &[File] = &[
    file_of!("p.aux", "\\bibstyle{a}\n\\@input{i.aux}\n"),
    file_of!("i.aux", "\\@input{k.aux}\n\\bibstyle{a}\n"),
];

static BEGINNINGS: [Beginning; 15] = [
    begins!(["check", "a.bst"], BOTH => ""),
    begins!(["check", "a.bst", "b.cert"], BOTH => "a.bst\nb.cert\n"),
    begins!(["check", "a.bst", "c.cert"], BOTH => "a.bst\n-c.cert\n"),
    begins!(["check", "a.bst", "b.cert"], NO_STYLE => "a.bst\n"),
    begins!(["check", "c.bst", "b.cert"], BOTH => "-c.bst\n"),
    begins!(["infer", "a.bst"], BOTH => "a.bst\n"),
    begins!(["infer", "a.bst", "b.cert"], BOTH => "a.bst\nb.cert\n"),
    begins!(["infer", "a.bst", "c.cond"], BOTH => "a.bst\n-c.cond\n"),
    begins!(["infer", "a.bst", "b.cert"], NO_STYLE => "a.bst\n"),
    begins!(["infer", "c.bst", "b.cert"], BOTH => "-c.bst\n"),
    begins!(["run", "p.aux", "9"], TREE => "p.aux\ni.aux\nk.aux\nj.aux\na.bst\n-d.bib\n"),
    // The first file has depth 0, and sixteen may lie below it.
    begins!(["run", "p.aux", "9"], ITSELF => "p.aux\np.aux\np.aux\np.aux\np.aux\np.aux\np.aux\np.aux\np.aux\np.aux\np.aux\np.aux\np.aux\np.aux\np.aux\np.aux\np.aux\n"),
    begins!(["run", "p.aux", "9"], SECOND_STYLE => "p.aux\ni.aux\n"),
    // The certificate comes last.
    begins!(["run", "p.aux", "9", "b.cert"], TREE => "p.aux\ni.aux\nk.aux\nj.aux\na.bst\n-d.bib\n"),
    begins!(["run", "q.aux", "9", "b.cert"], LEAF => "q.aux\na.bst\ne.bib\n-b.cert\n"),
];

#[test]
fn files_are_begun_that_are_named(rt: HostRuntime) -> Result<(), Fail> {
    for row in &BEGINNINGS {
        compare(&rt, rt.alloc(), row)?;
    }
    Ok(())
}

/// Asserts what is begun by the words of a row.
fn compare(rt: &impl Abort, alloc: Global, row: &Beginning) -> Result<(), Fail> {
    let files = files_after(alloc, row)?;
    compare_begun(rt, alloc, files.begun(), row.begun)
}

/// The files after the words were carried out.
fn files_after(alloc: Global, row: &Beginning) -> Result<MemFiles, Fail> {
    let mut files = MemFiles::new(alloc);
    add_files(&mut files, row.files)?;
    carry_out(alloc, row.words, &mut files)?;
    Ok(files)
}

fn carry_out(alloc: Global, words: &[&str], files: &mut MemFiles) -> Result<(), Fail> {
    let words = owned(alloc, words)?;
    let mut out = MemSink::new(alloc);
    let mut err = MemSink::new(alloc);
    let _ = command(alloc, words.as_slice(), files, &mut out, &mut err);
    Ok(())
}

/// Asserts what was begun.
fn compare_begun(
    rt: &impl Abort,
    alloc: Global,
    begun: &[Begun],
    wanted: &str,
) -> Result<(), Fail> {
    let mut lines = Vec::new(alloc);
    for file in begun {
        if file.absent {
            lines.push(b'-')?;
        }
        lines.extend_from_slice(file.name.as_slice())?;
        lines.push(b'\n')?;
    }
    assert_eq!(rt; lines.as_slice(), wanted.as_bytes());
    Ok(())
}
