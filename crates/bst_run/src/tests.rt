//! What no clause says: that the answers are the worked ones, with ample memory, over files and sinks in memory. An
//! example has words, files, what fails, and what is answered. Each table stands beside its test, in a file of its own kind.

/// A file of this name, with this text.
macro_rules! file_of {
    ($name:expr, $text:expr) => {
        File {
            name: $name,
            text: $text,
        }
    };
}

/// What is answered to these words over these files, of which several examples have the first, where this fails.
macro_rules! example {
    ($words:expr, $shared:expr, $own:expr, $failing:expr => $status:ident, $out:expr, $err:expr) => {
        Example {
            words: &$words,
            shared: $shared,
            own: &$own,
            failing: $failing,
            status: Status::$status,
            out: $out,
            err: $err,
        }
    };
}

/// What is answered to these words over these files of its own.
macro_rules! told {
    ($words:expr, $own:expr => $status:ident, $out:expr, $err:expr) => {
        example!($words, &[], $own, Failing::Nothing => $status, $out, $err)
    };
}

/// What is answered for a style and a certificate.
macro_rules! checked {
    ($style:expr, $cert:expr => $status:ident, $out:expr, $err:expr) => {
        told!(["check", "a.bst", "b.cert"], [file_of!("a.bst", $style), file_of!("b.cert", $cert)] => $status, $out, $err)
    };
}

/// The certificate with these lines of its condition, and these behind it.
macro_rules! cert {
    ($condition:literal, $lines:literal) => {
        concat!("bstcert 1\n", $condition, "end\n", $lines, "done\n")
    };
}

/// The certificate with a nine for each number of its condition, and these lines behind it.
macro_rules! nines {
    ($lines:literal) => {
        cert!("entries 9\nkey 9\npreamble 9\nlength 9\nothertype yes\n", $lines)
    };
}

/// The certificate under which no entry is let in, with these lines behind its condition.
macro_rules! zeros {
    ($lines:literal) => {
        cert!("entries 0\nkey 0\npreamble 0\nlength 0\nothertype no\n", $lines)
    };
}

/// What is answered to these words over these files, where this fails.
macro_rules! answered {
    ($words:expr, $files:expr, $failing:expr => $status:ident, $out:expr, $err:expr) => {
        example!($words, $files, [], $failing => $status, $out, $err)
    };
}

/// What is answered to a run of so many steps over the files `p.aux`, `i.aux`, `s.bst` and `d.bib`.
macro_rules! ran {
    ($aux:expr, $input:expr, $style:expr, $data:expr, $steps:literal => $status:ident, $out:expr, $err:expr) => {
        told!(
            ["run", "p.aux", $steps],
            [file_of!("p.aux", $aux), file_of!("i.aux", $input), file_of!("s.bst", $style), file_of!("d.bib", $data)]
            => $status, $out, $err
        )
    };
}

/// What is answered where the last of nested files is this one.
macro_rules! nested {
    ($last:expr => $status:ident, $out:expr, $err:expr) => {
        example!(["run", "p.aux", "999"], NEST, [file_of!("q16.aux", $last)], Failing::Nothing => $status, $out, $err)
    };
}

/// What is answered for a style and a certificate with these lines of its condition, and these behind it.
macro_rules! judged_under {
    ($condition:expr, $style:expr, $lines:expr => $answer:expr) => {
        Judged {
            condition: $condition,
            style: $style,
            lines: $lines,
            answer: $answer,
        }
    };
}

/// What is answered for a style and a certificate with these lines behind its condition, which has a nine for each number.
macro_rules! judged {
    ($style:expr, $lines:expr => $answer:expr) => {
        judged_under!("entries 9\nkey 9\npreamble 9\nlength 9\nothertype yes\n", $style, $lines => $answer)
    };
}

/// The certificate that is found for a style.
macro_rules! found {
    ($style:expr, $lists:expr => $lines:expr) => {
        Found {
            style: $style,
            lists: $lists,
            lines: $lines,
        }
    };
}

mod around;
mod bare;
mod begun;
mod check;
mod counted;
mod data;
mod demands;
mod executed;
mod found;
mod generating;
mod given;
mod leaving;
mod limits;
mod run;
mod shaped;
mod sought;
mod straight;
mod turns;
mod typed;
mod under;
mod unfound;
mod units;
mod uses;
mod visited;
mod words;

use crate::command::command;
use crate::tests::check::NO_ENTRIES;
use bv_base::mem_files::MemFiles;
use bv_base::mem_sink::MemSink;
use bv_base::status::Status;
use std::alloc::{AllocError, Global};
use std::process::Abort;
use std::test::Fail;

/// A file, and its text.
#[derive(Clone, Copy)]
pub struct File {
    name: &'static str,
    text: &'static str,
}

/// Which call fails.
#[derive(Clone, Copy)]
pub enum Failing {
    Nothing,
    /// The call of files with this number, from 1.
    Files(u64),
    /// The first call of standard output.
    Out,
    /// The first call of standard error.
    Err,
}

/// An example.
#[derive(Clone, Copy)]
pub struct Example {
    words: &'static [&'static str],
    /// Files that several examples have, and those of this one.
    shared: &'static [File],
    own: &'static [File],
    failing: Failing,
    status: Status,
    out: &'static str,
    err: &'static str,
}

/// A certificate's lines of its condition and those behind it, the style, and the answer: `accepted`, or the last line.
#[derive(Clone, Copy)]
pub struct Judged {
    condition: &'static str,
    style: &'static str,
    lines: &'static str,
    answer: &'static str,
}

/// Asserts what each example is answered.
fn compare(rt: &impl Abort, alloc: Global, examples: &[Example]) -> Result<(), Fail> {
    for example in examples {
        let mut files = MemFiles::new(alloc);
        add_files(&mut files, example.shared)?;
        add_files(&mut files, example.own)?;
        compare_over(rt, alloc, example, &mut files)?;
    }
    Ok(())
}

/// Asserts what each example is answered where the style has so many spaces.
fn compare_long(rt: &impl Abort, alloc: Global, rows: &[(usize, Example)]) -> Result<(), Fail> {
    for (length, example) in rows {
        let style = vec![in alloc; b' '; *length]?;
        let mut files = MemFiles::new(alloc);
        files.add("a.bst", style.as_slice())?;
        files.add("b.cert", NO_ENTRIES.as_bytes())?;
        compare_over(rt, alloc, example, &mut files)?;
    }
    Ok(())
}

/// Asserts what is answered for each style and the lines of a certificate.
fn compare_judged(rt: &impl Abort, alloc: Global, rows: &[Judged]) -> Result<(), Fail> {
    for row in rows {
        let condition = row.condition;
        let lines = row.lines;
        let cert = format!(in alloc; "bstcert 1\n{condition}end\n{lines}done\n")?;
        let mut files = MemFiles::new(alloc);
        files.add("a.bst", row.style.as_bytes())?;
        files.add("b.cert", cert.as_bytes())?;
        let said = judged_by(alloc, &mut files)?;
        assert_eq!(rt; said.as_str(), row.answer);
    }
    Ok(())
}

/// The first line of what `check` says: `accepted`, or the last line of its answer.
fn judged_by(alloc: Global, files: &mut MemFiles) -> Result<String, Fail> {
    let words = owned(alloc, &["check", "a.bst", "b.cert"])?;
    let mut out = MemSink::new(alloc);
    let mut err = MemSink::new(alloc);
    let status = command(alloc, words.as_slice(), files, &mut out, &mut err);
    let said = if status == Status::Done {
        out.bytes()
    } else {
        err.bytes()
    };
    let end = said.iter().position(|byte| *byte == b'\n').unwrap_or(0);
    Ok(String::from_utf8(said[..end].to_vec(alloc)?)?)
}

/// Asserts what an example is answered over these files.
fn compare_over(
    rt: &impl Abort,
    alloc: Global,
    example: &Example,
    files: &mut MemFiles,
) -> Result<(), Fail> {
    let words = owned(alloc, example.words)?;
    let mut out = MemSink::new(alloc);
    let mut err = MemSink::new(alloc);
    match example.failing {
        Failing::Nothing => {}
        Failing::Files(call) => files.fail_at(call)?,
        Failing::Out => out.fail_at(1)?,
        Failing::Err => err.fail_at(1)?,
    }
    let status = command(alloc, words.as_slice(), files, &mut out, &mut err);
    assert_eq!(rt; err.bytes(), example.err.as_bytes());
    assert_eq!(rt; out.bytes(), example.out.as_bytes());
    assert_eq!(rt; status, example.status);
    Ok(())
}

/// Adds these files.
fn add_files(files: &mut MemFiles, added: &[File]) -> Result<(), Fail> {
    for file in added {
        files.add(file.name, file.text.as_bytes())?;
    }
    Ok(())
}

/// The words as owned strings.
fn owned(alloc: Global, words: &[&str]) -> Result<Vec<String>, AllocError> {
    let mut strings = Vec::new(alloc);
    for word in words {
        strings.push(String::from_str(alloc, word)?)?;
    }
    Ok(strings)
}
