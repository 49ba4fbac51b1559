//! Certificates that are found: which one is, and that it is accepted.

use crate::command::command;
use crate::tests::{judged_by, owned};
use bv_base::mem_files::MemFiles;
use bv_base::mem_sink::MemSink;
use bv_base::status::Status;
use std::alloc::Global;
use std::process::Abort;
use std::test::Fail;

/// A style, and the certificate that is found under the default condition: the lists of its condition, and the lines behind that.
#[derive(Clone, Copy)]
pub struct Found {
    pub style: &'static str,
    pub lists: &'static str,
    pub lines: &'static str,
}

/// Asserts which certificate is found for each style, and that it is accepted.
pub fn compare_found(rt: &impl Abort, alloc: Global, rows: &[Found]) -> Result<(), Fail> {
    for row in rows {
        let cert = certificate(alloc, row.lists, row.lines)?;
        compare_certificate(rt, alloc, row.style.as_bytes(), cert.as_bytes())?;
    }
    Ok(())
}

/// The certificate under the default condition with these lists, and these lines behind it.
fn certificate(alloc: Global, lists: &str, lines: &str) -> Result<String, Fail> {
    let numbers = "entries 10000\nkey 250\npreamble 20000\nlength 10000\n";
    Ok(format!(in alloc; "bstcert 1\n{numbers}{lists}othertype yes\nend\n{lines}done\n")?)
}

/// Asserts that this certificate is found for a style, and that it is accepted.
fn compare_certificate(
    rt: &impl Abort,
    alloc: Global,
    style: &[u8],
    cert: &[u8],
) -> Result<(), Fail> {
    let mut files = MemFiles::new(alloc);
    files.add("a.bst", style)?;
    compare_written(rt, alloc, &mut files, cert)?;
    files.add("b.cert", cert)?;
    compare_accepted(rt, alloc, &mut files)
}

/// Asserts that the certificate in these files is accepted.
pub fn compare_accepted(rt: &impl Abort, alloc: Global, files: &mut MemFiles) -> Result<(), Fail> {
    let said = judged_by(alloc, files)?;
    assert_eq!(rt; said.as_str(), "accepted");
    Ok(())
}

/// Asserts what is written for the style in these files.
fn compare_written(
    rt: &impl Abort,
    alloc: Global,
    files: &mut MemFiles,
    cert: &[u8],
) -> Result<(), Fail> {
    let words = owned(alloc, &["infer", "a.bst"])?;
    let mut out = MemSink::new(alloc);
    let mut err = MemSink::new(alloc);
    let status = command(alloc, words.as_slice(), files, &mut out, &mut err);
    assert_eq!(rt; err.bytes(), b"".as_slice());
    assert_eq!(rt; out.bytes(), cert);
    assert_eq!(rt; status, Status::Done);
    Ok(())
}
