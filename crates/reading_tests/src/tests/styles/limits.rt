//! Styles at the limits of what may be read, and beyond.

use crate::tests::styles::faults::is_refused;
use std::alloc::{AllocError, Global};
use std::test::Fail;

/// A text of some bytes, a part several times, and an end several times, and its fault if it has one.
#[derive(Clone, Copy)]
struct Repeated {
    before: &'static [u8],
    part: &'static [u8],
    times: usize,
    after: &'static [u8],
    closes: usize,
    fault: &'static str,
}

/// A text, and its fault, if it has one.
macro_rules! repeated {
    ($before:literal, $part:literal $times:literal, $after:literal $closes:literal => $fault:literal) => {
        Repeated {
            before: $before,
            part: $part,
            times: $times,
            after: $after,
            closes: $closes,
            fault: $fault,
        }
    };
}

static LARGE: [Repeated; 9] = [
    repeated!(b"FUNCTION{f}", b"{" 257, b"}" 257 => ""),
    repeated!(b"FUNCTION{f}", b"{" 258, b"}" 258 => "TooDeep 1:269"),
    repeated!(b"FUNCTION{f}{}FUNCTION{g}", b"{" 258, b"}" 258 => "TooDeep 1:282"),
    repeated!(b"FUNCTION{f}{", b"{}" 65535, b"}" 1 => ""),
    repeated!(b"FUNCTION{f}{", b"{}" 65536, b"}" 1 => "TooMany 1:131083"),
    repeated!(b"", b"%\x01\n" 1, b" entry{\x80\xff}{}{} % no end" 1 => ""),
    repeated!(b"FUNCTION{f}{", b"#2147483647 " 1, b"#-2147483648}" 1 => ""),
    repeated!(b"FUNCTION{f}{\"", b"\x01{}%" 1, b"\"}" 1 => ""),
    repeated!(b"", b" " 3, b"" 1 => ""),
];

#[test]
fn styles_at_their_limits(rt: HostRuntime) -> Result<(), Fail> {
    for row in &LARGE {
        let source = source_of(rt.alloc(), row)?;
        is_refused(&rt, rt.alloc(), source.as_slice(), row.fault)?;
    }
    Ok(())
}

/// The text of a row.
fn source_of(alloc: Global, row: &Repeated) -> Result<Vec<u8>, AllocError> {
    let mut source = row.before.to_vec(alloc)?;
    for _ in 0..row.times {
        source.extend_from_slice(row.part)?;
    }
    for _ in 0..row.closes {
        source.extend_from_slice(row.after)?;
    }
    Ok(source)
}

#[test]
fn as_many_names_as_there_may_be(rt: HostRuntime) -> Result<(), Fail> {
    let most = numbered(rt.alloc(), 65495)?;
    is_refused(&rt, rt.alloc(), most.as_slice(), "")?;
    let more = numbered(rt.alloc(), 65496)?;
    is_refused(&rt, rt.alloc(), more.as_slice(), "TooMany 1:327485")?;
    Ok(())
}

/// INTEGERS with so many names of four letters.
fn numbered(alloc: Global, count: u32) -> Result<Vec<u8>, AllocError> {
    let mut source = b"INTEGERS{".to_vec(alloc)?;
    for k in 0..count {
        source.push(letter(k / 17576))?;
        source.push(letter(k / 676))?;
        source.push(letter(k / 26))?;
        source.push(letter(k))?;
        source.push(b' ')?;
    }
    source.push(b'}')?;
    Ok(source)
}

fn letter(k: u32) -> u8 {
    b'a' + (k % 26) as u8
}
