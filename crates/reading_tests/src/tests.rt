//! Examples, worked out by hand.

mod databases;
mod entries;
mod styles;

use bv_base::memory::NoMemory;
use std::alloc::Global;

/// The bytes of a text that is written with this mark for a line end.
fn with_line_ends(alloc: Global, written: &str, mark: u8) -> Result<Vec<u8>, NoMemory> {
    let mut bytes = Vec::new(alloc);
    for b in written.as_bytes() {
        bytes.push(if *b == mark { b'\n' } else { *b })?;
    }
    Ok(bytes)
}
