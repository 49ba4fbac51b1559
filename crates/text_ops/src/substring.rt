//! A part of a text by its place and its length.

ghost use Rattle.std.specs.Prelude.{◌≡◌, IfOk};
ghost use Rattle.text_ops.specs.Substring.{substring_of};

use bv_base::memory::NoMemory;
use std::alloc::Global;

/// The part of at most `length` bytes that begins at the byte `start`, counted from 1, or that ends at the byte
/// `-start`, counted from the right. It is empty where there is no such byte.
pub fn substring(alloc: Global, s: &[u8], start: i32, length: i32) -> Result<Vec<u8>, NoMemory>
    ensures { IfOk result (λ v. v.items ≡ substring_of s.now start length) }
{
    Ok(substring_part(s, start, length).to_vec(alloc)?)
}

/// The same part, as a slice of the text.
pub fn substring_part(s: &[u8], start: i32, length: i32) -> &[u8]
    ensures { result.now ≡ substring_of s.now start length }
{
    let place = start.unsigned_abs() as usize;
    if length <= 0 || place == 0 || place > s.len() {
        return &[];
    }
    let count = length as usize;
    if start > 0 {
        let later = &s[place - 1..];
        &later[..count.min(later.len())]
    } else {
        let earlier = &s[..s.len() - (place - 1)];
        &earlier[earlier.len().saturating_sub(count)..]
    }
}
