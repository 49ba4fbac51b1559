//! The full stop at the end of a sentence.

ghost use Rattle.std.specs.Prelude.{◌≡◌, IfOk};
ghost use Rattle.text_ops.specs.AddPeriod.{with_period, is_stop, last_other};

use bv_base::memory::NoMemory;
use std::alloc::Global;

/// The text with a `.` behind it, where its last byte other than `}` is none of `.`, `?` and `!`. The empty text
/// stays empty.
pub fn add_period(alloc: Global, s: &[u8]) -> Result<Vec<u8>, NoMemory>
    ensures { IfOk result (λ v. v.items ≡ with_period s.now) }
{
    let mut text = Vec::with_capacity(alloc, s.len().saturating_add(1))?;
    text.extend_from_slice(s)?;
    if !s.is_empty() && !ends_in_stop(s) {
        text.push(b'.')?;
    }
    Ok(text)
}

fn ends_in_stop(s: &[u8]) -> bool
    ensures { result ≡ is_stop (last_other s.now) }
{
    let mut text = s;
    while let [earlier @ .., last] = text {
        if *last != b'}' {
            return matches!(*last, b'.' | b'?' | b'!');
        }
        text = earlier;
    }
    false
}
