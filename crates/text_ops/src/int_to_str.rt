//! The numeral of an integer.

ghost use Rattle.std.specs.Prelude.{◌≡◌, IfOk};
ghost use Rattle.text_ops.specs.IntToStr.{numeral};

use bv_base::memory::NoMemory;
use std::alloc::Global;

/// The decimal digits of an integer, after a `-` where it is negative.
pub fn int_to_str(alloc: Global, n: i32) -> Result<Vec<u8>, NoMemory>
    ensures { IfOk result (λ v. v.items ≡ numeral n) }
{
    Ok(format!(in alloc; "{n}")?.into_bytes())
}
