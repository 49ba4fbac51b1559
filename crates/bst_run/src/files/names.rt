//! The names of files.

ghost use Rattle.std.specs.Prelude.{◌≡◌, IfOk};
ghost use Rattle.std.specs.String.{string_bytes};
ghost use Rattle.bst_run.specs.Files as file;
ghost use Rattle.bst_run.specs.Subjects.{IsFileName};

use bv_base::memory::NoMemory;
use bv_base::text::Text;
use std::alloc::Global;

/// The name of a file as text.
pub fn text_of(name: &Text) -> &str
    requires { IsFileName name.now }
    ensures { result.now ≡ name.now }
{
    match str::from_utf8(name.as_slice()) {
        Ok(text) => text,
        Err(_) => unreachable!(),
    }
}

/// The name that ends so: with the ending behind it, where it doesn't end so already.
pub fn with_ending(alloc: Global, name: &str, ending: &str) -> Result<String, NoMemory>
    ensures { IfOk result (λ found. string_bytes found ≡ file.with_ending name.now ending.now) }
{
    if name.as_bytes().ends_with(ending.as_bytes()) {
        return Ok(String::from_str(alloc, name)?);
    }
    Ok(format!(in alloc; "{name}{ending}")?)
}
