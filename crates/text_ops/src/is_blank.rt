//! Blank texts.

ghost use Rattle.std.specs.Prelude.{◌≡◌};
ghost use Rattle.text_ops.specs.Blank.{blank};

use bv_base::bytes::is_white;

/// Whether a text has no byte other than white space. The empty text is blank.
pub fn is_blank(s: &[u8]) -> bool
    ensures { result ≡ blank s.now }
{
    s.iter().all(|b| is_white(*b))
}
