//! What the braces hold that were opened directly before some bytes.

ghost use Rattle.std.specs.Prelude.{◌≡◌};
ghost use Rattle.bv_base.specs.Levels as levels;

use bv_base::levels::next_level;

/// The bytes before the brace that closes what began directly before them, or all where there is none.
pub fn inside<'a>(bytes: &'a [u8]) -> &'a [u8]
    ensures { result.now ≡ levels.inside 1 bytes.now }
{
    let mut level = 1;
    for (at, b) in bytes.iter().enumerate() {
        if level == 1 && *b == b'}' {
            return bytes.split_at(at).0;
        }
        level = next_level(level, *b);
    }
    bytes
}
