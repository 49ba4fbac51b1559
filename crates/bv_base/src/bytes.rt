//! The classes of bytes of the style language.

ghost use Rattle.std.specs.Prelude.{◌≡◌, drop, take};
ghost use Rattle.bv_base.specs.Bytes as bytes;

/// Whether a byte is white space: byte 9, 10, 13 or 32.
#[inline(always)]
pub fn is_white(b: u8) -> bool
    ensures { result ≡ bytes.is_white b }
{
    matches!(b, b'\t' | b'\n' | b'\r' | b' ')
}

/// Whether a byte may stand in a declared name: 33 to 126 without `" # % ' ( ) , = { }`, and 128 to 255.
#[inline(always)]
pub fn is_name_byte(b: u8) -> bool
    ensures { result ≡ bytes.is_name_byte b }
{
    match b {
        b'"' | b'#' | b'%' | b'\'' | b'(' | b')' | b',' | b'=' | b'{' | b'}' => false,
        33..=126 | 128..=255 => true,
        _ => false,
    }
}

/// The lower-case letter of an upper-case ASCII letter, and every other byte as it is.
pub fn lower(b: u8) -> u8
    ensures { result ≡ bytes.lower b }
{
    b.to_ascii_lowercase()
}

/// So many bytes from a place on, or what there is of them.
#[tactic(auto, using(crate::proofs::Parts::part_within))]
pub fn part_of(bytes: &[u8], from: usize, count: usize) -> &[u8]
    ensures { result.now ≡ take count (drop from bytes.now) }
{
    let later = bytes.split_at(from.min(bytes.len())).1;
    later.split_at(count.min(later.len())).0
}
