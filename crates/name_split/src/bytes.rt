//! How many bytes stand before one that is looked for.

ghost use Rattle.std.specs.Prelude.{◌≡◌, ◌≤◌, ℕ, Bool, length, true};
ghost use Rattle.bv_base.specs.Bytes.{is_white as white};
ghost use Rattle.name_split.specs.Spans.{kept, leveled_before};

use bv_base::bytes::is_white;
use bv_base::levels::next_level;

/// How many bytes there are without the white space at the end.
pub(crate) fn kept_length(bytes: &[u8]) -> usize
    ensures kept { result ≡ kept white bytes.now }
    ensures within { result ≤ length bytes.now }
{
    if is_last_black(bytes) {
        return bytes.len();
    }
    let mut kept = 0;
    for (i, b) in bytes.iter().enumerate() {
        if !is_white(*b) {
            kept = i + 1;
        }
    }
    kept
}

/// Whether the last byte is no white space.
fn is_last_black(bytes: &[u8]) -> bool
    ensures { result ≡ true → kept white bytes.now ≡ length bytes.now }
{
    match bytes {
        [.., last] => !is_white(*last),
        [] => false,
    }
}

/// How many bytes stand before the first that passes a test with its level, which is pure, where the first has this
/// level: all where none does.
pub(crate) fn leveled_before<F: Fn(usize, u8) -> bool>(first: usize, bytes: &[u8], test: F) -> usize
    requires low { first ≤ 1 }
    requires callable { F.IsAlwaysCallable test }
    ensures length { (passes : ℕ → ℕ → Bool) → ((level b : ℕ) (r : Bool) → F.post test level b r → r ≡ passes level b)
        → result ≡ leveled_before passes first bytes.now }
    ensures within { result ≤ length bytes.now }
{
    let mut level = first;
    for (i, b) in bytes.iter().enumerate() {
        if test(level, *b) {
            return i;
        }
        level = next_level(level, *b);
    }
    bytes.len()
}
