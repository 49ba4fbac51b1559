//! Runs of bytes by a test, and the numbers that digits write.

ghost use Rattle.std.specs.Prelude.{◌≡◌, ◌≤◌, ℕ, Bool, length, min};
ghost use Rattle.bv_base.specs.Bytes.{is_white as white};
ghost use Rattle.bv_base.specs.Runs as runs;

use crate::bytes::is_white;
use crate::limits::WIDEST_NUMBER;

/// Whether a byte is a digit.
pub fn is_digit(b: u8) -> bool
    ensures { result ≡ runs.is_digit b }
{
    b.is_ascii_digit()
}

/// How many bytes stand before the first that passes a test, which is pure: all where none does.
pub fn length_before<F: Fn(u8) -> bool>(bytes: &[u8], test: F) -> usize
    requires { F.IsAlwaysCallable test }
    ensures length { (ends : ℕ → Bool) → ((b : ℕ) (r : Bool) → F.post test b r → r ≡ ends b)
        → result ≡ runs.length_before ends bytes.now }
    ensures within { result ≤ length bytes.now }
{
    for (i, b) in bytes.iter().enumerate() {
        if test(*b) {
            return i;
        }
    }
    bytes.len()
}

/// How many bytes of white space stand first.
pub fn white_length(bytes: &[u8]) -> usize
    ensures length { result ≡ runs.length_before runs.is_black bytes.now }
    ensures within { result ≤ length bytes.now }
{
    length_before(bytes, |b| !is_white(b))
}

/// How many bytes stand before the first white space.
pub fn black_length(bytes: &[u8]) -> usize
    ensures length { result ≡ runs.length_before white bytes.now }
    ensures within { result ≤ length bytes.now }
{
    length_before(bytes, |b| is_white(b))
}

/// How many digits stand first.
pub fn digits_length(bytes: &[u8]) -> usize
    ensures length { result ≡ runs.length_before runs.ends_digits bytes.now }
    ensures within { result ≤ length bytes.now }
{
    length_before(bytes, |b| !is_digit(b))
}

/// What is left after the white space that stands first.
pub fn after_white(bytes: &[u8]) -> &[u8]
    ensures { result.now ≡ runs.after_white bytes.now }
{
    bytes.split_at(white_length(bytes)).1
}

/// The number that digits write, or [`WIDEST_NUMBER`] where it is greater.
pub fn number(digits: &[u8]) -> u64
    ensures { result ≡ min WIDEST_NUMBER (runs.number_from 0 digits.now) }
{
    let mut value: u64 = 0;
    for digit in digits {
        value = (10 * value + digit.saturating_sub(b'0') as u64).min(WIDEST_NUMBER);
    }
    value
}
