//! How far a lexeme, white space or a comment reaches, and what is wrong with a lexeme.

ghost use Rattle.std.specs.Prelude.{◌≡◌, ◌+◌, ◌≤◌, length, false};
ghost use Rattle.bst_lex.specs.Pieces as pieces;
ghost use Rattle.bv_base.specs.Runs.{length_before};

use crate::lexeme::{LexFault, Piece, Shape};
use bv_base::bytes::is_white;
use bv_base::limits::GREATEST_INTEGER;
use bv_base::place::Place;
use bv_base::runs::{digits_length, length_before, number};

/// How many bytes of white space and comments stand first.
pub(crate) fn gap_length(bytes: &[u8]) -> usize
    ensures gap { result ≡ pieces.gap_length false bytes.now }
    ensures within { result ≤ length bytes.now }
{
    let mut in_comment = false;
    for (i, b) in bytes.iter().enumerate() {
        if in_comment {
            in_comment = *b != b'\n';
        } else if *b == b'%' {
            in_comment = true;
        } else if !is_white(*b) {
            return i;
        }
    }
    bytes.len()
}

/// The lexeme that stands first, where neither white space nor a comment does, or what is wrong with it.
pub(crate) fn piece_at(place: Place, bytes: &[u8]) -> Result<Piece, LexFault>
    requires { place.column + length bytes.now ≤ 4294967295 }
    ensures { result ≡ pieces.piece_at place bytes.now }
{
    match bytes {
        [b'{', ..] => Ok(Piece {
            length: 1,
            shape: Shape::OpenBrace,
        }),
        [b'}', ..] => Ok(Piece {
            length: 1,
            shape: Shape::CloseBrace,
        }),
        [b'#', after @ ..] => integer_at(place, after),
        [b'"', after @ ..] => text_at(place, after),
        [b'\'', ..] => run_at(place, Shape::Quoted, bytes),
        _ => run_at(place, Shape::Name, bytes),
    }
}

/// An integer, after its `#`.
fn integer_at(place: Place, after: &[u8]) -> Result<Piece, LexFault>
    requires { place.column + (1 + length after.now) ≤ 4294967295 }
    ensures { result ≡ pieces.integer_at place after.now }
{
    match after {
        [b'-', digits @ ..] => digits_at(place, 2, true, digits),
        _ => digits_at(place, 1, false, after),
    }
}

/// The digits of an integer, after the bytes that stand before them.
fn digits_at(place: Place, before: usize, minus: bool, bytes: &[u8]) -> Result<Piece, LexFault>
    requires { place.column + (before + length bytes.now) ≤ 4294967295 }
    ensures { result ≡ pieces.digits_at place before minus bytes.now }
{
    let count = digits_length(bytes);
    if count == 0 {
        return Err(LexFault::BadInteger(place));
    }
    let (digits, after) = bytes.split_at(count);
    if may_follow(after) {
        ranged(place, before + count, minus, number(digits))
    } else {
        Err(LexFault::StuffAfterToken(place.along(before + count)))
    }
}

/// An integer of which the sign and the number without it are known.
fn ranged(place: Place, length: usize, minus: bool, number: u64) -> Result<Piece, LexFault>
    ensures { result ≡ pieces.ranged place length minus number }
{
    let greatest = GREATEST_INTEGER as u64 + if minus { 1 } else { 0 };
    if number > greatest {
        return Err(LexFault::IntegerRange(place));
    }
    let number = number as i64;
    let value = if minus { -number } else { number };
    Ok(Piece {
        length,
        shape: Shape::Integer(value as i32),
    })
}

/// A text, after its opening quote.
fn text_at(place: Place, after: &[u8]) -> Result<Piece, LexFault>
    requires { place.column + (1 + length after.now) ≤ 4294967295 }
    ensures { result ≡ pieces.text_at place after.now }
{
    let inside = inside_length(after);
    match after.split_at(inside).1 {
        [b'"', after @ ..] => {
            let length = inside + 2;
            if may_follow(after) {
                Ok(Piece {
                    length,
                    shape: Shape::Text,
                })
            } else {
                Err(LexFault::StuffAfterToken(place.along(length)))
            }
        }
        _ => Err(LexFault::NoEndQuote(place)),
    }
}

/// A run, with the mark before it.
fn run_at(place: Place, shape: Shape, bytes: &[u8]) -> Result<Piece, LexFault>
    requires { place.column + length bytes.now ≤ 4294967295 }
    ensures { result ≡ pieces.run_at place shape bytes.now }
{
    let clean = clean_length(bytes);
    match bytes.split_at(clean).1 {
        [b, ..] if is_control(*b) => Err(LexFault::IllegalByte(place.along(clean))),
        _ => Ok(Piece {
            length: clean,
            shape,
        }),
    }
}

/// How many bytes of a text's inside stand first.
fn inside_length(bytes: &[u8]) -> usize
    ensures length { result ≡ length_before pieces.ends_inside bytes.now }
    ensures within { result ≤ length bytes.now }
{
    length_before(bytes, |b| matches!(b, b'"' | b'\n'))
}

/// How many bytes of a run stand before its end or its first control byte.
fn clean_length(bytes: &[u8]) -> usize
    ensures length { result ≡ length_before pieces.ends_clean bytes.now }
    ensures within { result ≤ length bytes.now }
{
    length_before(bytes, |b| ends_run(b) || is_control(b))
}

/// Whether these bytes may follow an integer or a text.
fn may_follow(after: &[u8]) -> bool
    ensures { result ≡ pieces.may_follow after.now }
{
    match after {
        [] => true,
        [b, ..] => is_white(*b) || matches!(b, b'}' | b'%'),
    }
}

/// Whether a byte ends a run.
fn ends_run(b: u8) -> bool
    ensures { result ≡ pieces.ends_run b }
{
    is_white(b) || matches!(b, b'{' | b'}' | b'%')
}

/// Whether a byte is a control byte and no white space.
fn is_control(b: u8) -> bool
    ensures { result ≡ pieces.is_control b }
{
    (b < 32 || b == 127) && !is_white(b)
}
