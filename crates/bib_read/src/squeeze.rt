//! White space in values.

ghost use Rattle.std.specs.Prelude.{◌≡◌, ◌≤◌, ◌++◌, ◌&&◌, ◌||◌, not, nat_eq, if◌then◌else◌, [], ◌∷◌, length, take, drop, IfOk, OnOk, false, true};
ghost use Rattle.bv_base.specs.Bytes.{is_white as white};
ghost use Rattle.bib_read.specs.Squeeze as squeeze;

use bv_base::bytes::is_white;
use bv_base::memory::NoMemory;
use bv_base::text::Text;
use std::alloc::Global;

/// A text with one space for each run of white space.
pub(crate) fn squeezed(alloc: Global, text: &[u8]) -> Result<Text, NoMemory>
    ensures { IfOk result (λ found. found ≡ squeeze.squeezed false text.now) }
{
    let mut found = Vec::with_capacity(alloc, text.len())?;
    squeeze(&mut found, false, text)?;
    Ok(Text::from_vec(found))
}

/// Leaves of a buffer a text with one space for each run of white space, and none at its ends.
pub(crate) fn trim_into(found: &mut Vec<u8>, text: &[u8]) -> Result<(), NoMemory>
    ensures { OnOk result (found.new.items ≡ squeeze.trimmed text.now) }
{
    found.clear();
    squeeze(found, true, text)?;
    let length = found.len();
    if length > 0 && found[length - 1] == b' ' {
        found.truncate(length - 1);
    }
    Ok(())
}

/// Appends a text with one space for each run of white space, and none for a run that began before it.
fn squeeze(found: &mut Vec<u8>, begun: bool, text: &[u8]) -> Result<(), NoMemory>
    ensures { OnOk result (found.new.items ≡ found.old.items ++ squeeze.squeezed begun text.now) }
{
    let (count, mut begun) = same_front(begun, text);
    let (front, rest) = text.split_at(count);
    found.extend_from_slice(front)?;
    for b in rest {
        let white = is_white_quickly(*b);
        push_squeezed(found, begun, white, *b)?;
        begun = white;
    }
    Ok(())
}

/// Appends a byte, of which it is known whether it is white space: one space for the first of a run, and none for the others.
fn push_squeezed(found: &mut Vec<u8>, begun: bool, white: bool, b: u8) -> Result<(), NoMemory>
    ensures { OnOk result (found.new.items ≡ found.old.items ++ (if white then (if begun then [] else 32 ∷ []) else b ∷ [])) }
{
    if !white {
        found.push(b)?;
        return Ok(());
    }
    if begun {
        return Ok(());
    }
    found.push(b' ')?;
    Ok(())
}

/// Whether squeezing changes a byte, of which it is known whether it is white space: all but a single space.
fn changes(begun: bool, white: bool, b: u8) -> bool
    ensures { result ≡ (white && (begun || not (nat_eq b 32))) }
{
    white && (begun || b != b' ')
}

/// How many bytes at its start a text keeps as they are, and whether a run of white space has begun behind them. Most texts
/// keep all of them.
fn same_front(begun: bool, text: &[u8]) -> (usize, bool)
    ensures within { result.0 ≤ length text.now }
    ensures same { squeeze.squeezed begun text.now
        ≡ take result.0 text.now ++ squeeze.squeezed result.1 (drop result.0 text.now) }
{
    let mut begun = begun;
    for (i, b) in text.iter().enumerate() {
        let white = is_white_quickly(*b);
        if changes(begun, white, *b) {
            return (i, begun);
        }
        begun = white;
    }
    (text.len(), begun)
}

/// Whether a byte is white space. Most bytes lie above all of it, which one look at each tells.
fn is_white_quickly(b: u8) -> bool
    ensures { result ≡ white b }
{
    b <= b' ' && is_white(b)
}
