//! The items between the braces of a line.

ghost use Rattle.std.specs.Prelude.{◌≡◌, ◌≤◌, length};
ghost use Rattle.std.specs.Option.{option_map};
ghost use Rattle.std.specs.Str.{is_utf8};
ghost use Rattle.aux_read.specs.Items as items;
ghost use Rattle.bv_base.specs.Runs.{length_before};

use bv_base::bytes::is_white;
use bv_base::runs::{after_white, black_length, length_before};

/// What follows these bytes at the front of others, or `None` where they don't stand there.
pub(crate) fn after_front<'a>(front: &[u8], bytes: &'a [u8]) -> Option<&'a [u8]>
    ensures { option_map (λ rest. rest.now) result ≡ items.after_front front.now bytes.now }
{
    let mut rest = bytes;
    for mark in front {
        match rest {
            [] => return None,
            [b, ..] if *b != *mark => return None,
            [_, after @ ..] => rest = after,
        }
    }
    Some(rest)
}

/// What stands before the first `}`, or `None` where there is none.
pub(crate) fn inside_of(bytes: &[u8]) -> Option<&[u8]>
    ensures { option_map (λ inside. inside.now) result ≡ items.inside_of bytes.now }
{
    let length = inside_length(bytes);
    if length < bytes.len() {
        Some(&bytes[..length])
    } else {
        None
    }
}

/// The item that a stretch is, without the white space around it, or `None` where it is empty or has white space in
/// it.
pub(crate) fn item_of(stretch: &[u8]) -> Option<&[u8]>
    ensures { option_map (λ item. item.now) result ≡ items.item_of stretch.now }
{
    let begun = after_white(stretch);
    let (item, after) = begun.split_at(black_length(begun));
    if !item.is_empty() && is_blank(after) {
        Some(item)
    } else {
        None
    }
}

/// The name of a file that a stretch is, or `None` where it is no item or isn't UTF-8.
pub(crate) fn file_name_of(stretch: &[u8]) -> Option<&[u8]>
    ensures { option_map (λ item. item.now) result ≡ items.file_name_of stretch.now }
{
    let item = item_of(stretch)?;
    if is_utf8(item) { Some(item) } else { None }
}

/// Whether bytes are UTF-8.
fn is_utf8(bytes: &[u8]) -> bool
    ensures { result ≡ is_utf8 bytes.now }
{
    match str::from_utf8(bytes) {
        Ok(_) => true,
        Err(_) => false,
    }
}

/// How many bytes stand before the first `}`.
fn inside_length(bytes: &[u8]) -> usize
    ensures length { result ≡ length_before items.is_close bytes.now }
    ensures within { result ≤ length bytes.now }
{
    length_before(bytes, |b| b == b'}')
}

/// Whether all bytes are white space.
fn is_blank(bytes: &[u8]) -> bool
    ensures { result ≡ items.is_blank bytes.now }
{
    bytes.iter().all(|b| is_white(*b))
}
