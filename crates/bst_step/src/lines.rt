//! The lines that a run has written (docs/MACHINE.md, "Lines").

ghost use Rattle.std.specs.Prelude.{if◌then◌else◌, ◌≡◌, ◌+◌, ◌++◌, ◌∷◌, ◌≤◌, [], drop, length, map, option_map, None, OnOk, IfSome};
ghost use Rattle.std.specs.List.{flat_map};
ghost use Rattle.bst_meaning.specs.Lines as rule;
ghost use Rattle.bst_step.specs.Lines.{cut_in};

use bv_base::bytes::is_white;
use bv_base::memory::NoMemory;
use bv_base::text::Text;
use text_ops::is_blank::is_blank;

/// A line that is finished, and where the buffer goes on: its first two bytes there are to be spaces.
#[derive(Clone, Copy)]
pub struct Cut<'a> {
    pub line: &'a [u8],
    pub next: usize,
}

/// Appends lines, each with its line end.
pub fn push_lines(text: &mut Vec<u8>, lines: &[Text]) -> Result<(), NoMemory>
    ensures { OnOk result (text.new.items ≡ text.old.items ++ flat_map (λ line. line ++ 10 ∷ []) lines.now) }
{
    for line in lines {
        push_line(text, line.as_slice())?;
    }
    Ok(())
}

/// Appends a line and its line end.
pub fn push_line(text: &mut Vec<u8>, line: &[u8]) -> Result<(), NoMemory>
    ensures { OnOk result (text.new.items ≡ text.old.items ++ (line.now ++ 10 ∷ [])) }
{
    text.extend_from_slice(line)?;
    text.push(b'\n')?;
    Ok(())
}

/// Appends the last line of a buffer, where it has one.
pub fn push_last(text: &mut Vec<u8>, buffer: &[u8]) -> Result<(), NoMemory>
    ensures { OnOk result (text.new.items
        ≡ (if rule.is_only_white buffer.now then text.old.items else text.old.items ++ (rule.trimmed_end buffer.now ++ 10 ∷ []))) }
{
    if is_only_white(buffer) {
        return Ok(());
    }
    push_line(text, trimmed_end(buffer))
}

/// Whether a buffer has only white space, and has some.
fn is_only_white(buffer: &[u8]) -> bool
    ensures { result ≡ rule.is_only_white buffer.now }
{
    match buffer {
        [] => false,
        [_, ..] => is_blank(buffer),
    }
}

/// The cut of a buffer with more than 79 bytes, where it has one.
#[tactic(auto, using(crate::proofs::CutSteps::cut_found))]
pub fn cut_of(buffer: &[u8]) -> Option<Cut<'_>>
    ensures cut { option_map (cut_in buffer.now) result ≡ rule.cut_of buffer.now }
    ensures within { IfSome result (λ cut. cut.next + 2 ≤ length buffer.now) }
{
    if buffer.len() <= 79 {
        return None;
    }
    let at = break_at(buffer)?;
    let (before, after) = buffer.split_at(at);
    match after_white(after) {
        [] => None,
        rest => Some(Cut {
            line: trimmed_end(before),
            next: buffer.len() - rest.len() - 2,
        }),
    }
}

/// Writes two spaces at a place.
pub fn indent(buffer: &mut Vec<u8>, at: usize)
    requires { at + 2 ≤ length buffer.now.items }
    ensures spaces { drop at buffer.new.items ≡ 32 ∷ 32 ∷ drop (at + 2) buffer.old.items }
    ensures length { length buffer.new.items ≡ length buffer.old.items }
{
    buffer[at + 1] = b' ';
    buffer[at] = b' ';
}

/// The greatest place of white space from 3 to 79, and else the least from 80 on.
fn break_at(buffer: &[u8]) -> Option<usize>
    ensures place { result ≡ rule.break_among None (rule.white_places 0 buffer.now) }
    ensures within { IfSome result (λ at. (3 ≤ at) × (at ≤ length buffer.now)) }
{
    let mut best = None;
    for (at, b) in buffer.iter().enumerate() {
        if is_white(*b) {
            match best {
                None if at < 3 => {}
                _ if at <= 79 => best = Some(at),
                None => return Some(at),
                Some(_) => return best,
            }
        }
    }
    best
}

/// Without white space at the front.
fn after_white(bytes: &[u8]) -> &[u8]
    ensures rest { result.now ≡ rule.after_white bytes.now }
    ensures within { length result.now ≤ length bytes.now }
{
    let mut rest = bytes;
    while let [first, later @ ..] = rest {
        if !is_white(*first) {
            return rest;
        }
        rest = later;
    }
    rest
}

/// Without white space at the end.
fn trimmed_end(bytes: &[u8]) -> &[u8]
    ensures { result.now ≡ rule.trimmed_end bytes.now }
{
    let mut rest = bytes;
    while let [front @ .., last] = rest {
        if !is_white(*last) {
            return rest;
        }
        rest = front;
    }
    rest
}
