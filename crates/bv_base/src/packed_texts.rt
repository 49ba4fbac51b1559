//! Texts, some of which may be missing, one after the other in one piece of memory.

ghost use Rattle.std.specs.Prelude.{◌≡◌, ◌+◌, ◌<◌, None, [], ◌∷◌, ◌++◌, get_or, length, option_map, IfOk, OnErr, OnOk};
ghost use Rattle.bv_base.specs.PackedTexts.{StandWithin, begin_of, end_of, if_there, is_there, text_at, texts_in};

use crate::bytes::part_of;
use crate::limits::PACKED_BYTES;
use crate::memory::NoMemory;
use std::alloc::Global;
use std::marker::Model;

/// Texts in order, each of which may be missing. Contracts see the list of them. A text takes its bytes, a missing one none,
/// and each four bytes more. All together have at most 2147483647 bytes: there is no memory for more.
#[derive(Drop)]
pub struct PackedTexts {
    bytes: Vec<u8>,
    marks: Vec<u32>,
}

impl Model for PackedTexts {
    ghost use Rattle.std.specs.Prelude.{ℕ, List, Option, length};
    ghost use Rattle.bv_base.specs.PackedTexts.{StandWithin, texts_in};

    ghost Value = { List (Option (List ℕ)) };

    ghost view = { λ p. texts_in p.bytes.items 0 p.marks.items };

    ghost invariant = { λ p. StandWithin 0 (length p.bytes.items) p.marks.items };
}

impl PackedTexts {
    /// No text.
    pub fn new(alloc: Global) -> PackedTexts
        ensures { result ≡ [] }
    {
        PackedTexts {
            bytes: Vec::new(alloc),
            marks: Vec::new(alloc),
        }
    }

    /// No text, with room for so many, and for so many bytes of theirs.
    pub fn with_room(alloc: Global, texts: usize, bytes: usize) -> Result<PackedTexts, NoMemory>
        ensures { IfOk result (λ packed. packed ≡ []) }
    {
        Ok(PackedTexts {
            bytes: Vec::with_capacity(alloc, bytes)?,
            marks: Vec::with_capacity(alloc, texts)?,
        })
    }

    /// The same texts again, in as much memory as they need.
    pub fn copied(&self, alloc: Global) -> Result<PackedTexts, NoMemory>
        ensures { IfOk result (λ copy. copy ≡ self.now) }
    {
        Ok(PackedTexts {
            bytes: self.bytes.as_slice().to_vec(alloc)?,
            marks: self.marks.as_slice().to_vec(alloc)?,
        })
    }

    /// Lets all texts go. Their room stays.
    pub fn clear(&mut self)
        ensures { self.new ≡ [] }
    {
        self.bytes.clear();
        self.marks.clear();
    }

    /// How many texts there are, with those that are missing.
    #[tactic(auto, using(crate::proofs::Packing::texts_length))]
    pub fn len(&self) -> usize
        ensures { result ≡ length self.now }
    {
        self.marks.len()
    }

    /// The text at a place, counted from 0. `None` comes exactly where it is missing or the texts don't reach there.
    pub fn at(&self, at: usize) -> Option<&[u8]>
        ensures { option_map (λ bytes. bytes.now) result ≡ get_or self.now at None }
    {
        let marks = self.marks.as_slice();
        if at >= marks.len() {
            return None;
        }
        text_in(self.bytes.as_slice(), begin_in(marks, at), marks[at])
    }

    /// Appends a text or a missing one. Where there is no memory for it, the texts stay as they were.
    pub fn push(&mut self, text: Option<&[u8]>) -> Result<(), NoMemory>
        ensures ok { OnOk result (self.new ≡ self.old ++ option_map (λ bytes. bytes.now) text.entry ∷ []) }
        ensures err { OnErr result (self.new ≡ self.old) }
    {
        match text {
            Some(bytes) => append(&mut self.bytes, &mut self.marks, true, bytes),
            None => append(&mut self.bytes, &mut self.marks, false, &[]),
        }
    }
}

/// Whether a text is there.
fn stands(mark: u32) -> bool
    ensures { result ≡ is_there mark }
{
    mark <= PACKED_BYTES
}

/// Where the bytes of a text end.
fn end_in(mark: u32) -> usize
    ensures { result ≡ end_of mark }
{
    if stands(mark) {
        mark as usize
    } else {
        (mark - PACKED_BYTES - 1) as usize
    }
}

/// Where the bytes of the text at a place begin.
fn begin_in(marks: &[u32], at: usize) -> usize
    requires { at < length marks.now }
    ensures { result ≡ begin_of 0 at marks.now }
{
    let Some(before) = at.checked_sub(1) else {
        return 0;
    };
    end_in(marks[before])
}

/// The mark of a text behind so many bytes, of which it has so many, or which is missing.
fn mark_after(before: usize, more: usize, there: bool) -> Result<u32, NoMemory>
    ensures end { IfOk result (λ mark. end_of mark ≡ before + more) }
    ensures there { IfOk result (λ mark. is_there mark ≡ there) }
{
    let most = PACKED_BYTES as usize;
    if before > most || more > most - before {
        return Err(NoMemory);
    }
    let end = (before + more) as u32;
    Ok(if there { end } else { end + PACKED_BYTES + 1 })
}

/// The text with this mark, whose bytes begin here.
fn text_in(bytes: &[u8], from: usize, mark: u32) -> Option<&[u8]>
    ensures { option_map (λ text. text.now) result ≡ text_at bytes.now from mark }
{
    if !stands(mark) {
        return None;
    }
    Some(part_of(bytes, from, end_in(mark).saturating_sub(from)))
}

/// Appends a text or a missing one, or neither its bytes nor its mark.
fn append(
    bytes: &mut Vec<u8>,
    marks: &mut Vec<u32>,
    there: bool,
    more: &[u8],
) -> Result<(), NoMemory>
    requires { StandWithin 0 (length bytes.old.items) marks.old.items }
    ensures stand { StandWithin 0 (length bytes.new.items) marks.new.items }
    ensures texts { OnOk result (texts_in bytes.new.items 0 marks.new.items
        ≡ texts_in bytes.old.items 0 marks.old.items ++ if_there there more.now ∷ []) }
    ensures same { OnErr result (texts_in bytes.new.items 0 marks.new.items ≡ texts_in bytes.old.items 0 marks.old.items) }
{
    let mark = mark_after(bytes.len(), more.len(), there)?;
    marks.push(mark)?;
    let Ok(_) = bytes.extend_from_slice(more) else {
        let _ = marks.pop();
        return Err(NoMemory);
    };
    Ok(())
}
