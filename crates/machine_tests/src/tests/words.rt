//! The words of small styles.

use crate::tests::rows::Table;
use bv_base::memory::NoMemory;
use bv_base::place::Place;
use std::alloc::Global;

/// A word of a style, with its place and what stands before it.
#[derive(Clone, Copy)]
pub struct Word<'a> {
    pub bytes: &'a [u8],
    pub place: Place,
    /// How many bodies it stands in.
    pub depth: u32,
    /// How many bodies begin before it, and how many of them are blocks.
    pub bodies: u32,
    blocks: u32,
    /// How many texts stand before it.
    pub texts: u32,
}

impl<'a> Word<'a> {
    /// No word, which stands before the first.
    pub const NONE: Word<'static> = Word {
        bytes: &[],
        place: Place::START,
        depth: 0,
        bodies: 0,
        blocks: 0,
        texts: 0,
    };

    /// The word behind it.
    fn before(self, bytes: &'a [u8], place: Place) -> Word<'a> {
        let begun = u32::from(self.begins_body());
        Word {
            bytes,
            place,
            depth: self
                .depth
                .saturating_add(begun)
                .saturating_sub(u32::from(bytes == b"}".as_slice())),
            bodies: self.bodies.saturating_add(begun),
            blocks: self
                .blocks
                .saturating_add(u32::from(self.block().is_some())),
            texts: self.texts.saturating_add(u32::from(self.is_text())),
        }
    }

    /// Whether it begins a body.
    pub fn begins_body(self) -> bool {
        matches!(self.bytes, [.., b'{'])
    }

    /// The number of the block that it begins.
    pub fn block(self) -> Option<u32> {
        match self.bytes {
            [b'{'] => Some(self.blocks),
            _ => None,
        }
    }

    /// The name of the function that it begins.
    pub fn function(self) -> Option<&'a [u8]> {
        match self.bytes {
            [b'{'] => None,
            [name @ .., b'{'] => Some(name),
            _ => None,
        }
    }

    /// Whether it ends a body.
    pub fn ends_body(self) -> bool {
        self.bytes == b"}".as_slice()
    }

    /// Whether it may stand outside of bodies and isn't the last word of a command.
    pub fn is_part(self) -> bool {
        matches!(self.bytes, [b'A'..=b'Z' | b'}', ..])
    }

    /// Whether it is a text.
    pub fn is_text(self) -> bool {
        matches!(self.bytes, [b'"', ..])
    }
}

/// The words of a row, which stand in line 1, between those around them, which stand in line 0.
pub fn words_of<'a>(
    alloc: Global,
    table: &Table,
    row: &'a [u8],
) -> Result<Vec<Word<'a>>, NoMemory> {
    let mut words = Vec::new(alloc);
    add_words(&mut words, table, row)?;
    Ok(words)
}

/// Adds the words of a row and those around them.
fn add_words<'a>(words: &mut Vec<Word<'a>>, table: &Table, row: &'a [u8]) -> Result<(), NoMemory> {
    add_line(words, 0, table.functions.as_bytes())?;
    add_line(words, 0, table.front.as_bytes())?;
    add_line(words, 1, row)?;
    add_line(words, 0, table.back.as_bytes())
}

/// Adds the words of a line.
fn add_line<'a>(words: &mut Vec<Word<'a>>, line: u32, text: &'a [u8]) -> Result<(), NoMemory> {
    let mut start = 0usize;
    for (end, b) in text.iter().enumerate() {
        if *b == b' ' {
            add_word(words, text.get(start..end), place_at(line, start))?;
            start = end.saturating_add(1);
        }
    }
    add_word(words, text.get(start..), place_at(line, start))
}

/// The place behind so many bytes of a line.
fn place_at(line: u32, bytes: usize) -> Place {
    Place {
        line,
        column: (bytes % 65536) as u32 + 1,
    }
}

/// Adds a word, unless it has no bytes.
fn add_word<'a>(
    words: &mut Vec<Word<'a>>,
    bytes: Option<&'a [u8]>,
    place: Place,
) -> Result<(), NoMemory> {
    let bytes = bytes.unwrap_or(&[]);
    if !bytes.is_empty() {
        let last = words.as_slice().last().copied().unwrap_or(Word::NONE);
        words.push(last.before(bytes, place))?;
    }
    Ok(())
}
