//! Texts under numbers, one after the other in one piece of memory.

ghost use Rattle.std.specs.Prelude.{◌≡◌, [], ◌∷◌, ◌++◌, drop, get_or, length, option_map, take, OnErr, OnOk};
ghost use Rattle.entry_store.specs.NumberedTexts.{no_text, numbered, text_under};

use bv_base::memory::NoMemory;
use bv_base::packed_texts::PackedTexts;
use std::alloc::Global;
use std::marker::Model;

/// Texts in order, each under a number. Contracts see the list of them. A text takes its bytes, four more as one of the packed
/// texts, and four for its number.
#[derive(Drop)]
pub(crate) struct NumberedTexts {
    numbers: Vec<u32>,
    texts: PackedTexts,
}

impl Model for NumberedTexts {
    ghost use Rattle.std.specs.Prelude.{◌≡◌, List, length};
    ghost use Rattle.entry_store.specs.NumberedTexts.{Numbered, numbered};

    ghost Value = { List Numbered };

    ghost view = { λ n. numbered n.numbers.items n.texts };

    ghost invariant = { λ n. length n.numbers.items ≡ length n.texts };
}

impl NumberedTexts {
    /// No text.
    pub(crate) fn new(alloc: Global) -> NumberedTexts
        ensures { result ≡ [] }
    {
        NumberedTexts {
            numbers: Vec::new(alloc),
            texts: PackedTexts::new(alloc),
        }
    }

    /// Lets all texts go. Their room stays.
    pub(crate) fn clear(&mut self)
        ensures { self.new ≡ [] }
    {
        self.numbers.clear();
        self.texts.clear();
    }

    /// How many texts there are.
    pub(crate) fn len(&self) -> usize
        ensures { result ≡ length self.now }
    {
        self.numbers.len()
    }

    /// The text at a place, counted from 0.
    pub(crate) fn at(&self, at: usize) -> Option<&[u8]>
        ensures { option_map (λ text. text.now) result ≡ (get_or self.now at no_text).text }
    {
        self.texts.at(at)
    }

    /// The text under a number among so many from a place on, whose numbers rise.
    #[inline]
    pub(crate) fn under(&self, number: usize, from: usize, count: usize) -> Option<&[u8]>
        ensures { option_map (λ text. text.now) result ≡ text_under number (take count (drop from self.now)) }
    {
        text_in(self.numbers.as_slice(), &self.texts, number, from, count)
    }

    /// Appends a text under a number. Where there is no memory for it, the texts stay.
    pub(crate) fn push(&mut self, number: u32, text: &[u8]) -> Result<(), NoMemory>
        ensures ok { OnOk result (self.new ≡ self.old ++ record { number = number; text = Some text.now } ∷ []) }
        ensures err { OnErr result (self.new ≡ self.old) }
    {
        self.numbers.push(number)?;
        let Ok(_) = self.texts.push(Some(text)) else {
            let _ = self.numbers.pop();
            return Err(NoMemory);
        };
        Ok(())
    }
}

/// The text under a number among so many from a place on, whose numbers rise: the first that isn't below it decides.
#[inline]
fn text_in<'a>(
    numbers: &[u32],
    texts: &'a PackedTexts,
    number: usize,
    from: usize,
    count: usize,
) -> Option<&'a [u8]>
    requires { length numbers.now ≡ length texts.now }
    ensures { option_map (λ text. text.now) result ≡ text_under number (take count (drop from (numbered numbers.now texts.now))) }
{
    let end = from.saturating_add(count).min(numbers.len());
    for at in from..end {
        let other = numbers[at] as usize;
        if other >= number {
            if other == number {
                return texts.at(at);
            }
            return None;
        }
    }
    None
}
