//! Lines of items, as bytes.

ghost use Rattle.std.specs.Prelude.{◌≡◌, ◌<◌, [], ◌∷◌, ◌++◌, OnOk};
ghost use Rattle.std.specs.Fmt.{decimal, signed_decimal};
ghost use Rattle.cert_format.specs.PieceSpelling.{hex_digit, hex_digits, hex_text};
ghost use Rattle.cert_format.specs.Spelling as spelling;

use bv_base::memory::NoMemory;
use name_table::names::{NameId, Names};
use std::alloc::Global;
use std::marker::Model;

/// A text that is printed item by item. Contracts see its bytes.
#[derive(Drop)]
pub(crate) struct Printer {
    text: Vec<u8>,
    alloc: Global,
}

impl Model for Printer {
    ghost use Rattle.std.specs.Prelude.{List, ℕ};

    ghost Value = { List ℕ };

    ghost view = { λ p. p.text.items };
}

impl Printer {
    /// No bytes.
    pub(crate) fn new(alloc: Global) -> Printer
        ensures { result ≡ [] }
    {
        Printer {
            text: Vec::new(alloc),
            alloc,
        }
    }

    /// Begins a line by a word.
    pub(crate) fn word(&mut self, word: &[u8]) -> Result<(), NoMemory>
        ensures { OnOk result (self.new ≡ self.old ++ word.now) }
    {
        self.text.extend_from_slice(word)?;
        Ok(())
    }

    /// A further item.
    pub(crate) fn item(&mut self, item: &[u8]) -> Result<(), NoMemory>
        ensures { OnOk result (self.new ≡ self.old ++ 32 ∷ item.now) }
    {
        self.text.push(b' ')?;
        self.text.extend_from_slice(item)?;
        Ok(())
    }

    /// A number as a further item.
    pub(crate) fn number(&mut self, number: u32) -> Result<(), NoMemory>
        ensures { OnOk result (self.new ≡ self.old ++ 32 ∷ decimal number) }
    {
        let text = format!(in self.alloc; "{number}")?;
        self.item(text.as_bytes())
    }

    /// An integer as a further item.
    pub(crate) fn integer(&mut self, number: i64) -> Result<(), NoMemory>
        ensures { OnOk result (self.new ≡ self.old ++ 32 ∷ signed_decimal number) }
    {
        let text = format!(in self.alloc; "{number}")?;
        self.item(text.as_bytes())
    }

    /// A word with a number behind it as a further item.
    pub(crate) fn joined(&mut self, word: &[u8], number: u32) -> Result<(), NoMemory>
        ensures { OnOk result (self.new ≡ self.old ++ 32 ∷ (word.now ++ decimal number)) }
    {
        let text = format!(in self.alloc; "{number}")?;
        self.item(word)?;
        self.word(text.as_bytes())
    }

    /// A letter with a number behind it, behind what stands.
    pub(crate) fn numbered(&mut self, letter: u8, number: u32) -> Result<(), NoMemory>
        ensures { OnOk result (self.new ≡ self.old ++ letter ∷ decimal number) }
    {
        let text = format!(in self.alloc; "{number}")?;
        self.text.push(letter)?;
        self.word(text.as_bytes())
    }

    /// The bytes of a text as a further item.
    pub(crate) fn hex(&mut self, bytes: &[u8]) -> Result<(), NoMemory>
        ensures { OnOk result (self.new ≡ self.old ++ 32 ∷ hex_text bytes.now) }
    {
        if bytes.is_empty() {
            return self.item(b"-");
        }
        self.text.push(b' ')?;
        push_hex(&mut self.text, bytes)
    }

    /// A name of the style as a further item.
    pub(crate) fn name(&mut self, names: &Names, id: NameId) -> Result<(), NoMemory>
        ensures { OnOk result (self.new ≡ self.old ++ 32 ∷ spelling.name_text names.now id) }
    {
        self.item(name_text(names, id))
    }

    /// Ends a line.
    pub(crate) fn end(&mut self) -> Result<(), NoMemory>
        ensures { OnOk result (self.new ≡ self.old ++ 10 ∷ []) }
    {
        self.text.push(b'\n')?;
        Ok(())
    }

    /// The bytes, which aren't copied.
    pub(crate) fn into_text(self) -> Vec<u8>
        ensures { result.items ≡ self }
    {
        let Printer { text, .. } = self;
        text
    }
}

/// The bytes of a name, and none where the style has no such name.
fn name_text(names: &Names, id: NameId) -> &[u8]
    ensures { result.now ≡ spelling.name_text names.now id }
{
    if id.0 < names.len() {
        names.text(id)
    } else {
        &[]
    }
}

/// Appends bytes in base 16, two digits each.
fn push_hex(text: &mut Vec<u8>, bytes: &[u8]) -> Result<(), NoMemory>
    ensures { OnOk result (text.new.items ≡ text.old.items ++ hex_digits bytes.now) }
{
    for b in bytes {
        text.push(hex_digit(*b / 16))?;
        text.push(hex_digit(*b % 16))?;
    }
    Ok(())
}

/// A digit of base 16, in lower case.
fn hex_digit(n: u8) -> u8
    requires { n < 16 }
    ensures { result ≡ hex_digit n }
{
    if n < 10 { b'0' + n } else { b'a' - 10 + n }
}
