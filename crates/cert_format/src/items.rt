//! What single items say.

ghost use Rattle.std.specs.Prelude.{◌≡◌, map, option_copied};
ghost use Rattle.std.specs.List.{list_all};
ghost use Rattle.bv_base.specs.Answers.{Gives};
ghost use Rattle.bv_base.specs.Runs.{is_black, is_digit as digit};
ghost use Rattle.name_table.specs.Names.{kind_at};
ghost use Rattle.cert_format.specs.Items as items;
ghost use Rattle.cert_format.specs.declared.stop.Stop.TheVariants.{NoMemory as WantOfMemory};

use crate::lines::Item;
use crate::stop::Stop;
use bv_base::bytes::is_white;
use bv_base::runs::{is_digit, number};
use bv_base::text::Text;
use name_table::names::{Kind, NameId, Names};

/// The greatest number of a symbol, of a divisor, of a multiplier and of a reference.
pub const MOST_NUMBER: u32 = 4_294_967_295;

/// A name of the style, or why the item is none that may stand here.
pub(crate) type Named = Result<NameId, Stop>;

impl<'a> Item<'a> {
    /// Whether the item is this word.
    pub(crate) fn is_word(&self, word: &[u8]) -> bool
        ensures { result ≡ items.is_word word.now self.now }
    {
        self.text() == word
    }

    /// The item must be this word.
    pub(crate) fn expect(&self, word: &[u8]) -> Result<(), Stop>
        ensures { Gives WantOfMemory (items.expected word.now self.now) result }
    {
        if self.is_word(word) {
            Ok(())
        } else {
            Err(Stop::Syntax(self.left()))
        }
    }

    /// A number of at most so much.
    pub(crate) fn natural(&self, most: u32) -> Result<u32, Stop>
        ensures { Gives WantOfMemory (items.natural most self.now) result }
    {
        if !is_numeral(self.text()) {
            return Err(Stop::Syntax(self.left()));
        }
        let value = number(self.text());
        if u64::from(most) < value {
            return Err(Stop::OutOfRange(self.left()));
        }
        if has_leading_zero(self.text()) {
            return Err(Stop::NotCanonical(self.left()));
        }
        Ok(value as u32)
    }

    /// A number from 1 on, of at most so much.
    pub(crate) fn positive(&self, most: u32) -> Result<u32, Stop>
        ensures { Gives WantOfMemory (items.positive most self.now) result }
    {
        if !is_numeral(self.text()) {
            return Err(Stop::Syntax(self.left()));
        }
        let value = number(self.text());
        if value == 0 || value > u64::from(most) {
            return Err(Stop::OutOfRange(self.left()));
        }
        if has_leading_zero(self.text()) {
            return Err(Stop::NotCanonical(self.left()));
        }
        Ok(value as u32)
    }

    /// A name of the style.
    pub(crate) fn name(&self, names: &Names) -> Named
        ensures { Gives WantOfMemory (items.name_in names.now self.now) result }
    {
        if self.text().is_empty() {
            return Err(Stop::Syntax(self.left()));
        }
        match names.find(self.text()) {
            Some(id) => Ok(id),
            None => Err(Stop::UnknownName(self.left())),
        }
    }

    /// A field of the style.
    pub(crate) fn field(&self, names: &Names) -> Named
        ensures { Gives WantOfMemory (items.field_in names.now self.now) result }
    {
        let id = self.name(names)?;
        if is_field(names, id) {
            Ok(id)
        } else {
            Err(Stop::UnknownName(self.left()))
        }
    }

    /// A field of the style, above the last one.
    pub(crate) fn field_above(&self, last: Option<NameId>, names: &Names) -> Named
        ensures { Gives WantOfMemory (items.field_above last names.now self.now) result }
    {
        let id = self.field(names)?;
        if is_above(last, id) {
            Ok(id)
        } else {
            Err(Stop::NotCanonical(self.left()))
        }
    }

    /// The item must be a type, above the last one.
    pub(crate) fn type_above(&self, last: Option<&Text>) -> Result<(), Stop>
        ensures { Gives WantOfMemory (items.type_above (option_copied last.entry) self.now) result }
    {
        if !is_type(self.text()) {
            return Err(Stop::Syntax(self.left()));
        }
        if is_behind(last, self.text()) {
            Ok(())
        } else {
            Err(Stop::NotCanonical(self.left()))
        }
    }

    /// A choice between `yes` and `no`.
    pub(crate) fn choice(&self) -> Result<bool, Stop>
        ensures { Gives WantOfMemory (items.choice self.now) result }
    {
        if self.is_word(b"yes") {
            return Ok(true);
        }
        if self.is_word(b"no") {
            return Ok(false);
        }
        Err(Stop::Syntax(self.left()))
    }
}

/// One digit or more.
pub(crate) fn is_numeral(text: &[u8]) -> bool
    ensures { result ≡ items.is_numeral text.now }
{
    !text.is_empty() && are_digits(text)
}

/// Digits alone.
fn are_digits(text: &[u8]) -> bool
    ensures { result ≡ list_all digit text.now }
{
    text.iter().all(|b| is_digit(*b))
}

/// A 0 before other digits.
pub(crate) fn has_leading_zero(text: &[u8]) -> bool
    ensures { result ≡ items.has_leading_zero text.now }
{
    match text {
        [digit, _, ..] => *digit == b'0',
        _ => false,
    }
}

/// Whether a name is that of a field.
fn is_field(names: &Names, id: NameId) -> bool
    ensures { result ≡ items.is_field (kind_at id names.now) }
{
    id.0 < names.len() && matches!(names.kind(id), Kind::Field)
}

/// Whether a name may stand behind the last one.
pub(crate) fn is_above(last: Option<NameId>, id: NameId) -> bool
    ensures { result ≡ items.is_above last id }
{
    match last {
        Some(last) => last.0 < id.0,
        None => true,
    }
}

/// One byte or more without white space.
fn is_type(text: &[u8]) -> bool
    ensures { result ≡ items.is_type text.now }
{
    !text.is_empty() && is_solid(text)
}

/// No white space.
fn is_solid(text: &[u8]) -> bool
    ensures { result ≡ list_all is_black text.now }
{
    text.iter().all(|b| !is_white(*b))
}

/// Whether a type may stand behind the last one.
fn is_behind(last: Option<&Text>, text: &[u8]) -> bool
    ensures { result ≡ items.is_behind (option_copied last.entry) text.now }
{
    match last {
        Some(last) => last.as_slice().cmp(text).is_lt(),
        None => true,
    }
}

/// What stands beside a text in a table.
pub(crate) fn among<T: Copy>(text: &[u8], table: &[(&[u8], T)]) -> Option<T>
    ensures { result ≡ items.among text.now (map (λ row. (row.0.now, row.1)) table.now) }
{
    for (known, item) in table {
        if text == *known {
            return Some(*item);
        }
    }
    None
}
