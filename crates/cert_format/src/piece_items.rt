//! What the items of pieces say.

ghost use Rattle.std.specs.Prelude.{◌≡◌, ◌≤◌, suc, false, IfOk, option_copied};
ghost use Rattle.std.specs.Option.{option_map};
ghost use Rattle.bv_base.specs.Answers.{Gives};
ghost use Rattle.name_table.specs.Names.{kind_at};
ghost use Rattle.cert_format.specs.PieceItems as items;
ghost use Rattle.cert_format.specs.declared.stop.Stop.TheVariants.{NoMemory as WantOfMemory};

use crate::items::{Named, has_leading_zero, is_above, is_numeral};
use crate::limits::MOST;
use crate::lines::Item;
use crate::stop::Stop;
use crate::styled::Styled;
use bv_base::limits::GREATEST_INTEGER;
use bv_base::runs::number;
use lin_facts::row::{Part, Term};
use name_table::names::{Kind, NameId, Names};
use sym_state::symbol::{Kinds, Sym};

/// The greatest size of a number of a row.
pub const ROW_SIZE: u64 = 1_099_511_627_776;

impl<'a> Item<'a> {
    /// A symbol at a place: one that stood before, or the next new one.
    pub(crate) fn placed(&self, next: u32) -> Result<Sym, Stop>
        ensures { Gives WantOfMemory (items.placed next self.now) result }
    {
        if !is_numeral(self.text()) {
            return Err(Stop::Syntax(self.left()));
        }
        let value = number(self.text());
        if u64::from(next) < value || has_leading_zero(self.text()) {
            return Err(Stop::NotCanonical(self.left()));
        }
        Ok(Sym(value as u32))
    }

    /// A symbol in a fact: one that has a place.
    pub(crate) fn known(&self, next: u32) -> Result<Sym, Stop>
        ensures { Gives WantOfMemory (items.known next self.now) result }
    {
        if !is_numeral(self.text()) {
            return Err(Stop::Syntax(self.left()));
        }
        let value = number(self.text());
        if u64::from(next) <= value {
            return Err(Stop::OutOfRange(self.left()));
        }
        if has_leading_zero(self.text()) {
            return Err(Stop::NotCanonical(self.left()));
        }
        Ok(Sym(value as u32))
    }

    /// A number of a row.
    pub(crate) fn row_number(&self) -> Result<i64, Stop>
        ensures { Gives WantOfMemory (items.integer ROW_SIZE ROW_SIZE self.now) result }
    {
        let (negative, size) = self.signed(ROW_SIZE, ROW_SIZE)?;
        Ok(if negative {
            -(size as i64)
        } else {
            size as i64
        })
    }

    /// An integer of 32 bits.
    pub(crate) fn integer(&self) -> Result<i32, Stop>
        ensures { Gives WantOfMemory (items.integer (suc GREATEST_INTEGER) GREATEST_INTEGER self.now) result }
    {
        let (negative, size) = self.signed(GREATEST_INTEGER as u64 + 1, GREATEST_INTEGER as u64)?;
        let value = if negative {
            -(size as i64)
        } else {
            size as i64
        };
        Ok(value as i32)
    }

    /// The sign and the size of an integer between bounds.
    fn signed(&self, below: u64, above: u64) -> Result<(bool, u64), Stop>
        requires below { below ≤ ROW_SIZE }
        requires above { above ≤ ROW_SIZE }
        ensures read { Gives WantOfMemory (items.signed below above self.now) result }
        ensures within { IfOk result (λ found. items.is_beyond below above found.0 found.1 ≡ false) }
    {
        let negative = is_negative(self.text());
        let digits = unsigned(self.text());
        if !is_numeral(digits) {
            return Err(Stop::Syntax(self.left()));
        }
        let size = number(digits);
        if size > if negative { below } else { above } {
            return Err(Stop::OutOfRange(self.left()));
        }
        if has_leading_zero(digits) || (negative && size == 0) {
            return Err(Stop::NotCanonical(self.left()));
        }
        Ok((negative, size))
    }

    /// A coefficient, which isn't 0.
    pub(crate) fn coefficient(&self) -> Result<i64, Stop>
        ensures { Gives WantOfMemory (items.coefficient self.now) result }
    {
        let value = self.row_number()?;
        if value == 0 {
            return Err(Stop::NotCanonical(self.left()));
        }
        Ok(value)
    }

    /// A variable of the style; one of entries stands at an entry alone.
    pub(crate) fn variable(&self, at_entry: bool, names: &Names) -> Named
        ensures { Gives WantOfMemory (items.variable_in at_entry names.now self.now) result }
    {
        let id = self.name(names)?;
        if !is_variable(names, id) {
            return Err(Stop::UnknownName(self.left()));
        }
        if is_of_entry(names, id) && !at_entry {
            return Err(Stop::OutOfRange(self.left()));
        }
        Ok(id)
    }

    /// A variable of the style, above the last one.
    pub(crate) fn variable_above(
        &self,
        at_entry: bool,
        last: Option<NameId>,
        names: &Names,
    ) -> Named
        ensures { Gives WantOfMemory (items.variable_above at_entry last names.now self.now) result }
    {
        let id = self.variable(at_entry, names)?;
        if is_above(last, id) {
            Ok(id)
        } else {
            Err(Stop::NotCanonical(self.left()))
        }
    }

    /// A field of the style, above the last one; it stands at an entry alone.
    pub(crate) fn entry_field(&self, at_entry: bool, last: Option<NameId>, names: &Names) -> Named
        ensures { Gives WantOfMemory (items.entry_field at_entry last names.now self.now) result }
    {
        let id = self.field(names)?;
        if !at_entry {
            return Err(Stop::OutOfRange(self.left()));
        }
        if is_above(last, id) {
            Ok(id)
        } else {
            Err(Stop::NotCanonical(self.left()))
        }
    }

    /// The word of a kind.
    pub(crate) fn kind(&self) -> Result<Kinds, Stop>
        ensures { Gives WantOfMemory (items.kind self.now) result }
    {
        if self.is_word(b"int") {
            return Ok(Kinds::Int);
        }
        if self.is_word(b"str") {
            return Ok(Kinds::Str);
        }
        if self.is_word(b"miss") {
            return Ok(Kinds::Missing);
        }
        if self.is_word(b"opt") {
            return Ok(Kinds::Optional);
        }
        if self.is_word(b"func") {
            return Ok(Kinds::Func);
        }
        Err(Stop::Syntax(self.left()))
    }

    /// The number of a block of the style.
    pub(crate) fn block_number(&self, style: &Styled<'_>) -> Result<u32, Stop>
        ensures { Gives WantOfMemory (items.block_number style.now.bodies self.now) result }
    {
        if !is_numeral(self.text()) {
            return Err(Stop::Syntax(self.left()));
        }
        let value = number(self.text());
        if value > u64::from(MOST) || style.block(value as u32).is_none() {
            return Err(Stop::OutOfRange(self.left()));
        }
        if has_leading_zero(self.text()) {
            return Err(Stop::NotCanonical(self.left()));
        }
        Ok(value as u32)
    }

    /// A term behind the last one.
    pub(crate) fn term_behind(
        &self,
        has_pos: bool,
        next: u32,
        last: Option<&Part>,
    ) -> Result<Term, Stop>
        ensures { Gives WantOfMemory (items.term_behind has_pos next (option_copied last.entry) self.now) result }
    {
        let term = self.term(has_pos, next)?;
        if is_later(last, term) {
            Ok(term)
        } else {
            Err(Stop::NotCanonical(self.left()))
        }
    }

    /// A term; `pos` stands where there is an entry alone.
    fn term(&self, has_pos: bool, next: u32) -> Result<Term, Stop>
        ensures { Gives WantOfMemory (items.term has_pos next self.now) result }
    {
        if let Some(part) = self.after(b"value:") {
            return Ok(Term::Value(part.known(next)?.0));
        }
        if let Some(part) = self.after(b"length:") {
            return Ok(Term::Length(part.known(next)?.0));
        }
        if let Some(part) = self.after(b"names:") {
            return Ok(Term::Names(part.known(next)?.0));
        }
        self.bare_term(has_pos)
    }

    /// A term without a symbol.
    fn bare_term(&self, has_pos: bool) -> Result<Term, Stop>
        ensures { Gives WantOfMemory (items.bare_term has_pos self.now) result }
    {
        if self.is_word(b"pos") {
            return if has_pos {
                Ok(Term::Pos)
            } else {
                Err(Stop::OutOfRange(self.left()))
            };
        }
        if self.is_word(b"count") {
            return Ok(Term::Count);
        }
        Err(Stop::Syntax(self.left()))
    }

    /// What follows a prefix, where the item begins with it.
    pub(crate) fn after(&self, prefix: &[u8]) -> Option<Item<'a>>
        ensures { result ≡ items.after_in prefix.now self.now }
    {
        let rest = after(self.text(), prefix)?;
        Some(self.part(rest))
    }
}

/// What follows a prefix, where the bytes begin with it.
fn after<'a>(source: &'a [u8], prefix: &[u8]) -> Option<&'a [u8]>
    ensures { option_copied result ≡ items.after prefix.now source.now }
{
    source.strip_prefix(prefix)
}

/// Whether a sign stands first.
fn is_negative(text: &[u8]) -> bool
    ensures { result ≡ items.is_negative text.now }
{
    match text {
        [first, ..] => *first == b'-',
        [] => false,
    }
}

/// What stands behind the sign.
fn unsigned(text: &[u8]) -> &[u8]
    ensures { result.now ≡ items.unsigned text.now }
{
    if is_negative(text) {
        text.split_at(1).1
    } else {
        text
    }
}

/// Whether a term may stand behind the last one.
fn is_later(last: Option<&Part>, term: Term) -> bool
    ensures { result ≡ items.is_later (option_copied last.entry) term }
{
    match last {
        Some(last) => is_before(last.term, term),
        None => true,
    }
}

/// Whether a term stands before another in a row.
pub fn is_before(a: Term, b: Term) -> bool
    ensures { result ≡ items.is_before a b }
{
    term_rank(a) < term_rank(b) || (term_rank(a) == term_rank(b) && term_symbol(a) < term_symbol(b))
}

/// The order of the terms.
fn term_rank(term: Term) -> u8
    ensures { result ≡ items.term_rank term }
{
    match term {
        Term::Value(_) => 0,
        Term::Length(_) => 1,
        Term::Names(_) => 2,
        Term::Pos => 3,
        Term::Count => 4,
    }
}

/// The symbol of a term.
fn term_symbol(term: Term) -> u32
    ensures { result ≡ items.term_symbol term }
{
    match term {
        Term::Value(sym) | Term::Length(sym) | Term::Names(sym) => sym,
        Term::Pos | Term::Count => 0,
    }
}

/// Whether a name is that of a variable.
fn is_variable(names: &Names, id: NameId) -> bool
    ensures { result ≡ items.is_variable (kind_at id names.now) }
{
    id.0 < names.len()
        && matches!(
            names.kind(id),
            Kind::IntEntry | Kind::StrEntry | Kind::IntGlobal | Kind::StrGlobal
        )
}

/// Whether a name is that of a variable of entries.
fn is_of_entry(names: &Names, id: NameId) -> bool
    ensures { result ≡ items.is_of_entry (kind_at id names.now) }
{
    id.0 < names.len() && matches!(names.kind(id), Kind::IntEntry | Kind::StrEntry)
}
