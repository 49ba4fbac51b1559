//! Hints, read line by line.

ghost use Rattle.std.specs.Prelude.{◌≡◌, ◌≤◌, [], length, min, OnOk};
ghost use Rattle.bv_base.specs.Answers.{Gives};
ghost use Rattle.bv_base.specs.Runs.{length_before, number_from};
ghost use Rattle.cert_format.specs.Hints as hints;
ghost use Rattle.cert_format.specs.declared.stop.Stop.TheVariants.{NoMemory as WantOfMemory};

use crate::cond_lines::last_natural;
use crate::items::{MOST_NUMBER, has_leading_zero, is_numeral};
use crate::limits::{MOST, MOST_ITEMS};
use crate::lines::{Item, Line, after_first};
use crate::stop::Stop;
use crate::worded::Worded;
use bv_base::runs::{length_before, number};
use bv_base::seq::Seq;
use std::alloc::Global;
use sym_state::hint::Hint;
use sym_state::proof::{Proof, Reference, Use};
use sym_state::symbol::Sym;

/// A hint by its first word.
pub(crate) fn hint_line(line: &mut Worded<'_>) -> Result<Hint, Stop>
    ensures { Gives WantOfMemory (hints.hint_line line.old.word line.old.rest) result }
{
    if line.word.is_word(b"step") {
        return Ok(Hint::Step(proof_line(line.alloc, &mut line.rest)?));
    }
    if line.word.is_word(b"case") {
        return Ok(Hint::Case(last_natural(MOST, &mut line.rest)?));
    }
    if line.word.is_word(b"use") {
        return Ok(Hint::Apply(last_natural(MOST, &mut line.rest)?));
    }
    if line.word.is_word(b"loop") {
        return Ok(Hint::Loop(last_natural(MOST, &mut line.rest)?));
    }
    if line.word.is_word(b"drop") {
        return Ok(Hint::Drop(proof_line(line.alloc, &mut line.rest)?));
    }
    bare_hint(line)
}

/// A hint without a number.
fn bare_hint(line: &mut Worded<'_>) -> Result<Hint, Stop>
    ensures { Gives WantOfMemory (hints.bare_hint line.old.word line.old.rest) result }
{
    if line.word.is_word(b"walk") {
        line.rest.end()?;
        return Ok(Hint::Walk);
    }
    if line.word.is_word(b"plain") {
        line.rest.end()?;
        return Ok(Hint::Plain);
    }
    if line.word.is_word(b"keep") {
        line.rest.end()?;
        return Ok(Hint::Keep);
    }
    Err(Stop::Syntax(line.word.left()))
}

/// A proof, after the word of its line.
fn proof_line(alloc: Global, line: &mut Line<'_>) -> Result<Proof, Stop>
    ensures { Gives WantOfMemory (hints.proof_line line.old) result }
{
    let divisor = line.item()?.positive(MOST_NUMBER)?;
    let uses = uses(alloc, line)?;
    line.end()?;
    Ok(Proof { divisor, uses })
}

/// What is added up.
fn uses(alloc: Global, line: &mut Line<'_>) -> Result<Seq<Use>, Stop>
    ensures read { Gives WantOfMemory (hints.add_uses line.old.items []) result }
    ensures left { OnOk result (line.new ≡ record { items = []; end = line.old.end }) }
{
    let mut uses = Seq::new(alloc);
    while let Some(item) = line.next() {
        let one = item.use_item()?;
        if uses.as_slice().len() >= MOST_ITEMS {
            return Err(Stop::TooMany(item.left()));
        }
        uses.push(one)?;
    }
    Ok(uses)
}

impl<'a> Item<'a> {
    /// How often a row is taken, and the row.
    fn use_item(&self) -> Result<Use, Stop>
        ensures { Gives WantOfMemory (hints.use_item self.now) result }
    {
        let (times, rest) = self.text().split_at(colon_length(self.text()));
        use_of(times, after_first(rest), self.left())
    }
}

/// How often a row is taken, and the row, by their texts.
fn use_of(times: &[u8], text: &[u8], left: usize) -> Result<Use, Stop>
    ensures { Gives WantOfMemory (hints.use_of times.now text.now left) result }
{
    if !is_numeral(times) {
        return Err(Stop::Syntax(left));
    }
    let Some(reference) = reference_of(text) else {
        return Err(Stop::Syntax(left));
    };
    if is_out(times, text) {
        return Err(Stop::OutOfRange(left));
    }
    if has_leading_zero(times) || has_leading_zero(after_first(text)) {
        return Err(Stop::NotCanonical(left));
    }
    Ok(Use {
        reference,
        times: capped(times),
    })
}

/// Whether a number is one that a proof may not have.
fn is_out(times: &[u8], reference: &[u8]) -> bool
    ensures { result ≡ hints.is_out times.now reference.now }
{
    let times = number(times);
    times == 0
        || times > u64::from(MOST_NUMBER)
        || number(after_first(reference)) > u64::from(MOST_NUMBER)
}

/// The reference of a letter and digits; a number that is too great is told as the greatest.
fn reference_of(text: &[u8]) -> Option<Reference>
    ensures { result ≡ hints.reference_of text.now }
{
    let letter = *text.first()?;
    let digits = after_first(text);
    if digits.is_empty() {
        return bare(letter);
    }
    if is_numeral(digits) {
        return numbered(letter, capped(digits));
    }
    None
}

/// A reference with a number.
fn numbered(letter: u8, n: u32) -> Option<Reference>
    ensures { result ≡ hints.numbered letter n }
{
    match letter {
        b'r' => Some(Reference::Row(n)),
        b'v' => Some(Reference::ValueLow(Sym(n))),
        b'w' => Some(Reference::ValueHigh(Sym(n))),
        b'l' => Some(Reference::LengthLow(Sym(n))),
        b'n' => Some(Reference::NamesLow(Sym(n))),
        b'm' => Some(Reference::NamesHigh(Sym(n))),
        b'e' => Some(Reference::ExactLow(Sym(n))),
        b'f' => Some(Reference::ExactHigh(Sym(n))),
        b'b' => Some(Reference::NonblankLength(Sym(n))),
        b'c' => Some(Reference::NonblankNames(Sym(n))),
        b't' => Some(Reference::TextLow(Sym(n))),
        b'u' => Some(Reference::TextHigh(Sym(n))),
        _ => None,
    }
}

/// A reference without one.
fn bare(letter: u8) -> Option<Reference>
    ensures { result ≡ hints.bare letter }
{
    match letter {
        b'p' => Some(Reference::PosLow),
        b'q' => Some(Reference::PosHigh),
        b'o' => Some(Reference::CountLow),
        b'z' => Some(Reference::CountHigh),
        _ => None,
    }
}

/// The number that digits write, or the greatest of 32 bits where it is greater.
fn capped(digits: &[u8]) -> u32
    ensures { result ≡ min MOST_NUMBER (number_from 0 digits.now) }
{
    number(digits).min(u64::from(MOST_NUMBER)) as u32
}

/// How many bytes stand before the first colon.
fn colon_length(bytes: &[u8]) -> usize
    ensures length { result ≡ length_before hints.is_colon bytes.now }
    ensures within { result ≤ length bytes.now }
{
    length_before(bytes, |b| b == b':')
}
