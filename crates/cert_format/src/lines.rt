//! Cursors over the lines of a text and over the items of a line. Nothing is copied.

ghost use Rattle.std.specs.Prelude.{◌≡◌, ℕ, ◌≤◌, [], ◌∷◌, length, drop, MatchOption};
ghost use Rattle.std.specs.Option.{option_map_or};
ghost use Rattle.bv_base.specs.Answers.{Gives, GivesAndLeaves};
ghost use Rattle.bv_base.specs.Runs.{length_before};
ghost use Rattle.cert_format.specs.PieceItems.{part_of};
ghost use Rattle.cert_format.specs.Lines as lines;
ghost use Rattle.cert_format.specs.declared.stop.Stop.TheVariants.{NoMemory as WantOfMemory};

use crate::stop::Stop;
use bv_base::limits::STYLE_BYTES;
use bv_base::runs::length_before;
use std::marker::Model;

/// The lines of a text that are left. Contracts see them as a list.
#[derive(Drop)]
pub(crate) struct Lines<'a> {
    rest: &'a [u8],
}

impl<'a> Model for Lines<'a> {
    ghost use Rattle.std.specs.Prelude.{List, ◌≤◌, length};
    ghost use Rattle.bv_base.specs.declared.limits.TheConstants.{STYLE_BYTES};
    ghost use Rattle.cert_format.specs.Lines.{Line, lines_of};

    ghost Value = { List Line };

    ghost view = { λ l. lines_of l.rest.now };

    ghost invariant = { λ l. length l.rest.now ≤ STYLE_BYTES };
}

impl<'a> Lines<'a> {
    /// All lines of a text are left.
    pub(crate) fn new(source: &'a [u8]) -> Lines<'a>
        requires { length source.now ≤ STYLE_BYTES }
        ensures { result ≡ lines.lines_of source.now }
    {
        Lines { rest: source }
    }

    /// Takes the next line. `None` comes exactly where none is left.
    pub(crate) fn next(&mut self) -> Option<Line<'a>>
        ensures { MatchOption result ((self.old ≡ []) × (self.new ≡ [])) (λ line. self.old ≡ line ∷ self.new) }
    {
        if self.rest.is_empty() {
            return None;
        }
        let (bytes, after) = self.rest.split_at(line_length(self.rest));
        self.rest = after_first(after);
        Some(Line {
            rest: Some(bytes),
            end: after.len(),
        })
    }
}

/// The items of a line that are left. Contracts see them with the line's end.
#[derive(Drop)]
pub(crate) struct Line<'a> {
    /// The bytes from the next item on, where an item is left.
    rest: Option<&'a [u8]>,
    /// How many bytes of the text are left at the line's end.
    end: usize,
}

impl<'a> Model for Line<'a> {
    ghost use Rattle.cert_format.specs.Cursors.{line_left, IsShort};
    ghost use Rattle.cert_format.specs.Lines.{Line as Seen};

    ghost Value = { Seen };

    ghost view = { line_left };

    ghost invariant = { IsShort };
}

impl<'a> Line<'a> {
    /// Takes the next item; where none is left, the line's end is at fault.
    pub(crate) fn item(&mut self) -> Result<Item<'a>, Stop>
        ensures { GivesAndLeaves WantOfMemory (lines.next_item self.old) self.new result }
    {
        match self.next() {
            Some(item) => Ok(item),
            None => Err(Stop::Syntax(self.end)),
        }
    }

    /// Takes the next item. `None` comes exactly where none is left.
    pub(crate) fn next(&mut self) -> Option<Item<'a>>
        ensures { MatchOption result
            ((self.old.items ≡ []) × (self.new ≡ self.old))
            (λ item. self.old ≡ lines.with_item item self.new) }
    {
        let Some(rest) = self.rest else {
            return None;
        };
        let left = rest.len() + self.end;
        let (text, after) = rest.split_at(item_length(rest));
        self.rest = after_space(after);
        Some(Item { text, left })
    }

    #[tactic(auto, using(crate::proofs::Lined::first_item))]
    /// Ends the line, which has no item left and its byte 10.
    pub(crate) fn end(&self) -> Result<(), Stop>
        ensures { Gives WantOfMemory (lines.line_end self.now) result }
    {
        if let Some(rest) = self.rest {
            return Err(Stop::Syntax(rest.len() + self.end));
        }
        if self.end == 0 {
            return Err(Stop::Syntax(0));
        }
        Ok(())
    }
}

/// An item of a line.
#[derive(Drop)]
pub(crate) struct Item<'a> {
    text: &'a [u8],
    left: usize,
}

impl<'a> Model for Item<'a> {
    ghost use Rattle.cert_format.specs.Lines.{Item as Seen};

    ghost Value = { Seen };

    ghost view = { λ i. record { text = i.text.now; left = i.left } };
}

impl<'a> Item<'a> {
    /// The bytes of the item.
    pub(crate) fn text(&self) -> &'a [u8]
        ensures { result.now ≡ self.now.text }
    {
        self.text
    }

    /// A part of the item; what is at fault in it stands where the item begins.
    pub(crate) fn part(&self, text: &'a [u8]) -> Item<'a>
        ensures { result ≡ part_of self.now text.now }
    {
        Item {
            text,
            left: self.left,
        }
    }

    /// How many bytes of the text are left where the item begins.
    pub(crate) fn left(&self) -> usize
        ensures { result ≡ self.now.left }
    {
        self.left
    }
}

/// All but the first byte.
pub(crate) fn after_first(bytes: &[u8]) -> &[u8]
    ensures { result.now ≡ drop 1 bytes.now }
{
    match bytes {
        [] => bytes,
        [_, rest @ ..] => rest,
    }
}

/// What follows an item before its space, where the line goes on.
fn after_space(bytes: &[u8]) -> Option<&[u8]>
    ensures items { (end : ℕ) → option_map_or (λ rest. lines.items_of end rest.now) result [] ≡ lines.after_space end bytes.now }
    ensures shorter { option_map_or (λ rest. length rest.now) result 0 ≤ length bytes.now }
{
    match bytes {
        [] => None,
        [_, rest @ ..] => Some(rest),
    }
}

/// How many bytes stand before the first byte 10.
fn line_length(bytes: &[u8]) -> usize
    ensures length { result ≡ length_before lines.is_newline bytes.now }
    ensures within { result ≤ length bytes.now }
{
    length_before(bytes, |b| b == b'\n')
}

/// How many bytes stand before the first space.
fn item_length(bytes: &[u8]) -> usize
    ensures length { result ≡ length_before lines.is_space bytes.now }
    ensures within { result ≤ length bytes.now }
{
    length_before(bytes, |b| b == b' ')
}
