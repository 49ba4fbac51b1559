//! What has been read of a summary, a loop or a command, line by line.

ghost use Rattle.std.specs.Prelude.{◌≡◌, ◌<◌, Some, OnOk};
ghost use Rattle.bv_base.specs.Answers.{Leaves};
ghost use Rattle.cert_format.specs.Items as items;
ghost use Rattle.cert_format.specs.Units as units;
ghost use Rattle.cert_format.specs.declared.stop.Stop.TheVariants.{NoMemory as WantOfMemory};

use crate::cond_lines::last_id;
use crate::hint_lines::hint_line;
use crate::items::among;
use crate::limits::MOST_PIECES;
use crate::lines::Item;
use crate::piece_lines::PieceSoFar;
use crate::stages::{Mark, PieceWord, UnitKind, UnitStage};
use crate::stop::Stop;
use crate::styled::Styled;
use crate::worded::Worded;
use bv_base::memory::NoMemory;
use bv_base::seq::Seq;
use name_table::names::{NameId, Names};
use std::alloc::Global;
use sym_state::hint::Hint;
use sym_state::piece::Piece;

/// What has been read of a unit.
#[derive(Drop)]
pub(crate) struct UnitSoFar {
    pub(crate) kind: UnitKind,
    stage: UnitStage,
    pub(crate) entry: bool,
    pub(crate) whole: bool,
    pub(crate) writes: Seq<NameId>,
    /// The word before the open piece.
    last: Option<Mark>,
    /// How many pieces were opened.
    count: u32,
    /// How many symbols the pre has.
    symbols: u32,
    /// The open piece.
    piece: PieceSoFar,
    pub(crate) pre: Option<Piece>,
    pub(crate) cases: Seq<Piece>,
    /// The posts of a summary or the exits of a loop.
    pub(crate) later: Seq<Piece>,
    pub(crate) after: Option<Piece>,
    pub(crate) visit: Option<Piece>,
    pub(crate) keeps: Option<Piece>,
    pub(crate) hints: Seq<Hint>,
}

impl UnitSoFar {
    /// After the first line.
    pub(crate) fn new(alloc: Global, kind: UnitKind) -> UnitSoFar
        ensures { result ≡ units.no_unit kind }
    {
        UnitSoFar {
            kind,
            stage: first_stage(kind),
            entry: false,
            whole: false,
            writes: Seq::new(alloc),
            last: None,
            count: 0,
            symbols: 0,
            piece: PieceSoFar::new(alloc, false, false, 0),
            pre: None,
            cases: Seq::new(alloc),
            later: Seq::new(alloc),
            after: None,
            visit: None,
            keeps: None,
            hints: Seq::new(alloc),
        }
    }

    /// Takes a line, after its first word.
    pub(crate) fn take(&mut self, style: &Styled<'_>, line: &mut Worded<'_>) -> Result<(), Stop>
        ensures { Leaves WantOfMemory (units.unit_line style.now line.old.word line.old.rest self.old) self.new result }
    {
        match self.stage {
            UnitStage::Hints => self.take_hint(line),
            UnitStage::Done => Err(Stop::Syntax(line.word.left())),
            _ => self.take_body(style, line),
        }
    }

    /// Whether all lines have come.
    pub(crate) fn is_done(&self) -> bool
        ensures { result ≡ units.is_done self.now.stage }
    {
        matches!(self.stage, UnitStage::Done)
    }

    /// Takes a hint, or `end`.
    fn take_hint(&mut self, line: &mut Worded<'_>) -> Result<(), Stop>
        ensures { Leaves WantOfMemory (units.hint_or_end line.old.word line.old.rest self.old) self.new result }
    {
        if line.word.is_word(b"end") {
            line.rest.end()?;
            self.stage = UnitStage::Done;
            return Ok(());
        }
        let hint = hint_line(line)?;
        self.hints.push(hint)?;
        Ok(())
    }

    /// Takes a line before the hints.
    fn take_body(&mut self, style: &Styled<'_>, line: &mut Worded<'_>) -> Result<(), Stop>
        ensures { Leaves WantOfMemory (units.body_line style.now line.old.word line.old.rest self.old) self.new result }
    {
        if may_have_entry(self.stage) && line.word.is_word(b"entry") {
            line.rest.end()?;
            self.entry = true;
            self.stage = UnitStage::Whole;
            return Ok(());
        }
        if may_have_whole(self.stage) && line.word.is_word(b"whole") {
            line.rest.end()?;
            self.whole = true;
            self.stage = UnitStage::Writes;
            return Ok(());
        }
        if may_have_writes(self.stage) && line.word.is_word(b"writes") {
            return self.take_writes(style.names(), line);
        }
        self.take_piece(style, line)
    }

    /// Takes the line of a variable that may be written, after its word.
    fn take_writes(&mut self, names: &Names, line: &mut Worded<'_>) -> Result<(), Stop>
        ensures { Leaves WantOfMemory (units.writes_line names.now line.old.rest self.old) self.new result }
    {
        let item = line.rest.item()?;
        let id = item.variable_above(self.entry, last_id(self.writes.as_slice()), names)?;
        line.rest.end()?;
        self.writes.push(id)?;
        self.stage = UnitStage::Writes;
        Ok(())
    }

    /// Takes a line of the open piece, or one that ends it.
    fn take_piece(&mut self, style: &Styled<'_>, line: &mut Worded<'_>) -> Result<(), Stop>
        ensures { Leaves WantOfMemory
            (units.piece_or_mark style.now (units.open_word self.old.last self.old.piece line.old.word) line.old.word line.old.rest self.old)
            self.new
            result }
    {
        match self.open_word(&line.word) {
            Some(kind) => self.piece.take(style, kind, line),
            None => self.take_marked(line),
        }
    }

    /// The word of a line of the open piece.
    fn open_word(&self, word: &Item<'_>) -> Option<PieceWord>
        ensures { result ≡ units.open_word self.now.last self.now.piece word.now }
    {
        match self.last {
            Some(_) => self.piece.word(word.text()),
            None => None,
        }
    }

    /// Takes the line of a word before a piece, or `hints`.
    fn take_marked(&mut self, line: &mut Worded<'_>) -> Result<(), Stop>
        ensures { Leaves WantOfMemory
            (units.marked_line (items.among line.old.word.text units.mark_words) line.old.word line.old.rest self.old)
            self.new
            result }
    {
        match mark_of(line.word.text()) {
            Some(mark) => self.take_mark(mark, line),
            None => self.take_hints(line),
        }
    }

    /// Takes the line of a word before a piece.
    fn take_mark(&mut self, mark: Mark, line: &mut Worded<'_>) -> Result<(), Stop>
        ensures { Leaves WantOfMemory (units.marked_line (Some mark) line.old.word line.old.rest self.old) self.new result }
    {
        if !may_follow(self.kind, self.last, mark) {
            return Err(Stop::Syntax(line.word.left()));
        }
        if self.count >= MOST_PIECES {
            return Err(Stop::TooMany(line.word.left()));
        }
        line.rest.end()?;
        self.open(line.alloc, mark)?;
        Ok(())
    }

    /// Opens a piece behind the last one.
    fn open(&mut self, alloc: Global, mark: Mark) -> Result<(), NoMemory>
        requires { self.old.count < MOST_PIECES }
        ensures { OnOk result (self.new ≡ units.opened mark self.old) }
    {
        let at_entry = is_at_entry(self.kind, self.entry);
        let has_pos = may_have_pos(self.kind, self.entry, mark);
        let symbols = first_symbol(mark, self.symbols_so_far());
        self.place(PieceSoFar::new(alloc, at_entry, has_pos, symbols))?;
        self.stage = UnitStage::Pieces;
        self.last = Some(mark);
        self.count += 1;
        Ok(())
    }

    /// The symbols of the pre, of which the last line has been read.
    fn symbols_so_far(&self) -> u32
        ensures { result ≡ units.symbols_of self.now.last self.now }
    {
        match self.last {
            Some(Mark::Pre) => self.piece.next,
            _ => self.symbols,
        }
    }

    /// Takes `hints`, after the last piece.
    fn take_hints(&mut self, line: &mut Worded<'_>) -> Result<(), Stop>
        ensures { Leaves WantOfMemory (units.hints_line line.old.word line.old.rest self.old) self.new result }
    {
        if !(line.word.is_word(b"hints") && may_have_hints(self.kind, self.last)) {
            return Err(Stop::Syntax(line.word.left()));
        }
        line.rest.end()?;
        self.place(PieceSoFar::new(line.alloc, false, false, 0))?;
        self.stage = UnitStage::Hints;
        self.last = None;
        Ok(())
    }

    /// Puts the open piece into its place, and opens another one.
    fn place(&mut self, next: PieceSoFar) -> Result<(), NoMemory>
        ensures { OnOk result (self.new ≡ units.placed_as self.old.last next self.old) }
    {
        let PieceSoFar {
            piece,
            next: symbols,
            ..
        } = std::mem::replace(&mut self.piece, next);
        match self.last {
            None => {}
            Some(Mark::Pre) => {
                self.symbols = symbols;
                self.pre = Some(piece);
            }
            Some(Mark::Case) => self.cases.push(piece)?,
            Some(Mark::Post | Mark::Exit) => self.later.push(piece)?,
            Some(Mark::After) => self.after = Some(piece),
            Some(Mark::Visit) => self.visit = Some(piece),
            Some(Mark::Keeps) => self.keeps = Some(piece),
        }
        Ok(())
    }
}

/// What stands between the first line of a unit and its pieces.
fn first_stage(kind: UnitKind) -> UnitStage
    ensures { result ≡ units.first_stage kind }
{
    match kind {
        UnitKind::Command(_) => UnitStage::Pieces,
        _ => UnitStage::Entry,
    }
}

/// The words before pieces.
const MARKS: [(&[u8], Mark); 7] = [
    (b"pre", Mark::Pre),
    (b"post", Mark::Post),
    (b"case", Mark::Case),
    (b"exit", Mark::Exit),
    (b"after", Mark::After),
    (b"visit", Mark::Visit),
    (b"keeps", Mark::Keeps),
];

/// The word before a piece.
fn mark_of(text: &[u8]) -> Option<Mark>
    ensures { result ≡ items.among text.now units.mark_words }
{
    among(text, &MARKS)
}

/// Whether a piece may come behind the last one.
fn may_follow(kind: UnitKind, last: Option<Mark>, mark: Mark) -> bool
    ensures { result ≡ units.may_follow kind last mark }
{
    match kind {
        UnitKind::Summary(_) => in_summary(last, mark),
        UnitKind::Loop(_, _) => in_loop(last, mark),
        UnitKind::Command(_) => in_command(last, mark),
    }
}

/// Whether a piece of a summary may come.
fn in_summary(last: Option<Mark>, mark: Mark) -> bool
    ensures { result ≡ units.in_summary last mark }
{
    match (last, mark) {
        (None, Mark::Pre) => true,
        (Some(_), Mark::Post) => true,
        _ => false,
    }
}

/// Whether a piece of a loop may come.
fn in_loop(last: Option<Mark>, mark: Mark) -> bool
    ensures { result ≡ units.in_loop last mark }
{
    match (last, mark) {
        (None, Mark::Case) => true,
        (Some(Mark::Case), Mark::Case) => true,
        (Some(_), Mark::Exit) => true,
        _ => false,
    }
}

/// Whether a piece of a command may come.
fn in_command(last: Option<Mark>, mark: Mark) -> bool
    ensures { result ≡ units.in_command last mark }
{
    match (last, mark) {
        (None, Mark::After | Mark::Visit | Mark::Keeps) => true,
        (Some(Mark::After), Mark::Visit | Mark::Keeps) => true,
        (Some(Mark::Visit), Mark::Keeps) => true,
        _ => false,
    }
}

/// Whether the hints may come.
fn may_have_hints(kind: UnitKind, last: Option<Mark>) -> bool
    ensures { result ≡ units.may_have_hints kind last }
{
    match kind {
        UnitKind::Command(_) => true,
        _ => last.is_some(),
    }
}

/// Whether variables of entries and fields may stand in the pieces of a unit.
fn is_at_entry(kind: UnitKind, entry: bool) -> bool
    ensures { result ≡ units.is_at_entry kind entry }
{
    match kind {
        UnitKind::Command(_) => true,
        _ => entry,
    }
}

/// Whether `pos` may stand in a piece.
fn may_have_pos(kind: UnitKind, entry: bool, mark: Mark) -> bool
    ensures { result ≡ units.may_have_pos kind entry mark }
{
    match kind {
        UnitKind::Command(_) => matches!(mark, Mark::Visit),
        _ => entry,
    }
}

/// The number of the first new symbol of a piece.
fn first_symbol(mark: Mark, symbols: u32) -> u32
    ensures { result ≡ units.first_symbol mark symbols }
{
    match mark {
        Mark::Post => symbols,
        _ => 0,
    }
}

/// Whether an `entry` line may come.
fn may_have_entry(stage: UnitStage) -> bool
    ensures { result ≡ units.may_have_entry stage }
{
    matches!(stage, UnitStage::Entry)
}

/// Whether a `whole` line may come.
fn may_have_whole(stage: UnitStage) -> bool
    ensures { result ≡ units.may_have_whole stage }
{
    matches!(stage, UnitStage::Entry | UnitStage::Whole)
}

/// Whether a `writes` line may come.
fn may_have_writes(stage: UnitStage) -> bool
    ensures { result ≡ units.may_have_writes stage }
{
    matches!(
        stage,
        UnitStage::Entry | UnitStage::Whole | UnitStage::Writes
    )
}
