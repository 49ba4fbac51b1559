//! What has been read of a piece, line by line.

ghost use Rattle.std.specs.Prelude.{◌≡◌, [], OnOk};
ghost use Rattle.bv_base.specs.Answers.{Gives, GivesAndLeaves, Leaves};
ghost use Rattle.cert_format.specs.Items.{last_of};
ghost use Rattle.cert_format.specs.PieceItems as items;
ghost use Rattle.cert_format.specs.Pieces as pieces;
ghost use Rattle.cert_format.specs.declared.stop.Stop.TheVariants.{NoMemory as WantOfMemory};

use crate::items::among;
use crate::limits::{MOST_ITEMS, MOST_TERMS};
use crate::lines::{Item, Line};
use crate::stages::{PieceStage, PieceWord};
use crate::stop::Stop;
use crate::styled::Styled;
use crate::worded::Worded;
use bv_base::seq::Seq;
use lin_facts::row::{Part, Row};
use name_table::names::{NameId, Names};
use std::alloc::Global;
use sym_state::piece::Piece;
use sym_state::symbol::{Bind, Fact, Sym};

/// What has been read of a piece.
#[derive(Drop)]
pub(crate) struct PieceSoFar {
    /// Whether variables of entries and fields may stand.
    pub(crate) at_entry: bool,
    /// Whether `pos` may stand.
    pub(crate) has_pos: bool,
    pub(crate) stage: PieceStage,
    /// The number of the next new symbol.
    pub(crate) next: u32,
    pub(crate) piece: Piece,
}

impl PieceSoFar {
    /// Before the first line.
    pub(crate) fn new(alloc: Global, at_entry: bool, has_pos: bool, next: u32) -> PieceSoFar
        ensures { result ≡ pieces.no_piece at_entry has_pos next }
    {
        PieceSoFar {
            at_entry,
            has_pos,
            stage: PieceStage::Stack,
            next,
            piece: Piece {
                stack: Seq::new(alloc),
                vars: Seq::new(alloc),
                fields: Seq::new(alloc),
                facts: Seq::new(alloc),
                rows: Seq::new(alloc),
            },
        }
    }

    /// The word of a line that may come.
    pub(crate) fn word(&self, text: &[u8]) -> Option<PieceWord>
        ensures { result ≡ pieces.piece_word self.now.stage text.now }
    {
        where_due(self.stage, among(text, &WORDS)?)
    }

    /// Takes a line, after its word.
    pub(crate) fn take(
        &mut self,
        style: &Styled<'_>,
        kind: PieceWord,
        line: &mut Worded<'_>,
    ) -> Result<(), Stop>
        ensures { Leaves WantOfMemory (pieces.piece_line style.now kind line.old.word line.old.rest self.old) self.new result }
    {
        match kind {
            PieceWord::Stack => self.take_stack(line),
            PieceWord::Var | PieceWord::Field => self.take_bound(kind, style.names(), line),
            PieceWord::Row => self.take_row(line),
            _ => self.take_fact(kind, style, line),
        }
    }

    /// Takes the line of the stack, after its word.
    fn take_stack(&mut self, line: &mut Worded<'_>) -> Result<(), Stop>
        ensures { Leaves WantOfMemory (pieces.stack_line line.old.rest self.old) self.new result }
    {
        let item = line.rest.item()?;
        self.push_symbol(&item)?;
        self.push_symbols(&mut line.rest)?;
        line.rest.end()
    }

    /// Pushes symbols, one after the other.
    fn push_symbols(&mut self, line: &mut Line<'_>) -> Result<(), Stop>
        ensures read { Leaves WantOfMemory (pieces.push_symbols line.old.items self.old) self.new result }
        ensures left { OnOk result (line.new ≡ record { items = []; end = line.old.end }) }
    {
        while let Some(item) = line.next() {
            self.push_symbol(&item)?;
        }
        Ok(())
    }

    /// Pushes a symbol.
    fn push_symbol(&mut self, item: &Item<'_>) -> Result<(), Stop>
        ensures { Leaves WantOfMemory (pieces.push_symbol item.now self.old) self.new result }
    {
        let sym = item.placed(self.next)?;
        if self.piece.stack.as_slice().len() >= MOST_ITEMS {
            return Err(Stop::TooMany(item.left()));
        }
        self.piece.stack.push(sym)?;
        self.next = next_after(self.next, sym);
        self.stage = PieceStage::Vars;
        Ok(())
    }

    /// Takes the line of a variable or of a field, after its word.
    fn take_bound(
        &mut self,
        kind: PieceWord,
        names: &Names,
        line: &mut Worded<'_>,
    ) -> Result<(), Stop>
        ensures { Leaves WantOfMemory (pieces.bound_line kind names.now line.old.rest self.old) self.new result }
    {
        let item = line.rest.item()?;
        let name = self.bound_name(kind, names, &item)?;
        let bind = bound(self.next, name, &mut line.rest)?;
        self.next = next_after(self.next, bind.sym);
        match kind {
            PieceWord::Var => {
                self.piece.vars.push(bind)?;
                self.stage = PieceStage::Vars;
            }
            _ => {
                self.piece.fields.push(bind)?;
                self.stage = PieceStage::Fields;
            }
        }
        Ok(())
    }

    /// The name of a variable or of a field, above the last one.
    fn bound_name(&self, kind: PieceWord, names: &Names, item: &Item<'_>) -> Result<NameId, Stop>
        ensures { Gives WantOfMemory (pieces.bound_name kind names.now self.now item.now) result }
    {
        match kind {
            PieceWord::Var => {
                item.variable_above(self.at_entry, last_bound(self.piece.vars.as_slice()), names)
            }
            _ => item.entry_field(
                self.at_entry,
                last_bound(self.piece.fields.as_slice()),
                names,
            ),
        }
    }

    /// Takes a fact, after the word of its line.
    fn take_fact(
        &mut self,
        kind: PieceWord,
        style: &Styled<'_>,
        line: &mut Worded<'_>,
    ) -> Result<(), Stop>
        ensures { Leaves WantOfMemory (pieces.fact_line style.now kind line.old.word line.old.rest self.old) self.new result }
    {
        if self.piece.facts.as_slice().len() >= MOST_ITEMS {
            return Err(Stop::TooMany(line.word.left()));
        }
        let sym = line.rest.item()?.known(self.next)?;
        let fact = fact_of(style, kind, sym, line)?;
        self.piece.facts.push(fact)?;
        self.stage = PieceStage::Facts;
        Ok(())
    }

    /// Takes a row, after the word of its line.
    fn take_row(&mut self, line: &mut Worded<'_>) -> Result<(), Stop>
        ensures { Leaves WantOfMemory (pieces.row_line line.old.word line.old.rest self.old) self.new result }
    {
        if self.piece.rows.as_slice().len() >= MOST_ITEMS {
            return Err(Stop::TooMany(line.word.left()));
        }
        let constant = line.rest.item()?.row_number()?;
        let parts = self.parts(line.alloc, &mut line.rest)?;
        line.rest.end()?;
        self.piece.rows.push(Row { constant, parts })?;
        self.stage = PieceStage::Rows;
        Ok(())
    }

    /// The coefficients and terms of a row.
    fn parts(&self, alloc: Global, line: &mut Line<'_>) -> Result<Seq<Part>, Stop>
        ensures read { Gives WantOfMemory (pieces.parts self.now.has_pos self.now.next line.old.end line.old.items []) result }
        ensures left { OnOk result (line.new ≡ record { items = []; end = line.old.end }) }
    {
        let mut parts = Seq::new(alloc);
        while let Some(first) = line.next() {
            let part = self.part(&first, parts.as_slice(), line)?;
            parts.push(part)?;
        }
        Ok(parts)
    }

    /// A coefficient and its term, behind those before them.
    fn part(&self, first: &Item<'_>, before: &[Part], line: &mut Line<'_>) -> Result<Part, Stop>
        ensures { GivesAndLeaves WantOfMemory (pieces.part self.now.has_pos self.now.next before.now first.now line.old) line.new result }
    {
        let coefficient = first.coefficient()?;
        if before.len() >= MOST_TERMS {
            return Err(Stop::TooMany(first.left()));
        }
        let term = line
            .item()?
            .term_behind(self.has_pos, self.next, before.last())?;
        Ok(Part { coefficient, term })
    }
}

/// The words of the lines of a piece.
const WORDS: [(&[u8], PieceWord); 12] = [
    (b"stack", PieceWord::Stack),
    (b"var", PieceWord::Var),
    (b"field", PieceWord::Field),
    (b"is", PieceWord::Is),
    (b"int", PieceWord::Int),
    (b"text", PieceWord::Text),
    (b"call", PieceWord::Call),
    (b"block", PieceWord::Block),
    (b"blank", PieceWord::Blank),
    (b"nonblank", PieceWord::Nonblank),
    (b"wellformed", PieceWord::Wellformed),
    (b"row", PieceWord::Row),
];

/// A word, where its line may come.
fn where_due(stage: PieceStage, word: PieceWord) -> Option<PieceWord>
    ensures { result ≡ pieces.where_due stage word }
{
    if stage_rank(stage) <= stage_rank(stage_of(word)) {
        Some(word)
    } else {
        None
    }
}

/// The order of the lines of a piece, by which a line may come.
fn stage_rank(stage: PieceStage) -> u8
    ensures { result ≡ pieces.stage_rank stage }
{
    match stage {
        PieceStage::Stack => 0,
        PieceStage::Vars => 1,
        PieceStage::Fields => 2,
        PieceStage::Facts => 3,
        PieceStage::Rows => 4,
    }
}

/// The line that a word begins.
fn stage_of(word: PieceWord) -> PieceStage
    ensures { result ≡ pieces.stage_of word }
{
    match word {
        PieceWord::Stack => PieceStage::Stack,
        PieceWord::Var => PieceStage::Vars,
        PieceWord::Field => PieceStage::Fields,
        PieceWord::Row => PieceStage::Rows,
        _ => PieceStage::Facts,
    }
}

/// The number of the next new symbol after a symbol stood at a place.
fn next_after(next: u32, sym: Sym) -> u32
    ensures { result ≡ items.next_after next sym }
{
    next.max(sym.0.saturating_add(1))
}

/// The name of the last of some bindings.
fn last_bound(binds: &[Bind]) -> Option<NameId>
    ensures { result ≡ pieces.last_bound binds.now }
{
    match binds.last() {
        Some(bind) => Some(bind.name),
        None => None,
    }
}

/// The symbol of a variable or a field, which ends its line.
fn bound(next: u32, name: NameId, line: &mut Line<'_>) -> Result<Bind, Stop>
    ensures { Gives WantOfMemory (pieces.bound next name line.old) result }
{
    let sym = line.item()?.placed(next)?;
    line.end()?;
    Ok(Bind { name, sym })
}

/// A fact by the word of its line, after its symbol.
fn fact_of(
    style: &Styled<'_>,
    kind: PieceWord,
    sym: Sym,
    line: &mut Worded<'_>,
) -> Result<Fact, Stop>
    ensures { Gives WantOfMemory (pieces.fact_of style.now kind sym line.old.rest) result }
{
    let fact = match kind {
        PieceWord::Is => Fact::Is(sym, line.rest.item()?.kind()?),
        PieceWord::Int => Fact::Int(sym, line.rest.item()?.integer()?),
        PieceWord::Text => Fact::Text(sym, line.rest.item()?.hex(line.alloc)?),
        PieceWord::Call => Fact::Call(sym, line.rest.item()?.name(style.names())?),
        PieceWord::Block => Fact::Block(sym, line.rest.item()?.block_number(style)?),
        PieceWord::Blank => Fact::Blank(sym),
        PieceWord::Nonblank => Fact::Nonblank(sym),
        _ => Fact::Wellformed(sym),
    };
    line.rest.end()?;
    Ok(fact)
}
