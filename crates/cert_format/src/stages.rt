//! Which lines may come next, by what has been read, and the words with which lines begin.

use bst_meaning::value::Target;

/// The line of a certificate that comes next.
#[derive(Clone, Copy, Debug, PartialEq, Eq)]
pub(crate) enum CertStage {
    Header,
    /// A line of the condition.
    Cond,
    /// The first line of a unit, or `done`.
    Units,
    /// A line of a unit.
    InUnit,
    Done,
}

/// The line of a condition that comes next.
#[derive(Clone, Copy, Debug, PartialEq, Eq)]
pub(crate) enum CondStage {
    Entries,
    Key,
    Preamble,
    Length,
    /// A line on names, or one that stands after those.
    Names,
    /// A `nonblank` line, or one that stands after those.
    Nonblank,
    /// A `type` line, or one that stands after those.
    Types,
    End,
    /// None.
    Done,
}

/// What the first line of a unit says.
#[derive(Clone, Copy, Debug, PartialEq, Eq)]
pub(crate) enum UnitKind {
    Summary(Target),
    Loop(Target, Target),
    Command(u32),
}

/// The line of a unit that comes next: one of this kind or a later one.
#[derive(Clone, Copy, Debug, PartialEq, Eq)]
pub(crate) enum UnitStage {
    Entry,
    Whole,
    Writes,
    Pieces,
    Hints,
    Done,
}

/// The word before a piece.
#[derive(Clone, Copy, Debug, PartialEq, Eq)]
pub(crate) enum Mark {
    Pre,
    Post,
    Case,
    Exit,
    After,
    Visit,
    Keeps,
}

/// The line of a piece that comes next: one of this kind or a later one.
#[derive(Clone, Copy, Debug, PartialEq, Eq)]
pub(crate) enum PieceStage {
    Stack,
    Vars,
    Fields,
    Facts,
    Rows,
}

/// The word with which a line of a piece begins.
#[derive(Clone, Copy, Debug, PartialEq, Eq)]
pub(crate) enum PieceWord {
    Stack,
    Var,
    Field,
    Is,
    Int,
    Text,
    Call,
    Block,
    Blank,
    Nonblank,
    Wellformed,
    Row,
}
