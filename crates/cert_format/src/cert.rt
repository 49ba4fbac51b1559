//! Certificates.

use bst_meaning::condition::Cond;
use bst_meaning::value::Target;
use bv_base::seq::Seq;
use name_table::names::NameId;
use sym_state::hint::Hint;
use sym_state::piece::Piece;

/// What a body does, wherever it is entered.
#[derive(Debug, Drop)]
pub struct Summary {
    /// What is entered.
    pub body: Target,
    /// Whether it is entered at an entry alone.
    pub entry: bool,
    /// Whether the stack of its pre is the whole stack.
    pub whole: bool,
    /// The variables that it may write, upwards by id.
    pub writes: Seq<NameId>,
    /// What holds where it is entered.
    pub pre: Piece,
    /// What may hold after it. Their symbols go on from those of the pre.
    pub posts: Seq<Piece>,
    /// What is taken where it is checked.
    pub hints: Seq<Hint>,
}

/// What holds around the two functions of a `while$`.
#[derive(Debug, Drop)]
pub struct Loop {
    pub test: Target,
    pub body: Target,
    /// Whether it is entered at an entry alone.
    pub entry: bool,
    /// Whether the stacks of its cases are the whole stack.
    pub whole: bool,
    /// The variables that it may write, upwards by id.
    pub writes: Seq<NameId>,
    /// What may hold before each turn: at least one.
    pub cases: Seq<Piece>,
    /// What may hold after it.
    pub exits: Seq<Piece>,
    /// What is taken where it is checked.
    pub hints: Seq<Hint>,
}

/// What belongs to one command of the style.
#[derive(Debug, Drop)]
pub struct CommandPart {
    /// The command, by its number in `Style::commands`.
    pub index: u32,
    /// What holds of globals after it.
    pub after: Option<Piece>,
    /// What holds of globals before each visit.
    pub visit: Option<Piece>,
    /// What holds of each entry after its visit.
    pub keeps: Option<Piece>,
    /// What is taken where it is walked.
    pub hints: Seq<Hint>,
}

/// A certificate.
#[derive(Debug, Drop)]
pub struct Cert {
    /// The list of errors that the style meets none of, by its number.
    pub list: u32,
    /// What is asked of the entries.
    pub cond: Cond,
    pub summaries: Seq<Summary>,
    pub loops: Seq<Loop>,
    /// Upwards by their numbers.
    pub commands: Seq<CommandPart>,
}
