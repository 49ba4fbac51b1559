//! The execution errors of the machine.

ghost use Rattle.std.specs.Prelude.{◌≡◌};
ghost use Rattle.bst_meaning.specs.Faults.{name_of};

/// An execution error: the first list of errors, which certificates of the first version name.
#[derive(Clone, Copy, Debug, PartialEq, Eq)]
pub enum Fault {
    /// An operand isn't there.
    EmptyPop,
    /// An operand is of the wrong kind.
    WrongKind,
    /// `:=` to what isn't a variable.
    NotVariable,
    /// A field, an entry variable or a built-in that needs an entry, and no entry is visited.
    NoEntry,
    /// `change.case$` by what isn't one byte of `tTlLuU`.
    BadCase,
    /// `chr.to.int$` of a string that hasn't one byte.
    NotOneByte,
    /// `int.to.chr$` of a number outside 0 to 127.
    NotAscii,
    /// `format.name$` of a name that isn't there.
    BadNameIndex,
    /// `format.name$` of a name with too many commas, or a comma at its end.
    BadName,
    /// `format.name$` by a pattern that isn't well formed.
    BadPattern,
    /// An integer outside -2147483648 to 2147483647.
    IntRange,
    /// A call of a command ends with values on the literal stack.
    StackLeft,
}

impl Fault {
    /// The name that a last line tells.
    pub fn name(&self) -> &'static str
        ensures { result.now ≡ name_of self.now }
    {
        match self {
            Fault::EmptyPop => "EmptyPop",
            Fault::WrongKind => "WrongKind",
            Fault::NotVariable => "NotVariable",
            Fault::NoEntry => "NoEntry",
            Fault::BadCase => "BadCase",
            Fault::NotOneByte => "NotOneByte",
            Fault::NotAscii => "NotAscii",
            Fault::BadNameIndex => "BadNameIndex",
            Fault::BadName => "BadName",
            Fault::BadPattern => "BadPattern",
            Fault::IntRange => "IntRange",
            Fault::StackLeft => "StackLeft",
        }
    }
}
