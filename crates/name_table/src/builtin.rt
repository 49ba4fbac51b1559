//! The functions that every style has.

/// The 37 built-in functions, in the order of their ids.
#[derive(Clone, Copy, Debug, PartialEq, Eq)]
pub enum Builtin {
    /// `=`
    Equal,
    /// `>`
    Greater,
    /// `<`
    Less,
    /// `+`
    Plus,
    /// `-`
    Minus,
    /// `*`
    Join,
    /// `:=`
    Assign,
    /// `add.period$`
    AddPeriod,
    /// `call.type$`
    CallType,
    /// `change.case$`
    ChangeCase,
    /// `chr.to.int$`
    ChrToInt,
    /// `cite$`
    Cite,
    /// `duplicate$`
    Duplicate,
    /// `empty$`
    Empty,
    /// `format.name$`
    FormatName,
    /// `if$`
    IfElse,
    /// `int.to.chr$`
    IntToChr,
    /// `int.to.str$`
    IntToStr,
    /// `missing$`
    Missing,
    /// `newline$`
    Newline,
    /// `num.names$`
    NumNames,
    /// `pop$`
    Pop,
    /// `preamble$`
    Preamble,
    /// `purify$`
    Purify,
    /// `quote$`
    Quote,
    /// `skip$`
    Skip,
    /// `stack$`
    Stack,
    /// `substring$`
    Substring,
    /// `swap$`
    Swap,
    /// `text.length$`
    TextLength,
    /// `text.prefix$`
    TextPrefix,
    /// `top$`
    Top,
    /// `type$`
    TypeName,
    /// `warning$`
    Warning,
    /// `while$`
    WhileDo,
    /// `width$`
    Width,
    /// `write$`
    Write,
}
