//! The answers of the program as numbers.

ghost use Rattle.std.specs.Prelude.{◌≡◌};
ghost use Rattle.bv_base.specs.Status.{number_of};

/// What a call of the program answers. Its number is the exit status.
#[derive(Clone, Copy, Debug, PartialEq, Eq)]
pub enum Status {
    /// The outputs are written whole.
    Done = 0,
    /// The certificate isn't accepted.
    Refused = 1,
    /// The words have none of the forms.
    Usage = 2,
    /// A file isn't there.
    NoFile = 3,
    /// A file couldn't be begun or read.
    ReadFailed = 4,
    /// An output couldn't be written.
    WriteFailed = 5,
    /// Want of memory.
    NoMemory = 6,
    /// The style's bytes aren't a style.
    BadStyle = 7,
    /// The bytes of the certificate or the condition aren't in their grammar.
    BadCert = 8,
    /// The bytes of an `.aux` or `.bib` file aren't in their grammar.
    BadData = 9,
    /// The first steps of the run end in an execution error.
    Fault = 10,
    /// The first steps of the run neither end nor fault.
    Budget = 11,
    /// A file has more bytes than its limit.
    TooLong = 12,
    /// No certificate is shown.
    Unknown = 13,
}

impl Status {
    /// The exit status.
    pub fn number(self) -> u8
        ensures { result ≡ number_of self }
    {
        self as u8
    }
}
