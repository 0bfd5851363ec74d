ghost use Rattle.std.specs.Prelude.{◌≡◌};
ghost use Rattle.hhbbc_top.specs.Answer as answer;

/// How a call of the program ended.
#[derive(Clone, Copy, Debug, PartialEq, Eq)]
pub enum Status {
    /// All was done.
    Done,
    /// A run ended with an exception that nothing caught.
    Uncaught,
    /// A run reached its bound of steps.
    StepsSpent,
    /// A run met an assertion that doesn't hold.
    AssertFalse,
    /// The words name no command.
    Usage,
    /// The text is none of the grammar.
    BadText,
    /// A check of linking fails.
    BadLink,
    /// A check of shapes fails.
    BadShape,
    /// The text has more bytes than the command takes.
    TooLong,
    /// There was no memory.
    NoMemory,
    /// The command does no more with the text's repository yet.
    NotYet,
    /// A read failed.
    ReadFault,
    /// A write failed.
    WriteFault,
}

impl Status {
    /// The number that the process ends with.
    pub fn number(&self) -> u8
        ensures { result ≡ answer.number_of self.now }
    {
        match self {
            Status::Done => 0,
            Status::Uncaught => 1,
            Status::StepsSpent => 3,
            Status::AssertFalse => 4,
            Status::Usage => 64,
            Status::BadText => 65,
            Status::BadLink => 66,
            Status::BadShape => 67,
            Status::TooLong => 69,
            Status::NoMemory => 70,
            Status::NotYet => 72,
            Status::ReadFault => 74,
            Status::WriteFault => 75,
        }
    }
}

/// The line to standard error of a status whose line is always the same. A run, and a fault of a text, have lines of
/// their own.
pub fn line_of(status: Status) -> &'static [u8]
    ensures { result.now ≡ answer.line_of status }
{
    match status {
        Status::Done
        | Status::Uncaught
        | Status::StepsSpent
        | Status::AssertFalse
        | Status::BadText
        | Status::BadLink
        | Status::BadShape
        | Status::WriteFault => b"",
        Status::Usage => b"usage\n",
        Status::TooLong => b"too long\n",
        Status::NoMemory => b"no memory\n",
        Status::NotYet => b"not yet\n",
        Status::ReadFault => b"read fault\n",
    }
}
