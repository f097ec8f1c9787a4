// How the program ends.
ghost use Rattle.std.specs.Prelude.{◌≡◌};
ghost use Rattle.tam_input.specs.Endings.{code_of};

/// How the program ends.
///
/// docs/FORMATS.md, "Command line".
#[derive(Clone, Copy, Debug, PartialEq, Eq)]
pub enum Ending {
    Done,
    Refused,
    Usage,
    ReadFault,
    ResultsMissing,
    DoubleWrite,
    OutOfRange,
    FramesFull,
    CellsFull,
    BudgetSpent,
    WriteFault,
    NoMemory,
    /// Given code went wild, or a trap ended it.
    Broken,
    /// The system doesn't give the words as text.
    NoWords,
}

impl Ending {
    /// The exit code.
    pub fn code(self) -> u8
        ensures value { result ≡ code_of self }
    {
        match self {
            Ending::Done => 0,
            Ending::Refused => 1,
            Ending::Usage => 2,
            Ending::ReadFault => 3,
            Ending::ResultsMissing => 4,
            Ending::DoubleWrite => 5,
            Ending::OutOfRange => 6,
            Ending::FramesFull => 7,
            Ending::CellsFull => 8,
            Ending::BudgetSpent => 9,
            Ending::WriteFault => 10,
            Ending::NoMemory => 11,
            Ending::Broken => 12,
            Ending::NoWords => 13,
        }
    }
}
