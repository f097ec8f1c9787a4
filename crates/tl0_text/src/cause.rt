// Why a text of thread code is refused.
use std::alloc::{AllocError, AllocFailed};

/// What is wrong with a line, in the order in which the causes of one line come.
///
/// docs/THREADS.md, "Thread code as text".
#[derive(Clone, Copy, Debug, PartialEq, Eq)]
pub enum Cause0 {
    /// One of the first two lines isn't the stated one.
    BadHead,
    /// A line that may not stand there, with another number of tokens, with an empty token, or without its LF.
    BadLine,
    BadNumber,
    /// More than 1,026 slots, 1,024 inlets or 3,073 threads of a code.
    TooMany,
    /// Another line is needed, behind the last.
    Ended,
}

/// Why a text was refused. A line counts from 1.
#[derive(Clone, Copy, Debug, PartialEq, Eq)]
pub enum Refused0 {
    At { line: u32, cause: Cause0 },
    NoMemory,
}

impl From<AllocError> for Refused0 {
    ghost use Rattle.std.specs.Prelude.{◌≡◌};
    ghost use Rattle.tl0_text.specs.declared.cause.Refused0.TheVariants.{NoMemory};

    ghost from_gives = { λ _ e. e ≡ NoMemory };

    fn from(_e: AllocError) -> Refused0 {
        Refused0::NoMemory
    }
}

impl<T: Drop> From<AllocFailed<T>> for Refused0 {
    ghost use Rattle.std.specs.Prelude.{◌≡◌};
    ghost use Rattle.tl0_text.specs.declared.cause.Refused0.TheVariants.{NoMemory};

    ghost from_gives = { λ _ e. e ≡ NoMemory };

    fn from(_e: AllocFailed<T>) -> Refused0 {
        Refused0::NoMemory
    }
}
