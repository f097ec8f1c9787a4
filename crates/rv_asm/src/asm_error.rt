// Why a text was not assembled.
use std::alloc::{AllocError, AllocFailed};

/// What is wrong with a line of assembly text.
///
/// docs/MACHINE.md, "Assembly text".
#[derive(Clone, Copy, Debug, PartialEq, Eq)]
pub enum AsmCause {
    BadHead,
    BadLine,
    BadNumber,
    Offset,
    TwiceNamed,
    UnknownName,
    Ended,
    TooMany,
}

/// Why a text was not assembled: what is wrong with it, and the line, counted from 1; or there was no memory.
#[derive(Clone, Copy, Debug, PartialEq, Eq)]
pub enum AsmError {
    At { line: u32, cause: AsmCause },
    NoMemory,
}

impl From<AllocError> for AsmError {
    ghost use Rattle.std.specs.Prelude.{◌≡◌};
    ghost use Rattle.rv_asm.specs.declared.asm_error.AsmError.TheVariants.{NoMemory};

    ghost from_gives = { λ _ e. e ≡ NoMemory };

    fn from(_e: AllocError) -> AsmError {
        AsmError::NoMemory
    }
}

impl<T: Drop> From<AllocFailed<T>> for AsmError {
    ghost use Rattle.std.specs.Prelude.{◌≡◌};
    ghost use Rattle.rv_asm.specs.declared.asm_error.AsmError.TheVariants.{NoMemory};

    ghost from_gives = { λ _ e. e ≡ NoMemory };

    fn from(_e: AllocFailed<T>) -> AsmError {
        AsmError::NoMemory
    }
}
