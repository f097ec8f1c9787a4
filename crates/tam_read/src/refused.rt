//! Why nothing was read.
use crate::cause::ReadCause;
use std::alloc::{AllocError, AllocFailed};

/// Why a text wasn't read: what is wrong with it, and the line, counted from 1; or there was no memory.
#[derive(Clone, Copy, Debug, PartialEq, Eq)]
pub enum Refused {
    At { line: u32, cause: ReadCause },
    NoMemory,
}

impl From<AllocError> for Refused {
    ghost use Rattle.std.specs.Prelude.{◌≡◌};
    ghost use Rattle.tam_read.specs.declared.refused.Refused.TheVariants.{NoMemory};

    ghost from_gives = { λ _ e. e ≡ NoMemory };

    fn from(_e: AllocError) -> Refused {
        Refused::NoMemory
    }
}

impl<T: Drop> From<AllocFailed<T>> for Refused {
    ghost use Rattle.std.specs.Prelude.{◌≡◌};
    ghost use Rattle.tam_read.specs.declared.refused.Refused.TheVariants.{NoMemory};

    ghost from_gives = { λ _ e. e ≡ NoMemory };

    fn from(_e: AllocFailed<T>) -> Refused {
        Refused::NoMemory
    }
}
