// What broke the writing of a text off.
ghost use Rattle.std.specs.Prelude.{◌≡◌};
ghost use Rattle.tam_run.specs.declared.broken.Broken.TheVariants.{NoMemory as Wants_memory, WriteFault as Fails};

use std::alloc::{AllocError, AllocFailed};
use tam_edge::Failed;

/// What broke the writing of a text off.
#[derive(Clone, Copy, Debug, PartialEq, Eq)]
pub enum Broken {
    NoMemory,
    WriteFault,
}

impl From<AllocError> for Broken {
    ghost from_gives = { λ _ error. error ≡ Wants_memory };

    fn from(_error: AllocError) -> Broken {
        Broken::NoMemory
    }
}

impl<T: Drop> From<AllocFailed<T>> for Broken {
    ghost from_gives = { λ _ error. error ≡ Wants_memory };

    fn from(_failed: AllocFailed<T>) -> Broken {
        Broken::NoMemory
    }
}

impl From<Failed> for Broken {
    ghost from_gives = { λ _ error. error ≡ Fails };

    fn from(_failed: Failed) -> Broken {
        Broken::WriteFault
    }
}
