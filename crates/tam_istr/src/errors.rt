// Why arrays and their cells refuse.
ghost use Rattle.std.specs.Prelude.{◌≡◌};
ghost use Rattle.tam_istr.specs.declared.errors.FetchError.TheVariants.{NoMemory as Wants_memory};

use std::alloc::AllocFailed;

/// Why a cell was not read.
#[derive(Clone, Copy, Debug, PartialEq, Eq)]
pub enum FetchError {
    NoArray,
    OutOfRange { len: u32 },
    NoMemory,
}

impl<T: Drop> From<AllocFailed<T>> for FetchError {
    ghost from_gives = { λ _ error. error ≡ Wants_memory };

    fn from(_failed: AllocFailed<T>) -> FetchError {
        FetchError::NoMemory
    }
}

/// Why a cell was not written.
#[derive(Clone, Copy, Debug, PartialEq, Eq)]
pub enum StoreError {
    NoArray,
    OutOfRange { len: u32 },
    /// The cell has a word already, from this site.
    Twice { first: u32 },
}
