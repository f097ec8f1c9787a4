// Where a program reads from: files by name.
ghost use Rattle.std.specs.Prelude.{◌≡◌, ◌≢◌, ◌<◌, ◌≤◌, List, ℕ, length, take, Option, IfOk, OnErr};
ghost use Rattle.std.specs.Io.KnownBytes.{Consumes};
ghost use Rattle.tam_edge.specs.declared.files.FileError.TheVariants.{NoMemory as Wants_memory};
ghost use Rattle.tam_edge.specs.Faults.{CountsRead, CountsEnd};
ghost use Rattle.tam_edge.specs.Reading.{GivesNoneAtEnd, KeepsPiece};

use crate::NoMemory;
use std::alloc::{AllocError, AllocFailed};
use thiserror::Error;

/// Why a read gave nothing.
#[derive(Clone, Copy, Debug, PartialEq, Eq, Error)]
pub enum FileError {
    #[error("Failed")]
    Failed,
    #[error("NoMemory")]
    NoMemory,
}

impl From<NoMemory> for FileError {
    ghost from_gives = { λ _ error. error ≡ Wants_memory };

    fn from(_error: NoMemory) -> FileError {
        FileError::NoMemory
    }
}

impl From<AllocError> for FileError {
    ghost from_gives = { λ _ error. error ≡ Wants_memory };

    fn from(error: AllocError) -> FileError {
        FileError::from(NoMemory::from(error))
    }
}

impl<T: Drop> From<AllocFailed<T>> for FileError {
    ghost from_gives = { λ _ error. error ≡ Wants_memory };

    fn from(failed: AllocFailed<T>) -> FileError {
        FileError::from(NoMemory::from(failed))
    }
}

/// Files by name. Each name has the bytes that are left of it, where they are told, and a count of faults; over all names the ends that
/// were given are counted.
pub trait Files {
    /// The bytes that are left of a name, where the files tell them.
    ghost left: { Self → List ℕ → Option (List ℕ) };

    /// How often a read of the name has failed.
    ghost faults: { Self → List ℕ → ℕ };

    /// How often a read has given the end of its name.
    ghost ends: { Self → ℕ };

    /// Gives the next bytes of the name, at most as many as the piece holds, and 0 exactly at the end. A missing file is a fault.
    fn read(&mut self, name: &str, piece: &mut [u8]) -> Result<usize, FileError>
        requires some { 0 < length piece.old }
        ensures room { IfOk result (λ n. n ≤ length piece.new) }
        ensures given { IfOk result (λ n. Consumes (left self.old name.now) (left self.new name.now) (take n piece.new)) }
        ensures end { IfOk result (λ n. GivesNoneAtEnd n (left self.old name.now)) }

        // A fault is told by the name's count. Want of memory changes nothing at all.
        ensures counted { CountsRead (faults self.old name.now) (faults self.new name.now) result }
        ensures err { OnErr result (left self.new name.now ≡ left self.old name.now) }
        ensures no_memory { KeepsPiece piece.old piece.new result }

        // An end that is given is counted, so no name can be read behind its end unseen.
        ensures ended { CountsEnd (ends self.old) (ends self.new) result }

        // No other name changes.
        ensures other_left { (other : List ℕ) → other ≢ name.now → left self.new other ≡ left self.old other }
        ensures other_faults { (other : List ℕ) → other ≢ name.now → faults self.new other ≡ faults self.old other };
}
