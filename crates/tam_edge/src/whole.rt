// A whole file, and a whole text.
ghost use Rattle.std.specs.Prelude.{◌≡◌, ◌≢◌, ◌≤◌, List, ℕ, length, IfOk, OnOk, OnErr};
ghost use Rattle.std.specs.Io.KnownBytes.{Appends};
ghost use Rattle.tam_edge.specs.Faults.{CountsReadWhole, CountsEndWhole, CountsPut};
ghost use Rattle.tam_edge.specs.declared.whole.ReadError.TheVariants.{NoMemory as Wants_memory};
ghost use Rattle.tam_edge.specs.Whole.{read_error_of, GivesAll, LeavesSuffix, TellsTooLong, AppendsPrefix};

use crate::{Failed, FileError, Files, Sink};
use std::alloc::{AllocError, Global};
use thiserror::Error;

/// Why a file was not read whole.
#[derive(Clone, Copy, Debug, PartialEq, Eq, Error)]
pub enum ReadError {
    #[error("Fault")]
    Fault,
    #[error("TooLong")]
    TooLong,
    #[error("NoMemory")]
    NoMemory,
}

impl From<FileError> for ReadError {
    ghost from_gives = { λ from error. error ≡ read_error_of from };

    fn from(error: FileError) -> ReadError {
        match error {
            FileError::Failed => ReadError::Fault,
            FileError::NoMemory => ReadError::NoMemory,
        }
    }
}

impl From<AllocError> for ReadError {
    ghost from_gives = { λ _ error. error ≡ Wants_memory };

    fn from(error: AllocError) -> ReadError {
        ReadError::from(FileError::from(error))
    }
}

const PIECE: usize = 4096;

/// Reads all that is left of a name, which may be at most `limit` bytes.
///
/// After a refusal the bytes that were given are gone: what is left is a suffix of what was left before.
pub fn read_whole<F: Files>(
    alloc: Global,
    files: &mut F,
    name: &str,
    limit: u32,
) -> Result<Vec<u8>, ReadError>
    ensures bound { IfOk result (λ bytes. length bytes.items ≤ limit) }
    ensures all { IfOk result (λ bytes. GivesAll (F.left files.old name.now) (F.left files.new name.now) bytes.items) }

    // Told bytes are too long exactly where they are more than the limit. A fault is told by the name's count.
    // The end is given once where the file was read whole, and never where it wasn't: nothing is read behind it.
    ensures too_long { TellsTooLong (F.left files.old name.now) limit result }
    ensures counted { CountsReadWhole (F.faults files.old name.now) (F.faults files.new name.now) result }
    ensures ended { CountsEndWhole (F.ends files.old) (F.ends files.new) result }
    ensures err { OnErr result (LeavesSuffix (F.left files.old name.now) (F.left files.new name.now) limit) }

    // No other name changes.
    ensures other_left { (other : List ℕ) → other ≢ name.now → F.left files.new other ≡ F.left files.old other }
    ensures other_faults { (other : List ℕ) → other ≢ name.now → F.faults files.new other ≡ F.faults files.old other }
{
    let limit = limit as usize;
    let mut bytes = Vec::new(alloc);
    let mut buffer = [0u8; PIECE];
    'pieces: while bytes.len() <= limit {
        let room = (limit + 1 - bytes.len()).min(PIECE);
        let piece = &mut buffer[..room];
        let count = files.read(name, piece)?;
        if count == 0 {
            return Ok(bytes);
        }
        bytes.extend_from_slice(&buffer[..count])?;
    }
    Err(ReadError::TooLong)
}

/// Writes all the bytes, or a prefix of them before a fault. It takes no memory.
pub fn write_whole<K: Sink>(out: &mut K, bytes: &[u8]) -> Result<(), Failed>
    ensures ok { OnOk result (Appends (K.taken out.old) (K.taken out.new) bytes.now) }
    ensures err { OnErr result (AppendsPrefix (K.taken out.old) (K.taken out.new) bytes.now) }
    ensures counted { CountsPut (K.faults out.old) (K.faults out.new) result }
{
    let mut rest = bytes;
    'pieces: while !rest.is_empty() {
        let count = out.put(rest)?;
        let (_, after) = rest.split_at(count);
        rest = after;
    }
    Ok(())
}
