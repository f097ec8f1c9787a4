// Files in memory, of which chosen reads fail.
ghost use Rattle.std.specs.Prelude.{◌≡◌, ◌≢◌, ◌↔◌, ◌<◌, ◌≤◌, ◌⊎◌, min, List, ℕ, [], ◌++◌, length, map, reverse, take};
ghost use Rattle.std.specs.Prelude.{None, Some, IfOk, OnOk, OnErr, IfSome, IfNone, IsTrue};
ghost use Rattle.tam_edge.specs.Faults.{next_count, CountsRead, CountsEnd};
ghost use Rattle.tam_edge.specs.Reading.{KeepsPiece};
ghost use Rattle.tam_edge.specs.Pieces.{at_most};
ghost use Rattle.tam_edge.specs.Entries.{pairs_by, NoneNamed, IsFirstNamed};
ghost use Rattle.tam_edge.specs.Held.{reversed_items, bytes_of, count_of};
ghost use Rattle.tam_edge.specs.MemFiles.{FilesInMemory, bytes_left, fault_count, bytes_held, ReadsMemory};

use crate::calls::{at_most, count_end, is_to_fail, next_count};
use crate::entries::position_of;
use crate::{FileError, Files};
use std::alloc::{AllocError, Global};
use std::marker::Model;

/// Files by name, in memory. The reads with the numbers `fail` fail, counted from 1 over all names together.
/// The others give all that fits, or the stated piece.
///
/// A read that wants memory changes nothing, so the next one has its number.
#[derive(Drop)]
pub struct MemFiles {
    alloc: Global,
    // The bytes of a file stand in reverse, so that the next ones are taken off the end.
    files: Vec<(String, Vec<u8>)>,
    fail: Vec<u32>,
    calls: u64,
    ends: u64,
    faults: Vec<(String, u64)>,
    most: Option<u32>,
}

impl Model for MemFiles {
    ghost Value = { FilesInMemory };

    ghost view = { λ memory. record {
      files = pairs_by reversed_items memory.files.items;
      fail = memory.fail.items;
      calls = memory.calls;
      ends = memory.ends;
      faults = pairs_by (λ count. count) memory.faults.items;
      most = memory.most;
    } };

    ghost invariant = { λ memory. IfSome memory.most (λ most. 0 < most) };
}

impl MemFiles {
    /// The files with these bytes. Of two with one name the first is read.
    pub fn new(alloc: Global, mut files: Vec<(String, Vec<u8>)>, fail: Vec<u32>) -> MemFiles
        ensures held { result.files ≡ pairs_by (λ bytes. bytes.items) files.items }
        ensures fail { result.fail ≡ fail.items }
        ensures uncalled { result.calls ≡ 0 }
        ensures endless { result.ends ≡ 0 }
        ensures whole { result.most ≡ None }
        ensures left { (name : List ℕ) → ⟦<MemFiles as Files>⟧.left result name ≡ Some (bytes_held files.items name) }
        ensures faultless { (name : List ℕ) → ⟦<MemFiles as Files>⟧.faults result name ≡ 0 }
    {
        reverse_all(&mut files);
        MemFiles {
            alloc,
            files,
            fail,
            calls: 0,
            ends: 0,
            faults: Vec::new(alloc),
            most: None,
        }
    }

    /// The same files, of which from now on one read gives at most so many bytes.
    pub fn in_pieces(mut self, most: u32) -> MemFiles
        requires some { 0 < most }
        ensures value { result ≡ record self { most = Some most } }
    {
        self.most = Some(most);
        self
    }
}

impl Files for MemFiles {
    ghost left = { λ memory name. Some (bytes_left memory name) };

    ghost faults = { fault_count };

    ghost ends = { λ memory. memory.ends };

    fn read(&mut self, name: &str, piece: &mut [u8]) -> Result<usize, FileError>
        requires some { 0 < length piece.old }
        ensures room { IfOk result (λ n. n ≤ length piece.new) }
        ensures given { IfOk result (λ n. bytes_left self.old name.now ≡ take n piece.new ++ bytes_left self.new name.now) }
        ensures end { IfOk result (λ n. (n ≡ 0) ↔ (bytes_left self.old name.now ≡ [])) }
        ensures counted { CountsRead (fault_count self.old name.now) (fault_count self.new name.now) result }
        ensures err { OnErr result (bytes_left self.new name.now ≡ bytes_left self.old name.now) }
        ensures no_memory { KeepsPiece piece.old piece.new result }
        ensures ended { CountsEnd self.old.ends self.new.ends result }
        ensures other_left { (other : List ℕ) → other ≢ name.now → bytes_left self.new other ≡ bytes_left self.old other }
        ensures other_faults { (other : List ℕ) → other ≢ name.now → fault_count self.new other ≡ fault_count self.old other }

        // It fails exactly where the call is to fail or the name is not held, and wants memory at a name's first fault alone.
        ensures exact { ReadsMemory self.old self.new name.now (length piece.old) result }
    {
        let call = next_count(self.calls);
        let fails = is_to_fail(&self.fail, call);
        if let Some(count) = give_unless(fails, self.most, &mut self.files, name, piece) {
            self.calls = call;
            self.ends = count_end(self.ends, Ok(count));
            return Ok(count);
        }
        note_fault(self.alloc, &mut self.faults, name)?;
        self.calls = call;
        Err(FileError::Failed)
    }
}

// Puts the bytes of each file in reverse.
fn reverse_all(files: &mut [(String, Vec<u8>)])
    ensures reversed { pairs_by reversed_items files.new ≡ pairs_by (λ bytes. bytes.items) files.old }
{
    for file in files.iter_mut() {
        file.1.reverse();
    }
}

// The next bytes of the first file of that name, if there is one and the call is not to fail.
fn give_unless(
    fails: bool,
    most: Option<u32>,
    files: &mut [(String, Vec<u8>)],
    name: &str,
    piece: &mut [u8],
) -> Option<usize>
    requires some { IfSome most (λ most. 0 < most) }
    ensures fits { IfSome result (λ n. n ≡ at_most most (min (length (bytes_of files.old name.now)) (length piece.old))) }
    ensures given { IfSome result (λ n. bytes_of files.old name.now ≡ take n piece.new ++ bytes_of files.new name.now) }
    ensures others { (other : List ℕ) → other ≢ name.now → bytes_of files.new other ≡ bytes_of files.old other }
    ensures same_names { map (λ file. file.0) files.new ≡ map (λ file. file.0) files.old }
    ensures some { IfSome result (λ n. ¬ IsTrue fails × ¬ NoneNamed files.old name.now) }
    ensures none { IfNone result ((IsTrue fails ⊎ NoneNamed files.old name.now) × (files.new ≡ files.old) × (piece.new ≡ piece.old)) }
{
    if fails {
        None
    } else {
        give(most, files, name, piece)
    }
}

// The next bytes of the first file of that name, if there is one.
fn give(
    most: Option<u32>,
    files: &mut [(String, Vec<u8>)],
    name: &str,
    piece: &mut [u8],
) -> Option<usize>
    requires some { IfSome most (λ most. 0 < most) }
    ensures fits { IfSome result (λ n. n ≡ at_most most (min (length (bytes_of files.old name.now)) (length piece.old))) }
    ensures given { IfSome result (λ n. bytes_of files.old name.now ≡ take n piece.new ++ bytes_of files.new name.now) }
    ensures others { (other : List ℕ) → other ≢ name.now → bytes_of files.new other ≡ bytes_of files.old other }
    ensures same_names { map (λ file. file.0) files.new ≡ map (λ file. file.0) files.old }
    ensures some { IfSome result (λ n. ¬ NoneNamed files.old name.now) }
    ensures none { IfNone result (NoneNamed files.old name.now × (files.new ≡ files.old) × (piece.new ≡ piece.old)) }
{
    match position_of(files, name) {
        Some(i) => {
            let file = &mut files[i];
            Some(take_next(most, &mut file.1, piece))
        }
        None => None,
    }
}

// Takes the next bytes off the end, as many as fit, or at most the bound.
fn take_next(most: Option<u32>, bytes: &mut Vec<u8>, piece: &mut [u8]) -> usize
    requires some { IfSome most (λ most. 0 < most) }
    ensures fits { result ≡ at_most most (min (length bytes.old.items) (length piece.old)) }
    ensures given { reverse bytes.old.items ≡ take result piece.new ++ reverse bytes.new.items }
{
    let count = at_most(most, bytes.len().min(piece.len()));
    let rest = bytes.len() - count;
    let given = &mut piece[..count];
    given.copy_from_slice(&bytes[rest..]);
    given.reverse();
    bytes.truncate(rest);
    count
}

// Raises the count of faults of the name at that place.
fn raise(faults: &mut [(String, u64)], name: &str, i: usize)
    requires named { IsFirstNamed faults.old name.now i }
    ensures counted { count_of faults.new name.now ≡ next_count (count_of faults.old name.now) }
    ensures later { count_of faults.old name.now ≤ count_of faults.new name.now }
    ensures others { (other : List ℕ) → other ≢ name.now → count_of faults.new other ≡ count_of faults.old other }
{
    let fault = &mut faults[i];
    fault.1 = next_count(fault.1);
}

// Notes a fault of a name, the first in a new entry.
fn note_fault(alloc: Global, faults: &mut Vec<(String, u64)>, name: &str) -> Result<(), AllocError>
    ensures counted { OnOk result (count_of faults.new.items name.now ≡ next_count (count_of faults.old.items name.now)) }
    ensures later { OnOk result (count_of faults.old.items name.now ≤ count_of faults.new.items name.now) }
    ensures others { (other : List ℕ) → other ≢ name.now → count_of faults.new.items other ≡ count_of faults.old.items other }
    ensures err { OnErr result ((faults.new.items ≡ faults.old.items) × NoneNamed faults.old.items name.now) }
{
    match position_of(faults, name) {
        Some(i) => raise(faults, name, i),
        None => faults.push((String::from_str(alloc, name)?, 1))?,
    }
    Ok(())
}
