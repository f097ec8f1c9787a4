// The files of the system. What they hold is not told.
ghost use Rattle.std.specs.Prelude.{◌≡◌, ◌≢◌, ◌≤◌, List, ℕ, length, None, IfOk};
ghost use Rattle.tam_edge.specs.Faults.{CountsRead, CountsEnd, CountsFault};
ghost use Rattle.tam_edge.specs.Reading.{KeepsPiece};
ghost use Rattle.tam_edge.specs.Entries.{pairs_by, value_of, NoneNamed, IsFirstNamed};
ghost use Rattle.tam_edge.specs.HostFiles.{faults_of};

use crate::calls::{count_end, next_count};
use crate::entries::position_of;
use crate::{FileError, Files};
use std::alloc::Global;
use std::io::{ErrorKind, Read};
use std::marker::Model;
use std::{fs, rt};

// A name that was read: its open file, where it could be opened, and its count of faults.
#[derive(Drop)]
struct Opened<O: Drop> {
    file: Option<O>,
    faults: u64,
}

impl<O: Read + Drop> Opened<O> {
    // Notes a fault.
    fn fail(&mut self) -> FileError
        ensures failed { result ≡ FileError.Failed }
        ensures counted { CountsFault self.old.faults self.new.faults }
    {
        self.faults = next_count(self.faults);
        FileError::Failed
    }

    // The next bytes of the open file.
    fn read(&mut self, piece: &mut [u8]) -> Result<usize, FileError>
        ensures room { IfOk result (λ n. n ≤ length piece.new) }
        ensures counted { CountsRead self.old.faults self.new.faults result }
        ensures no_memory { KeepsPiece piece.old piece.new result }
    {
        match &mut self.file {
            Some(file) => match file.read(piece) {
                Ok(count) => Ok(count),
                Err(_) => Err(self.fail()),
            },
            None => Err(self.fail()),
        }
    }
}

// Opens the file, where it is not open yet.
fn open<R: rt::Files>(rt: &R, opened: &mut Opened<R::File>, name: &str) -> Result<(), FileError>
    ensures counted { CountsRead opened.old.faults opened.new.faults result }
{
    if opened.file.is_some() {
        return Ok(());
    }
    match fs::open(rt, name) {
        Ok(file) => {
            opened.file = Some(file);
            Ok(())
        }
        Err(error) if matches!(error.kind(), ErrorKind::OutOfMemory) => Err(FileError::NoMemory),
        Err(_) => Err(opened.fail()),
    }
}

// Opens the file, where it is not open yet, and gives its next bytes.
fn read_opened<R: rt::Files>(
    rt: &R,
    opened: &mut Opened<R::File>,
    name: &str,
    piece: &mut [u8],
) -> Result<usize, FileError>
    ensures room { IfOk result (λ n. n ≤ length piece.new) }
    ensures counted { CountsRead opened.old.faults opened.new.faults result }
    ensures no_memory { KeepsPiece piece.old piece.new result }
{
    open(rt, opened, name)?;
    opened.read(piece)
}

// The next bytes of the file whose name stands at that place.
fn read_at<R: rt::Files>(
    rt: &R,
    opened: &mut [(String, Opened<R::File>)],
    name: &str,
    i: usize,
    piece: &mut [u8],
) -> Result<usize, FileError>
    requires named { IsFirstNamed opened.old name.now i }
    ensures room { IfOk result (λ n. n ≤ length piece.new) }
    ensures counted { CountsRead (faults_of opened.old name.now) (faults_of opened.new name.now) result }
    ensures no_memory { KeepsPiece piece.old piece.new result }
    ensures others { (other : List ℕ) → other ≢ name.now → faults_of opened.new other ≡ faults_of opened.old other }
{
    let entry = &mut opened[i];
    read_opened(rt, &mut entry.1, name, piece)
}

// The place of a name, which gets an entry where it has none.
fn place_of<O: Drop>(
    alloc: Global,
    opened: &mut Vec<(String, Opened<O>)>,
    name: &str,
) -> Result<usize, FileError>
    ensures found { IfOk result (IsFirstNamed opened.new.items name.now) }
    ensures kept { (other : List ℕ) → faults_of opened.new.items other ≡ faults_of opened.old.items other }
    ensures no_memory { result ≢ Err FileError.Failed }
{
    match position_of(opened, name) {
        Some(i) => Ok(i),
        None => add(alloc, opened, name),
    }
}

// A new entry, behind all others.
fn add<O: Drop>(
    alloc: Global,
    opened: &mut Vec<(String, Opened<O>)>,
    name: &str,
) -> Result<usize, FileError>
    requires unnamed { NoneNamed opened.old.items name.now }
    ensures found { IfOk result (IsFirstNamed opened.new.items name.now) }
    ensures kept { (other : List ℕ) → faults_of opened.new.items other ≡ faults_of opened.old.items other }
    ensures no_memory { result ≢ Err FileError.Failed }
{
    let place = opened.len();
    let name = String::from_str(alloc, name)?;
    let closed = Opened {
        file: None,
        faults: 0,
    };
    opened.push((name, closed))?;
    Ok(place)
}

/// The files of the system, seen as the names that were read, each with its count of faults, and how often an end was given.
///
/// A file is opened at the first read of its name, and read on from there.
#[derive(Drop)]
pub struct HostFiles<R: rt::Files + Clone + Drop> {
    rt: R,
    alloc: Global,
    opened: Vec<(String, Opened<R::File>)>,
    ends: u64,
}

impl<R: rt::Files + Clone + Drop> Model for HostFiles<R> {
    ghost Value = { List (List ℕ × ℕ) × ℕ };

    ghost view = { λ files. (pairs_by (λ o. o.faults) files.opened.items, files.ends) };
}

impl<R: rt::Files + Clone + Drop> HostFiles<R> {
    /// No file is open yet. What a name holds is never told.
    pub fn new(rt: R, alloc: Global) -> HostFiles<R>
        ensures untold { (name : List ℕ) → ⟦<HostFiles<R> as Files>⟧.left result name ≡ None }
        ensures faultless { (name : List ℕ) → ⟦<HostFiles<R> as Files>⟧.faults result name ≡ 0 }
        ensures endless { ⟦<HostFiles<R> as Files>⟧.ends result ≡ 0 }
    {
        HostFiles {
            rt,
            alloc,
            opened: Vec::new(alloc),
            ends: 0,
        }
    }
}

impl<R: rt::Files + Clone + Drop> Files for HostFiles<R> {
    ghost left = { λ files name. None };

    ghost faults = { λ files name. value_of 0 files.0 name };

    ghost ends = { λ files. files.1 };

    fn read(&mut self, name: &str, piece: &mut [u8]) -> Result<usize, FileError> {
        let i = place_of(self.alloc, &mut self.opened, name)?;
        let given = read_at(&self.rt, &mut self.opened, name, i, piece);
        self.ends = count_end(self.ends, given);
        given
    }
}
