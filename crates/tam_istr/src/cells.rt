// Arrays of cells.
ghost use Rattle.std.specs.Prelude.{◌≡◌, ◌<◌, [], length, replicate, IfOk, OnOk, OnErr};
ghost use Rattle.tam_istr.specs.Cells.{Empty, cells_used, with_array, fetched_from, stored_into};
ghost use Rattle.tam_istr.specs.CellAnswers.{reader_pair, cells_of, arrays_of, AreShort, FetchAnswer, StoreAnswer};

use crate::cell::Cell;
use crate::{FetchError, Reader, StoreError};
use std::alloc::{AllocError, Global};
use std::marker::Model;
use std::mem;

/// What a fetch gives: the cell's word, or the promise that the reader waits for it.
#[derive(Clone, Copy, Debug, PartialEq, Eq)]
pub enum Fetched {
    Now(u32),
    Deferred,
}

/// Arrays, numbered from 0 in the order in which they were made, whose cells are written at most once. How many cells there may be is for
/// the caller to say.
#[derive(Drop)]
pub struct Cells {
    alloc: Global,
    arrays: Vec<Vec<Cell>>,
    used: u64,
}

impl Model for Cells {
    ghost use Rattle.tam_istr.specs.Cells.{Arrays};
    ghost use Rattle.tam_istr.specs.CellAnswers.{IsCounted, arrays_of};

    ghost Value = { Arrays };

    ghost view = { λ c. arrays_of c.arrays.items };

    ghost invariant = { λ c. IsCounted (arrays_of c.arrays.items) c.used };
}

impl Cells {
    /// No arrays. Takes no memory.
    pub fn new(alloc: Global) -> Cells
        ensures empty { result ≡ [] }
    {
        Cells {
            alloc,
            arrays: Vec::new(alloc),
            used: 0,
        }
    }

    /// How many cells are in use.
    pub fn used(&self) -> u64
        ensures value { result ≡ cells_used self.now }
    {
        self.used
    }

    /// Makes an array of empty cells, and gives its number.
    pub fn alloc_cells(&mut self, len: u32) -> Result<u32, AllocError>
        requires few { length self.old < 4294967295 }
        ensures number { IfOk result (λ number. number ≡ length self.old) }
        ensures ok { OnOk result (self.new ≡ with_array self.old len) }
        ensures err { OnErr result (self.new ≡ self.old) }
    {
        let number = self.arrays.len() as u32;
        let cells = empty_cells(self.alloc, len)?;
        self.arrays.push(cells)?;
        self.used += u64::from(len);
        Ok(number)
    }

    /// Reads a cell. Where it is empty, the reader waits from now on, behind those who wait already.
    pub fn fetch(&mut self, array: u32, index: u32, reader: Reader) -> Result<Fetched, FetchError>
        ensures answer { FetchAnswer (fetched_from self.old array index (reader_pair reader)) self.old self.new result }
        ensures count { length self.new ≡ length self.old }
        ensures used { cells_used self.new ≡ cells_used self.old }
    {
        fetch_cell(&mut self.arrays, array, index, reader)
    }

    /// Writes a cell, and gives those who waited for its word, the first to come first. Takes no memory.
    pub fn store(
        &mut self,
        array: u32,
        index: u32,
        word: u32,
        site: u32,
    ) -> Result<Vec<Reader>, StoreError>
        ensures answer { StoreAnswer (stored_into self.old array index word site) self.old self.new result }
        ensures count { length self.new ≡ length self.old }
        ensures used { cells_used self.new ≡ cells_used self.old }
    {
        store_cell(&mut self.arrays, array, index, word, site)
    }
}

// So many empty cells.
fn empty_cells(alloc: Global, len: u32) -> Result<Vec<Cell>, AllocError>
    ensures value { IfOk result (λ cells. cells_of cells.items ≡ replicate len (Empty [])) }
{
    let mut cells = Vec::with_capacity(alloc, len as usize)?;
    for _ in 0..len {
        cells.push(Cell::Empty {
            readers: Vec::new(alloc),
        })?;
    }
    Ok(cells)
}

// Reads a cell of one of the arrays.
fn fetch_cell(
    arrays: &mut [Vec<Cell>],
    array: u32,
    index: u32,
    reader: Reader,
) -> Result<Fetched, FetchError>
    requires short { AreShort (arrays_of arrays.old) }
    ensures answer { FetchAnswer (fetched_from (arrays_of arrays.old) array index (reader_pair reader)) (arrays_of arrays.old) (arrays_of arrays.new) result }
    ensures sizes { cells_used (arrays_of arrays.new) ≡ cells_used (arrays_of arrays.old) }
    ensures short { AreShort (arrays_of arrays.new) }
{
    if array as usize >= arrays.len() {
        return Err(FetchError::NoArray);
    }
    let cells = &mut arrays[array as usize];
    if index as usize >= cells.len() {
        return Err(FetchError::OutOfRange {
            len: cells.len() as u32,
        });
    }
    let cell = &mut cells[index as usize];
    match cell {
        Cell::Filled { word, .. } => Ok(Fetched::Now(*word)),
        Cell::Empty { readers } => {
            readers.push(reader)?;
            Ok(Fetched::Deferred)
        }
    }
}

// Writes a cell of one of the arrays.
fn store_cell(
    arrays: &mut [Vec<Cell>],
    array: u32,
    index: u32,
    word: u32,
    site: u32,
) -> Result<Vec<Reader>, StoreError>
    requires short { AreShort (arrays_of arrays.old) }
    ensures answer { StoreAnswer (stored_into (arrays_of arrays.old) array index word site) (arrays_of arrays.old) (arrays_of arrays.new) result }
    ensures sizes { cells_used (arrays_of arrays.new) ≡ cells_used (arrays_of arrays.old) }
    ensures short { AreShort (arrays_of arrays.new) }
{
    if array as usize >= arrays.len() {
        return Err(StoreError::NoArray);
    }
    let cells = &mut arrays[array as usize];
    if index as usize >= cells.len() {
        return Err(StoreError::OutOfRange {
            len: cells.len() as u32,
        });
    }
    let cell = &mut cells[index as usize];
    if let Cell::Filled { site: first, .. } = cell {
        return Err(StoreError::Twice { first: *first });
    }
    match mem::replace(cell, Cell::Filled { word, site }) {
        Cell::Empty { readers } => Ok(readers),
        Cell::Filled { .. } => unreachable!(),
    }
}
