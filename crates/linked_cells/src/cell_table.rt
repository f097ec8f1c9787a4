// Cells of two words and a raw link, in one block.
ghost use Rattle.std.specs.Prelude.{◌≡◌, ◌<◌, ◌≤◌, [], length, IfOk};
ghost use Rattle.linked_cells.specs.Addresses.{index_at, IsAddress, IsFilled};
ghost use Rattle.linked_cells.specs.Cells.{cell_at, with_words, with_cell, with_put, linked, unlinked, with_address};
ghost use Rattle.linked_cells.specs.Lists.{IsPushed, IsAppended, IsPopped, StaysApart, StaysApartFromBoth};
ghost use Rattle.linked_cells.specs.contracts.cell_table.Cell.{the_row as cell_row};

use crate::memory::{Address, Deed, Memory, allocate, deallocate};
use std::alloc::{AllocError, Global};
use std::marker::Model;
use tam_edge::NoMemory;

/// The largest number of cells that a block can have.
const MAX_CELLS: usize = 0x07ff_ffff_ffff_ffff;

/// Two words, and the address of another cell.
#[derive(Clone, Copy)]
pub struct Cell {
    first: u32,
    second: u32,
    link: *mut Cell,
}

/// Cells by their numbers, with room for those that may come yet. All the memory that they need is taken when the table is made.
pub struct CellTable {
    base: Address<Cell>,
    memory: Memory<Cell>,
    deed: Deed<Cell, Global>,
    alloc: Global,
    room: usize,
    count: usize,
}

impl Model for CellTable {
    ghost use Rattle.std.specs.Prelude.{◌≡◌, length};
    ghost use Rattle.linked_cells.specs.Cells.{CellRow, cells_of, AreLinked};

    ghost Value = { CellRow };

    ghost view = { λ t. record { cells = cells_of t.base.ptr t.count t.memory.places; room = t.room } };

    ghost invariant = { λ t. (t.memory.at ≡ t.base.ptr) × (t.deed.at ≡ t.base.ptr) × (t.deed.len ≡ t.room) × (t.deed.alloc ≡ t.alloc)
        × (length t.memory.places ≡ t.room) × AreLinked t.base.ptr t.count t.memory.places };
}

impl Drop for CellTable {
    fn drop(self) {
        let CellTable {
            base,
            memory,
            deed,
            alloc,
            room,
            count: _,
        } = self;
        deallocate(&alloc, base, room, memory, deed);
    }
}

impl CellTable {
    /// Room for so many cells, and none of them yet.
    pub fn new(alloc: Global, room: usize) -> Result<CellTable, NoMemory>
        ensures value { IfOk result (λ table. table ≡ record { cells = []; room = room }) }
    {
        if room > MAX_CELLS {
            return Err(NoMemory);
        }
        let (base, memory, deed) = allocate(&alloc, room)?;
        Ok(CellTable {
            base,
            memory,
            deed,
            alloc,
            room,
            count: 0,
        })
    }

    /// How many cells there are.
    pub fn count(&self) -> usize
        ensures value { result ≡ length self.now.cells }
    {
        self.count
    }

    /// For how many cells there is room.
    pub fn room(&self) -> usize
        ensures value { result ≡ self.now.room }
    {
        self.room
    }

    /// The words of the cell.
    pub fn words(&self, i: usize) -> (u32, u32)
        requires there { i < length self.now.cells }
        ensures first { result.0 ≡ (cell_at self.now.cells i).first }
        ensures second { result.1 ≡ (cell_at self.now.cells i).second }
    {
        let cell = self.memory.read(self.memory.nth(self.base, i));
        (cell.first, cell.second)
    }

    /// The cell has these words. Where it leads to stays.
    pub fn set_words(&mut self, i: usize, first: u32, second: u32)
        requires there { i < length self.old.cells }
        ensures value { self.new ≡ record self.old { cells = with_words self.old.cells i first second } }
    {
        let address = self.memory.nth(self.base, i);
        let link = self.memory.read(address).link;
        self.memory.write(
            address,
            Cell {
                first,
                second,
                link,
            },
        );
    }

    /// A cell more, which leads to itself.
    pub fn add(&mut self, first: u32, second: u32)
        requires room { length self.old.cells < self.old.room }
        ensures value { self.new ≡ record self.old { cells = with_cell self.old.cells first second } }
    {
        let address = self.memory.nth(self.base, self.count);
        self.memory.write(
            address,
            Cell {
                first,
                second,
                link: address.ptr,
            },
        );
        self.count += 1;
    }

    /// The cell has these words, or is added with them where it is the next one.
    pub fn put(&mut self, i: usize, first: u32, second: u32)
        requires there { i ≤ length self.old.cells }
        requires room { i < self.old.room }
        ensures value { self.new ≡ record self.old { cells = with_put self.old.cells i first second } }
    {
        if i < self.count() {
            self.set_words(i, first, second);
        } else {
            self.add(first, second);
        }
    }

    /// Cell `i` stands behind the cell `at`, before those that stood there.
    pub fn link(&mut self, at: usize, i: usize)
        requires at_there { at < length self.old.cells }
        requires there { i < length self.old.cells }
        ensures value { self.new ≡ record self.old { cells = linked self.old.cells at i } }
        ensures pushed { IsPushed self.old.cells self.new.cells at i }
        ensures appended { IsAppended self.old.cells self.new.cells at i }
        ensures kept { StaysApartFromBoth self.old.cells self.new.cells at i }
    {
        let own = self.memory.nth(self.base, i);
        let head = self.memory.nth(self.base, at);
        let link = self.memory.read(head).link;
        relink(&mut self.memory, own, link);
        relink(&mut self.memory, head, own.ptr);
    }

    /// Takes out the cell behind the cell `at`, and gives its second word.
    pub fn unlink(&mut self, at: usize) -> u32
        requires there { at < length self.old.cells }
        ensures second { result ≡ (cell_at self.old.cells (cell_at self.old.cells at).link).second }
        ensures value { self.new ≡ record self.old { cells = unlinked self.old.cells at } }
        ensures popped { IsPopped self.old.cells self.new.cells at }
        ensures kept { StaysApart self.old.cells self.new.cells at }
    {
        let head = self.memory.nth(self.base, at);
        let next = Address {
            ptr: self.memory.read(head).link,
        };
        let Cell { second, link, .. } = *self.memory.read(next);
        relink(&mut self.memory, head, link);
        second
    }
}

// The cell's link is that address.
fn relink(memory: &mut Memory<Cell>, address: Address<Cell>, link: *mut Cell)
    requires there { IsAddress cell_row memory.old.at address.ptr × IsFilled memory.old.places (index_at cell_row memory.old.at address.ptr) }
    ensures at { memory.new.at ≡ memory.old.at }
    ensures value { memory.new.places ≡ with_address memory.old.places (index_at cell_row memory.old.at address.ptr) link }
{
    let cell = memory.read(address);
    let (first, second) = (cell.first, cell.second);
    memory.write(
        address,
        Cell {
            first,
            second,
            link,
        },
    );
}
