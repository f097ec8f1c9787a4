// A list of cells that is known by its root, its last cell and its length.
ghost use Rattle.std.specs.Prelude.{◌≡◌, ◌+◌, ◌^◌, ◌<◌, ◌∷◌, ◌++◌, [], length, drop, slice_get};
ghost use Rattle.linked_cells.specs.Lists.{from, IsApart, StaysApart, StaysApartFromBoth};
ghost use Rattle.linked_cells.specs.Cells.{linked};
ghost use Rattle.linked_cells.specs.Lines.{IsLine, KeepsWords, items_of, numbers_of, is_empty_line, without_first};

use crate::CellTable;

/// The cells behind a root, the first to go first. It doesn't own them: each call is given their table.
#[derive(Drop)]
pub struct Line {
    root: usize,
    /// The root where no cell is behind it.
    last: usize,
    count: u32,
}

impl Line {
    /// No cell is behind the root.
    #[inline]
    pub fn new(root: usize) -> Line
        ensures root { result.root ≡ root }
        ensures last { result.last ≡ root }
        ensures count { result.count ≡ 0 }
    {
        Line {
            root,
            last: root,
            count: 0,
        }
    }

    /// No cell is in it.
    #[inline]
    pub fn is_empty(&self) -> bool
        ensures value { result ≡ is_empty_line self.now }
    {
        self.count == 0
    }

    /// The cell is the last one.
    #[inline]
    pub fn push_back(&mut self, table: &mut CellTable, i: usize)
        requires line { IsLine table.old.cells self.old (items_of table.old.cells self.old) }
        requires there { i < length table.old.cells }
        requires apart { IsApart i (from table.old.cells self.old.root self.old.count) }
        requires few { self.old.count + 1 < 2 ^ 32 }
        ensures root { self.new.root ≡ self.old.root }
        ensures line { IsLine table.new.cells self.new (items_of table.old.cells self.old ++ i ∷ []) }
        ensures cells { table.new ≡ record table.old { cells = linked table.old.cells self.old.last i } }
        ensures words { KeepsWords table.old table.new }
        ensures kept { StaysApartFromBoth table.old.cells table.new.cells self.old.last i }
    {
        table.link(self.last, i);
        self.last = i;
        self.count += 1;
    }

    /// The cell is the first one.
    #[inline]
    pub fn push_front(&mut self, table: &mut CellTable, i: usize)
        requires line { IsLine table.old.cells self.old (items_of table.old.cells self.old) }
        requires there { i < length table.old.cells }
        requires apart { IsApart i (from table.old.cells self.old.root self.old.count) }
        requires few { self.old.count + 1 < 2 ^ 32 }
        ensures root { self.new.root ≡ self.old.root }
        ensures line { IsLine table.new.cells self.new (i ∷ items_of table.old.cells self.old) }
        ensures cells { table.new ≡ record table.old { cells = linked table.old.cells self.old.root i } }
        ensures words { KeepsWords table.old table.new }
        ensures kept { StaysApartFromBoth table.old.cells table.new.cells self.old.root i }
    {
        table.link(self.root, i);
        if self.count == 0 {
            self.last = i;
        }
        self.count += 1;
    }

    /// Takes the first cell out, and gives its second word.
    #[inline]
    pub fn pop_front(&mut self, table: &mut CellTable) -> Option<u32>
        requires line { IsLine table.old.cells self.old (items_of table.old.cells self.old) }
        ensures value { result ≡ slice_get (numbers_of table.old.cells self.old) 0 }
        ensures root { self.new.root ≡ self.old.root }
        ensures line { IsLine table.new.cells self.new (drop 1 (items_of table.old.cells self.old)) }
        ensures cells { table.new ≡ record table.old { cells = without_first table.old.cells self.old } }
        ensures words { KeepsWords table.old table.new }
        ensures kept { StaysApart table.old.cells table.new.cells self.old.root }
    {
        if self.count == 0 {
            return None;
        }
        let number = table.unlink(self.root);
        self.count -= 1;
        if self.count == 0 {
            self.last = self.root;
        }
        Some(number)
    }
}
