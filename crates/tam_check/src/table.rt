// A table of what the nodes of a code hand over at each place of each interface.
ghost use Rattle.std.specs.Prelude.{◌≡◌, ◌*◌, ◌+◌, ◌/◌, ◌<◌, ◌&&◌, nat_lt, Some, length, IfOk};
ghost use Rattle.tam_graph.specs.Reading.{IsCode};
ghost use Rattle.tam_check.specs.Tables.{number, entry, row_at, row_entry, IsTable};

use crate::interface::Interface;
use crate::nodes::{block_at, block_count, handed_depth, kind_at, node_count};
use crate::seen::Seen;
use std::alloc::{AllocError, Global};
use tam_graph::Code;

const PLACES: usize = 64;

/// For each interface, by its number, which row is its own, where it has a node; and the rows, each of 64 places.
#[derive(Debug, Drop)]
pub struct Table {
    rows: Vec<Option<usize>>,
    seen: Vec<Seen>,
}

impl Table {
    /// A table of no node, for the first interfaces by their numbers.
    pub fn of(alloc: Global, code: &Code, interfaces: usize) -> Result<Table, AllocError>
        ensures value { IfOk result (λ table. IsTable code.now 0 interfaces table.rows.items table.seen.items) }
    {
        let rows = vec![in alloc; None; interfaces]?;
        let seen = Vec::new(alloc);
        Ok(Table { rows, seen })
    }

    /// A table of all nodes.
    pub fn full(alloc: Global, code: &Code, interfaces: usize) -> Result<Table, AllocError>
        ensures value { IfOk result (λ table. IsTable code.now (length code.now.nodes) interfaces table.rows.items table.seen.items) }
        ensures of_text { IsCode code.now }
    {
        let count = node_count(code);
        let mut table = Table::of(alloc, code, interfaces)?;
        for x in 0..count {
            table.add(code, interfaces, x)?;
        }
        Ok(table)
    }

    /// Adds the next node.
    pub fn add(&mut self, code: &Code, interfaces: usize, x: u32) -> Result<(), AllocError>
        requires before { IsTable code.now x interfaces self.old.rows.items self.old.seen.items }
        ensures after { IfOk result (λ _. IsTable code.now (x + 1) interfaces self.new.rows.items self.new.seen.items) }
    {
        if let Some((interface, place)) = Interface::of(block_at(code, x), kind_at(code, x)) {
            if tells(interfaces, interface, place) {
                let row = self.row(code, interfaces, x, interface.number())?;
                let seen = self
                    .look(interface, place)
                    .with_depth(handed_depth(code, x));
                self.seen[PLACES * row + place as usize] = seen;
            }
        }
        Ok(())
    }

    /// What the table tells of a place.
    pub fn look(&self, interface: Interface, place: u32) -> Seen
        ensures value { result ≡ entry self.now.rows.items self.now.seen.items interface place }
    {
        if place >= 64 {
            return Seen::Nothing;
        }
        match self.row_of(interface.number()) {
            Some(row) => place_in(&self.seen, row, place),
            None => Seen::Nothing,
        }
    }

    // The row of an interface, by its number.
    fn row_of(&self, number: usize) -> Option<usize>
        ensures value { result ≡ row_at self.now.rows.items number }
    {
        match self.rows.get(number) {
            Some(row) => *row,
            None => None,
        }
    }

    // The row of an interface: its own, or a new one.
    fn row(
        &mut self,
        code: &Code,
        interfaces: usize,
        x: u32,
        number: usize,
    ) -> Result<usize, AllocError>
        requires in_range { number < interfaces }
        requires before { IsTable code.now x interfaces self.old.rows.items self.old.seen.items }
        ensures after { IfOk result (λ _. IsTable code.now x interfaces self.new.rows.items self.new.seen.items) }
        ensures value { IfOk result (λ row. row_at self.new.rows.items number ≡ Some row) }
    {
        if let Some(row) = self.row_of(number) {
            return Ok(row);
        }
        let row = row_count(&self.seen);
        self.seen.extend_from_slice(&[Seen::Nothing; PLACES])?;
        self.rows[number] = Some(row);
        Ok(row)
    }
}

// How many rows there are.
fn row_count(seen: &[Seen]) -> usize
    ensures value { result ≡ length seen.now / 64 }
{
    seen.len() / PLACES
}

// What a row tells of a place.
fn place_in(seen: &[Seen], row: usize, place: u32) -> Seen
    ensures value { result ≡ row_entry seen.now (Some row) place }
{
    if row > seen.len() / PLACES {
        return Seen::Nothing;
    }
    match seen[PLACES * row..].get(place as usize) {
        Some(seen) => *seen,
        None => Seen::Nothing,
    }
}

// Whether a table of so many interfaces tells of the place.
fn tells(interfaces: usize, interface: Interface, place: u32) -> bool
    ensures value { result ≡ (nat_lt place 64 && nat_lt (number interface) interfaces) }
{
    place < 64 && interface.number() < interfaces
}

/// How many interfaces a code has room for: eight for each node and each block.
pub fn interface_count(code: &Code) -> usize
    ensures value { result ≡ 8 * (length code.now.nodes + length code.now.owners) }
    ensures of_text { IsCode code.now }
{
    8 * (node_count(code) as usize + block_count(code))
}
