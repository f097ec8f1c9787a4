// A code with tables of its interfaces.
ghost use Rattle.std.specs.Prelude.{◌≡◌, IfOk};
ghost use Rattle.tam_check.specs.Interfaces.{has_place, all_agree};
ghost use Rattle.tam_check.specs.Tables.{size_of, AreTables};

use crate::interface::Interface;
use crate::sizes::sizes;
use crate::table::{Table, interface_count};
use std::alloc::{AllocError, Global};
use tam_graph::Code;

/// A code, and what its nodes hand over at each place of each interface.
#[derive(Debug, Drop)]
pub struct CodeTables<'c> {
    pub code: &'c Code,
    table: Table,
    sizes: Vec<u32>,
    ghost tables: { AreTables code.now table.rows.items table.seen.items sizes.items },
}

impl<'c> CodeTables<'c> {
    pub fn of(alloc: Global, code: &'c Code) -> Result<CodeTables<'c>, AllocError>
        ensures code { IfOk result (λ tables. tables.code.now ≡ code.now) }
    {
        let interfaces = interface_count(code);
        let table = Table::full(alloc, code, interfaces)?;
        let sizes = sizes(alloc, code, interfaces)?;
        Ok(CodeTables { code, table, sizes })
    }

    /// Whether a node has this place of the interface.
    pub fn has_place(&self, interface: Interface, place: u32) -> bool
        ensures value { result ≡ has_place self.now.code.now interface place }
    {
        self.table.look(interface, place).is_something()
    }

    /// Whether all that is handed over at this place of the interface has this depth.
    pub fn all_agree(&self, interface: Interface, place: u32, depth: u8) -> bool
        ensures value { result ≡ all_agree self.now.code.now interface place depth }
    {
        self.table.look(interface, place).is_only(depth)
    }

    /// How many nodes belong to the interface.
    pub fn size(&self, interface: Interface) -> u32
        ensures value { result ≡ size_of self.now.code.now interface }
    {
        match self.sizes.get(interface.number()) {
            Some(size) => *size,
            None => 0,
        }
    }
}
