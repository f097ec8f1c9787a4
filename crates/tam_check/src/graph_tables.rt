// A graph with a table of the params and the results of each code.
ghost use Rattle.std.specs.Prelude.{◌≡◌, ◌<◌, length, IfOk};
ghost use Rattle.tam_graph.specs.Graphs.{code_of};
ghost use Rattle.tam_check.specs.Interfaces.{has_place, all_agree};
ghost use Rattle.tam_check.specs.Tables.{IsBorder, AreBorders};

use crate::interface::Interface;
use crate::table::Table;
use std::alloc::{AllocError, Global};
use tam_graph::{Code, Graph};

// Params and results are the first two interfaces by their numbers.
const BORDER: usize = 2;

/// A graph, and what its codes take and give.
#[derive(Debug, Drop)]
pub struct GraphTables<'g> {
    pub graph: &'g Graph,
    borders: Vec<Table>,
    ghost tables: { AreBorders graph.now (length graph.now.codes) borders.items },
}

impl<'g> GraphTables<'g> {
    pub fn of(alloc: Global, graph: &'g Graph) -> Result<GraphTables<'g>, AllocError>
        ensures graph { IfOk result (λ tables. tables.graph.now ≡ graph.now) }
    {
        let mut borders = Vec::new(alloc);
        for n in 0..graph.codes() {
            let border = border_of(alloc, graph.code(n))?;
            borders.push(border)?;
        }
        Ok(GraphTables { graph, borders })
    }

    /// What a code takes and gives.
    pub fn border(&self, n: u32) -> Border<'_>
        requires in_range { n < length self.now.graph.now.codes }
        ensures code { result.code.now ≡ code_of self.now.graph.now n }
    {
        Border {
            code: self.graph.code(n),
            table: &self.borders[n as usize],
        }
    }
}

/// A code, and what it takes and gives.
#[derive(Clone, Copy, Debug)]
pub struct Border<'t> {
    pub code: &'t Code,
    table: &'t Table,
    ghost border: { IsBorder code.now table.now.rows.items table.now.seen.items },
}

impl Border<'_> {
    pub fn has_param(&self, place: u32) -> bool
        ensures value { result ≡ has_place self.now.code.now Interface.Params place }
    {
        self.table.look(Interface::Params, place).is_something()
    }

    pub fn has_result(&self, place: u32) -> bool
        ensures value { result ≡ has_place self.now.code.now Interface.Results place }
    {
        self.table.look(Interface::Results, place).is_something()
    }

    /// Whether all params of this place have this depth.
    pub fn params_agree(&self, place: u32, depth: u8) -> bool
        ensures value { result ≡ all_agree self.now.code.now Interface.Params place depth }
    {
        self.table.look(Interface::Params, place).is_only(depth)
    }

    /// Whether the operands of all results of this place have this depth.
    pub fn results_agree(&self, place: u32, depth: u8) -> bool
        ensures value { result ≡ all_agree self.now.code.now Interface.Results place depth }
    {
        self.table.look(Interface::Results, place).is_only(depth)
    }
}

fn border_of(alloc: Global, code: &Code) -> Result<Table, AllocError>
    ensures value { IfOk result (λ border. IsBorder code.now border.rows.items border.seen.items) }
{
    let border = Table::full(alloc, code, BORDER)?;
    Ok(border)
}
