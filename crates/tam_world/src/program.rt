// A graph with its tables.
ghost use Rattle.std.specs.Prelude.{◌≡◌, ◌≤◌, length, IfOk};
ghost use Rattle.tam_graph.specs.Graphs.{code_of};
ghost use Rattle.tam_world.specs.Takers.{takers_of, firers_in, inlets_in, starters_of};
ghost use Rattle.tam_world.specs.Sought.{inlets_of};
ghost use Rattle.tam_world.specs.Needs.{AreNeedsOf};
ghost use Rattle.tam_world.specs.Tables.{AreTables, takers_kept};

use crate::Need;
use crate::table::{Table, list_at};
use std::alloc::{AllocError, Global};
use std::marker::Model;
use tam_graph::Graph;

/// A graph, and for each of its codes the vertices that an event may make ready.
#[derive(Drop)]
pub struct Program<'g> {
    graph: &'g Graph,
    tables: Vec<Table>,
}

impl<'g> Model for Program<'g> {
    ghost use Rattle.tam_graph.specs.Graphs.{Graph as GraphRecord};
    ghost use Rattle.tam_world.specs.Tables.{AreTables};

    ghost Value = { GraphRecord };

    ghost view = { λ p. p.graph.now };

    ghost invariant = { λ p. AreTables p.graph.now p.tables.items };
}

impl<'g> Program<'g> {
    /// The graph with its tables.
    pub fn new(alloc: Global, graph: &'g Graph) -> Result<Program<'g>, AllocError>
        ensures value { IfOk result (λ program. program ≡ graph.now) }
    {
        let tables = tables_of(alloc, graph)?;
        Ok(Program { graph, tables })
    }

    /// The graph itself.
    pub fn graph(&self) -> &Graph
        ensures value { result.now ≡ self.now }
    {
        self.graph
    }

    /// The nodes that fire and take a node's word.
    pub fn takers(&self, code: u32, node: u32) -> &[u32]
        ensures value { result.now ≡ takers_of (code_of self.now code) node }
    {
        match self.tables.get(code as usize) {
            Some(table) => list_at(&table.takers, node),
            None => &[],
        }
    }

    /// The nodes of a block that fire.
    pub fn firers(&self, code: u32, block: u32) -> &[u32]
        ensures value { result.now ≡ firers_in (code_of self.now code) block }
    {
        match self.tables.get(code as usize) {
            Some(table) => list_at(&table.firers, block),
            None => &[],
        }
    }

    /// The nodes of a block whose values come from outside it.
    pub fn block_inlets(&self, code: u32, block: u32) -> &[u32]
        ensures value { result.now ≡ inlets_in (code_of self.now code) block }
        ensures few { length (code_of self.now code).nodes ≤ 1024 }
    {
        match self.tables.get(code as usize) {
            Some(table) => list_at(&table.block_inlets, block),
            None => &[],
        }
    }

    /// The nodes under a number, of those that are looked for by what they do.
    pub(crate) fn inlets(&self, code: u32, key: u32) -> &[u32]
        ensures value { result.now ≡ inlets_of (code_of self.now code) key }
    {
        match self.tables.get(code as usize) {
            Some(table) => list_at(&table.inlets, key),
            None => &[],
        }
    }

    /// The nodes that may fire as soon as an activation begins.
    pub fn starters(&self, code: u32) -> &[u32]
        ensures value { result.now ≡ starters_of (code_of self.now code) }
    {
        match self.tables.get(code as usize) {
            Some(table) => &table.starters,
            None => &[],
        }
    }

    /// For each node of a code what it waits for before it may fire; those past the end never do.
    pub fn needs(&self, code: u32) -> &[Need]
        ensures value { AreNeedsOf (code_of self.now code) result.now }
    {
        match self.tables.get(code as usize) {
            Some(table) => &table.needs,
            None => &[],
        }
    }
}

// The table of each code.
fn tables_of(alloc: Global, graph: &Graph) -> Result<Vec<Table>, AllocError>
    ensures value { IfOk result (λ tables. AreTables graph.now tables.items) }
{
    let mut tables = Vec::new(alloc);
    for code in 0..graph.codes() {
        let table = Table::of(alloc, graph, code)?;
        tables.push(table)?;
    }
    Ok(tables)
}
