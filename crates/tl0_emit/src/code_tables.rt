// The tables of a code.
ghost use Rattle.std.specs.Prelude.{◌≡◌, ◌+◌, ◌<◌, ◌≤◌, true, map, length, IfOk};
ghost use Rattle.tam_graph.specs.Graphs.{code_of, kind_at, is_inlet};
ghost use Rattle.tam_graph.specs.Accepted.{IsAccepted};
ghost use Rattle.tam_split.specs.Blocks.{block_graph, places};
ghost use Rattle.tam_split.specs.Partitions.{class_of};
ghost use Rattle.tam_split.specs.PartitionLaws.{IsPartition};
ghost use Rattle.tl0_keep.specs.Compiled.{slot_of, slots_of, inlet_of, inlet_nodes, parts_at, thread_of_inlet, then_connector};
ghost use Rattle.tl0_emit.specs.CodeParts.{its_code, ArePartsOf, IsCodeOf};
ghost use Rattle.tl0_emit.specs.BlockTables.{first_thread};

use crate::code_blocks::CodeBlocks;
use crate::inlet_threads::inlet_threads_of;
use crate::node_tables::{choosing_nodes_of, inlet_nodes_of, numbered, slots_of};
use std::alloc::Global;
use std::marker::Model;
use tam_edge::NoMemory;
use tam_graph::{Accepted, Code, Graph, Kind};
use tam_split::{BlockGraph, Parts};
use tam_world::Program;
use tam_world::nodes::kind_at;

/// A code of an accepted graph with the partition of each of its blocks, and the numbers that its instructions name.
#[derive(Drop)]
pub struct CodeTables<'a> {
    program: &'a Program<'a>,
    /// The number of the code.
    number: u32,
    blocks: CodeBlocks<'a>,
    /// The slot of each node, and behind them how many slots there are.
    slots: Vec<u32>,
    /// The nodes of the inlets.
    inlet_nodes: Vec<u32>,
    /// The number of the inlet of each node.
    inlets: Vec<u32>,
    /// The number of each node among those that choose.
    choices: Vec<u32>,
    /// The thread of the inlet of each node that has its value from outside.
    inlet_threads: Vec<u32>,
}

impl<'a> Model for CodeTables<'a> {
    ghost use Rattle.tl0_emit.specs.CodeParts.{CodeParts};

    ghost Value = { CodeParts };

    ghost use Rattle.tl0_emit.specs.Tables.{code_tabled, AreTablesOf};

    ghost view = { code_tabled };

    // The tables are those of the code.
    ghost invariant = { AreTablesOf };
}

impl<'a> CodeTables<'a> {
    /// The tables of a code, given the graph with its tables and a partition of each block.
    pub fn of(
        alloc: Global,
        g: &'a Accepted,
        program: &'a Program<'a>,
        code: u32,
        parts: &'a [Parts],
    ) -> Result<CodeTables<'a>, NoMemory>
        requires same { program.now ≡ g.now }
        requires in_range { code < length g.now.codes }
        requires whole { ArePartsOf (code_of g.now code) parts.now }
        ensures value { IfOk result (λ tables. tables ≡ record { graph = g.now; code = code; parts = parts.now }) }
    {
        let own = g.graph().code(code);
        let blocks = CodeBlocks::of(alloc, g, code, parts)?;
        let slots = slots_of(alloc, own)?;
        let inlet_nodes = inlet_nodes_of(alloc, program, code)?;
        let inlets = numbered(alloc, &inlet_nodes, own.nodes().len())?;
        let choosing = choosing_nodes_of(alloc, own)?;
        let choices = numbered(alloc, &choosing, own.nodes().len())?;
        let inlet_threads = inlet_threads_of(alloc, &blocks)?;
        Ok(CodeTables {
            program,
            number: code,
            blocks,
            slots,
            inlet_nodes,
            inlets,
            choices,
            inlet_threads,
        })
    }

    /// The graph of which it is a code.
    pub fn graph(&self) -> &Graph
        ensures value { result.now ≡ self.now.graph }
        ensures code { IsCodeOf self.now }
    {
        self.program.graph()
    }

    /// The number of the code.
    pub fn number(&self) -> u32
        ensures value { result ≡ self.now.code }
        ensures code { IsCodeOf self.now }
    {
        self.number
    }

    /// The code itself.
    pub fn code(&self) -> &Code
        ensures value { result.now ≡ its_code self.now }
        ensures code { IsCodeOf self.now }
    {
        self.blocks.code()
    }

    /// What a node does.
    pub fn kind(&self, node: u32) -> Kind
        ensures value { result ≡ kind_at (its_code self.now) node }
        ensures code { IsCodeOf self.now }
    {
        kind_at(self.graph(), self.number(), node)
    }

    /// How many blocks it has.
    pub fn blocks(&self) -> u32
        ensures value { result ≡ length (its_code self.now).owners }
        ensures few { result ≤ 2049 }
        ensures code { IsCodeOf self.now }
    {
        self.code().owners().len() as u32
    }

    /// The partition of a block.
    pub fn parts(&self, block: u32) -> &Parts
        requires in_range { block < length (its_code self.now).owners }
        ensures value { result.now ≡ parts_at self.now.parts block }
        ensures whole { IsPartition (block_graph (its_code self.now) block) result.now }
        ensures code { IsCodeOf self.now }
    {
        self.blocks.parts(block)
    }

    /// The graph of a block.
    pub fn block(&self, block: u32) -> &BlockGraph
        requires in_range { block < length (its_code self.now).owners }
        ensures value { result.now ≡ block_graph (its_code self.now) block }
    {
        self.blocks.graph(block)
    }

    /// The number of the class of each place of a block.
    pub fn class_numbers(&self, block: u32) -> &[u32]
        requires in_range { block < length (its_code self.now).owners }
        ensures value { result.now ≡ map (class_of (parts_at self.now.parts block)) (places (block_graph (its_code self.now) block)) }
    {
        self.blocks.numbers(block)
    }

    /// The first thread of a block.
    pub fn first_thread(&self, block: u32) -> u32
        requires in_range { block < length (its_code self.now).owners }
        ensures value { result ≡ first_thread self.now.parts block }
        ensures few { result + length (parts_at self.now.parts block) ≤ 1025 }
    {
        self.blocks.first_thread(block)
    }

    /// How many slots it has.
    pub fn slots(&self) -> u32
        ensures value { result ≡ slots_of (its_code self.now) }
    {
        self.slots[self.slots.len() - 1]
    }

    /// The slot of a node.
    pub fn slot(&self, node: u32) -> u32
        requires in_range { node < length (its_code self.now).nodes }
        ensures value { result ≡ slot_of (its_code self.now) node }
    {
        self.slots[node as usize]
    }

    /// The number of the inlet of a node; how many inlets there are, where it has none.
    pub fn inlet(&self, node: u32) -> u32
        requires in_range { node < length (its_code self.now).nodes }
        ensures value { result ≡ inlet_of self.now.graph (its_code self.now) node }
    {
        self.inlets[node as usize]
    }

    /// The thread of the inlet of a node that has its value from outside.
    pub fn inlet_thread(&self, node: u32) -> u32
        requires in_range { node < length (its_code self.now).nodes }
        requires inlet { is_inlet (kind_at (its_code self.now) node) ≡ true }
        ensures value { result ≡ thread_of_inlet (its_code self.now) self.now.parts node }
    {
        self.inlet_threads[node as usize]
    }

    /// The connector of a cond or a switch that takes over where the word isn't 0; the other comes behind it.
    pub fn then_connector(&self, node: u32) -> u32
        requires in_range { node < length (its_code self.now).nodes }
        ensures value { result ≡ then_connector (its_code self.now) self.now.parts node }
        ensures few { result ≤ 4096 }
    {
        self.blocks.first_connector() + 2 * self.choices[node as usize]
    }

    // The graph with its tables.
    pub(crate) fn program(&self) -> &Program<'_>
        ensures value { result.now ≡ self.now.graph }
    {
        self.program
    }

    // The nodes of the inlets.
    pub(crate) fn inlet_nodes(&self) -> &[u32]
        ensures value { result.now ≡ inlet_nodes self.now.graph (its_code self.now) }
        ensures code { IsCodeOf self.now }
    {
        &self.inlet_nodes
    }
}
