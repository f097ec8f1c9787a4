// The tables of the blocks of a code.
ghost use Rattle.std.specs.Prelude.{ℕ, suc, ◌≡◌, ◌<◌, ◌≤◌, ◌+◌, map, length, sum_by, IfOk};
ghost use Rattle.tam_word.specs.Lists.{below};
ghost use Rattle.tam_graph.specs.Graphs.{code_of, blocks_of};
ghost use Rattle.tam_split.specs.Blocks.{block_graph, places};
ghost use Rattle.tam_split.specs.Partitions.{class_of};
ghost use Rattle.tam_split.specs.PartitionLaws.{IsPartition};
ghost use Rattle.tam_world.specs.Tables.{listed};
ghost use Rattle.tl0_keep.specs.Compiled.{parts_at, number_of_classes};
ghost use Rattle.tl0_emit.specs.CodeParts.{ArePartsOf, AreKept};
ghost use Rattle.tl0_emit.specs.BlockTables.{first_thread, graph_in};

use std::alloc::Global;
use std::marker::Model;
use tam_edge::NoMemory;
use tam_graph::{Accepted, Code};
use tam_order::class_numbers;
use tam_split::{BlockGraph, Parts, split};

/// A code with the partition of each of its blocks, and for each block its graph, the number of the class of each place and the first thread.
#[derive(Drop)]
pub(crate) struct CodeBlocks<'a> {
    code: &'a Code,
    parts: &'a [Parts],
    graphs: Vec<BlockGraph>,
    numbers: Vec<Vec<u32>>,
    /// The first thread of each block, and behind them the first connector.
    starts: Vec<u32>,
}

impl<'a> Model for CodeBlocks<'a> {
    ghost use Rattle.tl0_emit.specs.CodeParts.{PartedCode};

    ghost Value = { PartedCode };

    ghost use Rattle.tl0_emit.specs.BlockTables.{code_parted, AreBlocksOf};

    ghost view = { code_parted };

    // The tables are those of the code's blocks.
    ghost invariant = { AreBlocksOf };
}

impl<'a> CodeBlocks<'a> {
    /// The tables of the blocks of a code, given a partition of each.
    pub(crate) fn of(
        alloc: Global,
        g: &'a Accepted,
        code: u32,
        parts: &'a [Parts],
    ) -> Result<CodeBlocks<'a>, NoMemory>
        requires in_range { code < length g.now.codes }
        requires whole { ArePartsOf (code_of g.now code) parts.now }
        ensures value { IfOk result (λ blocks. blocks ≡ record { code = code_of g.now code; parts = parts.now }) }
        ensures kept { IfOk result (λ _. AreKept parts.now) }
    {
        let own = g.graph().code(code);
        let graphs = graphs_of(alloc, g, code)?;
        let numbers = class_numbers_of(alloc, &graphs, parts)?;
        let starts = first_threads(alloc, &graphs, parts)?;
        Ok(CodeBlocks {
            code: own,
            parts,
            graphs,
            numbers,
            starts,
        })
    }

    /// The code.
    pub(crate) fn code(&self) -> &Code
        ensures value { result.now ≡ self.now.code }
    {
        self.code
    }

    /// The partition of a block.
    pub(crate) fn parts(&self, block: u32) -> &Parts
        requires in_range { block < length self.now.code.owners }
        ensures value { result.now ≡ parts_at self.now.parts block }
        ensures whole { IsPartition (block_graph self.now.code block) (parts_at self.now.parts block) }
    {
        &self.parts[block as usize]
    }

    /// The graph of a block.
    pub(crate) fn graph(&self, block: u32) -> &BlockGraph
        requires in_range { block < length self.now.code.owners }
        ensures value { result.now ≡ block_graph self.now.code block }
    {
        &self.graphs[block as usize]
    }

    /// The number of the class of each place of a block.
    pub(crate) fn numbers(&self, block: u32) -> &[u32]
        requires in_range { block < length self.now.code.owners }
        ensures value { result.now ≡ map (class_of (parts_at self.now.parts block)) (places (block_graph self.now.code block)) }
        ensures whole { IsPartition (block_graph self.now.code block) (parts_at self.now.parts block) }
    {
        &self.numbers[block as usize]
    }

    /// The first thread of a block.
    pub(crate) fn first_thread(&self, block: u32) -> u32
        requires in_range { block < length self.now.code.owners }
        ensures value { result ≡ first_thread self.now.parts block }
        ensures few { result + length (parts_at self.now.parts block) ≤ 1025 }
    {
        self.starts[block as usize]
    }

    /// The first connector.
    pub(crate) fn first_connector(&self) -> u32
        ensures value { result ≡ 1 + number_of_classes self.now.parts }
        ensures few { result ≤ 1025 }
    {
        self.starts[self.starts.len() - 1]
    }
}

// The graph of each block.
fn graphs_of(alloc: Global, g: &Accepted, code: u32) -> Result<Vec<BlockGraph>, NoMemory>
    requires in_range { code < length g.now.codes }
    ensures value { IfOk result (λ graphs. graphs.items ≡ map (block_graph (code_of g.now code)) (blocks_of (code_of g.now code))) }
{
    let mut graphs = Vec::new(alloc);
    for block in 0..g.graph().code(code).owners().len() {
        graphs.push(split(alloc, g, code, block as u32)?)?;
    }
    Ok(graphs)
}

// For each block the number of the class of each place.
fn class_numbers_of(
    alloc: Global,
    graphs: &[BlockGraph],
    parts: &[Parts],
) -> Result<Vec<Vec<u32>>, NoMemory>
    requires each { length parts.now ≡ length graphs.now }
    requires whole { (b : ℕ) → b < length graphs.now → IsPartition (graph_in graphs.now b) (parts_at parts.now b) }
    ensures each { IfOk result (λ numbers. length numbers.items ≡ length graphs.now) }
    ensures value { IfOk result (λ numbers. (b : ℕ) → b < length graphs.now → listed numbers.items b ≡ map (class_of (parts_at parts.now b))
        (places (graph_in graphs.now b))) }
{
    let mut numbers = Vec::new(alloc);
    for block in 0..graphs.len() {
        numbers.push(class_numbers(alloc, &graphs[block], &parts[block])?)?;
    }
    Ok(numbers)
}

// The first thread of each block, and behind them the first connector.
fn first_threads(
    alloc: Global,
    graphs: &[BlockGraph],
    parts: &[Parts],
) -> Result<Vec<u32>, NoMemory>
    requires each { length parts.now ≡ length graphs.now }
    requires whole { (b : ℕ) → b < length graphs.now → IsPartition (graph_in graphs.now b) (parts_at parts.now b) }
    requires few { sum_by (λ b. length b.vertices) graphs.now ≤ 1024 }
    ensures value { IfOk result (λ starts. starts.items ≡ map (first_thread parts.now) (below (suc (length parts.now)))) }
    ensures few { IfOk result (λ _. (b : ℕ) → b ≤ length parts.now → first_thread parts.now b ≤ 1025) }
    ensures kept { IfOk result (λ _. AreKept parts.now) }
{
    let mut starts = Vec::new(alloc);
    let mut next = 1;
    for block in 0..graphs.len() {
        starts.push(next)?;
        next += parts[block].classes();
    }
    starts.push(next)?;
    Ok(starts)
}
