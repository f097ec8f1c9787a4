// A block as a graph of vertices.
ghost use Rattle.std.specs.Prelude.{◌≡◌, ◌≤◌, ◌<◌, length, IfOk};
ghost use Rattle.tam_graph.specs.Graphs.{code_of};
ghost use Rattle.tam_split.specs.Blocks.{block_graph};
ghost use Rattle.tam_split.specs.KeptParts.{IsSmallBlock};
ghost use Rattle.tam_split.specs.PartitionLaws.{IsBlockGraph};

use crate::Vertex;
use crate::gathering::{edges_among, vertices_in};
use std::alloc::Global;
use std::marker::Model;
use tam_edge::NoMemory;
use tam_graph::Accepted;

/// The graph of a block: its vertices, by node, an ask before its answer, and the edges between their places, both
/// places rising. An edge runs from the vertex that gives an operand's value to the vertex that takes it.
#[derive(Debug, Drop)]
pub struct BlockGraph {
    vertices: Vec<Vertex>,
    edges: Vec<(u32, u32)>,
}

impl Model for BlockGraph {
    ghost use Rattle.tam_split.specs.Blocks.{BlockGraph as BlockRecord};

    ghost Value = { BlockRecord };

    ghost use Rattle.tam_split.specs.KeptParts.{IsSmallBlock};

    ghost view = { λ b. record { vertices = b.vertices.items; edges = b.edges.items } };

    ghost invariant = { λ b. IsSmallBlock (record { vertices = b.vertices.items; edges = b.edges.items }) };
}

/// The graph of a block of a code.
pub fn split(alloc: Global, g: &Accepted, code: u32, block: u32) -> Result<BlockGraph, NoMemory>
    requires in_range { (code < length g.now.codes) × (block < length (code_of g.now code).owners) }
    ensures value { IfOk result (λ b. b ≡ block_graph (code_of g.now code) block) }
{
    let code = g.graph().code(code);
    let vertices = vertices_in(alloc, code, block)?;
    let edges = edges_among(alloc, code, &vertices)?;
    Ok(BlockGraph { vertices, edges })
}

impl BlockGraph {
    /// The graph of these vertices and edges.
    ///
    /// Edges that all go to higher places make no cycle: `specs/RisingEdges.antt`.
    pub fn of(vertices: Vec<Vertex>, edges: Vec<(u32, u32)>) -> BlockGraph
        requires block { IsSmallBlock (record { vertices = vertices.items; edges = edges.items }) }
        ensures value { result ≡ record { vertices = vertices.items; edges = edges.items } }
    {
        BlockGraph { vertices, edges }
    }

    pub fn vertices(&self) -> &[Vertex]
        ensures value { result.now ≡ self.now.vertices }
        ensures few { length self.now.vertices ≤ 512 }
        ensures block { IsBlockGraph self.now }
    {
        &self.vertices
    }

    pub fn edges(&self) -> &[(u32, u32)]
        ensures value { result.now ≡ self.now.edges }
        ensures block { IsBlockGraph self.now }
    {
        &self.edges
    }
}
