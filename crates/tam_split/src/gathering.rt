// The vertices of a block, and the edges among them.
ghost use Rattle.std.specs.Prelude.{ℕ, ◌≡◌, ◌≤◌, ◌++◌, length, IfOk, OnOk};
ghost use Rattle.tam_word.specs.Lists.{has};
ghost use Rattle.tam_split.specs.Blocks.{vertices_in, vertices_of, edges_among, is_ask, taken_by};
ghost use Rattle.tam_split.specs.Takers.{or_nothing, edges_to_takers, TakeTheSame};

use crate::kinds::{is_inlet, is_outlet, is_split, kind_at, operands_of};
use crate::{Half, Vertex};
use std::alloc::Global;
use tam_edge::NoMemory;
use tam_graph::{Code, Kind};

// The vertices of a block, by node, an ask before its answer.
pub(crate) fn vertices_in(alloc: Global, code: &Code, block: u32) -> Result<Vec<Vertex>, NoMemory>
    ensures value { IfOk result (λ vertices. vertices.items ≡ vertices_in code.now block) }
{
    let mut vertices = Vec::new(alloc);
    for (node, line) in code.nodes().iter().enumerate() {
        if line.block == block {
            push_vertices(&mut vertices, node as u32, line.kind)?;
        }
    }
    Ok(vertices)
}

// Adds the vertices of a node.
fn push_vertices(vertices: &mut Vec<Vertex>, node: u32, kind: Kind) -> Result<(), NoMemory>
    ensures ok { OnOk result (vertices.new.items ≡ vertices.old.items ++ vertices_of node kind) }
{
    if !is_split(kind) {
        let whole = Vertex {
            node,
            half: Half::Whole,
            inlet: is_inlet(kind),
            outlet: is_outlet(kind),
        };
        vertices.push(whole)?;
        return Ok(());
    }
    let ask = Vertex {
        node,
        half: Half::Ask,
        inlet: false,
        outlet: true,
    };
    let answer = Vertex {
        node,
        half: Half::Answer,
        inlet: true,
        outlet: false,
    };
    vertices.extend_from_slice(&[ask, answer])?;
    Ok(())
}

// The edges among the vertices, rising.
pub(crate) fn edges_among(
    alloc: Global,
    code: &Code,
    vertices: &[Vertex],
) -> Result<Vec<(u32, u32)>, NoMemory>
    requires few { length vertices.now ≤ 512 }
    ensures value { IfOk result (λ edges. edges.items ≡ edges_among code.now vertices.now) }
{
    let taken = taken_by_each(alloc, code, vertices)?;
    let mut edges = Vec::new(alloc);
    for (place, giver) in vertices.iter().enumerate() {
        if !is_ask(giver.half) {
            push_edges_from(&mut edges, &taken, place as u32, giver.node)?;
        }
    }
    Ok(edges)
}

// Whether such a vertex leaves its node's value to another.
fn is_ask(half: Half) -> bool
    ensures value { result ≡ is_ask half }
{
    matches!(half, Half::Ask)
}

// For each vertex what it takes.
fn taken_by_each(
    alloc: Global,
    code: &Code,
    vertices: &[Vertex],
) -> Result<Vec<Option<[u32; 3]>>, NoMemory>
    ensures same { IfOk result (λ taken. TakeTheSame code.now vertices.now taken.items) }
{
    let mut taken = Vec::new(alloc);
    for vertex in vertices {
        taken.push(taken_by(code, *vertex))?;
    }
    Ok(taken)
}

// The nodes whose values a vertex takes, the last named again where there are fewer than three.
fn taken_by(code: &Code, taker: Vertex) -> Option<[u32; 3]>
    ensures same { (x : ℕ) → has (or_nothing result) x ≡ has (taken_by code.now taker) x }
{
    match taker.half {
        Half::Answer => None,
        _ => operands_of(code, kind_at(code, taker.node)),
    }
}

// Adds the edges from a place to those whose vertices take the node's value.
fn push_edges_from(
    edges: &mut Vec<(u32, u32)>,
    taken: &[Option<[u32; 3]>],
    place: u32,
    node: u32,
) -> Result<(), NoMemory>
    requires few { length taken.now ≤ 512 }
    ensures value { OnOk result (edges.new.items ≡ edges.old.items ++ edges_to_takers taken.now place node) }
{
    for (taking, nodes) in taken.iter().enumerate() {
        if names(nodes, node) {
            edges.push((place, taking as u32))?;
        }
    }
    Ok(())
}

// Whether a node is one of these.
fn names(nodes: &Option<[u32; 3]>, node: u32) -> bool
    ensures value { result ≡ has (or_nothing nodes.now) node }
{
    match nodes {
        Some([first, second, third]) => *first == node || *second == node || *third == node,
        None => false,
    }
}
