// Blocks at random, cut into classes.
ghost use Rattle.std.specs.Prelude.{◌≤◌, ◌<◌};

use std::alloc::Global;
use tam_edge::NoMemory;
use tam_part::partition;
use tam_split::{BlockGraph, Half, Vertex};

/// The most vertices of a block.
pub const MOST_VERTICES: u32 = 512;

// Where the draws begin.
const SEED: u32 = 20;

// Of so many vertices one is an inlet and one an outlet.
const KINDS: u32 = 8;

/// How many classes so many blocks of so many vertices have, all together.
pub fn classes_of_blocks(alloc: Global, count: u32, vertices: u32) -> Result<u32, NoMemory>
    requires few { vertices ≤ 512 }
{
    let mut draws = Draws { state: SEED };
    let mut sum = 0_u32;
    for _ in 0..count {
        let block = random_block(alloc, &mut draws, vertices)?;
        sum = sum.wrapping_add(partition(alloc, &block)?.classes());
    }
    Ok(sum)
}

// Numbers that look random: a linear congruential generator.
#[derive(Drop)]
struct Draws {
    state: u32,
}

impl Draws {
    // One of the numbers below a limit. The low bits of the state have short periods.
    fn below(&mut self, limit: u32) -> u32
        requires some { 0 < limit }
        ensures small { result < limit }
    {
        self.state = self
            .state
            .wrapping_mul(1_664_525)
            .wrapping_add(1_013_904_223);
        (self.state >> 8) % limit
    }
}

// A block in which each vertex but the inlets takes the values of two before it.
fn random_block(alloc: Global, draws: &mut Draws, count: u32) -> Result<BlockGraph, NoMemory>
    requires few { count ≤ 512 }
{
    let mut vertices = Vec::new(alloc);
    let mut edges = Vec::new(alloc);
    for place in 0..count {
        let kind = draws.below(KINDS);
        vertices.push(vertex(place, kind))?;
        if kind != 0 && place > 0 {
            let (one, other) = (draws.below(place), draws.below(place));
            edges.extend_from_slice(&[(one, place), (other, place)])?;
        }
    }
    Ok(BlockGraph::of(vertices, edges))
}

// A vertex for a node of its own.
fn vertex(node: u32, kind: u32) -> Vertex {
    Vertex {
        node,
        half: Half::Whole,
        inlet: kind == 0,
        outlet: kind == 1,
    }
}
