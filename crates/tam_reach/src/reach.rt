// Sets of places spread over the edges of a block.
ghost use Rattle.std.specs.Prelude.{◌≡◌, ◌<◌, ◌≤◌, ◌==◌, IfOk, map, length, slice_index_or, []};
ghost use Rattle.tam_word.specs.Lists.{below};
ghost use Rattle.tam_sets.specs.Sets.{places_where, met};
ghost use Rattle.tam_split.specs.Blocks.{dependences, demands, places};
ghost use Rattle.tam_reach.specs.Reached.{spread_into, places_that};

use std::alloc::Global;
use tam_edge::NoMemory;
use tam_sets::Set;
use tam_split::{BlockGraph, Vertex};

/// For each vertex the inlets from which it can be reached, itself included where it is one.
pub fn depends(alloc: Global, b: &BlockGraph) -> Result<Vec<Set>, NoMemory>
    ensures value { IfOk result (λ sets. sets.items ≡ map (dependences b.now) (places b.now)) }
{
    let vertices = b.vertices();
    let edges = b.edges();
    let mut sets = each_alone(alloc, vertices.len() as u32)?;
    // With each edge, what reached its giver reaches all that its taker reached by the edges behind it.
    for place in (0..edges.len()).rev() {
        let (giver, taker) = edges[place];
        spread(&mut sets, taker, giver);
    }
    keep(&mut sets, &inlets(vertices));
    Ok(sets)
}

/// For each vertex the outlets that can be reached from it, itself included where it is one.
pub fn demands(alloc: Global, b: &BlockGraph) -> Result<Vec<Set>, NoMemory>
    ensures value { IfOk result (λ sets. sets.items ≡ map (demands b.now) (places b.now)) }
{
    let vertices = b.vertices();
    let edges = b.edges();
    let mut sets = each_alone(alloc, vertices.len() as u32)?;
    for place in (0..edges.len()).rev() {
        let (giver, taker) = edges[place];
        spread(&mut sets, giver, taker);
    }
    keep(&mut sets, &outlets(vertices));
    Ok(sets)
}

// For each place the set of it alone.
fn each_alone(alloc: Global, count: u32) -> Result<Vec<Set>, NoMemory>
    requires few { count ≤ 512 }
    ensures value { IfOk result (λ sets. sets.items ≡ map (λ y. places_where (λ x. x == y)) (below count)) }
{
    let mut sets = Vec::new(alloc);
    for place in 0..count {
        let mut alone = Set::empty();
        alone.insert(place);
        sets.push(alone)?;
    }
    Ok(sets)
}

// Gives each set that has the place `at` the members of the set at `from`.
fn spread(sets: &mut [Set], at: u32, from: u32)
    requires in_range { from < length sets.old }
    ensures value { sets.new ≡ map (spread_into at (slice_index_or sets.old from [])) sets.old }
{
    let more = sets[from as usize];
    for set in sets.iter_mut() {
        if set.has(at) {
            *set = set.join(&more);
        }
    }
}

// Takes out of each set what isn't in the other.
fn keep(sets: &mut [Set], other: &Set)
    ensures value { sets.new ≡ map (λ set. met set other.now) sets.old }
{
    for set in sets.iter_mut() {
        *set = set.meet(other);
    }
}

// The places of the inlets.
fn inlets(vertices: &[Vertex]) -> Set
    requires few { length vertices.now ≤ 512 }
    ensures value { result ≡ places_that (λ v. v.inlet) vertices.now }
{
    let mut inlets = Set::empty();
    for (place, vertex) in vertices.iter().enumerate() {
        if vertex.inlet {
            inlets.insert(place as u32);
        }
    }
    inlets
}

// The places of the outlets.
fn outlets(vertices: &[Vertex]) -> Set
    requires few { length vertices.now ≤ 512 }
    ensures value { result ≡ places_that (λ v. v.outlet) vertices.now }
{
    let mut outlets = Set::empty();
    for (place, vertex) in vertices.iter().enumerate() {
        if vertex.outlet {
            outlets.insert(place as u32);
        }
    }
    outlets
}
