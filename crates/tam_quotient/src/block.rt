// What the vertices of a block are, and in which classes they stand.
ghost use Rattle.std.specs.Prelude.{◌≡◌, ◌<◌, ◌≤◌, length, map, IfOk};
ghost use Rattle.tam_word.specs.Lists.{has};
ghost use Rattle.tam_split.specs.Blocks.{vertex_at, places};
ghost use Rattle.tam_split.specs.Partitions.{class_of, class_at};
ghost use Rattle.tam_split.specs.PartitionLaws.{IsPartition};

use std::alloc::Global;
use tam_edge::NoMemory;
use tam_split::{BlockGraph, Parts};

/// Whether the vertex at a place is an inlet.
pub(crate) fn is_inlet(b: &BlockGraph, place: u32) -> bool
    ensures value { result ≡ (vertex_at b.now place).inlet }
{
    match b.vertices().get(place as usize) {
        Some(vertex) => vertex.inlet,
        None => false,
    }
}

/// Whether the vertex at a place is an outlet.
pub(crate) fn is_outlet(b: &BlockGraph, place: u32) -> bool
    ensures value { result ≡ (vertex_at b.now place).outlet }
{
    match b.vertices().get(place as usize) {
        Some(vertex) => vertex.outlet,
        None => false,
    }
}

/// The number of the class of each place.
pub(crate) fn classes_of(alloc: Global, b: &BlockGraph, p: &Parts) -> Result<Vec<u32>, NoMemory>
    requires whole { IsPartition b.now p.now }
    ensures value { IfOk result (λ classes. classes.items ≡ map (class_of p.now) (places b.now)) }
    ensures few { length b.now.vertices ≤ 512 }
{
    let mut classes = Vec::new(alloc);
    for place in 0..b.vertices().len() as u32 {
        classes.push(class_of(p, place))?;
    }
    Ok(classes)
}

/// The number of the class of a place that stands in one.
pub(crate) fn class_of(p: &Parts, place: u32) -> u32
    requires there { class_of p.now place < length p.now }
    ensures value { result ≡ class_of p.now place }
    ensures small { result < 512 }
{
    for k in 0..p.classes() {
        if has(p.class(k), place) {
            return k;
        }
    }
    unreachable!()
}

// Whether a place is one of these.
fn has(places: &[u32], place: u32) -> bool
    ensures value { result ≡ has places.now place }
{
    places.contains(&place)
}
