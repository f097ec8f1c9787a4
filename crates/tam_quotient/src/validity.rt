// Whether a partition is valid.
ghost use Rattle.std.specs.Prelude.{◌≡◌, ◌<◌, length, map, slice_index_or};
ghost use Rattle.tam_word.specs.Lists.{below};
ghost use Rattle.tam_split.specs.Blocks.{places, dependences};
ghost use Rattle.tam_split.specs.PartitionLaws.{IsPartition};
ghost use Rattle.tam_split.specs.Partitions.{is_valid};
ghost use Rattle.tam_quotient.specs.Quotients.{closes_cycle, keeps_outlet};
ghost use Rattle.tam_quotient.specs.Joins.{ways_of};

use crate::Ways;
use crate::block::{class_of, is_outlet};
use tam_sets::Set;
use tam_split::{BlockGraph, Parts};

/// Whether a partition is valid, given the ways among its classes: no class leads back to itself through another, and for each outlet
/// the inlets whose classes lead to its class are those on which it depends.
pub fn is_valid(b: &BlockGraph, depends: &[Set], p: &Parts, ways: &[Ways]) -> bool
    requires whole { IsPartition b.now p.now }
    requires depends { depends.now ≡ map (dependences b.now) (places b.now) }
    requires ways { ways.now ≡ map (ways_of b.now p.now) (below (length p.now)) }
    ensures value { result ≡ is_valid b.now p.now }
{
    for edge in 0..b.edges().len() {
        if closes_cycle(b, p, ways, edge) {
            return false;
        }
    }
    for place in 0..b.vertices().len() as u32 {
        if !keeps(b, depends, p, ways, place) {
            return false;
        }
    }
    true
}

// Whether an edge runs between two classes of which the second leads to the first.
fn closes_cycle(b: &BlockGraph, p: &Parts, ways: &[Ways], edge: usize) -> bool
    requires whole { IsPartition b.now p.now }
    requires ways { ways.now ≡ map (ways_of b.now p.now) (below (length p.now)) }
    requires in_range { edge < length b.now.edges }
    ensures value { result ≡ closes_cycle b.now p.now (slice_index_or b.now.edges edge (0, 0)) }
{
    let (from, to) = b.edges()[edge];
    let start = class_of(p, from);
    let end = class_of(p, to);
    start != end && ways[end as usize].ahead.has(start)
}

// Whether the vertex is no outlet, or depends on each inlet whose class leads to its class. On any other inlet it doesn't depend, since
// an inlet that reaches it has a class that leads to its class.
fn keeps(b: &BlockGraph, depends: &[Set], p: &Parts, ways: &[Ways], place: u32) -> bool
    requires whole { IsPartition b.now p.now }
    requires depends { depends.now ≡ map (dependences b.now) (places b.now) }
    requires ways { ways.now ≡ map (ways_of b.now p.now) (below (length p.now)) }
    requires in_range { place < length b.now.vertices }
    ensures value { result ≡ keeps_outlet b.now p.now place }
{
    if !is_outlet(b, place) {
        return true;
    }
    let class = class_of(p, place);
    ways[class as usize]
        .entering
        .within(&depends[place as usize])
}
