// How the classes of a block and their vertices follow one another.
ghost use Rattle.std.specs.Prelude.{ℕ, ◌≡◌, ◌<◌, ◌≤◌, true, map, length, IfOk};
ghost use Rattle.tam_word.specs.Lists.{below, has};
ghost use Rattle.tam_split.specs.Blocks.{places};
ghost use Rattle.tam_split.specs.Partitions.{class_of};
ghost use Rattle.tam_split.specs.PartitionLaws.{IsPartition};
ghost use Rattle.tam_order.specs.ClassOrders.{behind_of};
ghost use Rattle.tl0_keep.specs.Compiled.{waits_for, inlets_in};
ghost use Rattle.tl0_emit.specs.BlockFlows.{IsFlowOf};

use std::alloc::Global;
use tam_edge::NoMemory;
use tam_order::{classes_behind, number_before, preceding};
use tam_sets::Set;
use tam_split::{BlockGraph, Parts};

/// How the classes of a block and their vertices follow one another.
#[derive(Drop)]
pub(crate) struct BlockFlow {
    /// For each class the classes directly behind it.
    pub behind: Vec<Set>,
    /// For how many inlets and classes each class waits.
    pub waits: Vec<u32>,
    /// For each place of the block the places with an edge to it.
    pub preceding: Vec<Set>,
}

// The tables of a block with its partition, given the number of the class of each place.
pub(crate) fn flow_of(
    alloc: Global,
    b: &BlockGraph,
    p: &Parts,
    numbers: &[u32],
) -> Result<BlockFlow, NoMemory>
    requires whole { IsPartition b.now p.now }
    requires numbers { numbers.now ≡ map (class_of p.now) (places b.now) }
    ensures value { IfOk result (IsFlowOf b.now p.now) }
{
    let behind = classes_behind(alloc, b, p, numbers)?;
    let waits = waits_of(alloc, b, p, &behind)?;
    let preceding = preceding(alloc, b)?;
    Ok(BlockFlow {
        behind,
        waits,
        preceding,
    })
}

// For how many inlets and classes each class waits, given for each class the classes directly behind it.
fn waits_of(alloc: Global, b: &BlockGraph, p: &Parts, behind: &[Set]) -> Result<Vec<u32>, NoMemory>
    requires whole { IsPartition b.now p.now }
    requires behind { behind.now ≡ map (behind_of b.now.edges p.now) (below (length p.now)) }
    ensures value { IfOk result (λ waits. waits.items ≡ map (waits_for b.now p.now) (below (length p.now))) }
{
    let mut waits = Vec::new(alloc);
    for k in 0..p.classes() {
        waits.push(inlets_in(b, p.class(k)) + number_before(behind, k))?;
    }
    Ok(waits)
}

// How many inlets a class has.
fn inlets_in(b: &BlockGraph, class: &[u32]) -> u32
    requires inside { (x : ℕ) → has class.now x ≡ true → x < length b.now.vertices }
    requires few { length class.now ≤ 512 }
    ensures value { result ≡ inlets_in b.now class.now }
{
    let mut count = 0;
    for place in class {
        if b.vertices()[*place as usize].inlet {
            count += 1;
        }
    }
    count
}
